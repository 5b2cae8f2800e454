//! A plug-in host: it calls the exports of a plug-in, each with its own fuel, and provides two host functions.
#![tactic(auto)]

use embed::{
    Config, Embedding, HostDef, InstanceNumber, LinkOutcome, Outcome, Rc, Refusal, Val, ValType,
    func_type,
};
use plugin_functions::{Counter, Writer};
use std::cell::RefCell;
use std::io::{self, Write};

// The exports to call, with their arguments.
static CALLS: [(&str, &[Val]); 6] = [
    ("greet", &[]),
    ("greet", &[]),
    ("divide", &[Val::I32(1), Val::I32(0)]),
    ("write_outside", &[]),
    ("spin", &[]),
    ("nosuch", &[]),
];

// Loads and links the plug-in that the bytes encode.
fn link(embedding: &mut Embedding, bytes: &[u8]) -> Result<LinkOutcome, Refusal> {
    let loaded = embedding.load(bytes)?;
    embedding.link(loaded)
}

// Calls the exports of a plug-in, and prints how each call ended.
fn call_exports<W: Write>(
    embedding: &mut Embedding,
    plugin: InstanceNumber,
    out: &mut W,
) -> io::Result<()> {
    for (export, args) in &CALLS {
        embedding.set_fuel(1_000);
        match embedding.call(plugin, export, args) {
            Ok(Outcome::Values(values)) => writeln!(out, "{export}: {values:?}")?,
            Ok(Outcome::Trap(trap)) => writeln!(out, "{export}: {trap}")?,
            Ok(Outcome::Exhausted(what)) => writeln!(out, "{export}: out of {what}")?,
            Err(refusal) => writeln!(out, "{export}: {refusal}")?,
        }
    }
    Ok(())
}

// Runs the plug-in that the bytes encode.
fn run<W: Write>(embedding: &mut Embedding, bytes: &[u8], out: &mut W) -> io::Result<()> {
    match link(embedding, bytes) {
        Ok(LinkOutcome::Linked(plugin)) => call_exports(embedding, plugin, out),
        Ok(ended) => writeln!(out, "the plug-in does not start: {ended:?}"),
        Err(refusal) => writeln!(out, "the plug-in is refused: {refusal}"),
    }
}

// Runs the plug-in in the file, with host functions. One of them writes to this text.
fn run_file(rt: &HostRuntime, text: Rc<RefCell<Vec<u8>>>) -> io::Result<()> {
    let alloc = rt.alloc();
    let (calls, ty) = (0, func_type(alloc, &[], &[ValType::I32])?);
    let count = Box::new(alloc, Counter { alloc, calls, ty })?;
    let ty = func_type(alloc, &[ValType::I32, ValType::I32], &[])?;
    let write = Box::new(alloc, Writer { alloc, text, ty })?;
    let count = HostDef::new(alloc, "host", "count", count)?;
    let write = HostDef::new(alloc, "host", "write", write)?;
    let config = Config::new(1_000, 100, 16, 100).ok_or(io::Error::other("no setup"))?;
    let bytes = std::fs::read(rt, "plugin.wasm")?;
    match Embedding::new(alloc, config, vec![in alloc; count, write]?) {
        Ok(mut embedding) => run(&mut embedding, bytes.as_slice(), &mut rt.stdout()),
        Err(fault) => println!(rt; "{fault}"),
    }
}

fn main(rt: HostRuntime) -> io::Result<()> {
    let text = Rc::new(rt.alloc(), RefCell::new(Vec::new(rt.alloc())))?;
    run_file(&rt, Rc::clone(&text)?)?;
    if let Ok(text) = text.try_borrow() {
        rt.stdout().write_all(text.as_slice())?;
    }
    Ok(())
}
