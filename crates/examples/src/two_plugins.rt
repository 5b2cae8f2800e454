//! A host of two plug-ins that share nothing: what one does to its memory never changes a reply of the other.

ghost use Rattle.embed.specs.Contents.{embedding_of};
ghost use Rattle.examples.specs.Strangers.{AreStrangers};

use crate::fault::Fault;
use crate::outcomes::print_outcome;
use crate::strangers::{call_plugin, link_plugin, load_plugin, new_embedding, set_fuel};
use embed::{Config, Embedding, InstanceNumber, LinkOutcome, NewFault};
use hostfunc::HostFn;
use std::alloc::Global;
use std::io::{self, Write};

// The fuel of each call.
const FUEL: u64 = 10_000;

// Loads and links the plug-in that the bytes encode.
fn link(embedding: &mut Embedding, bytes: &[u8]) -> Result<InstanceNumber, Fault>
    requires strangers { AreStrangers ⟦<dyn HostFn as HostFn>⟧ (embedding_of embedding.old) }
    ensures strangers { AreStrangers ⟦<dyn HostFn as HostFn>⟧ (embedding_of embedding.new) }
{
    let loaded = load_plugin(embedding, bytes)?;
    match link_plugin(embedding, loaded)? {
        LinkOutcome::Linked(plugin) => Ok(plugin),
        LinkOutcome::Trap(_) | LinkOutcome::Exhausted(_) => Err(Fault::Start),
    }
}

// Calls an export of a plug-in, and prints how the call ended.
fn call<W: Write>(
    embedding: &mut Embedding,
    plugin: InstanceNumber,
    name: &str,
    export: &str,
    out: &mut W,
) -> io::Result<()>
    requires strangers { AreStrangers ⟦<dyn HostFn as HostFn>⟧ (embedding_of embedding.old) }
    ensures strangers { AreStrangers ⟦<dyn HostFn as HostFn>⟧ (embedding_of embedding.new) }
{
    set_fuel(embedding, FUEL);
    let outcome = call_plugin(embedding, plugin, export);
    write!(out, "{name}, {export}: ")?;
    print_outcome(out, &outcome)
}

// Links a writer and a reader, and calls the reader before and after the writer fills its memory.
fn run<W: Write>(
    embedding: &mut Embedding,
    writer: &[u8],
    reader: &[u8],
    out: &mut W,
) -> Result<(), Fault>
    requires strangers { AreStrangers ⟦<dyn HostFn as HostFn>⟧ (embedding_of embedding.old) }
{
    let writer = link(embedding, writer)?;
    let reader = link(embedding, reader)?;
    call(embedding, reader, "reader", "first", out)?;
    call(embedding, writer, "writer", "fill", out)?;
    call(embedding, writer, "writer", "first", out)?;
    call(embedding, reader, "reader", "first", out)?;
    Ok(())
}

/// Runs the plug-ins that the bytes encode in a new embedding.
pub fn run_plugins<W: Write>(
    alloc: Global,
    writer: &[u8],
    reader: &[u8],
    out: &mut W,
) -> Result<(), Fault> {
    let config = Config::new(FUEL, 16, 16, 100).ok_or(NewFault::OutOfMemory)?;
    match new_embedding(alloc, config) {
        Ok(mut embedding) => run(&mut embedding, writer, reader, out),
        Err(fault) => Err(Fault::New(fault)),
    }
}
