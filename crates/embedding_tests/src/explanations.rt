//! Why commands are refused, in the texts of `Embedding::explain`.

use crate::commands::{Answer, Step, fresh_embedding, steps_hold};
use crate::hosts::steps_hold_with;
use crate::kinds::Kind;
use Answer::{Done, Number, Refused};
use Step::{Call, Explained, GetGlobal, Link, Load, LoadBytes, Register};
use core_types::Val;
use embed::{
    Command, Embedding, ModuleNumber, Place, Refusal, Reply, explain_load, explain_module,
};
use std::alloc::{AllocError, Global};
use testing::{assemble, bytes_of};

// Returns whether bytes are refused in these words, for this reason.
fn is_reason(alloc: Global, bytes: &[u8], words: &str, reason: &str) -> Result<bool, AllocError> {
    let text = format!(in alloc; "{words}: {reason}")?;
    Ok(explain_module(alloc, bytes)?.as_str() == text.as_str())
}

/// Returns whether the bytes of a text in hexadecimal are refused in these words, for this reason.
pub fn is_explained(alloc: Global, hexadecimal: &str, words: &str, reason: &str) -> bool {
    match bytes_of(alloc, hexadecimal) {
        Ok(bytes) => is_reason(alloc, bytes.as_slice(), words, reason) == Ok(true),
        Err(_) => false,
    }
}

/// Returns whether the module of a text is not valid for this reason.
pub fn text_is_explained(alloc: Global, text: &str, reason: &str) -> bool {
    match assemble(alloc, text) {
        Ok(bytes) => is_reason(alloc, bytes.as_slice(), "invalid module", reason) == Ok(true),
        Err(_) => false,
    }
}

// Returns the command of a step, if it is one.
fn command_of(alloc: Global, step: &Step) -> Result<Option<Command>, AllocError> {
    match step {
        LoadBytes(bytes, _) => Ok(Some(Command::Load(Vec::from_slice(alloc, bytes)?))),
        Load(text, _) => Ok(assemble(alloc, text).ok().map(Command::Load)),
        Link(number, _) => Ok(Some(Command::Link(*number))),
        Register(number, name, _) => {
            Ok(Some(Command::Register(*number, String::from_str(alloc, name)?)))
        }
        Call(number, name, args, _) => Ok(Some(Command::Call(
            *number,
            String::from_str(alloc, name)?,
            Vec::from_slice(alloc, args)?,
        ))),
        GetGlobal(number, name, _) => {
            Ok(Some(Command::GetGlobal(*number, String::from_str(alloc, name)?)))
        }
        _ => Ok(None),
    }
}

// Returns the refusal that a step expects, if it expects one.
fn refusal_of(step: &Step) -> Option<Refusal> {
    match step {
        LoadBytes(_, Refused(refusal)) | Load(_, Refused(refusal)) => Some(*refusal),
        Link(_, Refused(refusal)) | Register(_, _, Refused(refusal)) => Some(*refusal),
        Call(_, _, _, Refused(refusal)) | GetGlobal(_, _, Refused(refusal)) => Some(*refusal),
        _ => None,
    }
}

/// Returns whether a step is refused as it says, and explained with this text.
pub fn step_is_explained(
    alloc: Global,
    at: &mut Embedding,
    step: &Step,
    text: &str,
) -> Result<bool, AllocError> {
    let (Some(command), Some(wanted)) = (command_of(alloc, step)?, refusal_of(step)) else {
        return Ok(false);
    };
    match at.apply(&command) {
        Reply::Refused(refusal) if refusal == wanted => {
            Ok(at.explain(alloc, &command, refusal)?.as_str() == text)
        }
        _ => Ok(false),
    }
}

// Steps in a row, in a fresh embedding with host functions.
struct Row {
    name: &'static str,
    steps: &'static [Step],
}

static HOSTS: [(&str, Kind); 2] = [("count", Kind::Counts), ("swap", Kind::Swaps)];

// Exports two functions, a memory, a table and a global.
const FIVE: &str =
    "(func (param i32 i64) (result i32) local.get 0) (memory 1 3) (table 2 funcref) (global (mut i64) i64.const 5) (func (param funcref)) \
    (export \"f\" (func 0)) (export \"u\" (memory 0)) (export \"t\" (table 0)) (export \"g\" (global 0)) (export \"r\" (func 1))";

// Exports a function under nine names.
const NINE: &str =
    "(func) (export \"a\" (func 0)) (export \"b\" (func 0)) (export \"c\" (func 0)) (export \"d\" (func 0)) (export \"e\" (func 0)) \
    (export \"f\" (func 0)) (export \"g\" (func 0)) (export \"h\" (func 0)) (export \"i\" (func 0))";

const UNKNOWN: Answer = Refused(Refusal::UnknownImport(0));

const INCOMPATIBLE: Answer = Refused(Refusal::IncompatibleImport(0));

#[rattlefmt::skip]
static LINKS: [Row; 14] = [
    Row { name: "nothing has the name of the module", steps: &[
        Load("(import \"env\" \"f\" (func (param i32) (result i32)))", Number(0)),
        Explained(&Link(0, UNKNOWN), "unknown import \"env\" \"f\" (import 0, function (i32) -> (i32)): there is no \"env\""),
    ] },
    Row { name: "an unknown global, and host functions", steps: &[
        Load("(import \"host\" \"g\" (global i32))", Number(0)),
        Explained(&Link(0, UNKNOWN), "unknown import \"host\" \"g\" (import 0, global i32): \"host\" has \"count\", \"swap\""),
    ] },
    Row { name: "an unknown table, and an instance", steps: &[
        Load(FIVE, Number(0)), Link(0, Number(0)), Register(0, "m", Done), Load("(import \"m\" \"x\" (table 1 2 externref))", Number(1)),
        Explained(&Link(1, UNKNOWN),
            "unknown import \"m\" \"x\" (import 0, table of externref (minimum 1, maximum 2)): \"m\" has \"f\", \"u\", \"t\", \"g\", \"r\""),
    ] },
    Row { name: "an unknown memory, and many names", steps: &[
        Load(NINE, Number(0)), Link(0, Number(0)), Register(0, "m", Done), Load("(import \"m\" \"x\" (memory 1))", Number(1)),
        Explained(&Link(1, UNKNOWN),
            "unknown import \"m\" \"x\" (import 0, memory (minimum 1)): \"m\" has \"a\", \"b\", \"c\", \"d\", \"e\", \"f\", \"g\", \"h\", and others"),
    ] },
    Row { name: "the second import is unknown", steps: &[
        Load("(import \"host\" \"count\" (func (result i32))) (import \"host\" \"\" (global (mut i64)))", Number(0)),
        Explained(&Link(0, Refused(Refusal::UnknownImport(1))),
            "unknown import \"host\" \"\" (import 1, mutable global i64): \"host\" has \"count\", \"swap\""),
    ] },
    Row { name: "a host function of another type", steps: &[
        Load("(import \"host\" \"swap\" (func (param i32)))", Number(0)),
        Explained(&Link(0, INCOMPATIBLE),
            "incompatible import \"host\" \"swap\" (import 0): expected function (i32) -> (), found function (i32 i64) -> (i64 i32)"),
    ] },
    Row { name: "a host function in place of a memory", steps: &[
        Load("(import \"host\" \"count\" (memory 2 5))", Number(0)),
        Explained(&Link(0, INCOMPATIBLE),
            "incompatible import \"host\" \"count\" (import 0): expected memory (minimum 2, maximum 5), found function () -> (i32)"),
    ] },
    Row { name: "a memory that is too small", steps: &[
        Load(FIVE, Number(0)), Link(0, Number(0)), Register(0, "m", Done), Load("(import \"m\" \"u\" (memory 2))", Number(1)),
        Explained(&Link(1, INCOMPATIBLE),
            "incompatible import \"m\" \"u\" (import 0): expected memory (minimum 2), found memory (minimum 1, maximum 3)"),
    ] },
    Row { name: "a table of other references", steps: &[
        Load(FIVE, Number(0)), Link(0, Number(0)), Register(0, "m", Done), Load("(import \"m\" \"t\" (table 2 externref))", Number(1)),
        Explained(&Link(1, INCOMPATIBLE),
            "incompatible import \"m\" \"t\" (import 0): expected table of externref (minimum 2), found table of funcref (minimum 2)"),
    ] },
    Row { name: "a global that is mutable", steps: &[
        Load(FIVE, Number(0)), Link(0, Number(0)), Register(0, "m", Done), Load("(import \"m\" \"g\" (global i64))", Number(1)),
        Explained(&Link(1, INCOMPATIBLE), "incompatible import \"m\" \"g\" (import 0): expected global i64, found mutable global i64"),
    ] },
    Row { name: "a memory of too many pages", steps: &[
        Load("(memory 1025)", Number(0)),
        Explained(&Link(0, Refused(Refusal::Limit)), "memory 0 has 1025 pages, and at most 1024 are allowed"),
    ] },
    Row { name: "a table of too many entries", steps: &[
        Load("(table 1 funcref) (table 1000001 funcref)", Number(0)),
        Explained(&Link(0, Refused(Refusal::Limit)), "table 1 has 1000001 entries, and at most 1000000 are allowed"),
    ] },
    Row { name: "no module", steps: &[
        Explained(&Link(3, Refused(Refusal::UnknownModule)), "there is no module of the number"),
    ] },
    Row { name: "a name of the host", steps: &[
        Load("(func)", Number(0)), Link(0, Number(0)),
        Explained(&Register(0, "host", Refused(Refusal::NameTaken)), "a host function has the name"),
    ] },
];

const NO_EXPORT: Answer = Refused(Refusal::UnknownExport);

const WRONG_KIND: Answer = Refused(Refusal::WrongKind);

const BAD_ARGUMENTS: Answer = Refused(Refusal::BadArguments);

#[rattlefmt::skip]
static CALLS: [Row; 11] = [
    Row { name: "an argument of another type", steps: &[
        Load(FIVE, Number(0)), Link(0, Number(0)),
        Explained(&Call(0, "f", &[Val::I32(1), Val::I32(2)], BAD_ARGUMENTS), "argument 1: expected i64, found i32"),
    ] },
    Row { name: "a reference in place of a number", steps: &[
        Load(FIVE, Number(0)), Link(0, Number(0)),
        Explained(&Call(0, "f", &[Val::ExternRef(None), Val::I64(2)], BAD_ARGUMENTS), "argument 0: expected i32, found externref"),
    ] },
    Row { name: "too few arguments", steps: &[
        Load(FIVE, Number(0)), Link(0, Number(0)),
        Explained(&Call(0, "f", &[Val::I64(1)], BAD_ARGUMENTS), "number of arguments: expected 2, found 1"),
    ] },
    Row { name: "a function that does not exist", steps: &[
        Load(FIVE, Number(0)), Link(0, Number(0)),
        Explained(&Call(0, "r", &[Val::FuncRef(Some(9))], BAD_ARGUMENTS), "argument 0: there is no function 9"),
    ] },
    Row { name: "nothing is exported under the name", steps: &[
        Load(FIVE, Number(0)), Link(0, Number(0)),
        Explained(&Call(0, "x", &[], NO_EXPORT),
            "no export \"x\": the exports are \"f\" (function), \"u\" (memory), \"t\" (table), \"g\" (global), \"r\" (function)"),
    ] },
    Row { name: "a memory is called", steps: &[
        Load("(memory 1) (export \"u\" (memory 0))", Number(0)), Link(0, Number(0)),
        Explained(&Call(0, "u", &[], WRONG_KIND), "export \"u\" is a memory: the exports are \"u\" (memory)"),
    ] },
    Row { name: "a function is read", steps: &[
        Load("(func) (export \"f\" (func 0))", Number(0)), Link(0, Number(0)),
        Explained(&GetGlobal(0, "f", WRONG_KIND), "export \"f\" is a function: the exports are \"f\" (function)"),
    ] },
    Row { name: "nothing is exported", steps: &[
        Load("(func)", Number(0)), Link(0, Number(0)),
        Explained(&GetGlobal(0, "g", NO_EXPORT), "no export \"g\": there are no exports"),
    ] },
    Row { name: "more exports than are listed", steps: &[
        Load(NINE, Number(0)), Link(0, Number(0)),
        Explained(&GetGlobal(0, "g", WRONG_KIND),
            "export \"g\" is a function: the exports are \"a\" (function), \"b\" (function), \"c\" (function), \"d\" (function), \"e\" (function), \
            \"f\" (function), \"g\" (function), \"h\" (function), and others"),
    ] },
    Row { name: "no instance", steps: &[
        Explained(&Call(7, "f", &[], Refused(Refusal::UnknownInstance)), "there is no instance of the number"),
    ] },
    Row { name: "an instance is registered that does not exist", steps: &[
        Explained(&Register(7, "m", Refused(Refusal::UnknownInstance)), "there is no instance of the number"),
    ] },
];

#[rattlefmt::skip]
static LOADS: [Row; 4] = [
    Row { name: "an invalid body", steps: &[
        Explained(&Load("(func (export \"parse\") i32.add drop)", Refused(Refusal::Invalid(Place::Func(0)))),
            "invalid module: type mismatch in function 0 (\"parse\"), operation 0 at offset 0x22: i32.add expects i32, found nothing"),
    ] },
    Row { name: "an invalid section", steps: &[
        Explained(&Load("(global i32 i64.const 0)", Refused(Refusal::Invalid(Place::Section(6)))),
            "invalid module: global 0: initializer has type i64, expected i32"),
    ] },
    Row { name: "malformed bytes", steps: &[
        Explained(&LoadBytes(&[0x00, 0x61, 0x73, 0x6D, 0x02, 0x00, 0x00, 0x00], Refused(Refusal::Malformed(4))),
            "malformed module: the version is not 1, at offset 0x4"),
    ] },
    Row { name: "an unsupported type", steps: &[
        Explained(&LoadBytes(&[0x00, 0x61, 0x73, 0x6D, 0x01, 0x00, 0x00, 0x00, 0x01, 0x05, 0x01, 0x60, 0x01, 0x7D, 0x00],
            Refused(Refusal::Unsupported(13))), "unsupported feature: f32 (floating point) in type 0, at offset 0xd"),
    ] },
];

// Returns whether a row holds in a fresh embedding with two host functions under `host`.
fn is_so(alloc: Global, row: &Row) -> bool {
    steps_hold_with(alloc, &HOSTS, 1_024, None, row.steps) == Ok(true)
}

#[test]
fn refused_links_are_explained(rt: HostRuntime) {
    for row in &LINKS {
        assert!(rt; is_so(rt.alloc(), row), "{}", row.name);
    }
}

#[test]
fn refused_calls_are_explained(rt: HostRuntime) {
    for row in &CALLS {
        assert!(rt; is_so(rt.alloc(), row), "{}", row.name);
    }
}

#[test]
fn refused_loads_are_explained(rt: HostRuntime) {
    for row in &LOADS {
        assert!(rt; is_so(rt.alloc(), row), "{}", row.name);
    }
}

#[test]
fn valid_modules_are_not_refused(rt: HostRuntime) {
    let text = explain_module(
        rt.alloc(),
        &[0x00, 0x61, 0x73, 0x6D, 0x01, 0x00, 0x00, 0x00],
    );
    assert!(rt; matches!(&text, Ok(text) if text.as_str() == "the module is valid"));
}

// Steps after which module 1 links.
static LINKS_WELL: [Step; 4] = [
    Load(
        "(func (result i32) i32.const 1) (export \"f\" (func 0))",
        Number(0),
    ),
    Link(0, Number(0)),
    Register(0, "m", Done),
    Load("(import \"m\" \"f\" (func (result i32)))", Number(1)),
];

// Refusals that this link does not have, each with the short text for it.
static NOT_OF_THE_LINK: [(Refusal, &str); 4] = [
    (Refusal::UnknownImport(0), "import 0 is unknown"),
    (
        Refusal::IncompatibleImport(0),
        "import 0 is of another type",
    ),
    (
        Refusal::IncompatibleImport(7),
        "import 7 is of another type",
    ),
    (Refusal::Limit, "a limit is passed"),
];

// A refusal that a load does not have, and the short text for it.
static OTHERS: [(Refusal, &str); 3] = [
    (Refusal::Malformed(5), "malformed module at byte 5"),
    (
        Refusal::Invalid(Place::Func(3)),
        "invalid module in function 3",
    ),
    (Refusal::Limit, "a limit is passed"),
];

// Returns whether the text for an empty module and a refusal that it does not have is this one.
fn is_short(alloc: Global, refusal: Refusal, text: &str) -> bool {
    let bytes = [0x00, 0x61, 0x73, 0x6D, 0x01, 0x00, 0x00, 0x00];
    match explain_load(alloc, &bytes, refusal) {
        Ok(found) => found.as_str() == text,
        Err(_) => false,
    }
}

// Returns whether the text for a refusal that a link does not have is this one.
fn is_short_for_link(alloc: Global, refusal: Refusal, text: &str) -> bool {
    let Some(mut at) = fresh_embedding(alloc) else {
        return false;
    };
    if !steps_hold(alloc, &mut at, &LINKS_WELL) {
        return false;
    }
    match at.explain_link(alloc, ModuleNumber(1), refusal) {
        Ok(found) => found.as_str() == text,
        Err(_) => false,
    }
}

#[test]
fn other_refusals_of_links_have_short_texts(rt: HostRuntime) {
    for (refusal, text) in &NOT_OF_THE_LINK {
        assert!(rt; is_short_for_link(rt.alloc(), *refusal, text), "{text}");
    }
}

#[test]
fn other_refusals_have_short_texts(rt: HostRuntime) {
    for (refusal, text) in &OTHERS {
        assert!(rt; is_short(rt.alloc(), *refusal, text), "{text}");
    }
}
