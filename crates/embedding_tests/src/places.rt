//! A refusal contains the place where a module is at fault, and so does its text.

use crate::commands::{Answer, Step, all_are_so};
use Answer::{Done, Number, Refused};
use Step::{Link, Load, LoadBytes, Register};
use embed::{Place, Refusal};
use std::alloc::Global;

// Steps in a row, in a fresh embedding.
struct Row {
    name: &'static str,
    steps: &'static [Step],
}

// A type of functions that begins with another byte than 0x60.
const NO_TYPE: [u8; 12] = [
    0x00, 0x61, 0x73, 0x6D, 0x01, 0x00, 0x00, 0x00, 0x01, 0x02, 0x01, 0x61,
];

// A parameter of type f32.
const FLOAT_PARAMETER: [u8; 15] = [
    0x00, 0x61, 0x73, 0x6D, 0x01, 0x00, 0x00, 0x00, 0x01, 0x05, 0x01, 0x60, 0x01, 0x7D, 0x00,
];

// A function with the instruction f32.add.
const FLOAT_SUM: [u8; 25] = [
    0x00, 0x61, 0x73, 0x6D, 0x01, 0x00, 0x00, 0x00, 0x01, 0x04, 0x01, 0x60, 0x00, 0x00, 0x03, 0x02,
    0x01, 0x00, 0x0A, 0x05, 0x01, 0x03, 0x00, 0x92, 0x0B,
];

const ONE: &str = "(func (result i32) i32.const 1) (export \"f\" (func 0))";

#[rattlefmt::skip]
static ROWS: [Row; 10] = [
    Row { name: "a malformed byte", steps: &[LoadBytes(&NO_TYPE, Refused(Refusal::Malformed(11)))] },
    Row { name: "an unsupported type", steps: &[LoadBytes(&FLOAT_PARAMETER, Refused(Refusal::Unsupported(13)))] },
    Row { name: "an unsupported instruction", steps: &[LoadBytes(&FLOAT_SUM, Refused(Refusal::Unsupported(23)))] },
    Row { name: "an invalid function", steps: &[
        Load("(func) (func (result i32) i64.const 1)", Refused(Refusal::Invalid(Place::Func(1)))),
    ] },
    Row { name: "an invalid section", steps: &[
        Load("(func) (global i32 i64.const 1)", Refused(Refusal::Invalid(Place::Section(6)))),
    ] },
    Row { name: "an unknown import", steps: &[
        Load(ONE, Number(0)), Link(0, Number(0)), Register(0, "m", Done),
        Load("(import \"m\" \"f\" (func (result i32))) (import \"m\" \"missing\" (func (result i32)))", Number(1)),
        Link(1, Refused(Refusal::UnknownImport(1))),
    ] },
    Row { name: "an import of another type", steps: &[
        Load(ONE, Number(0)), Link(0, Number(0)), Register(0, "m", Done),
        Load("(import \"m\" \"f\" (func (result i32))) (import \"m\" \"f\" (func (result i64)))", Number(1)),
        Link(1, Refused(Refusal::IncompatibleImport(1))),
    ] },
    Row { name: "two unknown imports", steps: &[
        Load(ONE, Number(0)), Link(0, Number(0)), Register(0, "m", Done),
        Load("(import \"m\" \"f\" (func (result i32))) (import \"m\" \"missing\" (func)) (import \"n\" \"f\" (func))", Number(1)),
        Link(1, Refused(Refusal::UnknownImport(1))),
    ] },
    Row { name: "two imports of other types", steps: &[
        Load(ONE, Number(0)), Link(0, Number(0)), Register(0, "m", Done),
        Load("(import \"m\" \"f\" (func (result i32))) (import \"m\" \"f\" (func (result i64))) (import \"m\" \"f\" (global i32))", Number(1)),
        Link(1, Refused(Refusal::IncompatibleImport(1))),
    ] },
    Row { name: "an import of another type before an unknown one", steps: &[
        Load(ONE, Number(0)), Link(0, Number(0)), Register(0, "m", Done),
        Load("(import \"m\" \"f\" (func (result i64))) (import \"m\" \"missing\" (func))", Number(1)),
        Link(1, Refused(Refusal::UnknownImport(1))),
    ] },
];

#[rattlefmt::skip]
static TEXTS: [(Refusal, &str); 14] = [
    (Refusal::Malformed(11), "malformed module at byte 11"),
    (Refusal::Unsupported(23), "unsupported feature at byte 23"),
    (Refusal::Limit, "a limit is passed"),
    (Refusal::Invalid(Place::Func(1)), "invalid module in function 1"),
    (Refusal::Invalid(Place::Section(6)), "invalid module in section 6"),
    (Refusal::UnknownModule, "there is no module of the number"),
    (Refusal::UnknownImport(1), "import 1 is unknown"),
    (Refusal::IncompatibleImport(1), "import 1 is of another type"),
    (Refusal::UnknownInstance, "there is no instance of the number"),
    (Refusal::UnknownExport, "nothing is exported under the name"),
    (Refusal::WrongKind, "the export is of another kind"),
    (Refusal::BadArguments, "the arguments are not those of the function"),
    (Refusal::NameTaken, "a host function has the name"),
    (Refusal::OutOfMemory, "out of memory"),
];

#[test]
fn refusals_tell_where(rt: HostRuntime) {
    for row in &ROWS {
        assert!(rt; all_are_so(rt.alloc(), row.steps), "{}", row.name);
    }
}

// Returns whether a refusal has this text.
fn reads(alloc: Global, refusal: Refusal, text: &str) -> bool {
    match format!(in alloc; "{refusal}") {
        Ok(written) => written.as_str() == text,
        Err(_) => false,
    }
}

#[test]
fn refusals_have_texts(rt: HostRuntime) {
    for (refusal, text) in &TEXTS {
        assert!(rt; reads(rt.alloc(), *refusal, text), "{text}");
    }
}
