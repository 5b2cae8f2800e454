//! Constant expressions of several instructions: first values of globals, and offsets of segments.

use crate::commands::{Answer, Step, all_are_so};
use Answer::{Done, Number, Refused, Trapped, Values};
use Step::{Call, GetGlobal, Left, Link, Load, Register, SetFuel};
use core_types::{Trap, Val};
use embed::{Place, Refusal};

// Steps in a row, in a fresh embedding.
struct Row {
    name: &'static str,
    steps: &'static [Step],
}

const GLOBAL: &str = "(global i32 i32.const 666) (export \"global_i32\" (global 0))";

// A function in the second entry of a table. The offset is an imported global plus one.
const SECOND_ENTRY: &str =
    "(type (func (result i32))) (import \"spectest\" \"one\" (global i32)) (table 3 funcref) (func (result i32) i32.const 42) \
    (func (param i32) (result i32) local.get 0 call_indirect (type 0)) \
    (elem (offset global.get 0 i32.const 1 i32.add) funcref (item ref.func 0)) (export \"call\" (func 1))";

// First values of globals.
#[rattlefmt::skip]
static GLOBALS: [Row; 5] = [
    Row { name: "a product", steps: &[
        Load("(global i32 i32.const 6 i32.const 7 i32.mul) (export \"g\" (global 0))", Number(0)), Link(0, Number(0)),
        GetGlobal(0, "g", Values(&[Val::I32(42)])),
    ] },
    Row { name: "a sum with an imported global", steps: &[
        Load(GLOBAL, Number(0)), Link(0, Number(0)), Register(0, "spectest", Done),
        Load("(import \"spectest\" \"global_i32\" (global i32)) (global i32 global.get 0 i32.const 1 i32.add) (export \"g\" (global 1))", Number(1)),
        Link(1, Number(1)), GetGlobal(1, "g", Values(&[Val::I32(667)])),
    ] },
    Row { name: "a sum wraps", steps: &[
        Load("(global i32 i32.const -1 i32.const 1 i32.add) (export \"g\" (global 0))", Number(0)), Link(0, Number(0)),
        GetGlobal(0, "g", Values(&[Val::I32(0)])),
    ] },
    Row { name: "a difference wraps", steps: &[
        Load("(global i64 i64.const 5 i64.const 7 i64.sub) (export \"g\" (global 0))", Number(0)), Link(0, Number(0)),
        GetGlobal(0, "g", Values(&[Val::I64(18_446_744_073_709_551_614)])),
    ] },
    Row { name: "operators are executed in their order", steps: &[
        Load("(global i32 i32.const 100 i32.const 10 i32.const 3 i32.sub i32.const 2 i32.mul i32.sub) (export \"g\" (global 0))", Number(0)),
        Link(0, Number(0)), GetGlobal(0, "g", Values(&[Val::I32(86)])),
    ] },
];

// Offsets of segments.
#[rattlefmt::skip]
static OFFSETS: [Row; 3] = [
    Row { name: "nothing is copied to the end of a memory", steps: &[
        SetFuel(2), Load("(memory 1) (data (offset i32.const 60000 i32.const 5536 i32.add) \"\")", Number(0)), Link(0, Number(0)), Left(0),
    ] },
    Row { name: "a byte is copied past the end of a memory", steps: &[
        SetFuel(2), Load("(memory 1) (data (offset i32.const 60000 i32.const 5536 i32.add) \"x\")", Number(0)),
        Link(0, Trapped(Trap::MemoryBounds)), Left(1),
    ] },
    Row { name: "an entry behind an imported global", steps: &[
        Load("(global i32 i32.const 1) (export \"one\" (global 0))", Number(0)), Link(0, Number(0)), Register(0, "spectest", Done),
        Load(SECOND_ENTRY, Number(1)), Link(1, Number(1)),
        Call(1, "call", &[Val::I32(2)], Values(&[Val::I32(42)])), Call(1, "call", &[Val::I32(1)], Trapped(Trap::UninitializedElement)),
    ] },
];

// Expressions that are not constant, or not of their type.
#[rattlefmt::skip]
static INVALID: [Row; 6] = [
    Row { name: "a quotient is not constant", steps: &[Load("(global i32 i32.const 1 i32.const 1 i32.div_u)", Refused(Refusal::Invalid(Place::Section(6))))] },
    Row { name: "an operator with one operand", steps: &[Load("(global i32 i32.const 1 i32.add)", Refused(Refusal::Invalid(Place::Section(6))))] },
    Row { name: "two values", steps: &[Load("(global i32 i32.const 1 i32.const 1)", Refused(Refusal::Invalid(Place::Section(6))))] },
    Row { name: "a sum of the other width", steps: &[Load("(global i32 i64.const 1 i64.const 1 i64.add)", Refused(Refusal::Invalid(Place::Section(6))))] },
    Row { name: "an offset of a global of the module's own", steps: &[
        Load("(global i32 i32.const 1) (memory 1) (data (offset global.get 0 i32.const 1 i32.add) \"x\")", Refused(Refusal::Invalid(Place::Section(11)))),
    ] },
    Row { name: "an offset of a variable global", steps: &[
        Load("(import \"m\" \"g\" (global (mut i32))) (memory 1) (data (offset global.get 0 i32.const 1 \
            i32.add) \"x\")", Refused(Refusal::Invalid(Place::Section(11)))),
    ] },
];

#[test]
fn globals_have_their_first_values(rt: HostRuntime) {
    for row in &GLOBALS {
        assert!(rt; all_are_so(rt.alloc(), row.steps), "{}", row.name);
    }
}

#[test]
fn segments_are_copied_to_their_offsets(rt: HostRuntime) {
    for row in &OFFSETS {
        assert!(rt; all_are_so(rt.alloc(), row.steps), "{}", row.name);
    }
}

#[test]
fn other_expressions_are_refused(rt: HostRuntime) {
    for row in &INVALID {
        assert!(rt; all_are_so(rt.alloc(), row.steps), "{}", row.name);
    }
}
