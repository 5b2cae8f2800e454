//! Tables, memories and globals that instances share by the names that they are registered under.

use crate::commands::{Answer, Step, all_are_so};
use Answer::{Done, Lacks, Number, Refused, Values};
use Step::{Call, GetGlobal, Left, Link, Load, Register, SetFuel};
use core_types::{Exhaustion, Val};
use embed::Refusal;

// Steps in a row, in a fresh embedding.
struct Row {
    name: &'static str,
    steps: &'static [Step],
}

// A table of four functions that return 10 to 13, and a function that calls its entries.
const FOUR: &str =
    "(type (func (result i32))) (table 4 funcref) (func (result i32) i32.const 10) (func (result i32) i32.const 11) \
    (func (result i32) i32.const 12) (func (result i32) i32.const 13) (func (param i32) (result i32) local.get 0 call_indirect (type 0)) \
    (elem (offset i32.const 0) func 0 1 2 3) (export \"table\" (table 0)) (export \"call\" (func 4))";

const COPY: &str =
    "(import \"m\" \"table\" (table 4 funcref)) (import \"m\" \"table\" (table 4 funcref)) \
    (func i32.const 1 i32.const 0 i32.const 3 table.copy 1 0) (export \"copy\" (func 0))";

// A memory that grows.
const GROWS: &str =
    "(memory 1 5) (func (result i32) i32.const 1 memory.grow) (export \"memory\" (memory 0)) (export \"grow\" (func 0))";

// A memory, and functions that read its first two bytes.
const BYTES: &str =
    "(memory 1) (func (result i32) i32.const 0 i32.load8_u) (func (result i32) i32.const 1 i32.load8_u) (export \"memory\" (memory 0)) \
    (export \"first\" (func 0)) (export \"second\" (func 1))";

const TWO_BYTES: &str =
    "(import \"o\" \"memory\" (memory 1)) (data (offset i32.const 0) \"a\") (data (offset i32.const 1) \"b\")";

// A constant global and a mutable one.
const GLOBALS: &str =
    "(global i32 i32.const 5) (global (mut i32) i32.const 6) (export \"constant\" (global 0)) (export \"variable\" (global 1))";

const SETS: &str =
    "(import \"m\" \"variable\" (global (mut i32))) (func i32.const 7 global.set 0) (export \"set\" (func 0))";

#[rattlefmt::skip]
static ROWS: [Row; 5] = [
    Row { name: "one table under two indices", steps: &[
        Load(FOUR, Number(0)), Link(0, Number(0)), Register(0, "m", Done), Load(COPY, Number(1)), Link(1, Number(1)), SetFuel(4),
        Call(1, "copy", &[], Values(&[])), Left(0), SetFuel(100),
        Call(0, "call", &[Val::I32(0)], Values(&[Val::I32(10)])), Call(0, "call", &[Val::I32(1)], Values(&[Val::I32(10)])),
        Call(0, "call", &[Val::I32(2)], Values(&[Val::I32(11)])), Call(0, "call", &[Val::I32(3)], Values(&[Val::I32(12)])),
    ] },
    Row { name: "the present size of a memory", steps: &[
        Load(GROWS, Number(0)), Link(0, Number(0)), Register(0, "m", Done), Call(0, "grow", &[], Values(&[Val::I32(1)])),
        Load("(import \"m\" \"memory\" (memory 2 5))", Number(1)), Link(1, Number(1)),
        Load("(import \"m\" \"memory\" (memory 3 5))", Number(2)), Link(2, Refused(Refusal::IncompatibleImport(0))),
        Load("(import \"m\" \"memory\" (memory 1 4))", Number(3)), Link(3, Refused(Refusal::IncompatibleImport(0))),
    ] },
    Row { name: "fuel for one of two data segments", steps: &[
        Load(BYTES, Number(0)), Link(0, Number(0)), Register(0, "o", Done), Load(TWO_BYTES, Number(1)), SetFuel(2),
        Link(1, Lacks(Exhaustion::Fuel)), Left(0), SetFuel(4),
        Call(0, "first", &[], Values(&[Val::I32(97)])), Call(0, "second", &[], Values(&[Val::I32(0)])), Left(0),
    ] },
    Row { name: "fuel for both data segments", steps: &[
        Load(BYTES, Number(0)), Link(0, Number(0)), Register(0, "o", Done), Load(TWO_BYTES, Number(1)), SetFuel(4),
        Link(1, Number(1)), Left(0), SetFuel(4),
        Call(0, "first", &[], Values(&[Val::I32(97)])), Call(0, "second", &[], Values(&[Val::I32(98)])), Left(0),
    ] },
    Row { name: "a variable global is shared, and is not given for a constant one nor the other way round", steps: &[
        Load(GLOBALS, Number(0)), Link(0, Number(0)), Register(0, "m", Done), Load(SETS, Number(1)), Link(1, Number(1)),
        GetGlobal(0, "variable", Values(&[Val::I32(6)])), Call(1, "set", &[], Values(&[])),
        GetGlobal(0, "variable", Values(&[Val::I32(7)])), GetGlobal(0, "constant", Values(&[Val::I32(5)])),
        Load("(import \"m\" \"constant\" (global (mut i32)))", Number(2)), Link(2, Refused(Refusal::IncompatibleImport(0))),
        Load("(import \"m\" \"variable\" (global i32))", Number(3)), Link(3, Refused(Refusal::IncompatibleImport(0))),
    ] },
];

#[test]
fn objects_are_shared_by_names(rt: HostRuntime) {
    for row in &ROWS {
        assert!(rt; all_are_so(rt.alloc(), row.steps), "{}", row.name);
    }
}
