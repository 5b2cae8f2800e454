//! Engines that run out of memory without need: each row that is named fails for them.

use crate::commands::{Answer, Step, fresh_embedding, steps_hold_wanting};
use crate::engines::Asked;
use Answer::{Done, Lacks, Number, Refused, Values};
use Step::{Call, GetGlobal, Left, Link, Load, LoadBytes, Register, SetFuel};
use core_types::{Exhaustion, Val};
use embed::{Place, Refusal};
use std::alloc::Global;

// Steps in a row, in a fresh embedding, and commands. If any of these commands always runs out of memory, the steps fail.
struct Row {
    name: &'static str,
    wanting: &'static [Asked],
    steps: &'static [Step],
}

const ADD: &str =
    "(func (param i32 i32) (result i32) local.get 0 local.get 1 i32.add) (export \"add\" (func 0))";

const EMPTY: [u8; 8] = [0x00, 0x61, 0x73, 0x6D, 0x01, 0x00, 0x00, 0x00];

// A memory of 1 to 5 pages that grows.
const GROWS: &str =
    "(memory 1 5) (func (param i32) (result i32) local.get 0 memory.grow) (export \"memory\" (memory 0)) (export \"g\" (func 0))";

// A table of 2 to 10 entries that grows.
const GROWS_TABLE: &str =
    "(table 2 10 funcref) (func (param i32) (result i32) ref.null func local.get 0 table.grow 0) (export \"g\" (func 0))";

const ADD_AND_GLOBAL: &str =
    "(func (param i32 i32) (result i32) local.get 0 local.get 1 i32.add) (global i32 i32.const 666) (export \"add\" (func 0)) (export \"g\" (global 0))";

#[rattlefmt::skip]
static ROWS: [Row; 9] = [
    Row { name: "a module is loaded, linked and called", wanting: &[Asked::Load, Asked::Link, Asked::Call], steps: &[
        Load(ADD, Number(0)), Link(0, Number(0)), SetFuel(10),
        Call(0, "add", &[Val::I32(1), Val::I32(2)], Values(&[Val::I32(3)])), Left(7),
    ] },
    Row { name: "a sum wraps", wanting: &[Asked::Load, Asked::Link, Asked::Call], steps: &[
        Load(ADD, Number(0)), Link(0, Number(0)),
        Call(0, "add", &[Val::I32(4_294_967_295), Val::I32(1)], Values(&[Val::I32(0)])),
    ] },
    Row { name: "no fuel", wanting: &[Asked::Load, Asked::Link, Asked::Call], steps: &[
        Load(ADD, Number(0)), Link(0, Number(0)), SetFuel(2),
        Call(0, "add", &[Val::I32(1), Val::I32(2)], Lacks(Exhaustion::Fuel)), Left(0), SetFuel(3),
        Call(0, "add", &[Val::I32(1), Val::I32(2)], Values(&[Val::I32(3)])), Left(0),
    ] },
    Row { name: "a module with nothing in it", wanting: &[Asked::Load, Asked::Link], steps: &[
        LoadBytes(&EMPTY, Number(0)), Link(0, Number(0)), Call(0, "add", &[], Refused(Refusal::UnknownExport)),
    ] },
    Row { name: "the present size of a memory", wanting: &[Asked::Load, Asked::Link, Asked::Register, Asked::Call], steps: &[
        Load(GROWS, Number(0)), Link(0, Number(0)), Register(0, "m", Done), Call(0, "g", &[Val::I32(1)], Values(&[Val::I32(1)])),
        Load("(import \"m\" \"memory\" (memory 2 5))", Number(1)), Link(1, Number(1)),
        Load("(import \"m\" \"memory\" (memory 3 5))", Number(2)), Link(2, Refused(Refusal::IncompatibleImport(0))),
        Load("(import \"m\" \"memory\" (memory 1 4))", Number(3)), Link(3, Refused(Refusal::IncompatibleImport(0))),
    ] },
    Row { name: "operands after unreachable", wanting: &[Asked::Load], steps: &[
        Load("(func unreachable i32.add drop)", Number(0)),
        Load("(func unreachable i64.const 0 i32.add drop)", Refused(Refusal::Invalid(Place::Func(0)))),
    ] },
    Row { name: "a memory grows", wanting: &[Asked::Load, Asked::Link, Asked::Call], steps: &[
        Load(GROWS, Number(0)), Link(0, Number(0)), SetFuel(10_000),
        Call(0, "g", &[Val::I32(4_294_967_295)], Values(&[Val::I32(4_294_967_295)])), Left(9_998),
        Call(0, "g", &[Val::I32(4)], Values(&[Val::I32(1)])), Left(5_900),
        Call(0, "g", &[Val::I32(0)], Values(&[Val::I32(5)])), Left(5_898),
    ] },
    Row { name: "a table grows", wanting: &[Asked::Load, Asked::Link, Asked::Call], steps: &[
        Load(GROWS_TABLE, Number(0)), Link(0, Number(0)), SetFuel(10),
        Call(0, "g", &[Val::I32(8)], Values(&[Val::I32(2)])), Left(6),
        Call(0, "g", &[Val::I32(1)], Values(&[Val::I32(4_294_967_295)])), Left(3),
    ] },
    Row { name: "an exported function and an exported global", wanting: &[Asked::Load, Asked::Link, Asked::GetGlobal], steps: &[
        Load(ADD_AND_GLOBAL, Number(0)), Link(0, Number(0)), SetFuel(5),
        GetGlobal(0, "g", Values(&[Val::I32(666)])), GetGlobal(0, "add", Refused(Refusal::WrongKind)),
        Call(0, "g", &[], Refused(Refusal::WrongKind)), Left(5),
    ] },
];

fn rows() -> &'static [Row] {
    &ROWS
}

// Returns whether the steps of a row hold in an embedding.
fn holds(alloc: Global, row: &Row) -> bool {
    match fresh_embedding(alloc) {
        Some(mut at) => steps_hold_wanting(alloc, &mut at, None, row.steps),
        None => false,
    }
}

// Returns whether the steps fail if one command always runs out of memory.
fn fails(alloc: Global, row: &Row, asked: Asked) -> bool {
    match fresh_embedding(alloc) {
        Some(mut at) => !steps_hold_wanting(alloc, &mut at, Some(asked), row.steps),
        None => false,
    }
}

// Returns whether the steps hold in an embedding, and fail if any of the named commands always runs out of memory.
fn is_so(alloc: Global, row: &Row) -> bool {
    let mut all = holds(alloc, row);
    for asked in row.wanting {
        all &= fails(alloc, row, *asked);
    }
    all
}

#[test]
fn call_always_out_of_memory(rt: HostRuntime) {
    for row in rows() {
        assert!(rt; is_so(rt.alloc(), row), "{}", row.name);
    }
}

// The first three rows call a function that ends with values, or runs out of fuel.
#[test]
fn engine_always_out_of_memory(rt: HostRuntime) {
    for row in rows().iter().take(3) {
        assert!(rt; fails(rt.alloc(), row, Asked::Call), "{}", row.name);
    }
}
