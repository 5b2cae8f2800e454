//! Tail calls of host functions: what they borrow, where their results go, and what is charged.

use crate::commands::{Answer, Step};
use crate::hosts::{CALLS_THROUGH_THAT_TABLE, LENDS_A_TABLE, steps_hold_with};
use crate::kinds::Kind;
use Answer::{Done, Lacks, Number, Trapped, Values};
use Step::{Call, Left, Link, Load, Register, SetFuel};
use core_types::{Exhaustion, Trap, Val};
use std::alloc::{AllocError, Global};

// Host functions under the module name `host`, each with its name, and steps in a row in a fresh embedding with this most number
// of open frames.
struct Row {
    name: &'static str,
    hosts: &'static [(&'static str, Kind)],
    depth: u32,
    steps: &'static [Step],
}

const COUNTS: &[(&str, Kind)] = &[("c", Kind::Counts)];

const TRAPS: &[(&str, Kind)] = &[("h", Kind::Traps)];

const LACKS_MEMORY: &[(&str, Kind)] = &[("h", Kind::LacksMemory)];

const MARKS: &[(&str, Kind)] = &[("s", Kind::Marks)];

const SWAPS: &[(&str, Kind)] = &[("swap", Kind::Swaps)];

const GIVES_FIVE: &[(&str, Kind)] = &[("five", Kind::GivesFive)];

const WRITES: &[(&str, Kind)] = &[("w", Kind::Writes)];

const MEASURES: &[(&str, Kind)] = &[("m", Kind::Measures)];

// ---- from the outermost frame

const CALLS_LAST: &str =
    "(import \"host\" \"c\" (func (result i32))) (func (result i32) return_call 0) (export \"f\" (func 1))";

// It leaves operands below.
const FAILS_LAST: &str =
    "(import \"host\" \"h\" (func)) (func i32.const 1 i64.const 2 return_call 0) (export \"f\" (func 1))";

// The same, through a table.
const FAILS_THROUGH_A_TABLE: &str =
    "(import \"host\" \"h\" (func)) (table 1 funcref) (func i64.const 2 i32.const 0 return_call_indirect) \
    (elem (offset i32.const 0) func 0) (export \"f\" (func 1))";

// A table of the host function that counts, one of another type, and null.
const CALLS_ENTRY_LAST: &str =
    "(type (func (result i32))) (import \"host\" \"c\" (func (result i32))) (import \"host\" \"h\" (func)) (table 3 funcref) \
    (func (param i32) (result i32) local.get 0 return_call_indirect (type 0)) (elem (offset i32.const 0) func 0 1) (export \"f\" (func 2))";

const SWAPS_LAST: &str = "(import \"host\" \"swap\" (func (param i32 i64) (result i64 i32))) \
    (func (param i64 i32) (result i64 i32) i64.const 77 local.get 1 local.get 0 return_call 0) (export \"f\" (func 1))";

const SWAPS_INSIDE: &str = "(import \"host\" \"swap\" (func (param i32 i64) (result i64 i32))) \
    (func (param i32 i64) (result i64 i32) i32.const 1 block i64.const 2 loop (result i32) block i32.const 3 local.get 0 local.get 1 \
    return_call 0 end i32.const 4 end drop drop end unreachable) (export \"f\" (func 1))";

const FIVE_LAST: &str =
    "(import \"host\" \"five\" (func (result i32 i64 externref externref i32))) \
    (func (result i32 i64 externref externref i32) return_call 0) (export \"f\" (func 1))";

const FIVE: [Val; 5] = [
    Val::I32(1),
    Val::I64(2),
    Val::ExternRef(Some(3)),
    Val::ExternRef(None),
    Val::I32(5),
];

const STARTS_A_MARK: &str =
    "(import \"host\" \"s\" (func)) (memory 1) (func return_call 0) (func (result i32) i32.const 0 i32.load8_u) (start 1) (export \"byte\" (func 2))";

const STARTS_A_TRAP: &str = "(import \"host\" \"h\" (func)) (func nop return_call 0) (start 1)";

// Three functions, each of which calls the one before it last, and the host function at the end.
const CHAIN: &str =
    "(import \"host\" \"c\" (func (result i32))) (func (result i32) return_call 0) (func (result i32) return_call 1) \
    (func (result i32) return_call 2) (export \"f\" (func 3))";

// A function that is called last calls the host function twice, and then last.
const CALLS_BEFORE: &str =
    "(import \"host\" \"c\" (func (result i32))) (func (result i32) call 0 drop call 0 drop return_call 0) \
    (func (result i32) i64.const 8 return_call 1) (export \"f\" (func 2))";

#[rattlefmt::skip]
static RESULTS: [Row; 7] = [
    Row { name: "the results are those of the call", hosts: COUNTS, depth: 1, steps: &[
        Load(CALLS_LAST, Number(0)), Link(0, Number(0)), SetFuel(1), Call(0, "f", &[], Values(&[Val::I32(1)])), Left(0),
        Call(0, "f", &[], Lacks(Exhaustion::Fuel)), Left(0), SetFuel(2), Call(0, "f", &[], Values(&[Val::I32(2)])), Left(1),
    ] },
    Row { name: "arguments above an operand", hosts: SWAPS, depth: 1, steps: &[
        Load(SWAPS_LAST, Number(0)), Link(0, Number(0)), SetFuel(4),
        Call(0, "f", &[Val::I64(6), Val::I32(5)], Values(&[Val::I64(6), Val::I32(5)])), Left(0),
    ] },
    Row { name: "inside of blocks and a loop", hosts: SWAPS, depth: 1, steps: &[
        Load(SWAPS_INSIDE, Number(0)), Link(0, Number(0)), SetFuel(9),
        Call(0, "f", &[Val::I32(5), Val::I64(6)], Values(&[Val::I64(6), Val::I32(5)])), Left(0),
        SetFuel(8), Call(0, "f", &[Val::I32(5), Val::I64(6)], Lacks(Exhaustion::Fuel)), Left(0),
    ] },
    Row { name: "five results from a frame without operands", hosts: GIVES_FIVE, depth: 1, steps: &[
        Load(FIVE_LAST, Number(0)), Link(0, Number(0)), SetFuel(1), Call(0, "f", &[], Values(&FIVE)), Left(0),
    ] },
    Row { name: "in a start function", hosts: MARKS, depth: 1, steps: &[
        Load(STARTS_A_MARK, Number(0)), SetFuel(0), Link(0, Lacks(Exhaustion::Fuel)), Left(0),
        SetFuel(2), Link(0, Number(0)), Left(1), SetFuel(2), Call(0, "byte", &[], Values(&[Val::I32(7)])),
    ] },
    Row { name: "behind two tail calls", hosts: COUNTS, depth: 1, steps: &[
        Load(CHAIN, Number(0)), Link(0, Number(0)), SetFuel(3), Call(0, "f", &[], Values(&[Val::I32(1)])), Left(0),
        SetFuel(2), Call(0, "f", &[], Lacks(Exhaustion::Fuel)), Left(0),
        SetFuel(4), Call(0, "f", &[], Values(&[Val::I32(2)])), Left(1),
    ] },
    Row { name: "behind calls of the same host function", hosts: COUNTS, depth: 1, steps: &[
        Load(CALLS_BEFORE, Number(0)), Link(0, Number(0)), SetFuel(10), Call(0, "f", &[], Values(&[Val::I32(3)])), Left(3),
    ] },
];

#[rattlefmt::skip]
static FAULTS: [Row; 6] = [
    Row { name: "a host function traps", hosts: TRAPS, depth: 1, steps: &[
        Load(FAILS_LAST, Number(0)), Link(0, Number(0)), SetFuel(10), Call(0, "f", &[], Trapped(Trap::Host(5))), Left(7),
        SetFuel(3), Call(0, "f", &[], Trapped(Trap::Host(5))), Left(0), SetFuel(2), Call(0, "f", &[], Lacks(Exhaustion::Fuel)), Left(0),
    ] },
    Row { name: "a host function has no memory", hosts: LACKS_MEMORY, depth: 1, steps: &[
        Load(FAILS_LAST, Number(0)), Link(0, Number(0)), SetFuel(10), Call(0, "f", &[], Lacks(Exhaustion::Memory)), Left(8),
        SetFuel(3), Call(0, "f", &[], Lacks(Exhaustion::Memory)), Left(1), SetFuel(2), Call(0, "f", &[], Lacks(Exhaustion::Fuel)), Left(0),
    ] },
    Row { name: "a host function traps, through a table", hosts: TRAPS, depth: 1, steps: &[
        Load(FAILS_THROUGH_A_TABLE, Number(0)), Link(0, Number(0)), SetFuel(10), Call(0, "f", &[], Trapped(Trap::Host(5))), Left(7),
    ] },
    Row { name: "a host function has no memory, through a table", hosts: LACKS_MEMORY, depth: 1, steps: &[
        Load(FAILS_THROUGH_A_TABLE, Number(0)), Link(0, Number(0)), SetFuel(10), Call(0, "f", &[], Lacks(Exhaustion::Memory)), Left(8),
    ] },
    Row { name: "entries of a table", hosts: &[("c", Kind::Counts), ("h", Kind::Traps)], depth: 1, steps: &[
        Load(CALLS_ENTRY_LAST, Number(0)), Link(0, Number(0)), SetFuel(2), Call(0, "f", &[Val::I32(0)], Values(&[Val::I32(1)])), Left(0),
        SetFuel(9), Call(0, "f", &[Val::I32(1)], Trapped(Trap::IndirectType)), Left(7),
        Call(0, "f", &[Val::I32(2)], Trapped(Trap::UninitializedElement)), Left(5),
        Call(0, "f", &[Val::I32(3)], Trapped(Trap::UndefinedElement)), Left(3),
        Call(0, "f", &[Val::I32(4_294_967_295)], Trapped(Trap::UndefinedElement)), Left(1),
        Call(0, "f", &[Val::I32(0)], Lacks(Exhaustion::Fuel)), Left(0),
        SetFuel(2), Call(0, "f", &[Val::I32(0)], Values(&[Val::I32(2)])), Left(0),
    ] },
    Row { name: "in a start function, and it traps", hosts: TRAPS, depth: 1, steps: &[
        Load(STARTS_A_TRAP, Number(0)), SetFuel(4), Link(0, Trapped(Trap::Host(5))), Left(2),
    ] },
];

// ---- below a caller that waits

const ADDS: &str =
    "(import \"host\" \"c\" (func (result i32))) (func (result i32) return_call 0) (func (result i32) i32.const 40 call 1 i32.add) (export \"f\" (func 2))";

const ADDS_ENTRY: &str =
    "(type (func (result i32))) (import \"host\" \"c\" (func (result i32))) (table 1 funcref) \
    (func (result i32) i32.const 0 return_call_indirect (type 0)) (func (result i32) i32.const 40 call 1 i32.add) \
    (elem (offset i32.const 0) func 0) (export \"f\" (func 2))";

const WAITS_FOR_A_FAULT: &str =
    "(import \"host\" \"h\" (func)) (func i64.const 9 return_call 0) (func i32.const 1 call 1 drop) (export \"f\" (func 2))";

const WAITS_FOR_FIVE: &str =
    "(import \"host\" \"five\" (func (result i32 i64 externref externref i32))) \
    (func (result i32 i64 externref externref i32) return_call 0) (func (param i64) (result i64 i32 i64 externref externref i32) \
    local.get 0 call 1) (export \"f\" (func 2))";

const SIX: [Val; 6] = [
    Val::I64(9),
    Val::I32(1),
    Val::I64(2),
    Val::ExternRef(Some(3)),
    Val::ExternRef(None),
    Val::I32(5),
];

// The replaced frame has locals and an operand, and there are no results.
const WAITS_FOR_NOTHING: &str =
    "(import \"host\" \"s\" (func)) (func (param i32 i64) (local i64 externref) i64.const 4 return_call 0) \
    (func (result i32 i64) i32.const 3 i32.const 4 i64.const 5 call 1 i64.const 8) (export \"f\" (func 2))";

const WAITS_FOR_BOTH: &str = "(import \"host\" \"swap\" (func (param i32 i64) (result i64 i32))) \
    (func (param i32 i64 i32) (result i64 i32) local.get 2 local.get 1 return_call 0) \
    (func (result i32 i64 i32) i32.const 100 i32.const 5 i64.const 6 i32.const 7 call 1) (export \"f\" (func 2))";

// The last function calls the one before it twice. That one calls the first, and then the host function last, as the first does.
const ONE_AFTER_THE_OTHER: &str =
    "(import \"host\" \"c\" (func (result i32))) (func (result i32) return_call 0) (func (result i32) call 1 drop return_call 0) \
    (func (result i32 i32) call 2 call 2) (export \"f\" (func 3))";

#[rattlefmt::skip]
static WAITING: [Row; 9] = [
    Row { name: "the caller adds to the result", hosts: COUNTS, depth: 2, steps: &[
        Load(ADDS, Number(0)), Link(0, Number(0)), SetFuel(8), Call(0, "f", &[], Values(&[Val::I32(41)])), Left(4),
        Call(0, "f", &[], Values(&[Val::I32(42)])), Left(0), SetFuel(3), Call(0, "f", &[], Lacks(Exhaustion::Fuel)), Left(0),
        SetFuel(2), Call(0, "f", &[], Lacks(Exhaustion::Fuel)), Left(0),
        SetFuel(4), Call(0, "f", &[], Values(&[Val::I32(44)])), Left(0),
    ] },
    Row { name: "the call that waits is too deep", hosts: COUNTS, depth: 1, steps: &[
        Load(ADDS, Number(0)), Link(0, Number(0)), SetFuel(8), Call(0, "f", &[], Lacks(Exhaustion::Depth)), Left(7),
    ] },
    Row { name: "the caller adds to the result of an entry", hosts: COUNTS, depth: 2, steps: &[
        Load(ADDS_ENTRY, Number(0)), Link(0, Number(0)), SetFuel(6), Call(0, "f", &[], Values(&[Val::I32(41)])), Left(1),
    ] },
    Row { name: "a host function traps", hosts: TRAPS, depth: 2, steps: &[
        Load(WAITS_FOR_A_FAULT, Number(0)), Link(0, Number(0)), SetFuel(10), Call(0, "f", &[], Trapped(Trap::Host(5))), Left(6),
    ] },
    Row { name: "a host function has no memory", hosts: LACKS_MEMORY, depth: 2, steps: &[
        Load(WAITS_FOR_A_FAULT, Number(0)), Link(0, Number(0)), SetFuel(10), Call(0, "f", &[], Lacks(Exhaustion::Memory)), Left(7),
    ] },
    Row { name: "five results above an operand of the caller", hosts: GIVES_FIVE, depth: 2, steps: &[
        Load(WAITS_FOR_FIVE, Number(0)), Link(0, Number(0)), SetFuel(3), Call(0, "f", &[Val::I64(9)], Values(&SIX)), Left(0),
    ] },
    Row { name: "no results above an operand of the caller", hosts: MARKS, depth: 2, steps: &[
        Load(WAITS_FOR_NOTHING, Number(0)), Link(0, Number(0)), SetFuel(7),
        Call(0, "f", &[], Values(&[Val::I32(3), Val::I64(8)])), Left(0),
    ] },
    Row { name: "results that are arguments", hosts: SWAPS, depth: 2, steps: &[
        Load(WAITS_FOR_BOTH, Number(0)), Link(0, Number(0)), SetFuel(8),
        Call(0, "f", &[], Values(&[Val::I32(100), Val::I64(6), Val::I32(7)])), Left(0),
    ] },
    Row { name: "one after the other", hosts: COUNTS, depth: 3, steps: &[
        Load(ONE_AFTER_THE_OTHER, Number(0)), Link(0, Number(0)), SetFuel(10),
        Call(0, "f", &[], Values(&[Val::I32(2), Val::I32(4)])), Left(0),
    ] },
];

// ---- the memory that is borrowed

// Has a memory, and calls the host function last.
const WRITES_LAST: &str =
    "(import \"host\" \"w\" (func (result i32))) (memory 1) (func (result i32) return_call 0) (func (result i32) i32.const 0 i32.load8_u) \
    (export \"f\" (func 1)) (export \"byte\" (func 2))";

// Has a memory, calls that function, and calls it last.
const CALLS_A: &str =
    "(import \"a\" \"f\" (func (result i32))) (memory 1) (func (result i32 i32) call 0 i32.const 0 i32.load8_u) \
    (func (result i32) return_call 0) (func (result i32) i32.const 0 i32.load8_u) (export \"f\" (func 1)) (export \"last\" (func 2)) \
    (export \"byte\" (func 3))";

// Has a memory, and calls an entry of the table of another instance last.
const CALLS_ENTRY_OF_T: &str =
    "(type (func (result i32))) (import \"t\" \"table\" (table 1 funcref)) (memory 1) \
    (func (result i32) i32.const 0 return_call_indirect (type 0)) (func (result i32) i32.const 0 i32.load8_u) (export \"f\" (func 0)) \
    (export \"byte\" (func 1))";

// Has a memory, and a table that contains the function that calls the host function last.
const LENDS_ITS_FUNCTION: &str =
    "(import \"host\" \"w\" (func (result i32))) (memory 1) (table 1 funcref) (func (result i32) return_call 0) \
    (func (result i32) i32.const 0 i32.load8_u) (elem (offset i32.const 0) func 1) (export \"table\" (table 0)) (export \"byte\" (func 2))";

// Has no memory.
const MEASURES_NOTHING: &str =
    "(import \"host\" \"m\" (func (result i32))) (func (result i32) return_call 0) (export \"f\" (func 1))";

// Has a memory of two pages, and a table whose entry it calls last.
const GOES: &str =
    "(type (func (result i32))) (import \"host\" \"m\" (func (result i32))) (memory 2) (table 1 funcref) \
    (func (result i32) return_call 0) (func (result i32) i32.const 0 return_call_indirect (type 0)) (export \"f\" (func 1)) \
    (export \"go\" (func 2)) (export \"table\" (table 0))";

// Has a memory of one page, and writes a function into that table that calls one of that instance last.
const COMES_BACK: &str =
    "(import \"a\" \"table\" (table 1 funcref)) (import \"a\" \"f\" (func (result i32))) (memory 1) (func (result i32) return_call 0) \
    (elem (offset i32.const 0) func 1)";

const GROWS_BEFORE: &str =
    "(import \"host\" \"m\" (func (result i32))) (memory 1 3) (func (result i32) i32.const 1 memory.grow drop return_call 0) (export \"f\" (func 1))";

#[rattlefmt::skip]
static LENT: [Row; 5] = [
    Row { name: "by name, under a caller with another memory", hosts: WRITES, depth: 2, steps: &[
        Load(WRITES_LAST, Number(0)), Link(0, Number(0)), Register(0, "a", Done), Load(CALLS_A, Number(1)), Link(1, Number(1)),
        SetFuel(4), Call(1, "f", &[], Values(&[Val::I32(5), Val::I32(0)])), Left(0), SetFuel(10),
        Call(0, "byte", &[], Values(&[Val::I32(7)])), Call(1, "byte", &[], Values(&[Val::I32(0)])),
    ] },
    Row { name: "by name, behind a tail call of another instance", hosts: WRITES, depth: 1, steps: &[
        Load(WRITES_LAST, Number(0)), Link(0, Number(0)), Register(0, "a", Done), Load(CALLS_A, Number(1)), Link(1, Number(1)),
        SetFuel(2), Call(1, "last", &[], Values(&[Val::I32(5)])), Left(0), SetFuel(10),
        Call(0, "byte", &[], Values(&[Val::I32(7)])), Call(1, "byte", &[], Values(&[Val::I32(0)])),
    ] },
    Row { name: "nothing where the instance has no memory, though the caller has", hosts: MEASURES, depth: 2, steps: &[
        Load(MEASURES_NOTHING, Number(0)), Link(0, Number(0)), Register(0, "a", Done), Load(CALLS_A, Number(1)), Link(1, Number(1)),
        Call(1, "f", &[], Values(&[Val::I32(0), Val::I32(0)])), Call(1, "last", &[], Values(&[Val::I32(0)])),
        Call(0, "f", &[], Values(&[Val::I32(0)])),
    ] },
    Row { name: "a memory that has grown", hosts: MEASURES, depth: 1, steps: &[
        Load(GROWS_BEFORE, Number(0)), Link(0, Number(0)), SetFuel(1_028), Call(0, "f", &[], Values(&[Val::I32(131_072)])), Left(0),
    ] },
    Row { name: "each instance of a module its own", hosts: WRITES, depth: 1, steps: &[
        Load(WRITES_LAST, Number(0)), Link(0, Number(0)), Link(0, Number(1)), Call(1, "f", &[], Values(&[Val::I32(5)])),
        Call(0, "byte", &[], Values(&[Val::I32(0)])), Call(1, "byte", &[], Values(&[Val::I32(7)])),
    ] },
];

#[rattlefmt::skip]
static LENT_THROUGH_TABLES: [Row; 4] = [
    Row { name: "behind tail calls into another instance and back", hosts: MEASURES, depth: 1, steps: &[
        Load(GOES, Number(0)), Link(0, Number(0)), Register(0, "a", Done), Load(COMES_BACK, Number(1)), Link(1, Number(1)),
        SetFuel(4), Call(0, "go", &[], Values(&[Val::I32(131_072)])), Left(0),
        SetFuel(3), Call(0, "go", &[], Lacks(Exhaustion::Fuel)), Left(0),
    ] },
    Row { name: "through the table of a third instance, under a caller", hosts: WRITES, depth: 2, steps: &[
        Load(LENDS_A_TABLE, Number(0)), Link(0, Number(0)), Register(0, "t", Done),
        Load(CALLS_ENTRY_OF_T, Number(1)), Link(1, Number(1)), Register(1, "a", Done), Load(CALLS_A, Number(2)), Link(2, Number(2)),
        SetFuel(5), Call(2, "f", &[], Values(&[Val::I32(5), Val::I32(0)])), Left(0), SetFuel(10),
        Call(0, "byte", &[], Values(&[Val::I32(0)])), Call(1, "byte", &[], Values(&[Val::I32(7)])),
        Call(2, "byte", &[], Values(&[Val::I32(0)])),
    ] },
    Row { name: "through the table of a third instance, behind a tail call", hosts: WRITES, depth: 1, steps: &[
        Load(LENDS_A_TABLE, Number(0)), Link(0, Number(0)), Register(0, "t", Done),
        Load(CALLS_ENTRY_OF_T, Number(1)), Link(1, Number(1)), Register(1, "a", Done), Load(CALLS_A, Number(2)), Link(2, Number(2)),
        SetFuel(3), Call(2, "last", &[], Values(&[Val::I32(5)])), Left(0), SetFuel(10),
        Call(0, "byte", &[], Values(&[Val::I32(0)])), Call(1, "byte", &[], Values(&[Val::I32(7)])),
        Call(2, "byte", &[], Values(&[Val::I32(0)])),
    ] },
    Row { name: "in a function that another instance calls through a table", hosts: WRITES, depth: 2, steps: &[
        Load(LENDS_ITS_FUNCTION, Number(0)), Link(0, Number(0)), Register(0, "a", Done),
        Load(CALLS_THROUGH_THAT_TABLE, Number(1)), Link(1, Number(1)), SetFuel(3), Call(1, "f", &[], Values(&[Val::I32(5)])), Left(0),
        SetFuel(10), Call(0, "byte", &[], Values(&[Val::I32(7)])), Call(1, "byte", &[], Values(&[Val::I32(0)])),
    ] },
];

// Returns whether a row holds.
fn is_so(alloc: Global, row: &Row) -> Result<bool, AllocError> {
    steps_hold_with(alloc, row.hosts, row.depth, None, row.steps)
}

#[test]
fn results_are_those_of_the_call(rt: HostRuntime) {
    for row in &RESULTS {
        assert!(rt; is_so(rt.alloc(), row) == Ok(true), "{}", row.name);
    }
}

#[test]
fn faults_are_those_of_the_call(rt: HostRuntime) {
    for row in &FAULTS {
        assert!(rt; is_so(rt.alloc(), row) == Ok(true), "{}", row.name);
    }
}

#[test]
fn callers_go_on_with_the_results(rt: HostRuntime) {
    for row in &WAITING {
        assert!(rt; is_so(rt.alloc(), row) == Ok(true), "{}", row.name);
    }
}

#[test]
fn the_memory_of_the_instance_is_lent(rt: HostRuntime) {
    for row in &LENT {
        assert!(rt; is_so(rt.alloc(), row) == Ok(true), "{}", row.name);
    }
}

#[test]
fn the_memory_of_the_instance_is_lent_through_tables(rt: HostRuntime) {
    for row in &LENT_THROUGH_TABLES {
        assert!(rt; is_so(rt.alloc(), row) == Ok(true), "{}", row.name);
    }
}
