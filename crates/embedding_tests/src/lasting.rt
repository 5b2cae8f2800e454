//! What was linked earlier stays as it was, whatever is linked and refused later.

use crate::commands::{Answer, PAST_THE_END, Step, TAKES_FUNCTION, fresh_embedding, steps_hold};
use Answer::{Done, Number, Refused, Trapped, Values};
use Step::{Call, GetGlobal, Left, Link, LinkOthers, LinkTimes, Load, Register, SetFuel};
use core_types::{Trap, Val};
use embed::{Embedding, Refusal};
use std::alloc::Global;

// Steps in a fresh embedding, then steps that are repeated that many times, and then steps that show what is left.
struct Row {
    name: &'static str,
    before: &'static [Step],
    times: u64,
    repeated: &'static [Step],
    after: &'static [Step],
}

// A table of ten entries, a function that calls them, and one that counts them.
const TEN: &str =
    "(type (func (param i32) (result i32))) (type (func (result i32))) (table 10 funcref) \
    (func (param i32) (result i32) local.get 0 call_indirect (type 1)) (func (result i32) table.size 0) (export \"table\" (table 0)) \
    (export \"call\" (func 0)) (export \"size\" (func 1))";

// Overwrites entry 1, and adds five entries.
const OVERWRITES: &str =
    "(import \"ten\" \"table\" (table 10 funcref)) (func (result i32) i32.const 7) (func ref.null func i32.const 5 table.grow 0 drop) \
    (elem (offset i32.const 1) func 0) (start 1)";

// A constant global, a segment that a link drops, and a memory that can grow.
const KEPT: &str =
    "(memory 1 5) (global i32 i32.const 666) (data (offset i32.const 0) \"a\") (data \"b\") (func (result i32) i32.const 1 memory.grow) \
    (func (result i32) memory.size) (func i32.const 1 i32.const 0 i32.const 1 memory.init 0) (func (result i32) i32.const 0 i32.load16_u) \
    (export \"g\" (global 0)) (export \"grow\" (func 0)) (export \"size\" (func 1)) (export \"init\" (func 2)) (export \"bytes\" (func 3))";

#[rattlefmt::skip]
static ROWS: [Row; 2] = [
    Row {
        name: "a function of a failed link is called after twenty other links",
        before: &[
            SetFuel(1_000), Load(TEN, Number(0)), Link(0, Number(0)), Register(0, "ten", Done),
            Load(PAST_THE_END, Number(1)), SetFuel(10), Link(1, Trapped(Trap::TableBounds)), Left(7), SetFuel(1_000),
            LinkOthers(0, 7), Load(OVERWRITES, Number(9)), Link(9, Number(8)), LinkOthers(7, 19),
        ],
        times: 0,
        repeated: &[],
        after: &[
            Call(0, "call", &[Val::I32(0)], Values(&[Val::I32(42)])), Call(0, "call", &[Val::I32(1)], Values(&[Val::I32(7)])),
            Call(0, "size", &[], Values(&[Val::I32(15)])),
            Load(TAKES_FUNCTION, Number(22)), Link(22, Number(21)),
            Call(21, "is_null", &[Val::FuncRef(Some(25))], Refused(Refusal::BadArguments)),
            Call(21, "is_null", &[Val::FuncRef(Some(24))], Values(&[Val::I32(0)])),
        ],
    },
    Row {
        name: "a global, a dropped segment and a grown memory after a hundred commands",
        before: &[
            Load(KEPT, Number(0)), Link(0, Number(0)), SetFuel(10_000), Call(0, "grow", &[], Values(&[Val::I32(1)])),
        ],
        times: 10,
        repeated: &[
            SetFuel(10_000), Link(9, Refused(Refusal::UnknownModule)),
            LinkTimes(0, 1), Call(0, "grow", &[Val::I32(1)], Refused(Refusal::BadArguments)),
            Call(0, "bytes", &[], Values(&[Val::I32(97)])), Call(0, "none", &[], Refused(Refusal::UnknownExport)),
            GetGlobal(0, "g", Values(&[Val::I32(666)])), GetGlobal(0, "grow", Refused(Refusal::WrongKind)),
            Register(0, "m", Done), Register(99, "m", Refused(Refusal::UnknownInstance)),
        ],
        after: &[
            GetGlobal(0, "g", Values(&[Val::I32(666)])), Call(0, "init", &[], Trapped(Trap::MemoryBounds)),
            Call(0, "size", &[], Values(&[Val::I32(2)])), Call(0, "bytes", &[], Values(&[Val::I32(97)])),
        ],
    },
];

// Returns whether steps hold that many times.
fn hold_each_time(alloc: Global, at: &mut Embedding, times: u64, steps: &[Step]) -> bool {
    let mut all = true;
    for _ in 0..times {
        all &= steps_hold(alloc, at, steps);
    }
    all
}

fn lasts(alloc: Global, row: &Row) -> bool {
    match fresh_embedding(alloc) {
        Some(mut at) => {
            steps_hold(alloc, &mut at, row.before)
                && hold_each_time(alloc, &mut at, row.times, row.repeated)
                && steps_hold(alloc, &mut at, row.after)
        }
        None => false,
    }
}

#[test]
fn what_was_linked_lasts(rt: HostRuntime) {
    for row in &ROWS {
        assert!(rt; lasts(rt.alloc(), row), "{}", row.name);
    }
}
