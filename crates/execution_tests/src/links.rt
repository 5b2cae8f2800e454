//! Links of modules that share functions, tables, memories and globals.

use crate::hosts::{Hosted, empty_hosted};
use crate::modules::{DEPTH, link, loaded_module};
use core_types::{Exhaustion, Extern, Trap, Val};
use exec::{Outcome, have_hosts, invoke};
use fuel::Meter;
use instantiate::{LinkEnd, LinkRefusal};
use std::alloc::Global;
use store::accepts;

// The expected end of a link or a call.
#[derive(Clone, Copy)]
pub enum End {
    // The number of the instance.
    Linked(u32),
    // No value, or an i32.
    Nothing,
    Value(u32),
    Refused(LinkRefusal),
    Trapped(Trap),
    Exhausted(Exhaustion),
}

use End::{Exhausted as Lacks, Linked, Nothing, Refused, Trapped, Value};

// A link of a text with these external values, or a call of the function at an address with these arguments; the fuel; the
// expected end; and the fuel left.
#[derive(Clone, Copy)]
pub enum Step {
    Link(&'static str, &'static [Extern], u64, End, u64),
    Call(u32, &'static [Val], u64, End, u64),
}

use Step::{Call, Link};

// Steps in a row, in a store.
pub struct Row {
    pub name: &'static str,
    pub steps: &'static [Step],
}

const SUM: &str = "(func (param i32 i32) (result i32) local.get 0 local.get 1 i32.add)";

// A memory, and functions that read its first two bytes.
const BYTES: &str =
    "(memory 1) (func (result i32) i32.const 0 i32.load8_u) (func (result i32) i32.const 1 i32.load8_u)";

const TWO_BYTES: &str =
    "(import \"m\" \"memory\" (memory 1)) (data (offset i32.const 0) \"a\") (data (offset i32.const 1) \"b\")";

// A table of four functions that return 10 to 13, and a function that calls its entries.
const FOUR: &str =
    "(type (func (result i32))) (table 4 funcref) (func (result i32) i32.const 10) (func (result i32) i32.const 11) \
    (func (result i32) i32.const 12) (func (result i32) i32.const 13) (func (param i32) (result i32) local.get 0 call_indirect (type 0)) \
    (elem (offset i32.const 0) func 0 1 2 3)";

const COPY: &str =
    "(import \"m\" \"table\" (table 4 funcref)) (import \"m\" \"table\" (table 4 funcref)) (func i32.const 1 i32.const 0 i32.const 3 table.copy 1 0)";

// A table of ten entries, and a function that calls them.
const TEN: &str =
    "(type (func (param i32) (result i32))) (type (func (result i32))) (table 10 funcref) (func (param i32) (result i32) local.get 0 call_indirect (type 1))";

const PAST_THE_END: &str =
    "(import \"m\" \"table\" (table 10 funcref)) (func (result i32) i32.const 42) (elem (offset i32.const 0) func 0) (elem (offset i32.const 10) func 0)";

const ANOTHER_INDEX: &str =
    "(import \"m\" \"table\" (table 10 funcref)) (func (result i32) i32.const 7) (elem (offset i32.const 3) func 0)";

// A memory that grows.
const GROWS: &str = "(memory 1 5) (func (result i32) i32.const 1 memory.grow)";

// A memory and a global, with functions that write and read them.
const SHARED: &str =
    "(import \"m\" \"memory\" (memory 1)) (global (mut i32) i32.const 0) (func (param i32) i32.const 0 local.get 0 i32.store) \
    (func (result i32) i32.const 0 i32.load) (func (param i32) local.get 0 global.set 0) (func (result i32) global.get 0)";

const FUNCTION_IMPORT: &str =
    "(import \"m\" \"function\" (func (result i32))) (func (result i32) call 0 i32.const 1 i32.add)";

// What a link lacks, or has just enough of: fuel, room, and imports.
#[rattlefmt::skip]
static LACKING: [Row; 8] = [
    Row { name: "a start function that traps, and then another module", steps: &[
        Link("(func unreachable) (start 0)", &[], 10, Trapped(Trap::Unreachable), 9),
        Link(SUM, &[], 9, Linked(1), 9),
        Call(1, &[Val::I32(1), Val::I32(2)], 9, Value(3), 6),
    ] },
    Row { name: "fuel for one of two data segments", steps: &[
        Link(BYTES, &[], 0, Linked(0), 0),
        Link(TWO_BYTES, &[Extern::Memory(0)], 2, Lacks(Exhaustion::Fuel), 0),
        Call(0, &[], 2, Value(97), 0),
        Call(1, &[], 2, Value(0), 0),
    ] },
    Row { name: "fuel for both data segments", steps: &[
        Link(BYTES, &[], 0, Linked(0), 0),
        Link(TWO_BYTES, &[Extern::Memory(0)], 4, Linked(1), 0),
        Call(0, &[], 2, Value(97), 0),
        Call(1, &[], 2, Value(98), 0),
    ] },
    Row { name: "an immutable global where a mutable one is wanted", steps: &[
        Link("(global i32 i32.const 5)", &[], 0, Linked(0), 0),
        Link("(import \"m\" \"global\" (global (mut i32)))", &[Extern::Global(0)], 5, Refused(LinkRefusal::IncompatibleImport(0)), 5),
        Link("(import \"m\" \"global\" (global i32)) (global i32 global.get 0) (func (result i32) global.get 1)", &[Extern::Global(0)], 5, Linked(1), 5),
        Call(0, &[], 1, Value(5), 0),
    ] },
    Row { name: "more pages than the embedding allows", steps: &[
        Link("(memory 1025)", &[], 5, Refused(LinkRefusal::Limit), 5),
        Link("(memory 1024)", &[], 5, Linked(0), 5),
    ] },
    Row { name: "more entries than the embedding allows", steps: &[
        Link("(table 101 funcref)", &[], 5, Refused(LinkRefusal::Limit), 5),
        Link("(table 100 funcref)", &[], 5, Linked(0), 5),
    ] },
    Row { name: "less is given than is imported", steps: &[
        Link("(memory 1)", &[], 0, Linked(0), 0),
        Link("(import \"m\" \"memory\" (memory 1)) (import \"m\" \"global\" (global i32)) \
            (import \"m\" \"table\" (table 1 \
            funcref))", &[Extern::Memory(0), Extern::Memory(0)], 5, Refused(LinkRefusal::UnknownImport(2)), 5),
    ] },
    Row { name: "more is given than is imported", steps: &[
        Link("(memory 1)", &[], 0, Linked(0), 0),
        Link("(import \"m\" \"memory\" (memory 1))", &[Extern::Memory(0), Extern::Global(9)], 5, Linked(1), 5),
    ] },
];

// Modules that share functions, tables, memories and globals.
#[rattlefmt::skip]
static SHARING: [Row; 6] = [
    Row { name: "one table under two indices", steps: &[
        Link(FOUR, &[], 2, Linked(0), 0),
        Link(COPY, &[Extern::Table(0), Extern::Table(0)], 0, Linked(1), 0),
        Call(5, &[], 4, Nothing, 0),
        Call(4, &[Val::I32(0)], 9, Value(10), 6),
        Call(4, &[Val::I32(1)], 9, Value(10), 6),
        Call(4, &[Val::I32(2)], 9, Value(11), 6),
        Call(4, &[Val::I32(3)], 9, Value(12), 6),
    ] },
    Row { name: "an element segment past the end", steps: &[
        Link(TEN, &[], 0, Linked(0), 0),
        Link(PAST_THE_END, &[Extern::Table(0)], 10, Trapped(Trap::TableBounds), 7),
        Call(0, &[Val::I32(0)], 9, Value(42), 6),
    ] },
    Row { name: "the present size of a memory", steps: &[
        Link(GROWS, &[], 0, Linked(0), 0),
        Call(0, &[], 2000, Value(1), 974),
        Link("(import \"m\" \"memory\" (memory 2 5))", &[Extern::Memory(0)], 0, Linked(1), 0),
        Link("(import \"m\" \"memory\" (memory 3 5))", &[Extern::Memory(0)], 0, Refused(LinkRefusal::IncompatibleImport(0)), 0),
        Link("(import \"m\" \"memory\" (memory 1 4))", &[Extern::Memory(0)], 0, Refused(LinkRefusal::IncompatibleImport(0)), 0),
    ] },
    Row { name: "an equal type under another index", steps: &[
        Link(TEN, &[], 0, Linked(0), 0),
        Link(ANOTHER_INDEX, &[Extern::Table(0)], 2, Linked(1), 0),
        Call(0, &[Val::I32(3)], 9, Value(7), 6),
    ] },
    Row { name: "one module linked twice", steps: &[
        Link("(memory 1)", &[], 0, Linked(0), 0),
        Link(SHARED, &[Extern::Memory(0)], 0, Linked(1), 0),
        Link(SHARED, &[Extern::Memory(0)], 0, Linked(2), 0),
        Call(0, &[Val::I32(9)], 3, Nothing, 0),
        Call(5, &[], 2, Value(9), 0),
        Call(4, &[Val::I32(8)], 3, Nothing, 0),
        Call(1, &[], 2, Value(8), 0),
        Call(2, &[Val::I32(3)], 2, Nothing, 0),
        Call(7, &[], 1, Value(0), 0),
        Call(3, &[], 1, Value(3), 0),
    ] },
    Row { name: "a function of another instance", steps: &[
        Link("(func (result i32) i32.const 41)", &[], 0, Linked(0), 0),
        Link(FUNCTION_IMPORT, &[Extern::Func(0)], 0, Linked(1), 0),
        Call(1, &[], 4, Value(42), 0),
        Link("(import \"m\" \"function\" (func (result i64)))", &[Extern::Func(0)], 0, Refused(LinkRefusal::IncompatibleImport(0)), 0),
    ] },
];

// Returns whether an outcome is this end.
fn outcome_is(outcome: &Outcome, end: End) -> bool {
    match (outcome, end) {
        (Outcome::Values(found), Nothing) => found.is_empty(),
        (Outcome::Values(found), Value(n)) => found.as_slice() == [Val::I32(n)].as_slice(),
        (Outcome::Trap(trap), Trapped(wanted)) => *trap == wanted,
        (Outcome::Exhausted(what), Lacks(wanted)) => *what == wanted,
        _ => false,
    }
}

// Returns whether a link has this end.
fn link_is(answer: &Result<u32, LinkEnd>, end: End) -> bool {
    match (answer, end) {
        (Ok(instance), Linked(wanted)) => *instance == wanted,
        (Err(LinkEnd::Refused(refusal)), Refused(wanted)) => *refusal == wanted,
        (Err(LinkEnd::Ended(outcome)), end) => outcome_is(outcome, end),
        _ => false,
    }
}

// Returns whether a link of a text has this end.
fn links_so(
    alloc: Global,
    hosted: &mut Hosted,
    (text, given): (&str, &[Extern]),
    fuel: u64,
    (end, left): (End, u64),
) -> bool {
    let Some(loaded) = loaded_module(alloc, text) else {
        return false;
    };
    let Hosted { store, hosts } = hosted;
    let (answer, left_over) = link(alloc, store, hosts, &loaded, given, fuel);
    link_is(&answer, end) && left_over == left
}

// Returns whether a call of the function at an address has this end.
fn calls_so(
    alloc: Global,
    hosted: &mut Hosted,
    (address, args): (u32, &[Val]),
    fuel: u64,
    (end, left): (End, u64),
) -> bool {
    let Hosted { store, hosts } = hosted;
    if !accepts(store, address, args) || !have_hosts(store, hosts) {
        return false;
    }
    let mut meter = Meter::new(fuel, DEPTH);
    let outcome = invoke(alloc, store, hosts, &mut meter, address, args);
    outcome_is(&outcome, end) && meter.left() == left
}

// Returns whether a step ends as expected.
fn ends_so(alloc: Global, hosted: &mut Hosted, step: Step) -> bool {
    match step {
        Link(text, given, fuel, end, left) => {
            links_so(alloc, hosted, (text, given), fuel, (end, left))
        }
        Call(address, args, fuel, end, left) => {
            calls_so(alloc, hosted, (address, args), fuel, (end, left))
        }
    }
}

// Returns whether all steps end as expected, one after the other.
pub fn all_end_so(alloc: Global, mut hosted: Hosted, steps: &[Step]) -> bool {
    let mut all = true;
    for step in steps {
        all &= ends_so(alloc, &mut hosted, *step);
    }
    all
}

// Returns whether all steps end as expected, in an empty store.
pub fn all_end_so_alone(alloc: Global, steps: &[Step]) -> bool {
    all_end_so(alloc, empty_hosted(alloc), steps)
}

#[test]
fn links_end_with_what_they_have(rt: HostRuntime) {
    for row in &LACKING {
        assert!(rt; all_end_so_alone(rt.alloc(), row.steps), "{}", row.name);
    }
}

#[test]
fn modules_share_what_they_import(rt: HostRuntime) {
    for row in &SHARING {
        assert!(rt; all_end_so_alone(rt.alloc(), row.steps), "{}", row.name);
    }
}
