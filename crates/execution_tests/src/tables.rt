//! The effects of `bulkops` on the tables and the element segments of a store, and their costs.

ghost use Rattle.std.specs.Prelude.{◌≡◌, ◌<◌, length, IsTrue};
ghost use Rattle.meaning.specs.execution.Values.{type_of};
ghost use Rattle.meaning.specs.validation.Types.{reference_type};
ghost use Rattle.store.specs.State.{table_of};

use crate::modules::store_with;
use Step::{Copy, Drop, Entries, Fill, Get, Grow, Init, Set, Size};
use bulkops::{
    elem_drop, table_copy, table_copy_cost, table_fill, table_fill_cost, table_get, table_grow,
    table_grow_cost, table_init, table_init_cost, table_set, table_size,
};
use core_types::{RefType, Trap, Val};
use std::alloc::Global;
use store::State;

// A call on a table by its address, or on the first element segment, its cost if that is checked, and its result.
#[derive(Clone, Copy)]
enum Step {
    // A table and an offset.
    Get(u32, u32, Result<Val, Trap>),
    // A table, an offset and a value.
    Set(u32, u32, Val, Result<(), Trap>),
    // An offset in the first table, a value and a count.
    Fill(u32, Val, u32, u64, Result<(), Trap>),
    // The tables into which and from which it copies, a target, a source, and a count.
    Copy([u32; 2], [u32; 3], u64, Result<(), Trap>),
    // Into the first table: a target, a source, and a count.
    Init([u32; 3], u64, Result<(), Trap>),
    // The first table, by this many entries with a value.
    Grow(Val, u32, u64, u32),
    // A table and its size.
    Size(u32, u32),
    // Of the element segment.
    Drop,
    // A table and its entries.
    Entries(u32, &'static [Val]),
}

// A name, and steps on two tables of four and three entries and a segment of the functions 0, 1 and 2. The first table may have
// six entries.
struct Case {
    name: &'static str,
    steps: &'static [Step],
}

const TEXT: &str = "(table 4 6 funcref) (table 3 funcref) (elem func 0 1 2) (func) (func) (func)";

// The trap of an access that reaches past the end.
const PAST: Trap = Trap::TableBounds;

const NULL: Val = Val::FuncRef(None);

const F0: Val = Val::FuncRef(Some(0));

const F1: Val = Val::FuncRef(Some(1));

const F2: Val = Val::FuncRef(Some(2));

#[rattlefmt::skip]
static CASES: [Case; 6] = [
    Case { name: "entries", steps: &[
        Get(0, 0, Ok(NULL)), Set(0, 3, F1, Ok(())), Get(0, 3, Ok(F1)), Get(0, 4, Err(PAST)), Set(0, 4, F1, Err(PAST)), Get(1, 2, Ok(NULL)),
        Set(1, 2, F0, Ok(())), Get(1, 3, Err(PAST)), Get(0, 4294967295, Err(PAST)), Set(1, 4294967295, F0, Err(PAST)),
        Entries(0, &[NULL, NULL, NULL, F1]), Entries(1, &[NULL, NULL, F0]), Size(0, 4), Size(1, 3),
    ] },
    Case { name: "fills", steps: &[
        Fill(1, F2, 2, 1, Ok(())), Entries(0, &[NULL, F2, F2, NULL]), Fill(4, F1, 0, 1, Ok(())), Fill(5, F1, 0, 1, Err(PAST)), Fill(3, F1, 2, 1, Err(PAST)),
        Fill(0, F1, 4294967295, 1, Err(PAST)), Entries(0, &[NULL, F2, F2, NULL]), Fill(0, F0, 4, 1, Ok(())), Entries(0, &[F0, F0, F0, F0]),
    ] },
    Case { name: "copies within one table, whose address is given twice", steps: &[
        Init([0, 0, 3], 1, Ok(())), Copy([0, 0], [1, 0, 3], 1, Ok(())), Entries(0, &[F0, F0, F1, F2]), Copy([0, 0], [0, 1, 3], 1, Ok(())),
        Entries(0, &[F0, F1, F2, F2]), Copy([0, 0], [2, 0, 3], 1, Err(PAST)), Copy([0, 0], [0, 2, 3], 1, Err(PAST)), Entries(0, &[F0, F1, F2, F2]),
        Copy([0, 0], [4, 0, 0], 1, Ok(())), Copy([0, 0], [0, 5, 0], 1, Err(PAST)),
    ] },
    Case { name: "copies from one table to another", steps: &[
        Init([1, 0, 3], 1, Ok(())), Copy([1, 0], [0, 1, 3], 1, Ok(())), Entries(1, &[F0, F1, F2]), Entries(0, &[NULL, F0, F1, F2]),
        Copy([0, 1], [0, 1, 2], 1, Ok(())), Entries(0, &[F1, F2, F1, F2]), Copy([1, 0], [0, 0, 4], 1, Err(PAST)), Copy([0, 1], [0, 0, 4], 1, Err(PAST)),
        Entries(0, &[F1, F2, F1, F2]), Entries(1, &[F0, F1, F2]), Copy([1, 0], [3, 4, 0], 1, Ok(())), Copy([1, 0], [4, 0, 0], 1, Err(PAST)),
    ] },
    Case { name: "element segments", steps: &[
        Init([2, 1, 2], 1, Ok(())), Entries(0, &[NULL, NULL, F1, F2]), Init([3, 0, 2], 1, Err(PAST)), Init([0, 2, 2], 1, Err(PAST)), Init([4, 3, 0], 1, Ok(())),
        Init([5, 0, 0], 1, Err(PAST)), Entries(0, &[NULL, NULL, F1, F2]), Drop, Init([0, 0, 0], 1, Ok(())), Init([0, 0, 1], 1, Err(PAST)), Drop,
    ] },
    Case { name: "growth", steps: &[
        Grow(F1, 3, 1, 4294967295), Grow(F1, 4294967295, 1, 4294967295), Size(0, 4), Grow(F1, 0, 1, 4), Grow(F1, 2, 1, 4), Size(0, 6),
        Entries(0, &[NULL, NULL, NULL, NULL, F1, F1]), Grow(F1, 1, 1, 4294967295), Fill(0, F0, 6, 1, Ok(())),
    ] },
];

// Returns whether these are the entries of a table.
fn shows(state: &State, address: u32, entries: &[Val]) -> bool {
    match state.table(address) {
        Some(table) => table.entries() == entries,
        None => false,
    }
}

/// Returns whether a value is of the type of a table's entries.
pub fn is_entry(state: &State, address: u32, value: Val) -> bool
    requires { address < length state.now.contents.tables }
    ensures { IsTrue result
        → type_of value ≡ reference_type (table_of state.now address).ty.element }
{
    let Some(table) = state.table(address) else {
        return false;
    };
    match (table.ty().element, value) {
        (RefType::FuncRef, Val::FuncRef(_)) | (RefType::ExternRef, Val::ExternRef(_)) => true,
        _ => false,
    }
}

// Returns whether a copy has this cost and this result.
fn copies(
    state: &mut State,
    [into, source]: [u32; 2],
    [target, from, count]: [u32; 3],
    cost: u64,
    answer: Result<(), Trap>,
) -> bool {
    if into as usize >= state.table_count() || source as usize >= state.table_count() {
        return false;
    }
    table_copy_cost(state, into, source, target, from, count) == cost
        && table_copy(state, into, source, target, from, count) == answer
}

// Returns whether a copy from the segment into the first table has this cost and this result.
fn inits(
    state: &mut State,
    [target, from, count]: [u32; 3],
    cost: u64,
    answer: Result<(), Trap>,
) -> bool {
    if state.table_count() == 0 || state.element_count() == 0 {
        return false;
    }
    table_init_cost(state, 0, 0, target, from, count) == cost
        && table_init(state, 0, 0, target, from, count) == answer
}

// Returns whether a read or a write of an entry has this result.
fn accesses(state: &mut State, step: Step) -> bool {
    match step {
        Get(address, offset, value) if (address as usize) < state.table_count() => {
            table_get(state, address, offset) == value
        }
        Set(address, offset, value, answer) if (address as usize) < state.table_count() => {
            is_entry(state, address, value) && table_set(state, address, offset, value) == answer
        }
        Size(address, size) if (address as usize) < state.table_count() => {
            table_size(state, address) == size
        }
        _ => false,
    }
}

// Returns whether a store has the result of a step.
fn takes(state: &mut State, step: Step) -> bool {
    if state.table_count() == 0 || state.element_count() == 0 {
        return false;
    }
    match step {
        Fill(offset, value, count, cost, answer) => {
            is_entry(state, 0, value)
                && table_fill_cost(state, 0, offset, count) == cost
                && table_fill(state, 0, offset, value, count) == answer
        }
        Init(offsets, cost, answer) => inits(state, offsets, cost, answer),
        Grow(value, count, cost, size) => {
            is_entry(state, 0, value)
                && table_grow_cost(state, 0, count) == cost
                && table_grow(state, 0, value, count) == Ok(size)
        }
        Drop => {
            elem_drop(state, 0);
            true
        }
        Copy(tables, offsets, cost, answer) => copies(state, tables, offsets, cost, answer),
        Entries(address, entries) => shows(state, address, entries),
        Get(..) | Set(..) | Size(..) => accesses(state, step),
    }
}

// Returns the number of steps with the right result, up to the first one with a wrong result.
fn count_taken(state: &mut State, steps: &[Step]) -> usize {
    for (index, step) in steps.iter().enumerate() {
        if !takes(state, *step) {
            return index;
        }
    }
    steps.len()
}

// Returns the number of steps of a case with the right result, in a new store.
fn count_steps(alloc: Global, case: &Case) -> usize {
    match store_with(alloc, &[TEXT]) {
        Some(store) => {
            let mut state = store.state;
            count_taken(&mut state, case.steps)
        }
        None => 0,
    }
}

#[test]
fn changes_tables(rt: HostRuntime) {
    for case in &CASES {
        let count = count_steps(rt.alloc(), case);
        assert!(rt; count == case.steps.len(), "{} {count}", case.name);
    }
}
