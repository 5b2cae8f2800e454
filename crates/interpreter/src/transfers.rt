ghost use Rattle.std.specs.Prelude.{◌≡◌, ◌+◌, ◌<◌, ◌≤◌, ◌^◌, get_or, length, suc};
ghost use Rattle.interpreter.specs.Calling.{position_landed};
ghost use Rattle.interpreter.specs.Crossing.{ContinuesOrStops};
ghost use Rattle.interpreter.specs.Layout.{AreMoved};
ghost use Rattle.interpreter.specs.Looping.{loop_at, machine_at, world_at};
ghost use Rattle.interpreter.specs.Operations.{IsReadyFor, Executes};
ghost use Rattle.interpreter.specs.Whole.{RunsSomeWhole};
ghost use Rattle.sidetable.specs.Packing.{branch_entries};
ghost use Rattle.sidetable.specs.SideTables.{branch_range_of, entry_of_number};
ghost use Rattle.sidetable.specs.declared.operations.PackedOp.TheVariants as op;

use crate::frames::{call, call_indirect, leave};
use crate::landing::land;
use crate::machine::{CallKind, Crossing, Frame, Position, Stop, Surroundings};
use crate::payment::pay;
use crate::reading::entry;
use core_types::{Stack, Trap};
use sidetable::{Entry, SideTables, TransferInstruction};
use store::State;

// Returns the entry that a branch by number chooses: the one at the operand's place among its labels, or else the default one.
#[inline(always)]
fn chosen(tables: &SideTables, number: u32, operand: u64) -> Entry
    requires range { number < length tables.now.branch_ranges.items }
    requires labels { (branch_range_of tables.now number).first
        + (branch_range_of tables.now number).count < suc (length tables.now.entries.items) }
    requires others { (branch_range_of tables.now number).default
        < length tables.now.entries.items }
    ensures { result ≡ get_or (branch_entries tables.now (branch_range_of tables.now number))
        operand
        (entry_of_number tables.now (branch_range_of tables.now number).default) }
{
    let range = tables.branch_ranges[number as usize];
    if operand < u64::from(range.count) {
        tables.entries[range.first as usize + operand as usize]
    } else {
        entry(tables, range.default)
    }
}

// Moves the values that a branch keeps, and continues at its target.
#[inline(always)]
fn land_at(cells: &mut [u64], e: Entry, at: &mut Position)
    requires low { at.old.base + e.height + e.kept ≤ at.old.top }
    requires within { at.old.top < length cells.old }
    requires there { get_or cells.old at.old.top 0 ≡ at.old.operand }
    ensures moved { AreMoved cells.old at.old.top
        (at.old.base + e.height) e.kept cells.new at.new.operand }
    ensures landed { at.new ≡ position_landed at.old e at.new.operand }
{
    let kept = e.kept as usize;
    let to = at.base + e.height as usize;
    at.operand = land(cells, at.top, to, kept, at.operand);
    at.top = to + kept;
    at.place = e.target as usize;
}

// Does what `land_at` does, out of the line of the loop.
#[cold]
#[inline(never)]
fn land_far(cells: &mut [u64], e: Entry, at: &mut Position)
    requires low { at.old.base + e.height + e.kept ≤ at.old.top }
    requires within { at.old.top < length cells.old }
    requires there { get_or cells.old at.old.top 0 ≡ at.old.operand }
    ensures moved { AreMoved cells.old at.old.top
        (at.old.base + e.height) e.kept cells.new at.new.operand }
    ensures landed { at.new ≡ position_landed at.old e at.new.operand }
{
    land_at(cells, e, at);
}

/// Branches to an entry. The topmost operand must also be in the cell at the top, and the step must be paid for. Most branches keep no
/// value. Only those stay in the line of the loop, which then moves no register for them.
#[inline(always)]
pub fn branch(cells: &mut [u64], e: Entry, at: &mut Position)
    requires low { at.old.base + e.height + e.kept ≤ at.old.top }
    requires within { at.old.top < length cells.old }
    requires there { get_or cells.old at.old.top 0 ≡ at.old.operand }
    ensures moved { AreMoved cells.old at.old.top
        (at.old.base + e.height) e.kept cells.new at.new.operand }
    ensures landed { at.new ≡ position_landed at.old e at.new.operand }
{
    if e.kept == 0 {
        land_at(cells, e, at);
    } else {
        let mut to = *at;
        land_far(cells, e, &mut to);
        *at = to;
    }
}

/// Executes a rarer operation that does not continue with the next one, or that calls.
#[inline(always)]
pub fn transfer<'a>(
    around: Surroundings<'a>,
    state: &State,
    memory: &[u8],
    cells: &mut [u64],
    callers: &mut Stack<Frame>,
    kind: TransferInstruction,
    n: u32,
    at: &mut Position,
    why: &mut Stop,
) -> Crossing
    requires sound { RunsSomeWhole around.bound
        (loop_at (world_at around state.now memory.now) cells.old callers.old at.old) }
    requires fits { IsReadyFor (world_at around state.now memory.now) (machine_at cells.old at.old)
        (op.Transfer kind n) }
    requires executes { Executes (world_at around state.now memory.now)
        (machine_at cells.old at.old) (op.Transfer kind n) }
    requires next { at.old.place + 1 < 2 ^ 32 }
    ensures { ContinuesOrStops around.entry.bound
        (loop_at (world_at around.entry state.now memory.now) cells.old callers.old at.old)
        result why.new cells.new callers.new at.new }
{
    let tables = &around.flat.tables;
    match kind {
        TransferInstruction::Unreachable => {
            let Some(fuel) = pay(at.fuel, why) else {
                return Crossing::Stops;
            };
            at.fuel = fuel;
            *why = Stop::Traps(Trap::Unreachable);
            Crossing::Stops
        }
        TransferInstruction::Jump => {
            at.place = entry(tables, n).target as usize;
            Crossing::Goes
        }
        TransferInstruction::Br => {
            let Some(fuel) = pay(at.fuel, why) else {
                return Crossing::Stops;
            };
            at.fuel = fuel;
            cells[at.top] = at.operand;
            branch(cells, entry(tables, n), at);
            Crossing::Goes
        }
        TransferInstruction::BrTable => {
            let Some(fuel) = pay(at.fuel, why) else {
                return Crossing::Stops;
            };
            let e = chosen(tables, n, at.operand);
            at.fuel = fuel;
            at.top -= 1;
            at.operand = cells[at.top];
            branch(cells, e, at);
            Crossing::Goes
        }
        TransferInstruction::Return => {
            let Some(fuel) = pay(at.fuel, why) else {
                return Crossing::Stops;
            };
            at.fuel = fuel;
            let results = entry(tables, n).kept as usize;
            leave(around, state, memory, cells, callers, results, at, why)
        }
        TransferInstruction::CallIndirect => {
            call_indirect(
                around,
                state,
                memory,
                cells,
                callers,
                CallKind::Nested,
                n,
                at,
                why,
            )
        }
        TransferInstruction::ReturnCall => {
            call(
                around,
                state,
                memory,
                cells,
                callers,
                CallKind::Tail,
                n,
                at,
                why,
            )
        }
        TransferInstruction::ReturnCallIndirect => {
            call_indirect(
                around,
                state,
                memory,
                cells,
                callers,
                CallKind::Tail,
                n,
                at,
                why,
            )
        }
    }
}
