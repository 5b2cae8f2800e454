ghost use Rattle.std.specs.Prelude.{◌≡◌, ◌+◌, ◌-◌, ◌<◌, ◌≤◌, ◌^◌, IfSome};
ghost use Rattle.interpreter.specs.Ahead.{StopsOrLacks, fuel_ahead, position_ahead, rest_ahead, stop_with_more, with_rest};
ghost use Rattle.interpreter.specs.Looping.{loop_at, world_at};
ghost use Rattle.interpreter.specs.Whole.{RunsSomeWhole, StopsAt};

use crate::frames::{call, leave};
use crate::interpreter_loop::run_exactly;
use crate::machine::{CallKind, Crossing, Frame, Position, Stop, Surroundings};
use crate::others::step_other;
use crate::reading::{entry, fetch};
use crate::transfers::{branch, transfer};
use core_types::Stack;
use effects::{compute_binary, load_cell, load_i32, low, store_cell};
use sidetable::PackedOp;
use store::State;

/// A position in code of the instance that runs. Instead of the fuel, it has the spare fuel: the fuel left after all operations
/// from here to the end of the list are paid for. A step to the next operation does not change the spare fuel.
#[derive(Clone, Copy)]
pub struct Ahead {
    pub base: usize,
    pub place: usize,
    pub top: usize,
    pub operand: u64,
    pub spare: u64,
}

// Returns the position with its spare fuel, if there is fuel for all operations from there to the end.
#[inline(always)]
fn ahead_of(at: Position, end: usize) -> Option<Ahead>
    requires before { at.place ≤ end }
    ensures some { IfSome result (λ to. at ≡ position_ahead at.instance end to) }
    ensures small { IfSome result (λ to. fuel_ahead end to < 2 ^ 64) }
{
    let ahead = (end - at.place) as u64;
    if at.fuel < ahead {
        return None;
    }
    Some(Ahead {
        base: at.base,
        place: at.place,
        top: at.top,
        operand: at.operand,
        spare: at.fuel - ahead,
    })
}

// Adds the rest of the fuel to a position that was reached with one unit of it.
#[inline(always)]
fn add_rest(at: Ahead, to: Position, end: usize) -> Position
    requires before { at.place < end }
    requires small { fuel_ahead end at < 2 ^ 64 }
    requires one { to.fuel ≤ 1 }
    ensures { result ≡ with_rest end at to }
{
    let mut left = to;
    left.fuel += at.spare + (end - at.place - 1) as u64;
    left
}

// Returns the spare fuel at a place that was reached with one unit of fuel, of which `left` is left. If the spare fuel before is
// greater than the number of the place before, any place can be reached. Only the contract needs `end`.
#[inline(always)]
fn spare_at(at: Ahead, left: u64, place: usize, end: usize) -> u64
    requires enough { at.place < at.spare }
    requires before { at.place < end }
    requires there { place ≤ end }
    requires small { fuel_ahead end at < 2 ^ 64 }
    requires one { left ≤ 1 }
    ensures { result + (end - place) ≡ left + rest_ahead end at }
{
    at.spare - at.place as u64 - 1 + left + place as u64
}

// Returns the whole position with its spare fuel, as `spare_at` does for a place.
#[inline(always)]
fn ahead_at(at: Ahead, to: Position, end: usize) -> Ahead
    requires enough { at.place < at.spare }
    requires before { at.place < end }
    requires there { to.place ≤ end }
    requires small { fuel_ahead end at < 2 ^ 64 }
    requires one { to.fuel ≤ 1 }
    ensures { position_ahead to.instance end result ≡ with_rest end at to }
{
    Ahead {
        base: to.base,
        place: to.place,
        top: to.top,
        operand: to.operand,
        spare: spare_at(at, to.fuel, to.place, end),
    }
}

// Returns the position after its unit of fuel is paid.
#[inline(always)]
fn paid(at: Position) -> Position
    ensures { result ≡ record at { fuel = 0 } }
{
    let mut behind = at;
    behind.fuel = 0;
    behind
}

// Returns why the loop stops with more fuel. Returns none if it lacked fuel, since with more fuel it continues.
#[inline(always)]
fn with_more(why: Stop) -> Option<Stop>
    ensures { result ≡ stop_with_more why }
{
    match why {
        Stop::NoFuel => None,
        other => Some(other),
    }
}

// Does what `run` does while there is fuel for all operations from the next one to the end of the list. If there is too little,
// it stops before an operation and returns none.
#[inline(never)]
fn run_ahead(
    around: Surroundings<'_>,
    state: &mut State,
    memory: &mut [u8],
    cells: &mut [u64],
    callers: &mut Stack<Frame>,
    position: &mut Position,
) -> Option<Stop>
    requires sound { RunsSomeWhole around.bound
        (loop_at (world_at around state.old memory.old) cells.old callers.old position.old) }
    ensures stops { StopsOrLacks around.entry.bound
        (loop_at (world_at around.entry state.old memory.old) cells.old callers.old position.old)
        result
        (loop_at (world_at around.entry state.new memory.new) cells.new callers.new position.new) }
{
    let operations = around.flat.operations.as_slice();
    let end = operations.len();
    let Some(start) = ahead_of(*position, end) else {
        return None;
    };
    let mut at = start;
    let mut why = Stop::Over;
    loop {
        // Each operation takes at most one unit of fuel, so it gets one unit. A plain operation does not change `spare`.
        let here = Position {
            instance: around.number,
            base: at.base,
            place: at.place,
            top: at.top,
            operand: at.operand,
            fuel: 1,
        };
        match fetch(around, state, memory, cells, operations, here) {
            PackedOp::LocalGet(x) => {
                cells[at.top] = at.operand;
                at.top += 1;
                at.operand = cells[at.base + *x as usize];
                at.place += 1;
            }
            PackedOp::LocalSet(x) => {
                cells[at.base + *x as usize] = at.operand;
                at.top -= 1;
                at.operand = cells[at.top];
                at.place += 1;
            }
            PackedOp::LocalTee(x) => {
                cells[at.base + *x as usize] = at.operand;
                at.place += 1;
            }
            PackedOp::I32Const(n) => {
                cells[at.top] = at.operand;
                at.top += 1;
                at.operand = u64::from(*n);
                at.place += 1;
            }
            PackedOp::I32Add => {
                at.top -= 1;
                at.operand = u64::from(low(cells[at.top]).wrapping_add(low(at.operand)));
                at.place += 1;
            }
            PackedOp::Enter => {
                at.place += 1;
            }
            PackedOp::If(n) => {
                let condition = at.operand;
                if condition == 0 {
                    if at.spare <= at.place as u64 {
                        *position = add_rest(at, here, end);
                        return None;
                    }
                    at.top -= 1;
                    at.operand = cells[at.top];
                    let target = entry(&around.flat.tables, *n).target as usize;
                    at.spare = spare_at(at, 0, target, end);
                    at.place = target;
                } else {
                    at.top -= 1;
                    at.operand = cells[at.top];
                    at.place += 1;
                }
            }
            PackedOp::BrIf(n) => {
                let condition = at.operand;
                if condition == 0 {
                    at.top -= 1;
                    at.operand = cells[at.top];
                    at.place += 1;
                } else {
                    if at.spare <= at.place as u64 {
                        *position = add_rest(at, here, end);
                        return None;
                    }
                    let e = entry(&around.flat.tables, *n);
                    let mut to = here;
                    to.fuel = 0;
                    to.top -= 1;
                    to.operand = cells[to.top];
                    branch(cells, e, &mut to);
                    at = ahead_at(at, to, end);
                }
            }
            PackedOp::Call(n) => {
                if at.spare <= at.place as u64 {
                    *position = add_rest(at, here, end);
                    return None;
                }
                let mut to = here;
                match call(
                    around,
                    state,
                    memory,
                    cells,
                    callers,
                    CallKind::Nested,
                    *n,
                    &mut to,
                    &mut why,
                ) {
                    Crossing::Goes => at = ahead_at(at, to, end),
                    Crossing::Switches => {
                        *position = add_rest(at, to, end);
                        return Some(Stop::Switches);
                    }
                    Crossing::Stops => {
                        *position = add_rest(at, to, end);
                        return with_more(why);
                    }
                }
            }
            PackedOp::Leave(n) => {
                if at.spare <= at.place as u64 {
                    *position = add_rest(at, here, end);
                    return None;
                }
                let mut to = here;
                match leave(
                    around,
                    state,
                    memory,
                    cells,
                    callers,
                    *n as usize,
                    &mut to,
                    &mut why,
                ) {
                    Crossing::Goes => at = ahead_at(at, to, end),
                    Crossing::Switches => {
                        *position = add_rest(at, to, end);
                        return Some(Stop::Switches);
                    }
                    Crossing::Stops => {
                        *position = add_rest(at, to, end);
                        return with_more(why);
                    }
                }
            }
            PackedOp::I32Load(offset) => {
                match load_i32(memory, at.operand + u64::from(*offset)) {
                    Ok(cell) => at.operand = cell,
                    Err(trap) => {
                        *position = add_rest(at, paid(here), end);
                        return Some(Stop::Traps(trap));
                    }
                }
                at.place += 1;
            }
            PackedOp::Binary(instruction) => {
                match compute_binary(*instruction, cells[at.top - 1], at.operand) {
                    Ok(cell) => at.operand = cell,
                    Err(trap) => {
                        *position = add_rest(at, paid(here), end);
                        return Some(Stop::Traps(trap));
                    }
                }
                at.top -= 1;
                at.place += 1;
            }
            PackedOp::Load(instruction, offset) => {
                match load_cell(*instruction, memory, at.operand + u64::from(*offset)) {
                    Ok(cell) => at.operand = cell,
                    Err(trap) => {
                        *position = add_rest(at, paid(here), end);
                        return Some(Stop::Traps(trap));
                    }
                }
                at.place += 1;
            }
            PackedOp::Store(instruction, offset) => {
                let address = cells[at.top - 1] + u64::from(*offset);
                match store_cell(*instruction, memory, address, at.operand) {
                    Ok(()) => {}
                    Err(trap) => {
                        *position = add_rest(at, paid(here), end);
                        return Some(Stop::Traps(trap));
                    }
                }
                at.top -= 2;
                at.operand = cells[at.top];
                at.place += 1;
            }
            PackedOp::Transfer(kind, n) => {
                if at.spare <= at.place as u64 {
                    *position = add_rest(at, here, end);
                    return None;
                }
                let mut to = here;
                match transfer(
                    around, state, memory, cells, callers, *kind, *n, &mut to, &mut why,
                ) {
                    Crossing::Goes => at = ahead_at(at, to, end),
                    Crossing::Switches => {
                        *position = add_rest(at, to, end);
                        return Some(Stop::Switches);
                    }
                    Crossing::Stops => {
                        *position = add_rest(at, to, end);
                        return with_more(why);
                    }
                }
            }
            PackedOp::Other(kind, n) => {
                match step_other(around, state, cells, *kind, *n, here, &mut why) {
                    Some(to) => {
                        at.place = to.place;
                        at.top = to.top;
                        at.operand = to.operand;
                    }
                    None => {
                        *position = add_rest(at, here, end);
                        return with_more(why);
                    }
                }
            }
        }
    }
}

/// Runs code of one instance as long as this loop executes its operations.
///
/// The memory of the instance, if it has one, is `memory`. Meanwhile another memory is at its address.
pub fn run(
    around: Surroundings<'_>,
    state: &mut State,
    memory: &mut [u8],
    cells: &mut [u64],
    callers: &mut Stack<Frame>,
    position: &mut Position,
) -> Stop
    requires sound { RunsSomeWhole around.bound
        (loop_at (world_at around state.old memory.old) cells.old callers.old position.old) }
    ensures stops { StopsAt around.entry.bound
        (loop_at (world_at around.entry state.old memory.old) cells.old callers.old position.old)
        result
        (loop_at (world_at around.entry state.new memory.new) cells.new callers.new position.new) }
{
    match run_ahead(around, state, memory, cells, callers, position) {
        Some(stop) => stop,
        None => run_exactly(around, state, memory, cells, callers, position),
    }
}
