ghost use Rattle.interpreter.specs.Looping.{loop_at, world_at};
ghost use Rattle.interpreter.specs.Whole.{RunsSomeWhole, StopsAt};

use crate::frames::{call, leave};
use crate::machine::{CallKind, Crossing, Frame, Position, Stop, Surroundings};
use crate::others::step_other;
use crate::reading::{entry, fetch};
use crate::transfers::{branch, transfer};
use core_types::Stack;
use effects::{compute_binary, load_cell, load_i32, low, store_cell};
use sidetable::PackedOp;
use store::State;

/// Runs code of one instance as long as this loop executes its operations.
///
/// The memory of the instance, if it has one, is `memory`. Meanwhile another memory is at its address.
#[inline(never)]
pub fn run_exactly(
    around: Surroundings<'_>,
    state: &mut State,
    memory: &mut [u8],
    cells: &mut [u64],
    callers: &mut Stack<Frame>,
    position: &mut Position,
) -> Stop
    requires sound { RunsSomeWhole around.bound
        (loop_at (world_at around state.old memory.old) cells.old callers.old position.old) }
    ensures stops { StopsAt around.entry.bound
        (loop_at (world_at around.entry state.old memory.old) cells.old callers.old position.old)
        result
        (loop_at (world_at around.entry state.new memory.new) cells.new callers.new position.new) }
{
    let mut at = Position {
        instance: around.number,
        base: position.base,
        place: position.place,
        top: position.top,
        operand: position.operand,
        fuel: position.fuel,
    };
    let operations = around.flat.operations.as_slice();
    let mut why = Stop::Over;
    let stop = loop {
        match fetch(around, state, memory, cells, operations, at) {
            PackedOp::LocalGet(x) => {
                if at.fuel == 0 {
                    break Stop::NoFuel;
                }
                at.fuel -= 1;
                cells[at.top] = at.operand;
                at.top += 1;
                at.operand = cells[at.base + *x as usize];
                at.place += 1;
            }
            PackedOp::LocalSet(x) => {
                if at.fuel == 0 {
                    break Stop::NoFuel;
                }
                at.fuel -= 1;
                cells[at.base + *x as usize] = at.operand;
                at.top -= 1;
                at.operand = cells[at.top];
                at.place += 1;
            }
            PackedOp::LocalTee(x) => {
                if at.fuel == 0 {
                    break Stop::NoFuel;
                }
                at.fuel -= 1;
                cells[at.base + *x as usize] = at.operand;
                at.place += 1;
            }
            PackedOp::I32Const(n) => {
                if at.fuel == 0 {
                    break Stop::NoFuel;
                }
                at.fuel -= 1;
                cells[at.top] = at.operand;
                at.top += 1;
                at.operand = u64::from(*n);
                at.place += 1;
            }
            PackedOp::I32Add => {
                if at.fuel == 0 {
                    break Stop::NoFuel;
                }
                at.fuel -= 1;
                at.top -= 1;
                at.operand = u64::from(low(cells[at.top]).wrapping_add(low(at.operand)));
                at.place += 1;
            }
            PackedOp::Enter => {
                if at.fuel == 0 {
                    break Stop::NoFuel;
                }
                at.fuel -= 1;
                at.place += 1;
            }
            PackedOp::If(n) => {
                if at.fuel == 0 {
                    break Stop::NoFuel;
                }
                at.fuel -= 1;
                let condition = at.operand;
                at.top -= 1;
                at.operand = cells[at.top];
                if condition == 0 {
                    at.place = entry(&around.flat.tables, *n).target as usize;
                } else {
                    at.place += 1;
                }
            }
            PackedOp::BrIf(n) => {
                if at.fuel == 0 {
                    break Stop::NoFuel;
                }
                at.fuel -= 1;
                let condition = at.operand;
                at.top -= 1;
                if condition == 0 {
                    at.operand = cells[at.top];
                    at.place += 1;
                } else {
                    let e = entry(&around.flat.tables, *n);
                    at.operand = cells[at.top];
                    branch(cells, e, &mut at);
                }
            }
            PackedOp::Call(n) => {
                match call(
                    around,
                    state,
                    memory,
                    cells,
                    callers,
                    CallKind::Nested,
                    *n,
                    &mut at,
                    &mut why,
                ) {
                    Crossing::Goes => {}
                    Crossing::Switches => break Stop::Switches,
                    Crossing::Stops => break why,
                }
            }
            PackedOp::Leave(n) => {
                match leave(
                    around,
                    state,
                    memory,
                    cells,
                    callers,
                    *n as usize,
                    &mut at,
                    &mut why,
                ) {
                    Crossing::Goes => {}
                    Crossing::Switches => break Stop::Switches,
                    Crossing::Stops => break why,
                }
            }
            PackedOp::I32Load(offset) => {
                if at.fuel == 0 {
                    break Stop::NoFuel;
                }
                at.fuel -= 1;
                match load_i32(memory, at.operand + u64::from(*offset)) {
                    Ok(cell) => at.operand = cell,
                    Err(trap) => break Stop::Traps(trap),
                }
                at.place += 1;
            }
            PackedOp::Binary(instruction) => {
                if at.fuel == 0 {
                    break Stop::NoFuel;
                }
                at.fuel -= 1;
                match compute_binary(*instruction, cells[at.top - 1], at.operand) {
                    Ok(cell) => at.operand = cell,
                    Err(trap) => break Stop::Traps(trap),
                }
                at.top -= 1;
                at.place += 1;
            }
            PackedOp::Load(instruction, offset) => {
                if at.fuel == 0 {
                    break Stop::NoFuel;
                }
                at.fuel -= 1;
                match load_cell(*instruction, memory, at.operand + u64::from(*offset)) {
                    Ok(cell) => at.operand = cell,
                    Err(trap) => break Stop::Traps(trap),
                }
                at.place += 1;
            }
            PackedOp::Store(instruction, offset) => {
                if at.fuel == 0 {
                    break Stop::NoFuel;
                }
                at.fuel -= 1;
                let address = cells[at.top - 1] + u64::from(*offset);
                match store_cell(*instruction, memory, address, at.operand) {
                    Ok(()) => {}
                    Err(trap) => break Stop::Traps(trap),
                }
                at.top -= 2;
                at.operand = cells[at.top];
                at.place += 1;
            }
            PackedOp::Transfer(kind, n) => {
                match transfer(
                    around, state, memory, cells, callers, *kind, *n, &mut at, &mut why,
                ) {
                    Crossing::Goes => {}
                    Crossing::Switches => break Stop::Switches,
                    Crossing::Stops => break why,
                }
            }
            PackedOp::Other(kind, n) => {
                match step_other(around, state, cells, *kind, *n, at, &mut why) {
                    Some(to) => at = to,
                    None => break why,
                }
            }
        }
    };
    *position = at;
    stop
}
