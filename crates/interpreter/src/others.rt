ghost use Rattle.std.specs.Prelude.{◌≡◌, ◌+◌, ◌-◌, ◌<◌, ◌≤◌, ◌^◌, ℕ, List, length, set, IfNone, OnSome};
ghost use Rattle.interpreter.specs.Looping.{machine_at, world_at};
ghost use Rattle.interpreter.specs.Stepping.{IsPaid, Steps, position_lowered, position_pushed};
ghost use Rattle.interpreter.specs.Operations.{IsReadyFor, Executes};
ghost use Rattle.interpreter.specs.declared.machine.Stop.TheVariants as stop;
ghost use Rattle.sidetable.specs.declared.operations.PackedOp.TheVariants as op;

use crate::machine::{Position, Stop, Surroundings};
use crate::payment::pay;
use cells::{cell_of, value_of};
use effects::compute_unary;
use sidetable::OtherInstruction;
use store::State;

// Returns the position with one more operand.
#[inline(always)]
fn push(cells: &mut [u64], at: Position, cell: u64, why: &mut Stop) -> Option<Position>
    requires room { at.top < length cells.old }
    requires next { at.place + 1 < 2 ^ 32 }
    ensures paid { IsPaid at result why.new (position_pushed at cell) }
    ensures pushed { OnSome result (cells.new ≡ set cells.old at.top at.operand) }
    ensures kept { IfNone result (cells.new ≡ cells.old) }
{
    let mut to = at;
    to.fuel = pay(at.fuel, why)?;
    cells[at.top] = at.operand;
    to.top += 1;
    to.operand = cell;
    to.place += 1;
    Some(to)
}

// Returns the position with the topmost operand in the place of that many.
#[inline(always)]
fn lower(at: Position, by: usize, cell: u64, why: &mut Stop) -> Option<Position>
    requires enough { by ≤ at.top }
    requires next { at.place + 1 < 2 ^ 32 }
    ensures { IsPaid at result why.new (position_lowered at by cell) }
{
    let mut to = at;
    to.fuel = pay(at.fuel, why)?;
    to.top -= by;
    to.operand = cell;
    to.place += 1;
    Some(to)
}

/// Executes a rarer instruction, or leaves it to others.
#[inline(always)]
pub fn step_other(
    around: Surroundings<'_>,
    state: &mut State,
    cells: &mut [u64],
    kind: OtherInstruction,
    n: u32,
    at: Position,
    why: &mut Stop,
) -> Option<Position>
    requires next { at.place + 1 < 2 ^ 32 }
    requires fits { (bytes : List ℕ) × IsReadyFor (world_at around state.old bytes)
        (machine_at cells.old at) (op.Other kind n) }
    ensures { (bytes : List ℕ)
        → IsReadyFor (world_at around.entry state.old bytes) (machine_at cells.old at)
        (op.Other kind n)
        → Executes (world_at around.entry state.old bytes) (machine_at cells.old at)
        (op.Other kind n)
        → Steps (world_at around.entry state.old bytes) cells.old at result why.new
        (world_at around.entry state.new bytes) cells.new }
{
    let addresses = &around.instance.addresses;
    match kind {
        OtherInstruction::Nop => lower(at, 0, at.operand, why),
        OtherInstruction::DropOperand => lower(at, 1, cells[at.top - 1], why),
        OtherInstruction::Select => {
            let chosen = if at.operand == 0 {
                at.top - 1
            } else {
                at.top - 2
            };
            lower(at, 2, cells[chosen], why)
        }
        OtherInstruction::Unary(instruction) => {
            lower(at, 0, compute_unary(instruction, at.operand), why)
        }
        OtherInstruction::GlobalGet => {
            let address = addresses.globals[n as usize];
            let Some(variable) = state.global(address) else {
                unreachable!()
            };
            push(cells, at, cell_of(variable.value()), why)
        }
        OtherInstruction::GlobalSet => {
            let address = addresses.globals[n as usize];
            let Some(variable) = state.global(address) else {
                unreachable!()
            };
            let value = value_of(variable.ty().value, at.operand);
            let to = lower(at, 1, cells[at.top - 1], why)?;
            state.set_global(address, value);
            Some(to)
        }
        OtherInstruction::I64Const => push(
            cells,
            at,
            around.flat.tables.constants[n as usize],
            why,
        ),
        OtherInstruction::RefNullFunc | OtherInstruction::RefNullExtern => push(cells, at, 0, why),
        OtherInstruction::RefIsNull => lower(at, 0, u64::from(at.operand == 0), why),
        OtherInstruction::RefFunc => {
            push(
                cells,
                at,
                u64::from(addresses.functions[n as usize]) + 1,
                why,
            )
        }
        OtherInstruction::MemorySize => push(cells, at, u64::from(around.limits.min), why),
        _ => {
            *why = Stop::LeavesOther(kind, n);
            None
        }
    }
}
