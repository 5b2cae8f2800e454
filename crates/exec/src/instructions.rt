ghost use Rattle.std.specs.Prelude.{◌≡◌, ◌+◌, ◌<◌, ◌≤◌, ◌^◌, length};
ghost use Rattle.sidetable.specs.SideTables.{pair_of as pair_at};
ghost use Rattle.store.specs.Contents.{store_with};
ghost use Rattle.sidetable.specs.Packing.{other_op};
ghost use Rattle.interpreter.specs.Operations.{IsLeft};
ghost use Rattle.exec.specs.Instructions.{HasResult, Does, RestsSomeBefore, cells_behind, position_behind, taken_by as takes};
ghost use Rattle.exec.specs.Resting.{at_rest};

use crate::call::Call;
use crate::memories::{data_drop, memory_copy, memory_fill, memory_grow, memory_init};
use crate::tables::{
    elem_drop, table_copy, table_fill, table_get, table_grow, table_init, table_set, table_size,
};
use effects::{Fault, Paid};
use interpreter::Stop;
use sidetable::{IndexPair, OtherInstruction, SideTables};
use store::{Code, State};

// Returns the pair of a number.
fn pair_of(tables: &SideTables, n: u32) -> IndexPair
    ensures { result ≡ pair_at tables.now n }
{
    match tables.pairs.get(n as usize) {
        Some(pair) => *pair,
        None => IndexPair {
            first: 0,
            second: 0,
        },
    }
}

// Executes an instruction that the loop leaves to others.
fn act(
    code: &Code,
    tables: &SideTables,
    state: &mut State,
    kind: OtherInstruction,
    n: u32,
    call: &Call,
) -> Result<Paid, Fault>
    requires left { IsLeft kind }
    requires rests { RestsSomeBefore (at_rest code.now state.old call.now)
        (other_op tables.now kind n) }
    ensures { HasResult (at_rest code.now state.old call.now)
        (other_op tables.now kind n) (takes kind)
        (store_with code.now state.new) result }
{
    let pair = pair_of(tables, n);
    match kind {
        OtherInstruction::MemoryGrow => memory_grow(code, state, call),
        OtherInstruction::MemoryFill => memory_fill(code, state, call),
        OtherInstruction::MemoryCopy => memory_copy(code, state, call),
        OtherInstruction::MemoryInit => memory_init(code, state, call, n),
        OtherInstruction::DataDrop => data_drop(code, state, call, n),
        OtherInstruction::TableGet => table_get(code, state, call, n),
        OtherInstruction::TableSet => table_set(code, state, call, n),
        OtherInstruction::TableSize => table_size(code, state, call, n),
        OtherInstruction::TableGrow => table_grow(code, state, call, n),
        OtherInstruction::TableFill => table_fill(code, state, call, n),
        OtherInstruction::TableCopy => { table_copy(code, state, call, pair.first, pair.second) }
        OtherInstruction::TableInit => { table_init(code, state, call, pair.first, pair.second) }
        OtherInstruction::ElemDrop => elem_drop(code, state, call, n),
        _ => unreachable!(),
    }
}

// Returns the number of operands that an instruction takes.
fn taken_by(kind: OtherInstruction) -> usize
    ensures { result ≡ takes kind }
{
    match kind {
        OtherInstruction::MemoryGrow | OtherInstruction::TableGet => 1,
        OtherInstruction::TableSet | OtherInstruction::TableGrow => 2,
        OtherInstruction::MemoryFill
        | OtherInstruction::MemoryCopy
        | OtherInstruction::MemoryInit
        | OtherInstruction::TableFill
        | OtherInstruction::TableCopy
        | OtherInstruction::TableInit => 3,
        _ => 0,
    }
}

// Continues after an instruction that took this many operands.
fn go_behind(call: &mut Call, taken: usize, paid: Paid)
    requires low { taken ≤ call.old.position.top }
    requires inside { call.old.position.top < length call.old.cells.items }
    requires next { call.old.position.place + 1 < 2 ^ 32 }
    ensures cells { call.new.cells.items ≡ cells_behind call.old }
    ensures callers { call.new.callers ≡ call.old.callers }
    ensures position { call.new.position ≡ position_behind call.old taken paid }
{
    let top = call.position.top;
    call.cells[top] = call.position.operand;
    let below = top - taken;
    match paid.result {
        Some(cell) => {
            call.position.top = below + 1;
            call.position.operand = cell;
        }
        None => {
            call.position.top = below;
            call.position.operand = call.cells[below];
        }
    }
    call.position.place += 1;
    call.position.fuel = paid.fuel;
}

/// Executes the instruction before which the loop stopped, and continues after it, or stops there. These must be the side tables
/// of its module.
pub fn step(
    code: &Code,
    tables: &SideTables,
    state: &mut State,
    kind: OtherInstruction,
    n: u32,
    call: &mut Call,
) -> Result<(), Stop>
    requires left { IsLeft kind }
    requires rests { RestsSomeBefore (at_rest code.now state.old call.old)
        (other_op tables.now kind n) }
    ensures { Does (at_rest code.now state.old call.old)
        (other_op tables.now kind n) result
        (at_rest code.now state.new call.new) }
{
    match act(code, tables, state, kind, n, call) {
        Ok(paid) => {
            go_behind(call, taken_by(kind), paid);
            Ok(())
        }
        Err(Fault::NoFuel) => Err(Stop::NoFuel),
        Err(Fault::NoMemory) => Err(Stop::NoMemory),
        Err(Fault::Traps(trap)) => {
            call.position.fuel -= 1;
            Err(Stop::Traps(trap))
        }
    }
}
