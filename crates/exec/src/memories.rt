ghost use Rattle.core_types.specs.declared.op.MemoryOp.TheVariants as memory;
ghost use Rattle.core_types.specs.declared.op.PlainOp.TheVariants.{Memory};
ghost use Rattle.store.specs.Contents.{store_with};
ghost use Rattle.exec.specs.Instructions.{HasResult, RestsSomeBefore};
ghost use Rattle.exec.specs.Resting.{at_rest};

use crate::addresses::{data_at, memory_at};
use crate::call::Call;
use crate::operands::integer;
use effects::{Fault, Paid, copy_memory, drop_data, fill_memory, grow_memory, init_memory};
use store::{Code, State};

/// Adds pages to the memory (Execution, Memory Instructions, memory.grow).
pub fn memory_grow(code: &Code, state: &mut State, call: &Call) -> Result<Paid, Fault>
    requires { RestsSomeBefore (at_rest code.now state.old call.now) (Memory memory.Grow) }
    ensures { HasResult (at_rest code.now state.old call.now) (Memory memory.Grow) 1
        (store_with code.now state.new) result }
{
    let address = memory_at(code, call);
    let pages = integer(call, 0);
    grow_memory(state, address, pages, call.position.fuel)
}

/// Fills bytes of the memory with a value (Execution, Memory Instructions, memory.fill).
pub fn memory_fill(code: &Code, state: &mut State, call: &Call) -> Result<Paid, Fault>
    requires { RestsSomeBefore (at_rest code.now state.old call.now) (Memory memory.Fill) }
    ensures { HasResult (at_rest code.now state.old call.now) (Memory memory.Fill) 3
        (store_with code.now state.new) result }
{
    let address = memory_at(code, call);
    let offset = integer(call, 2);
    let value = integer(call, 1);
    let count = integer(call, 0);
    fill_memory(state, address, offset, value, count, call.position.fuel)
}

/// Copies bytes of the memory (Execution, Memory Instructions, memory.copy).
pub fn memory_copy(code: &Code, state: &mut State, call: &Call) -> Result<Paid, Fault>
    requires { RestsSomeBefore (at_rest code.now state.old call.now) (Memory memory.Copy) }
    ensures { HasResult (at_rest code.now state.old call.now) (Memory memory.Copy) 3
        (store_with code.now state.new) result }
{
    let address = memory_at(code, call);
    let target = integer(call, 2);
    let from = integer(call, 1);
    let count = integer(call, 0);
    copy_memory(state, address, target, from, count, call.position.fuel)
}

/// Copies bytes of a data segment into the memory (Execution, Memory Instructions, memory.init).
pub fn memory_init(code: &Code, state: &mut State, call: &Call, segment: u32) -> Result<Paid, Fault>
    requires { RestsSomeBefore (at_rest code.now state.old call.now)
        (Memory (memory.Init segment)) }
    ensures { HasResult (at_rest code.now state.old call.now) (Memory (memory.Init segment)) 3
        (store_with code.now state.new) result }
{
    let address = memory_at(code, call);
    let source = data_at(code, call, segment);
    let target = integer(call, 2);
    let from = integer(call, 1);
    let count = integer(call, 0);
    init_memory(
        state,
        address,
        source,
        target,
        from,
        count,
        call.position.fuel,
    )
}

/// Drops the bytes of a data segment (Execution, Memory Instructions, data.drop).
pub fn data_drop(code: &Code, state: &mut State, call: &Call, segment: u32) -> Result<Paid, Fault>
    requires { RestsSomeBefore (at_rest code.now state.old call.now)
        (Memory (memory.DataDrop segment)) }
    ensures { HasResult (at_rest code.now state.old call.now) (Memory (memory.DataDrop segment)) 0
        (store_with code.now state.new) result }
{
    let address = data_at(code, call, segment);
    drop_data(state, address, call.position.fuel)
}
