ghost use Rattle.core_types.specs.declared.op.PlainOp.TheVariants.{Table};
ghost use Rattle.core_types.specs.declared.op.TableOp.TheVariants as table;
ghost use Rattle.store.specs.Contents.{store_with};
ghost use Rattle.exec.specs.Instructions.{HasResult, RestsSomeBefore};
ghost use Rattle.exec.specs.Resting.{at_rest};

use crate::addresses::{elements_at, table_at};
use crate::call::Call;
use crate::operands::{integer, operand};
use effects::{
    Fault, Paid, copy_table, drop_elements, fill_table, get_entry, grow_table, init_table,
    measure_table, set_entry,
};
use store::{Code, State};

/// Reads an entry of a table (Execution, Table Instructions, table.get).
pub fn table_get(code: &Code, state: &mut State, call: &Call, x: u32) -> Result<Paid, Fault>
    requires { RestsSomeBefore (at_rest code.now state.old call.now) (Table (table.Get x)) }
    ensures { HasResult (at_rest code.now state.old call.now) (Table (table.Get x)) 1
        (store_with code.now state.new) result }
{
    let address = table_at(code, call, x);
    let offset = integer(call, 0);
    get_entry(state, address, offset, call.position.fuel)
}

/// Sets an entry of a table (Execution, Table Instructions, table.set).
pub fn table_set(code: &Code, state: &mut State, call: &Call, x: u32) -> Result<Paid, Fault>
    requires { RestsSomeBefore (at_rest code.now state.old call.now) (Table (table.Set x)) }
    ensures { HasResult (at_rest code.now state.old call.now) (Table (table.Set x)) 2
        (store_with code.now state.new) result }
{
    let address = table_at(code, call, x);
    let offset = integer(call, 1);
    let cell = operand(call, 0);
    set_entry(state, address, offset, cell, call.position.fuel)
}

/// Returns the size of a table (Execution, Table Instructions, table.size).
pub fn table_size(code: &Code, state: &mut State, call: &Call, x: u32) -> Result<Paid, Fault>
    requires { RestsSomeBefore (at_rest code.now state.old call.now) (Table (table.Size x)) }
    ensures { HasResult (at_rest code.now state.old call.now) (Table (table.Size x)) 0
        (store_with code.now state.new) result }
{
    let address = table_at(code, call, x);
    measure_table(state, address, call.position.fuel)
}

/// Adds entries to a table (Execution, Table Instructions, table.grow).
pub fn table_grow(code: &Code, state: &mut State, call: &Call, x: u32) -> Result<Paid, Fault>
    requires { RestsSomeBefore (at_rest code.now state.old call.now) (Table (table.Grow x)) }
    ensures { HasResult (at_rest code.now state.old call.now) (Table (table.Grow x)) 2
        (store_with code.now state.new) result }
{
    let address = table_at(code, call, x);
    let cell = operand(call, 1);
    let count = integer(call, 0);
    grow_table(state, address, cell, count, call.position.fuel)
}

/// Fills entries of a table with a reference (Execution, Table Instructions, table.fill).
pub fn table_fill(code: &Code, state: &mut State, call: &Call, x: u32) -> Result<Paid, Fault>
    requires { RestsSomeBefore (at_rest code.now state.old call.now) (Table (table.Fill x)) }
    ensures { HasResult (at_rest code.now state.old call.now) (Table (table.Fill x)) 3
        (store_with code.now state.new) result }
{
    let address = table_at(code, call, x);
    let offset = integer(call, 2);
    let cell = operand(call, 1);
    let count = integer(call, 0);
    fill_table(state, address, offset, cell, count, call.position.fuel)
}

/// Copies entries of a table into the same or another table (Execution, Table Instructions, table.copy).
pub fn table_copy(
    code: &Code,
    state: &mut State,
    call: &Call,
    x: u32,
    y: u32,
) -> Result<Paid, Fault>
    requires { RestsSomeBefore (at_rest code.now state.old call.now) (Table (table.Copy x y)) }
    ensures { HasResult (at_rest code.now state.old call.now) (Table (table.Copy x y)) 3
        (store_with code.now state.new) result }
{
    let address = table_at(code, call, x);
    let other = table_at(code, call, y);
    let target = integer(call, 2);
    let from = integer(call, 1);
    let count = integer(call, 0);
    copy_table(
        state,
        address,
        other,
        target,
        from,
        count,
        call.position.fuel,
    )
}

/// Copies references of an element segment into a table (Execution, Table Instructions, table.init).
pub fn table_init(
    code: &Code,
    state: &mut State,
    call: &Call,
    segment: u32,
    x: u32,
) -> Result<Paid, Fault>
    requires { RestsSomeBefore (at_rest code.now state.old call.now)
        (Table (table.Init segment x)) }
    ensures { HasResult (at_rest code.now state.old call.now) (Table (table.Init segment x)) 3
        (store_with code.now state.new) result }
{
    let address = table_at(code, call, x);
    let source = elements_at(code, call, segment);
    let target = integer(call, 2);
    let from = integer(call, 1);
    let count = integer(call, 0);
    init_table(
        state,
        address,
        source,
        target,
        from,
        count,
        call.position.fuel,
    )
}

/// Drops the references of an element segment (Execution, Table Instructions, elem.drop).
pub fn elem_drop(code: &Code, state: &mut State, call: &Call, segment: u32) -> Result<Paid, Fault>
    requires { RestsSomeBefore (at_rest code.now state.old call.now)
        (Table (table.ElemDrop segment)) }
    ensures { HasResult (at_rest code.now state.old call.now) (Table (table.ElemDrop segment)) 0
        (store_with code.now state.new) result }
{
    let address = elements_at(code, call, segment);
    drop_elements(state, address, call.position.fuel)
}
