ghost use Rattle.std.specs.Prelude.{◌≡◌, ◌<◌, [], ◌∷◌, length};
ghost use Rattle.core_types.specs.declared.outcome.Val.TheVariants as value;
ghost use Rattle.meaning.specs.execution.Costs.{entries_cost};
ghost use Rattle.meaning.specs.execution.Memories.{can_grow};
ghost use Rattle.meaning.specs.execution.Values.{type_of};
ghost use Rattle.meaning.specs.execution.Tables.{copy_entries, fill_entries, most_entries, read_entry, write_entry};
ghost use Rattle.cells.specs.Cells.{IsCellOf, value_of as value_at};
ghost use Rattle.simulation.specs.Outcomes.{made};
ghost use Rattle.simulation.specs.Tables.{entry_of, grown_table, read_outcome, written_table};
ghost use Rattle.store.specs.Contents.{Contents, store_with};
ghost use Rattle.store.specs.State.{elements_of, table_of};
ghost use Rattle.effects.specs.Outcomes.{Gives};

use crate::payment::{Fault, Paid, grown, pay, written};
use bulkops::{
    table_copy, table_copy_cost, table_fill, table_fill_cost, table_get, table_grow,
    table_grow_cost, table_init, table_init_cost, table_set, table_size,
};
use cells::{cell_of, value_of};
use core_types::{RefType, Val, ValType};
use store::State;

// Returns the entry of a table that a cell represents.
fn entry(state: &State, address: u32, cell: u64) -> Val
    requires there { address < length state.now.contents.tables }
    requires cell { IsCellOf (entry_of (table_of state.now address)) cell }
    ensures entry { result ≡ value_at (entry_of (table_of state.now address)) cell }
    ensures typed { type_of result ≡ entry_of (table_of state.now address) }
{
    let Some(table) = state.table(address) else {
        unreachable!()
    };
    match table.ty().element {
        RefType::FuncRef => value_of(ValType::FuncRef, cell),
        RefType::ExternRef => value_of(ValType::ExternRef, cell),
    }
}

/// Reads the entry of a table at an offset, for one unit of fuel, or traps if it is past the end (Execution, Table Instructions,
/// table.get).
pub fn get_entry(state: &State, address: u32, offset: u32, fuel: u64) -> Result<Paid, Fault>
    requires { address < length state.now.contents.tables }
    ensures { (code : Contents) → Gives
        (read_outcome (store_with code state.now)
        (read_entry (table_of state.now address).entries offset))
        (store_with code state.now) (store_with code state.now) fuel result }
{
    let left = pay(fuel, 1)?;
    match table_get(state, address, offset) {
        Ok(value) => Ok(Paid {
            fuel: left,
            result: Some(cell_of(value)),
        }),
        Err(trap) => Err(Fault::Traps(trap)),
    }
}

/// Sets the entry of a table at an offset, for one unit of fuel, or traps if it is past the end (Execution, Table Instructions,
/// table.set).
pub fn set_entry(
    state: &mut State,
    address: u32,
    offset: u32,
    cell: u64,
    fuel: u64,
) -> Result<Paid, Fault>
    requires there { address < length state.old.contents.tables }
    requires cell { IsCellOf (entry_of (table_of state.old address)) cell }
    ensures { (code : Contents) → Gives
        (written_table (store_with code state.old) 1 address (table_of state.old address)
        (write_entry (table_of state.old address).entries offset
        (value_at (entry_of (table_of state.old address)) cell)))
        (store_with code state.old) (store_with code state.new) fuel result }
{
    let left = pay(fuel, 1)?;
    let value = entry(state, address, cell);
    written(table_set(state, address, offset, value), left)
}

/// Returns the number of entries of a table, for one unit of fuel (Execution, Table Instructions, table.size).
pub fn measure_table(state: &State, address: u32, fuel: u64) -> Result<Paid, Fault>
    requires { address < length state.now.contents.tables }
    ensures { (code : Contents) → Gives
        (made 1 (store_with code state.now)
        (value.I32 (table_of state.now address).ty.limits.min ∷ []))
        (store_with code state.now) (store_with code state.now) fuel result }
{
    let left = pay(fuel, 1)?;
    Ok(Paid {
        fuel: left,
        result: Some(u64::from(table_size(state, address))),
    })
}

/// Appends `count` entries with the value of a cell to a table. The result is the size before. If the table may not have that
/// many, the result is -1, for one unit of fuel (Execution, Table Instructions, table.grow).
///
/// A table has at most 2^32 - 1 entries, no more than its type allows, and no more than the state allows.
pub fn grow_table(
    state: &mut State,
    address: u32,
    cell: u64,
    count: u32,
    fuel: u64,
) -> Result<Paid, Fault>
    requires there { address < length state.old.contents.tables }
    requires cell { IsCellOf (entry_of (table_of state.old address)) cell }
    ensures { (code : Contents) → Gives
        (grown_table (store_with code state.old) address (table_of state.old address)
        (value_at (entry_of (table_of state.old address)) cell) count
        (can_grow state.old.bounds.entries most_entries (table_of state.old address).ty.limits
        count))
        (store_with code state.old) (store_with code state.new) fuel result }
{
    let left = pay(fuel, table_grow_cost(state, address, count))?;
    let value = entry(state, address, cell);
    grown(table_grow(state, address, value, count), left)
}

/// Fills `count` entries of a table from an offset on with the value of a cell. If they reach past the end, traps for one unit
/// of fuel and writes nothing (Execution, Table Instructions, table.fill).
pub fn fill_table(
    state: &mut State,
    address: u32,
    offset: u32,
    cell: u64,
    count: u32,
    fuel: u64,
) -> Result<Paid, Fault>
    requires there { address < length state.old.contents.tables }
    requires cell { IsCellOf (entry_of (table_of state.old address)) cell }
    ensures { (code : Contents) → Gives
        (written_table (store_with code state.old) (entries_cost count) address
        (table_of state.old address)
        (fill_entries (table_of state.old address).entries offset
        (value_at (entry_of (table_of state.old address)) cell) count))
        (store_with code state.old) (store_with code state.new) fuel result }
{
    let left = pay(fuel, table_fill_cost(state, address, offset, count))?;
    let value = entry(state, address, cell);
    written(table_fill(state, address, offset, value, count), left)
}

/// Copies `count` entries of a table into the same or another table, as if all were read before any is written. If they reach
/// past the end of either, traps for one unit of fuel and writes nothing (Execution, Table Instructions, table.copy).
pub fn copy_table(
    state: &mut State,
    address: u32,
    other: u32,
    target: u32,
    from: u32,
    count: u32,
    fuel: u64,
) -> Result<Paid, Fault>
    requires there { address < length state.old.contents.tables }
    requires source { other < length state.old.contents.tables }
    ensures { (code : Contents) → Gives
        (written_table (store_with code state.old) (entries_cost count) address
        (table_of state.old address)
        (copy_entries (table_of state.old address).entries (table_of state.old other).entries target
        from count))
        (store_with code state.old) (store_with code state.new) fuel result }
{
    let cost = table_copy_cost(state, address, other, target, from, count);
    let left = pay(fuel, cost)?;
    written(table_copy(state, address, other, target, from, count), left)
}

/// Copies `count` references of an element segment into a table. If they reach past the end of either, traps for one unit of
/// fuel and writes nothing (Execution, Table Instructions, table.init).
pub fn init_table(
    state: &mut State,
    address: u32,
    segment: u32,
    target: u32,
    from: u32,
    count: u32,
    fuel: u64,
) -> Result<Paid, Fault>
    requires there { address < length state.old.contents.tables }
    requires source { segment < length state.old.contents.elements }
    ensures { (code : Contents) → Gives
        (written_table (store_with code state.old) (entries_cost count) address
        (table_of state.old address)
        (copy_entries (table_of state.old address).entries (elements_of state.old
        segment).references target from count))
        (store_with code state.old) (store_with code state.new) fuel result }
{
    let cost = table_init_cost(state, address, segment, target, from, count);
    let left = pay(fuel, cost)?;
    written(
        table_init(state, address, segment, target, from, count),
        left,
    )
}
