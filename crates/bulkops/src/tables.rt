ghost use Rattle.std.specs.Prelude.{◌≡◌, ◌<◌, ◌≤◌, [], length};
ghost use Rattle.core_types.specs.declared.outcome.Val.{Val as AnyVal};
ghost use Rattle.meaning.specs.execution.Costs.{entries_cost as cost_of_entries};
ghost use Rattle.meaning.specs.execution.Tables.{copy_entries, fill_entries, grow_entries, most_entries, read_entry, write_entry};
ghost use Rattle.meaning.specs.execution.Values.{type_of};
ghost use Rattle.meaning.specs.validation.Types.{reference_type};
ghost use Rattle.store.specs.State.{elements_of, put_elements, put_table, table_of};
ghost use Rattle.bulkops.specs.Accesses.{Wrote, price_if, price_of_access};
ghost use Rattle.bulkops.specs.Growth.{DidGrow, price_of_growth, size_to_grow as size_by};
ghost use Rattle.bulkops.specs.Tables.{state_with_entries};

use crate::bulk::is_within;
use crate::growth::size_to_grow;
use core_types::{Trap, Val};
use std::alloc::AllocError;
use store::State;

// Returns the cost of an instruction on `count` entries, by whether it stays in bounds.
fn entries_cost(fits: bool, count: u32) -> u64
    ensures price { result ≡ price_if fits (cost_of_entries count) }
    ensures some { 1 ≤ result }
{
    if fits { 1 + count as u64 / 8 } else { 1 }
}

// Returns the number of entries of a table.
fn length_of(state: &State, address: u32) -> usize
    requires { address < length state.now.contents.tables }
    ensures { result ≡ length (table_of state.now address).entries }
{
    match state.table(address) {
        Some(table) => table.entries().len(),
        None => 0,
    }
}

// Returns the number of references of an element segment.
fn reference_count(state: &State, segment: u32) -> usize
    requires { segment < length state.now.contents.elements }
    ensures { result ≡ length (elements_of state.now segment).references }
{
    match state.element_segment(segment) {
        Some(source) => source.references().len(),
        None => 0,
    }
}

/// Returns the entry of a table at an offset, or its trap (table.get).
pub fn table_get(state: &State, address: u32, offset: u32) -> Result<Val, Trap>
    requires { address < length state.now.contents.tables }
    ensures { result ≡ read_entry (table_of state.now address).entries offset }
{
    match state.table(address) {
        Some(table) => match table.entries().get(offset as usize) {
            Some(value) => Ok(*value),
            None => Err(Trap::TableBounds),
        },
        None => Err(Trap::TableBounds),
    }
}

/// Sets the entry of a table at an offset to a value of its type, or traps and changes nothing (table.set).
pub fn table_set(state: &mut State, address: u32, offset: u32, value: Val) -> Result<(), Trap>
    requires there { address < length state.old.contents.tables }
    requires typed { type_of value ≡ reference_type (table_of state.old address).ty.element }
    ensures { Wrote result state.old state.new
        (state_with_entries state.old address
        (write_entry (table_of state.old address).entries offset value)) }
{
    if offset as usize >= length_of(state, address) {
        return Err(Trap::TableBounds);
    }
    state.set_entry(address, offset, value);
    Ok(())
}

/// Returns the size of a table, in entries (table.size).
pub fn table_size(state: &State, address: u32) -> u32
    requires { address < length state.now.contents.tables }
    ensures { result ≡ (table_of state.now address).ty.limits.min }
{
    match state.table(address) {
        Some(table) => table.ty().limits.min,
        None => 0,
    }
}

/// Returns the cost of a fill (table.fill).
pub fn table_fill_cost(state: &State, address: u32, offset: u32, count: u32) -> u64
    requires { address < length state.now.contents.tables }
    ensures price { (value : AnyVal)
        → result ≡ price_of_access (fill_entries (table_of state.now address).entries offset value
        count) (cost_of_entries count) }
    ensures some { 1 ≤ result }
{
    entries_cost(is_within(length_of(state, address), offset, count), count)
}

/// Fills `count` entries of a table with a value of its type, or traps and changes nothing (table.fill).
pub fn table_fill(
    state: &mut State,
    address: u32,
    offset: u32,
    value: Val,
    count: u32,
) -> Result<(), Trap>
    requires there { address < length state.old.contents.tables }
    requires typed { type_of value ≡ reference_type (table_of state.old address).ty.element }
    ensures { Wrote result state.old state.new
        (state_with_entries state.old address
        (fill_entries (table_of state.old address).entries offset value count)) }
{
    if !is_within(length_of(state, address), offset, count) {
        return Err(Trap::TableBounds);
    }
    state.fill_entries(address, offset, value, count);
    Ok(())
}

/// Returns the cost of a copy from one table to another, or within one (table.copy).
pub fn table_copy_cost(
    state: &State,
    into: u32,
    source: u32,
    target: u32,
    from: u32,
    count: u32,
) -> u64
    requires target { into < length state.now.contents.tables }
    requires source { source < length state.now.contents.tables }
    ensures price { result ≡ price_of_access
        (copy_entries (table_of state.now into).entries (table_of state.now source).entries target
        from count) (cost_of_entries count) }
    ensures some { 1 ≤ result }
{
    let reads = is_within(length_of(state, source), from, count);
    let writes = is_within(length_of(state, into), target, count);
    entries_cost(reads && writes, count)
}

/// Copies `count` entries of a table to the same or another table, as if all were read before any is written, or traps and
/// changes nothing (table.copy). Both tables are named by their addresses, which may be equal.
pub fn table_copy(
    state: &mut State,
    into: u32,
    source: u32,
    target: u32,
    from: u32,
    count: u32,
) -> Result<(), Trap>
    requires target { into < length state.old.contents.tables }
    requires source { source < length state.old.contents.tables }
    ensures { Wrote result state.old state.new
        (state_with_entries state.old into
        (copy_entries (table_of state.old into).entries (table_of state.old source).entries target
        from count)) }
{
    if !is_within(length_of(state, source), from, count) {
        return Err(Trap::TableBounds);
    }
    if !is_within(length_of(state, into), target, count) {
        return Err(Trap::TableBounds);
    }
    state.copy_entries(into, source, target, from, count);
    Ok(())
}

/// Returns the cost of a copy from an element segment (table.init).
pub fn table_init_cost(
    state: &State,
    into: u32,
    segment: u32,
    target: u32,
    from: u32,
    count: u32,
) -> u64
    requires target { into < length state.now.contents.tables }
    requires segment { segment < length state.now.contents.elements }
    ensures price { result ≡ price_of_access
        (copy_entries (table_of state.now into).entries (elements_of state.now segment).references
        target from count) (cost_of_entries count) }
    ensures some { 1 ≤ result }
{
    let reads = is_within(reference_count(state, segment), from, count);
    let writes = is_within(length_of(state, into), target, count);
    entries_cost(reads && writes, count)
}

/// Copies `count` references of an element segment into a table, or traps and changes nothing (table.init).
pub fn table_init(
    state: &mut State,
    into: u32,
    segment: u32,
    target: u32,
    from: u32,
    count: u32,
) -> Result<(), Trap>
    requires target { into < length state.old.contents.tables }
    requires segment { segment < length state.old.contents.elements }
    ensures { Wrote result state.old state.new
        (state_with_entries state.old into
        (copy_entries (table_of state.old into).entries (elements_of state.old segment).references
        target from count)) }
{
    if !is_within(reference_count(state, segment), from, count) {
        return Err(Trap::TableBounds);
    }
    if !is_within(length_of(state, into), target, count) {
        return Err(Trap::TableBounds);
    }
    state.init_entries(into, segment, target, from, count);
    Ok(())
}

// Returns the size of a table, if it may grow by `count` more entries.
fn size_for(state: &State, address: u32, count: u32) -> Option<u32>
    requires { address < length state.now.contents.tables }
    ensures { result ≡ size_by state.now.bounds.entries most_entries
        (table_of state.now address).ty.limits count }
{
    let table = state.table(address)?;
    size_to_grow(state.entries(), u32::MAX, table.ty().limits, count)
}

/// Returns the cost of a growth (table.grow).
pub fn table_grow_cost(state: &State, address: u32, count: u32) -> u64
    requires { address < length state.now.contents.tables }
    ensures price { result ≡ price_of_growth (size_by state.now.bounds.entries most_entries
        (table_of state.now address).ty.limits count) (cost_of_entries count) }
    ensures some { 1 ≤ result }
{
    entries_cost(size_for(state, address, count).is_some(), count)
}

/// Appends entries to a table, with a value of its type, and returns its size before. If the table may not grow by that many,
/// returns -1 and changes nothing (table.grow). If an allocation fails for the entries, nothing has changed.
pub fn table_grow(
    state: &mut State,
    address: u32,
    value: Val,
    count: u32,
) -> Result<u32, AllocError>
    requires there { address < length state.old.contents.tables }
    requires typed { type_of value ≡ reference_type (table_of state.old address).ty.element }
    ensures { DidGrow (size_by state.old.bounds.entries most_entries
        (table_of state.old address).ty.limits count) result state.old state.new
        (put_table state.old address (grow_entries (table_of state.old address) value count)) }
{
    match size_for(state, address, count) {
        Some(size) => {
            state.grow_table(address, value, count)?;
            Ok(size)
        }
        None => Ok(u32::MAX),
    }
}

/// Removes the references of an element segment, and frees their memory (elem.drop).
pub fn elem_drop(state: &mut State, segment: u32)
    requires { segment < length state.old.contents.elements }
    ensures { state.new ≡ put_elements state.old segment
        (record { ty = (elements_of state.old segment).ty; references = [] }) }
{
    state.drop_elements(segment);
}
