ghost use Rattle.std.specs.Prelude.{◌≡◌, ◌<◌, ◌≤◌, ◌^◌, ℕ, [], length};
ghost use Rattle.meaning.specs.execution.Costs.{bulk_cost as cost_of_bytes, growth_cost as cost_of_pages};
ghost use Rattle.meaning.specs.execution.Memories.{copy_bytes as copy_of, fill_bytes as fill_of, grow_by, load_from, store_into};
ghost use Rattle.meaning.specs.validation.Types.{most_pages};
ghost use Rattle.meaning.specs.validation.Instructions.{store_width};
ghost use Rattle.store.specs.State.{data_of, memory_of, put_data, put_memory};
ghost use Rattle.bulkops.specs.Accesses.{Wrote, price_if, price_of_access};
ghost use Rattle.bulkops.specs.Growth.{DidGrow, price_of_growth, size_to_grow as size_by};
ghost use Rattle.bulkops.specs.Memories.{state_with};

use crate::bulk::{copy_bytes, fill_bytes, init_bytes, is_within};
use crate::growth::size_to_grow;
use crate::loads::load;
use crate::stores::store;
use core_types::{LoadOp, MAX_PAGES, StoreOp, Trap, Val};
use std::alloc::AllocError;
use store::State;

/// Returns the value of a load from a memory at an offset, or its trap (Execution, Memory Instructions).
///
/// The memory must exist. The offset is the sum of an operand and the immediate offset of the instruction.
pub fn mem_load(state: &State, address: u32, op: LoadOp, offset: u64) -> Result<Val, Trap>
    requires there { address < length state.now.contents.memories }
    requires offset { offset < 2 ^ 33 }
    ensures { result ≡ load_from op (memory_of state.now address).bytes offset }
{
    match state.memory(address) {
        Some(memory) => load(op, memory.bytes(), offset),
        None => Err(Trap::MemoryBounds),
    }
}

/// Writes a number, or its low bytes, into a memory at an offset, or traps and changes nothing (Execution, Memory Instructions).
///
/// The memory must exist. The offset is the sum of an operand and the immediate offset of the instruction.
pub fn mem_store(
    state: &mut State,
    address: u32,
    op: StoreOp,
    offset: u64,
    n: u64,
) -> Result<(), Trap>
    requires there { address < length state.old.contents.memories }
    requires offset { offset < 2 ^ 33 }
    ensures { Wrote result state.old state.new
        (state_with state.old address
        (store_into (memory_of state.old address).bytes offset (store_width op) n)) }
{
    let bytes = state.memory_mut(address);
    store(op, bytes, offset, n)
}

// Returns the cost of an instruction on `count` bytes, by whether it stays in bounds.
fn bulk_cost(fits: bool, count: u32) -> u64
    ensures price { result ≡ price_if fits (cost_of_bytes count) }
    ensures some { 1 ≤ result }
{
    if fits { 1 + count as u64 / 64 } else { 1 }
}

/// Returns the cost of a fill (memory.fill).
pub fn mem_fill_cost(state: &State, address: u32, offset: u32, count: u32) -> u64
    requires { address < length state.now.contents.memories }
    ensures price { (value : ℕ)
        → result ≡ price_of_access (fill_of (memory_of state.now address).bytes offset value count)
        (cost_of_bytes count) }
    ensures some { 1 ≤ result }
{
    match state.memory(address) {
        Some(memory) => bulk_cost(is_within(memory.bytes().len(), offset, count), count),
        None => 1,
    }
}

/// Fills `count` bytes of a memory with the low byte of a value, or traps and changes nothing (memory.fill).
pub fn mem_fill(
    state: &mut State,
    address: u32,
    offset: u32,
    value: u32,
    count: u32,
) -> Result<(), Trap>
    requires { address < length state.old.contents.memories }
    ensures { Wrote result state.old state.new
        (state_with state.old address
        (fill_of (memory_of state.old address).bytes offset value count)) }
{
    let bytes = state.memory_mut(address);
    fill_bytes(bytes, offset, value, count)
}

/// Returns the cost of a copy within a memory (memory.copy).
pub fn mem_copy_cost(state: &State, address: u32, target: u32, from: u32, count: u32) -> u64
    requires { address < length state.now.contents.memories }
    ensures price { result ≡ price_of_access
        (copy_of (memory_of state.now address).bytes (memory_of state.now address).bytes target from
        count) (cost_of_bytes count) }
    ensures some { 1 ≤ result }
{
    match state.memory(address) {
        Some(memory) => {
            let size = memory.bytes().len();
            bulk_cost(
                is_within(size, from, count) && is_within(size, target, count),
                count,
            )
        }
        None => 1,
    }
}

/// Copies `count` bytes within a memory, as if all were read before any is written, or traps and changes nothing (memory.copy).
pub fn mem_copy(
    state: &mut State,
    address: u32,
    target: u32,
    from: u32,
    count: u32,
) -> Result<(), Trap>
    requires { address < length state.old.contents.memories }
    ensures { Wrote result state.old state.new
        (state_with state.old address
        (copy_of (memory_of state.old address).bytes (memory_of state.old address).bytes target from
        count)) }
{
    let bytes = state.memory_mut(address);
    copy_bytes(bytes, target, from, count)
}

/// Returns the cost of a copy from a data segment (memory.init).
pub fn mem_init_cost(
    state: &State,
    address: u32,
    segment: u32,
    target: u32,
    from: u32,
    count: u32,
) -> u64
    requires memory { address < length state.now.contents.memories }
    requires segment { segment < length state.now.contents.datas }
    ensures price { result ≡ price_of_access
        (copy_of (memory_of state.now address).bytes (data_of state.now segment).bytes target from
        count) (cost_of_bytes count) }
    ensures some { 1 ≤ result }
{
    match (state.memory(address), state.data_segment(segment)) {
        (Some(memory), Some(source)) => {
            let reads = is_within(source.bytes().len(), from, count);
            bulk_cost(
                reads && is_within(memory.bytes().len(), target, count),
                count,
            )
        }
        _ => 1,
    }
}

/// Copies `count` bytes of a data segment into a memory, or traps and changes nothing (memory.init).
pub fn mem_init(
    state: &mut State,
    address: u32,
    segment: u32,
    target: u32,
    from: u32,
    count: u32,
) -> Result<(), Trap>
    requires memory { address < length state.old.contents.memories }
    requires segment { segment < length state.old.contents.datas }
    ensures { Wrote result state.old state.new
        (state_with state.old address
        (copy_of (memory_of state.old address).bytes (data_of state.old segment).bytes target from
        count)) }
{
    let (bytes, source) = state.memory_and_data(address, segment);
    init_bytes(bytes, source, target, from, count)
}

/// Returns the size of a memory, in pages (memory.size).
pub fn mem_size(state: &State, address: u32) -> u32
    requires { address < length state.now.contents.memories }
    ensures { result ≡ (memory_of state.now address).limits.min }
{
    match state.memory(address) {
        Some(memory) => memory.limits().min,
        None => 0,
    }
}

// Returns the size of a memory, in pages, if it may grow by `pages` more.
fn size_for(state: &State, address: u32, pages: u32) -> Option<u32>
    requires { address < length state.now.contents.memories }
    ensures { result ≡ size_by state.now.bounds.pages most_pages (memory_of state.now
        address).limits pages }
{
    let memory = state.memory(address)?;
    size_to_grow(state.pages(), MAX_PAGES, memory.limits(), pages)
}

/// Returns the cost of a growth (memory.grow).
pub fn mem_grow_cost(state: &State, address: u32, pages: u32) -> u64
    requires { address < length state.now.contents.memories }
    ensures price { result ≡ price_of_growth (size_by state.now.bounds.pages most_pages
        (memory_of state.now address).limits pages) (cost_of_pages pages) }
    ensures some { 1 ≤ result }
{
    match size_for(state, address, pages) {
        Some(_) => 1 + 1024 * pages as u64,
        None => 1,
    }
}

/// Appends pages of zeros to a memory, and returns its size before, in pages. If the memory may not grow by that many, returns
/// -1 and changes nothing (memory.grow). If an allocation fails for the pages, nothing has changed.
pub fn mem_grow(state: &mut State, address: u32, pages: u32) -> Result<u32, AllocError>
    requires { address < length state.old.contents.memories }
    ensures { DidGrow (size_by state.old.bounds.pages most_pages (memory_of state.old
        address).limits pages) result state.old state.new (put_memory state.old address (grow_by
        (memory_of state.old address) pages)) }
{
    match size_for(state, address, pages) {
        Some(size) => {
            state.grow_memory(address, pages)?;
            Ok(size)
        }
        None => Ok(u32::MAX),
    }
}

/// Removes the bytes of a data segment, and frees their memory (data.drop).
pub fn data_drop(state: &mut State, segment: u32)
    requires { segment < length state.old.contents.datas }
    ensures { state.new ≡ put_data state.old segment (record { bytes = [] }) }
{
    state.drop_data(segment);
}
