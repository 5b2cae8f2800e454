ghost use Rattle.std.specs.Prelude.{◌<◌, length};
ghost use Rattle.meaning.specs.execution.Memories.{can_grow, copy_bytes, fill_bytes};
ghost use Rattle.meaning.specs.validation.Types.{most_pages};
ghost use Rattle.simulation.specs.Bulk.{grown_memory, written_memory};
ghost use Rattle.store.specs.Contents.{Contents, store_with};
ghost use Rattle.store.specs.State.{data_of, memory_of};
ghost use Rattle.effects.specs.Outcomes.{Gives};

use crate::payment::{Fault, Paid, grown, pay, written};
use bulkops::{
    mem_copy, mem_copy_cost, mem_fill, mem_fill_cost, mem_grow, mem_grow_cost, mem_init,
    mem_init_cost,
};
use store::State;

/// Appends `pages` pages of zeros to a memory. The result is the size before, in pages. If the memory may not have that many,
/// the result is -1, for one unit of fuel (Execution, Memory Instructions, memory.grow).
///
/// A memory has at most 2^16 pages, no more than its type allows, and no more than the state allows.
pub fn grow_memory(state: &mut State, address: u32, pages: u32, fuel: u64) -> Result<Paid, Fault>
    requires { address < length state.old.contents.memories }
    ensures { (code : Contents) → Gives
        (grown_memory (store_with code state.old) address (memory_of state.old address) pages
        (can_grow state.old.bounds.pages most_pages (memory_of state.old address).limits pages))
        (store_with code state.old) (store_with code state.new) fuel result }
{
    let left = pay(fuel, mem_grow_cost(state, address, pages))?;
    grown(mem_grow(state, address, pages), left)
}

/// Fills `count` bytes of a memory from an offset on with the low byte of a value. If they reach past the end, traps for one
/// unit of fuel and writes nothing (Execution, Memory Instructions, memory.fill).
pub fn fill_memory(
    state: &mut State,
    address: u32,
    offset: u32,
    value: u32,
    count: u32,
    fuel: u64,
) -> Result<Paid, Fault>
    requires { address < length state.old.contents.memories }
    ensures { (code : Contents) → Gives
        (written_memory (store_with code state.old) count address (memory_of state.old address)
        (fill_bytes (memory_of state.old address).bytes offset value count))
        (store_with code state.old) (store_with code state.new) fuel result }
{
    let left = pay(fuel, mem_fill_cost(state, address, offset, count))?;
    written(mem_fill(state, address, offset, value, count), left)
}

/// Copies `count` bytes within a memory, as if all were read before any is written. If they reach past the end, traps for one
/// unit of fuel and writes nothing (Execution, Memory Instructions, memory.copy).
pub fn copy_memory(
    state: &mut State,
    address: u32,
    target: u32,
    from: u32,
    count: u32,
    fuel: u64,
) -> Result<Paid, Fault>
    requires { address < length state.old.contents.memories }
    ensures { (code : Contents) → Gives
        (written_memory (store_with code state.old) count address (memory_of state.old address)
        (copy_bytes (memory_of state.old address).bytes (memory_of state.old address).bytes target
        from count))
        (store_with code state.old) (store_with code state.new) fuel result }
{
    let left = pay(fuel, mem_copy_cost(state, address, target, from, count))?;
    written(mem_copy(state, address, target, from, count), left)
}

/// Copies `count` bytes of a data segment into a memory. If they reach past the end of either, traps for one unit of fuel and
/// writes nothing (Execution, Memory Instructions, memory.init).
pub fn init_memory(
    state: &mut State,
    address: u32,
    segment: u32,
    target: u32,
    from: u32,
    count: u32,
    fuel: u64,
) -> Result<Paid, Fault>
    requires there { address < length state.old.contents.memories }
    requires source { segment < length state.old.contents.datas }
    ensures { (code : Contents) → Gives
        (written_memory (store_with code state.old) count address (memory_of state.old address)
        (copy_bytes (memory_of state.old address).bytes (data_of state.old segment).bytes target
        from count))
        (store_with code state.old) (store_with code state.new) fuel result }
{
    let cost = mem_init_cost(state, address, segment, target, from, count);
    let left = pay(fuel, cost)?;
    written(mem_init(state, address, segment, target, from, count), left)
}
