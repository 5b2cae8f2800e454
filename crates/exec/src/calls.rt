ghost use Rattle.std.specs.Prelude.{◌≡◌, ◌<◌, ◌++◌, length, replicate, slice_get, Some, None, OnErr, OnOk};
ghost use Rattle.soundness.specs.Stores.{StoreIsValid};
ghost use Rattle.store.specs.declared.instances.Instance.{Instance as AnyInstance};
ghost use Rattle.exec.specs.Resting.{CallStops, RestsSome, RunsFrom, at_rest, store_around};

use crate::call::{CELL_BYTES, Call};
use crate::instructions::step;
use core_types::Limits;
use interpreter::{Stop, Surroundings, run};
use sidetable::SideTables;
use std::alloc::AllocError;
use store::{Code, Instance, State};

// Runs code of an instance that has a memory. Meanwhile the memory is taken out of the state.
fn run_with_memory(
    code: &Code,
    instance: &Instance,
    address: u32,
    state: &mut State,
    bound: u64,
    call: &mut Call,
) -> Stop
    requires rests { RestsSome bound (at_rest code.now state.old call.old) }
    requires there { slice_get code.now.instances call.old.position.instance ≡ Some
        instance.now }
    requires memory { slice_get instance.now.addresses.memories.items 0 ≡ Some address }
    ensures runs { RunsFrom bound (at_rest code.now state.old call.old) result
        (at_rest code.now state.new call.new) }
    ensures size { length call.new.cells.items ≡ length call.old.cells.items }
{
    let mut memory = state.take_memory(address);
    let around = Surroundings {
        code,
        instance,
        flat: instance.loaded.as_ref().flat(),
        number: call.position.instance,
        address: Some(address),
        limits: memory.limits(),
        bound,
    };
    let stop = run(
        around,
        state,
        memory.bytes_mut(),
        call.cells.as_mut_slice(),
        &mut call.callers,
        &mut call.position,
    );
    state.put_memory(address, memory);
    stop
}

// Runs code of an instance that has no memory.
fn run_without_memory(
    code: &Code,
    instance: &Instance,
    state: &mut State,
    bound: u64,
    call: &mut Call,
) -> Stop
    requires rests { RestsSome bound (at_rest code.now state.old call.old) }
    requires there { slice_get code.now.instances call.old.position.instance ≡ Some
        instance.now }
    requires memory { slice_get instance.now.addresses.memories.items 0 ≡ None }
    ensures runs { RunsFrom bound (at_rest code.now state.old call.old) result
        (at_rest code.now state.new call.new) }
    ensures size { length call.new.cells.items ≡ length call.old.cells.items }
{
    let around = Surroundings {
        code,
        instance,
        flat: instance.loaded.as_ref().flat(),
        number: call.position.instance,
        address: None,
        limits: Limits { min: 0, max: None },
        bound,
    };
    run(
        around,
        state,
        &mut [],
        call.cells.as_mut_slice(),
        &mut call.callers,
        &mut call.position,
    )
}

// Runs code of the instance of the innermost frame.
fn run_code(code: &Code, state: &mut State, bound: u64, call: &mut Call) -> Stop
    requires rests { RestsSome bound (at_rest code.now state.old call.old) }
    ensures runs { RunsFrom bound (at_rest code.now state.old call.old) result
        (at_rest code.now state.new call.new) }
    ensures size { length call.new.cells.items ≡ length call.old.cells.items }
{
    let Some(instance) = code.instance(call.position.instance) else {
        unreachable!()
    };
    match instance.addresses.memories.first().copied() {
        Some(address) => run_with_memory(code, instance, address, state, bound, call),
        None => run_without_memory(code, instance, state, bound, call),
    }
}

// Doubles the number of cells. If memory or the quota runs out, the number is unchanged.
fn grow(state: &mut State, cells: &mut Vec<u64>) -> Result<(), AllocError>
    ensures state { state.new ≡ state.old }
    ensures grown { OnOk result (cells.new.items ≡ cells.old.items ++ replicate
        (length cells.old.items) 0) }
    ensures unchanged { OnErr result (cells.new.items ≡ cells.old.items) }
{
    let size = cells.len() * 2;
    state.borrow(CELL_BYTES.saturating_mul(size as u64))?;
    cells.resize(size, 0)
}

// Returns the side tables of the module whose code is next.
fn tables_of<'a>(code: &'a Code, call: &Call) -> &'a SideTables
    requires { call.now.position.instance < length code.now.instances }
    ensures { (i : AnyInstance) → slice_get code.now.instances call.now.position.instance ≡ Some i
        → result.now ≡ i.loaded.value.flat.tables }
{
    let Some(instance) = code.instance(call.position.instance) else {
        unreachable!()
    };
    &instance.loaded.as_ref().flat().tables
}

/// Runs a call, in code of any instances, until it ends or stops (Execution, Instructions).
///
/// At most `bound` frames may be open. Cells are added as frames need them. If an allocation fails for cells, for a frame, or
/// for a table or a memory that grows, the call stops with `NoMemory`. It never stops with `NoRoom` or `Switches`, nor before an
/// instruction that the loop leaves to others. A call that stopped can be run again, from there and with the fuel left.
pub fn go_on(code: &Code, state: &mut State, bound: u64, call: &mut Call) -> Stop
    requires rests { RestsSome bound (at_rest code.now state.old call.old) }
    ensures concludes { CallStops bound (at_rest code.now state.old call.old) result
        (at_rest code.now state.new call.new) }
    ensures valid { StoreIsValid (store_around (at_rest code.now state.new call.new)) }
{
    loop {
        match run_code(code, state, bound, call) {
            Stop::Switches => {}
            Stop::NoRoom => {
                let Ok(()) = grow(state, &mut call.cells) else {
                    return Stop::NoMemory;
                };
            }
            Stop::LeavesOther(kind, n) => {
                match step(code, tables_of(code, call), state, kind, n, call) {
                    Ok(()) => {}
                    Err(stop) => return stop,
                }
            }
            stop => return stop,
        }
    }
}
