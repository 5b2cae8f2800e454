ghost use Rattle.std.specs.Prelude.{◌≡◌, ◌<◌, ◌∷◌, [], length, slice_get, MatchOption, None, Some};
ghost use Rattle.core_types.specs.declared.op.MemoryOp.TheVariants.{DataDrop as DataDropForm, Init as MemoryInitForm};
ghost use Rattle.core_types.specs.declared.op.PlainOp.TheVariants.{Memory as MemoryForm, Table as TableForm};
ghost use Rattle.core_types.specs.declared.op.TableOp.TheVariants.{ElemDrop as ElemDropForm, Init as TableInitForm};
ghost use Rattle.core_types.specs.declared.outcome.Val.TheVariants.{I32 as I32Value};
ghost use Rattle.meaning.specs.structure.Bodies.{Body, Empty, Then};
ghost use Rattle.meaning.specs.execution.Configurations.{Running};
ghost use Rattle.meaning.specs.execution.Effects.{data_at, elements_at, table_at};
ghost use Rattle.meaning.specs.execution.Runs.{NoHosts};
ghost use Rattle.meaning.specs.execution.Store.{Store as AnyStore, instance_of, locate};
ghost use Rattle.simulation.specs.Outcomes.{Outcome as AnyOutcome};
ghost use Rattle.effects.specs.Outcomes.{Gives};
ghost use Rattle.store.specs.Contents.{store_with};
ghost use Rattle.store.specs.State.{data_of, elements_of, memory_of, table_of};
ghost use Rattle.instantiate.specs.Tasks.{Passes, RunsTo, StepsOrEnds, frame_in, link_state};

use crate::link_end::TaskEnd;
use core_types::{Exhaustion, Module};
use effects::{Fault, Paid, drop_data, drop_elements, init_memory, init_table};
use exec::Outcome;
use fuel::Meter;
use store::{Addresses, Code, State};

/// A new instance whose segments are copied: the code of the store, the instance's number and addresses, and its module.
#[derive(Clone, Copy)]
pub struct Linked<'a> {
    pub code: &'a Code,
    pub instance: u32,
    pub addresses: &'a Addresses,
    pub module_read: &'a Module,
}

// Continues a link after an instruction, which is paid for, or ends it.
fn pass(answer: Result<Paid, Fault>, meter: &mut Meter) -> Result<(), TaskEnd>
    ensures passes { (o : AnyOutcome) (old new : AnyStore)
        → Gives o old new meter.old.left answer
        → Passes result o old new meter.old.left meter.new.left }
    ensures bound { meter.new.bound ≡ meter.old.bound }
    ensures frames { meter.new.frames ≡ meter.old.frames }
{
    match answer {
        Ok(paid) => {
            meter.set(paid.fuel);
            Ok(())
        }
        Err(Fault::Traps(trap)) => {
            let _ = meter.try_spend(1);
            Err(TaskEnd::Ended(Outcome::Trap(trap)))
        }
        Err(Fault::NoFuel) => Err(TaskEnd::Ended(Outcome::Exhausted(Exhaustion::Fuel))),
        Err(Fault::NoMemory) => Err(TaskEnd::Ended(Outcome::Exhausted(Exhaustion::Memory))),
    }
}

// ---- what is named

// Returns the address of the table that the instance has under an index, if there is one.
fn find_table(linked: &Linked<'_>, state: &State, x: u32) -> Option<u32>
    ensures { MatchOption result
        (table_at (store_with linked.now.code.now state.now) (frame_in linked.now) x ≡ None)
        (λ a. (a < length state.now.contents.tables)
        × (table_at (store_with linked.now.code.now state.now) (frame_in linked.now) x ≡ Some
        (a, table_of state.now a))) }
{
    let address = linked.code.table_address(linked.instance, x)?;
    state.table(address)?;
    Some(address)
}

// Returns the address of the element segment that the instance has under an index, if there is one.
fn find_elements(linked: &Linked<'_>, state: &State, x: u32) -> Option<u32>
    ensures { MatchOption result
        (elements_at (store_with linked.now.code.now state.now) (frame_in linked.now) x ≡ None)
        (λ a. (a < length state.now.contents.elements)
        × (elements_at (store_with linked.now.code.now state.now) (frame_in linked.now) x ≡ Some
        (a, elements_of state.now a))) }
{
    let address = linked.code.element_address(linked.instance, x)?;
    state.element_segment(address)?;
    Some(address)
}

// Returns the address of the memory of the instance, if there is one.
fn find_memory(linked: &Linked<'_>, state: &State) -> Option<u32>
    ensures { MatchOption result
        (locate state.now.contents.memories (slice_get
        (instance_of (store_with linked.now.code.now state.now) (Some linked.now.instance)).memories
        0) ≡ None)
        (λ a. (a < length state.now.contents.memories)
        × (locate state.now.contents.memories (slice_get
        (instance_of (store_with linked.now.code.now state.now) (Some linked.now.instance)).memories
        0) ≡ Some (a, memory_of state.now a))) }
{
    let address = linked.code.memory_address(linked.instance, 0)?;
    state.memory(address)?;
    Some(address)
}

// Returns the address of the data segment that the instance has under an index, if there is one.
fn find_data(linked: &Linked<'_>, state: &State, x: u32) -> Option<u32>
    ensures { MatchOption result
        (data_at (store_with linked.now.code.now state.now) (frame_in linked.now) x ≡ None)
        (λ a. (a < length state.now.contents.datas)
        × (data_at (store_with linked.now.code.now state.now) (frame_in linked.now) x ≡ Some
        (a, data_of state.now a))) }
{
    let address = linked.code.data_address(linked.instance, x)?;
    state.data_segment(address)?;
    Some(address)
}

// ---- instructions

/// Drops an element segment.
pub fn drop_element_segment(
    segment: u32,
    linked: &Linked<'_>,
    state: &mut State,
    meter: &mut Meter,
) -> Result<(), TaskEnd>
    ensures run { RunsTo NoHosts result meter.old.bound (frame_in linked.now)
        (link_state linked.now.code.now state.old meter.old.left) (Running ([])
        (Then (TableForm (ElemDropForm segment)) Empty))
        (link_state linked.now.code.now state.new meter.new.left) }
    ensures bound { meter.new.bound ≡ meter.old.bound }
    ensures frames { meter.new.frames ≡ meter.old.frames }
{
    let Some(address) = find_elements(linked, state, segment) else {
        return Err(TaskEnd::Stuck);
    };
    pass(drop_elements(state, address, meter.left()), meter)
}

/// Drops a data segment.
pub fn drop_data_segment(
    segment: u32,
    linked: &Linked<'_>,
    state: &mut State,
    meter: &mut Meter,
) -> Result<(), TaskEnd>
    ensures run { RunsTo NoHosts result meter.old.bound (frame_in linked.now)
        (link_state linked.now.code.now state.old meter.old.left) (Running ([])
        (Then (MemoryForm (DataDropForm segment)) Empty))
        (link_state linked.now.code.now state.new meter.new.left) }
    ensures bound { meter.new.bound ≡ meter.old.bound }
    ensures frames { meter.new.frames ≡ meter.old.frames }
{
    let Some(address) = find_data(linked, state, segment) else {
        return Err(TaskEnd::Stuck);
    };
    pass(drop_data(state, address, meter.left()), meter)
}

// Executes table.init with that many references of an element segment, from its first one.
fn init_elements(
    segment: u32,
    table: u32,
    target: u32,
    count: u32,
    linked: &Linked<'_>,
    state: &mut State,
    meter: &mut Meter,
) -> Result<(), TaskEnd>
    ensures step { (rest : Body) → StepsOrEnds NoHosts result meter.old.bound (frame_in linked.now)
        (link_state linked.now.code.now state.old meter.old.left) (Running
        (I32Value count ∷ I32Value 0 ∷ I32Value target ∷ [])
        (Then (TableForm (TableInitForm segment table)) rest))
        (link_state linked.now.code.now state.new meter.new.left) (Running ([]) rest) }
    ensures bound { meter.new.bound ≡ meter.old.bound }
    ensures frames { meter.new.frames ≡ meter.old.frames }
{
    let Some(address) = find_table(linked, state, table) else {
        return Err(TaskEnd::Stuck);
    };
    let Some(source) = find_elements(linked, state, segment) else {
        return Err(TaskEnd::Stuck);
    };
    let fuel = meter.left();
    pass(
        init_table(state, address, source, target, 0, count, fuel),
        meter,
    )
}

/// Copies that many references of an element segment, which are all of them, into a table, and drops the segment.
pub fn copy_elements(
    segment: u32,
    table: u32,
    target: u32,
    count: u32,
    linked: &Linked<'_>,
    state: &mut State,
    meter: &mut Meter,
) -> Result<(), TaskEnd>
    ensures run { RunsTo NoHosts result meter.old.bound (frame_in linked.now)
        (link_state linked.now.code.now state.old meter.old.left) (Running
        (I32Value count ∷ I32Value 0 ∷ I32Value target ∷ [])
        (Then (TableForm (TableInitForm segment table))
        (Then (TableForm (ElemDropForm segment)) Empty)))
        (link_state linked.now.code.now state.new meter.new.left) }
    ensures bound { meter.new.bound ≡ meter.old.bound }
    ensures frames { meter.new.frames ≡ meter.old.frames }
{
    init_elements(segment, table, target, count, linked, state, meter)?;
    drop_element_segment(segment, linked, state, meter)
}

// Executes memory.init with that many bytes of a data segment, from its first one.
fn init_bytes(
    segment: u32,
    target: u32,
    count: u32,
    linked: &Linked<'_>,
    state: &mut State,
    meter: &mut Meter,
) -> Result<(), TaskEnd>
    ensures step { (rest : Body) → StepsOrEnds NoHosts result meter.old.bound (frame_in linked.now)
        (link_state linked.now.code.now state.old meter.old.left) (Running
        (I32Value count ∷ I32Value 0 ∷ I32Value target ∷ [])
        (Then (MemoryForm (MemoryInitForm segment)) rest))
        (link_state linked.now.code.now state.new meter.new.left) (Running ([]) rest) }
    ensures bound { meter.new.bound ≡ meter.old.bound }
    ensures frames { meter.new.frames ≡ meter.old.frames }
{
    let Some(address) = find_memory(linked, state) else {
        return Err(TaskEnd::Stuck);
    };
    let Some(source) = find_data(linked, state, segment) else {
        return Err(TaskEnd::Stuck);
    };
    let fuel = meter.left();
    pass(
        init_memory(state, address, source, target, 0, count, fuel),
        meter,
    )
}

/// Copies that many bytes of a data segment, which are all of them, into the memory, and drops the segment.
pub fn copy_bytes(
    segment: u32,
    target: u32,
    count: u32,
    linked: &Linked<'_>,
    state: &mut State,
    meter: &mut Meter,
) -> Result<(), TaskEnd>
    ensures run { RunsTo NoHosts result meter.old.bound (frame_in linked.now)
        (link_state linked.now.code.now state.old meter.old.left) (Running
        (I32Value count ∷ I32Value 0 ∷ I32Value target ∷ [])
        (Then (MemoryForm (MemoryInitForm segment))
        (Then (MemoryForm (DataDropForm segment)) Empty)))
        (link_state linked.now.code.now state.new meter.new.left) }
    ensures bound { meter.new.bound ≡ meter.old.bound }
    ensures frames { meter.new.frames ≡ meter.old.frames }
{
    init_bytes(segment, target, count, linked, state, meter)?;
    drop_data_segment(segment, linked, state, meter)
}
