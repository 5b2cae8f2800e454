ghost use Rattle.std.specs.Prelude.{◌≡◌, ◌%◌, ◌<◌, ◌≤◌, ◌^◌, [], length, MatchOption, Some};
ghost use Rattle.core_types.specs.declared.outcome.Val.TheVariants.{I32 as I32Value};
ghost use Rattle.meaning.specs.execution.Modules.{constant_value as value_of, data_task, data_tasks, element_task, element_tasks, start_task};
ghost use Rattle.meaning.specs.execution.Store.{instance_of};
ghost use Rattle.meaning.specs.execution.Runs.{NoHosts};
ghost use Rattle.store.specs.Contents.{code_store, store_of, store_with};
ghost use Rattle.hostfunc.specs.Boxes.{HaveHosts, HostStep};
ghost use Rattle.hostfunc.specs.Tables.{hosts_in};
ghost use Rattle.exec.specs.Endings.{run_state};
ghost use Rattle.meaning.specs.execution.Configurations.{Invoking, no_frame};
ghost use Rattle.meaning.specs.execution.Modules.{item_count as count_of};
ghost use Rattle.instantiate.specs.Offsets.{HaveRoom, data_offset, element_offset};
ghost use Rattle.instantiate.specs.Tasks.{EndsAs, HasNoI32, RanTasks, RanTasksIn, RunsTo, instance_in, link_state};

use crate::constants::ConstantOperands;
use crate::copies::{Linked, copy_bytes, copy_elements, drop_element_segment};
use crate::link_end::TaskEnd;
use core_types::{
    DataMode, DataSegment, ElementItems, ElementMode, ElementSegment, Expression, Val,
};
use exec::{Outcome, invoke};
use fuel::Meter;
use hostfunc::{HostFn, HostTable};
use std::alloc::Global;
use store::{State, Store, accepts};

// Returns the offset at which a segment is copied, if its constant expression has such a value.
fn offset_of(
    code: &Expression,
    linked: &Linked<'_>,
    state: &State,
    operands: &mut ConstantOperands,
) -> Option<u32>
    requires room { length code.now ≤ operands.old }
    ensures offset { MatchOption result
        (HasNoI32 (value_of (store_with linked.now.code.now state.now) (instance_in linked.now)
        code.now))
        (λ n. value_of (store_with linked.now.code.now state.now) (instance_in linked.now) code.now
        ≡ Some (I32Value n)) }
    ensures room { operands.new ≡ operands.old }
{
    match operands.value_of(code, linked.addresses, state) {
        Some(Val::I32(n)) => Some(n),
        _ => None,
    }
}

// Returns the number of references of an element segment.
fn item_count(items: &ElementItems) -> usize
    ensures { result ≡ count_of items.now }
{
    match items {
        ElementItems::Functions(indices) => indices.len(),
        ElementItems::Expressions(expressions) => expressions.len(),
    }
}

// Returns a number of items as the i32 operand of a copy (Structure, Conventions, Vectors: there are fewer than 2^32).
fn count_operand(count: usize) -> u32
    ensures { result ≡ count % 2 ^ 32 }
{
    (count % 4_294_967_296) as u32
}

// Copies the element segment of an index if it is active, and drops it unless it is passive.
fn run_element_segment(
    x: u32,
    wanted: &ElementSegment,
    linked: &Linked<'_>,
    state: &mut State,
    meter: &mut Meter,
    operands: &mut ConstantOperands,
) -> Result<(), TaskEnd>
    requires room { element_offset wanted.now ≤ operands.old }
    ensures ran { RanTasks NoHosts result meter.old.bound linked.now.instance
        (instance_in linked.now)
        (link_state linked.now.code.now state.old meter.old.left)
        (element_task x wanted.now.items wanted.now.mode)
        (link_state linked.now.code.now state.new meter.new.left) }
    ensures bound { meter.new.bound ≡ meter.old.bound }
    ensures frames { meter.new.frames ≡ meter.old.frames }
    ensures operands { operands.new ≡ operands.old }
{
    match &wanted.mode {
        ElementMode::Passive => Ok(()),
        ElementMode::Declarative => drop_element_segment(x, linked, state, meter),
        ElementMode::Active { table, offset } => {
            let count = count_operand(item_count(&wanted.items));
            match offset_of(offset, linked, state, operands) {
                Some(target) => copy_elements(x, *table, target, count, linked, state, meter),
                None => Err(TaskEnd::Stuck),
            }
        }
    }
}

/// Copies and drops the element segments of an instance, in the order of the module (Execution, Modules, Instantiation).
pub fn run_element_segments(
    linked: &Linked<'_>,
    state: &mut State,
    meter: &mut Meter,
    operands: &mut ConstantOperands,
) -> Result<(), TaskEnd>
    requires count { length linked.now.module_read.now.elements < 2 ^ 32 }
    requires room { HaveRoom element_offset operands.old linked.now.module_read.now.elements }
    ensures ran { RanTasks NoHosts result meter.old.bound linked.now.instance
        (instance_in linked.now)
        (link_state linked.now.code.now state.old meter.old.left)
        (element_tasks linked.now.module_read.now.elements)
        (link_state linked.now.code.now state.new meter.new.left) }
    ensures bound { meter.new.bound ≡ meter.old.bound }
    ensures frames { meter.new.frames ≡ meter.old.frames }
    ensures operands { operands.new ≡ operands.old }
{
    let elements = linked.module_read.elements.as_slice();
    for k in 0..elements.len() {
        run_element_segment(k as u32, &elements[k], linked, state, meter, operands)?;
    }
    Ok(())
}

// Copies the data segment of an index if it is active, and drops it then.
fn run_data_segment(
    x: u32,
    wanted: &DataSegment,
    linked: &Linked<'_>,
    state: &mut State,
    meter: &mut Meter,
    operands: &mut ConstantOperands,
) -> Result<(), TaskEnd>
    requires room { data_offset wanted.now ≤ operands.old }
    ensures ran { RanTasks NoHosts result meter.old.bound linked.now.instance
        (instance_in linked.now)
        (link_state linked.now.code.now state.old meter.old.left)
        (data_task x wanted.now.bytes wanted.now.mode)
        (link_state linked.now.code.now state.new meter.new.left) }
    ensures bound { meter.new.bound ≡ meter.old.bound }
    ensures frames { meter.new.frames ≡ meter.old.frames }
    ensures operands { operands.new ≡ operands.old }
{
    match &wanted.mode {
        DataMode::Passive => Ok(()),
        DataMode::Active { offset, .. } => {
            let count = count_operand(wanted.bytes.len());
            match offset_of(offset, linked, state, operands) {
                Some(target) => copy_bytes(x, target, count, linked, state, meter),
                None => Err(TaskEnd::Stuck),
            }
        }
    }
}

/// Copies and drops the data segments of an instance, in the order of the module (Execution, Modules, Instantiation).
pub fn run_data_segments(
    linked: &Linked<'_>,
    state: &mut State,
    meter: &mut Meter,
    operands: &mut ConstantOperands,
) -> Result<(), TaskEnd>
    requires count { length linked.now.module_read.now.datas < 2 ^ 32 }
    requires room { HaveRoom data_offset operands.old linked.now.module_read.now.datas }
    ensures ran { RanTasks NoHosts result meter.old.bound linked.now.instance
        (instance_in linked.now)
        (link_state linked.now.code.now state.old meter.old.left)
        (data_tasks linked.now.module_read.now.datas)
        (link_state linked.now.code.now state.new meter.new.left) }
    ensures bound { meter.new.bound ≡ meter.old.bound }
    ensures frames { meter.new.frames ≡ meter.old.frames }
    ensures operands { operands.new ≡ operands.old }
{
    let datas = linked.module_read.datas.as_slice();
    for k in 0..datas.len() {
        run_data_segment(k as u32, &datas[k], linked, state, meter, operands)?;
    }
    Ok(())
}

// Continues a link after a call with this outcome, or ends it.
fn end_of(outcome: Outcome) -> Result<(), TaskEnd>
    ensures { EndsAs result outcome }
{
    match outcome {
        Outcome::Values(_) => Ok(()),
        ended => Err(TaskEnd::Ended(ended)),
    }
}

// Calls the function at an address, which takes nothing, from outside.
fn call_start(
    alloc: Global,
    store: &mut Store,
    hosts: &mut HostTable,
    meter: &mut Meter,
    address: u32,
) -> Result<(), TaskEnd>
    requires hosts { HaveHosts (store_of store.old) (hosts_in hosts.old) }
    requires closed { meter.old.frames ≡ 0 }
    ensures run { RunsTo (HostStep ⟦<dyn HostFn as HostFn>⟧) result meter.old.bound no_frame
        (run_state (store_of store.old) (hosts_in hosts.old) meter.old.left)
        (Invoking ([]) address)
        (run_state (store_of store.new) (hosts_in hosts.new) meter.new.left) }
    ensures hosts { HaveHosts (store_of store.new) (hosts_in hosts.new) }
    ensures bound { meter.new.bound ≡ meter.old.bound }
    ensures closed { meter.new.frames ≡ 0 }
{
    if !accepts(store, address, &[]) {
        return Err(TaskEnd::Stuck);
    }
    end_of(invoke(alloc, store, hosts, meter, address, &[]))
}

/// Calls the start function of an instance, if its module has one (Execution, Modules, Instantiation).
pub fn run_start(
    alloc: Global,
    store: &mut Store,
    hosts: &mut HostTable,
    meter: &mut Meter,
    instance: u32,
    start: Option<u32>,
) -> Result<(), TaskEnd>
    requires hosts { HaveHosts (store_of store.old) (hosts_in hosts.old) }
    requires closed { meter.old.frames ≡ 0 }
    ensures ran { RanTasksIn (HostStep ⟦<dyn HostFn as HostFn>⟧) result meter.old.bound instance
        (run_state (store_of store.old) (hosts_in hosts.old) meter.old.left) (start_task start)
        (run_state (store_of store.new) (hosts_in hosts.new) meter.new.left) }
    ensures hosts { HaveHosts (store_of store.new) (hosts_in hosts.new) }
    ensures bound { meter.new.bound ≡ meter.old.bound }
    ensures closed { meter.new.frames ≡ 0 }
{
    match start {
        None => Ok(()),
        Some(x) => match store.code().function_address(instance, x) {
            Some(address) => call_start(alloc, store, hosts, meter, address),
            None => Err(TaskEnd::Stuck),
        },
    }
}
