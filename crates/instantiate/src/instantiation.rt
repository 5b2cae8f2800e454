ghost use Rattle.std.specs.Prelude.{◌≡◌, ◌<◌, ◌≤◌, ◌^◌, ◌++◌, length, Some};
ghost use Rattle.meaning.specs.execution.Modules.{IsWithinLimits, data_tasks, element_tasks, tasks_of};
ghost use Rattle.meaning.specs.execution.Store.{instance_of};
ghost use Rattle.meaning.specs.execution.Runs.{NoHosts};
ghost use Rattle.soundness.specs.Links.{IsLinkable, TasksAreGood};
ghost use Rattle.soundness.specs.Stores.{Extends};
ghost use Rattle.fuel.specs.Metering.{Charges};
ghost use Rattle.hostfunc.specs.Boxes.{HaveHosts, HostStep, IfHostsKeep, OwnHostStep};
ghost use Rattle.hostfunc.specs.Tables.{hosts_in};
ghost use Rattle.exec.specs.Endings.{run_state};
ghost use Rattle.store.specs.Contents.{store_of};
ghost use Rattle.instantiate.specs.Links.{Allocates, IsCauseOrAllowed, LeavesInstance, Links};
ghost use Rattle.instantiate.specs.Tasks.{RanTasksIn, SegmentsAreReady, link_state};

use crate::addresses::new_addresses;
use crate::constants::ConstantOperands;
use crate::copies::Linked;
use crate::imports::first_mismatch;
use crate::limits::is_within_limits;
use crate::link_end::{LinkEnd, LinkRefusal, TaskEnd};
use crate::objects::{ObjectFault, new_objects};
use crate::offsets::reserve_operands;
use crate::tasks::{run_data_segments, run_element_segments, run_start};
use core_types::{Extern, Module};
use exec::Outcome;
use fuel::Meter;
use hostfunc::{HostFn, HostTable};
use meaning::writing_is_read;
use std::alloc::Global;
use std::rc::Rc;
use store::{Code, LoadedModule, State, Store};

// Returns why a module can't be instantiated with these external values, if it can't.
fn refusal_of(store: &Store, wanted: &Module, externs: &[Extern]) -> Option<LinkRefusal>
    ensures { IsCauseOrAllowed result (store_of store.now) wanted.now externs.now }
{
    if externs.len() < wanted.imports.len() {
        return Some(LinkRefusal::UnknownImport(externs.len()));
    }
    if let Some(index) = first_mismatch(store, wanted, externs) {
        return Some(LinkRefusal::IncompatibleImport(index));
    }
    if !is_within_limits(store, wanted) {
        return Some(LinkRefusal::Limit);
    }
    None
}

// Adds the objects of a module and its instance to the store.
fn allocate(
    alloc: Global,
    store: &mut Store,
    loaded: &Rc<LoadedModule>,
    given: &[Extern],
) -> Result<u32, LinkEnd>
    requires limits { IsWithinLimits (store_of store.old) loaded.now.value.source }
    requires linkable { IsLinkable (store_of store.old) loaded.now.value.source given.now }
    ensures { Allocates result loaded.now.value.source given.now (store_of store.old)
        (store_of store.new) }
{
    let _ = store.state();
    let addresses = new_addresses(alloc, store, loaded.as_ref().module(), given)?;
    let objects = match new_objects(alloc, store, loaded, &addresses) {
        Ok(objects) => objects,
        Err(ObjectFault::NoValue) => unreachable!(),
        Err(ObjectFault::Memory) => return Err(LinkEnd::Refused(LinkRefusal::OutOfMemory)),
    };
    let shared = loaded.clone()?;
    Ok(store.append_module(alloc, shared, addresses, objects)?)
}

// Copies and drops the segments of an instance of a module, in the module's order: the element segments, and then the data
// segments.
fn copy_segments(
    code: &Code,
    state: &mut State,
    meter: &mut Meter,
    instance: u32,
    wanted: &Module,
    operands: &mut ConstantOperands,
) -> Result<(), TaskEnd>
    requires ready { SegmentsAreReady code.now instance wanted.now operands.old }
    ensures ran { RanTasksIn NoHosts result meter.old.bound instance
        (link_state code.now state.old meter.old.left)
        (element_tasks wanted.now.elements ++ data_tasks wanted.now.datas)
        (link_state code.now state.new meter.new.left) }
    ensures bound { meter.new.bound ≡ meter.old.bound }
    ensures frames { meter.new.frames ≡ meter.old.frames }
{
    let Some(found) = code.instance(instance) else {
        unreachable!()
    };
    let linked = Linked {
        code,
        instance,
        addresses: &found.addresses,
        module_read: wanted,
    };
    run_element_segments(&linked, state, meter, operands)?;
    run_data_segments(&linked, state, meter, operands)
}

// Like `copy_segments`, in a store. The segments can be run, and the store stays valid.
fn run_segments(
    store: &mut Store,
    meter: &mut Meter,
    instance: u32,
    wanted: &Module,
    operands: &mut ConstantOperands,
) -> Result<(), TaskEnd>
    requires ready { SegmentsAreReady store.old.code instance wanted.now operands.old }
    requires good { TasksAreGood (store_of store.old) instance
        (instance_of (store_of store.old) (Some instance))
        (element_tasks wanted.now.elements ++ data_tasks wanted.now.datas) }
    ensures ran { RanTasksIn NoHosts result meter.old.bound instance
        (link_state store.old.code store.old.state meter.old.left)
        (element_tasks wanted.now.elements ++ data_tasks wanted.now.datas)
        (link_state store.new.code store.new.state meter.new.left) }
    ensures code { store.new.code ≡ store.old.code }
    ensures bound { meter.new.bound ≡ meter.old.bound }
    ensures frames { meter.new.frames ≡ meter.old.frames }
{
    let (code, state) = (&store.code, &mut store.state);
    copy_segments(code, state, meter, instance, wanted, operands)
}

// Runs the tasks of a link in an instance of a module: the segments, and then the start function.
fn run_tasks(
    alloc: Global,
    store: &mut Store,
    hosts: &mut HostTable,
    meter: &mut Meter,
    instance: u32,
    wanted: &Module,
    operands: &mut ConstantOperands,
) -> Result<(), TaskEnd>
    requires ready { SegmentsAreReady store.old.code instance wanted.now operands.old }
    requires good { TasksAreGood (store_of store.old) instance
        (instance_of (store_of store.old) (Some instance)) (tasks_of wanted.now) }
    requires hosts { HaveHosts (store_of store.old) (hosts_in hosts.old) }
    requires closed { meter.old.frames ≡ 0 }
    ensures ran { RanTasksIn (HostStep ⟦<dyn HostFn as HostFn>⟧) result meter.old.bound instance
        (run_state (store_of store.old) (hosts_in hosts.old) meter.old.left) (tasks_of wanted.now)
        (run_state (store_of store.new) (hosts_in hosts.new) meter.new.left) }
    ensures hosts { HaveHosts (store_of store.new) (hosts_in hosts.new) }
    ensures bound { meter.new.bound ≡ meter.old.bound }
    ensures closed { meter.new.frames ≡ 0 }
{
    run_segments(store, meter, instance, wanted, operands)?;
    run_start(alloc, store, hosts, meter, instance, wanted.start)
}

// Links a module to its end, or returns why it is refused.
fn link(
    alloc: Global,
    store: &mut Store,
    hosts: &mut HostTable,
    meter: &mut Meter,
    loaded: &Rc<LoadedModule>,
    externs: &[Extern],
) -> Result<u32, LinkEnd>
    requires hosts { HaveHosts (store_of store.old) (hosts_in hosts.old) }
    requires closed { meter.old.frames ≡ 0 }
    ensures linked { Links (HostStep ⟦<dyn HostFn as HostFn>⟧) result meter.old.bound
        loaded.now.value.source externs.now
        (run_state (store_of store.old) (hosts_in hosts.old) meter.old.left)
        (run_state (store_of store.new) (hosts_in hosts.new) meter.new.left) }
    ensures hosts { HaveHosts (store_of store.new) (hosts_in hosts.new) }
    ensures bound { meter.new.bound ≡ meter.old.bound }
    ensures closed { meter.new.frames ≡ 0 }
{
    writing_is_read();
    let _ = store.state();
    let wanted = loaded.as_ref().module();
    if let Some(refusal) = refusal_of(store, wanted, externs) {
        return Err(LinkEnd::Refused(refusal));
    }
    let given = &externs[..wanted.imports.len()];
    let mut operands = reserve_operands(alloc, wanted)?;
    let instance = allocate(alloc, store, loaded, given)?;
    let _ = store.state();
    match run_tasks(alloc, store, hosts, meter, instance, wanted, &mut operands) {
        Ok(()) => Ok(instance),
        Err(TaskEnd::Ended(outcome)) => Err(LinkEnd::Ended(outcome)),
        Err(TaskEnd::Stuck) => unreachable!(),
    }
}

/// Links a module with what is given for its imports, in their order, and returns the number of its instance (Execution,
/// Modules, Instantiation).
///
/// The module's objects and the instance are added to the store. Then its active and declarative element segments are copied and
/// dropped, its active data segments likewise, and its start function is called, all within the fuel left. Values after the last
/// import are ignored. A module may be linked any number of times, and nothing of it is copied.
///
/// The caller must pass an object of its type for each host function of the store, and a meter without an open frame. At the end
/// no frame is open. If each host function declares the type that it was defined with, each acts by the relation of its object
/// alone, and still declares that type.
///
/// # Errors
///
/// A refused link changes nothing. It is refused, in this order:
/// - with `UnknownImport`, and the index of the first import for which nothing is given
/// - with `IncompatibleImport`, and the index of the first import that does not match
/// - with `Limit`, if a table or a memory would be larger than the embedding allows, or an address larger than 32 bits
///
/// It is refused with `OutOfMemory` if an allocation fails. A trap or an exhaustion ends the link, and what was done stays,
/// including a valid instance.
pub fn instantiate(
    alloc: Global,
    store: &mut Store,
    hosts: &mut HostTable,
    meter: &mut Meter,
    loaded: &Rc<LoadedModule>,
    externs: &[Extern],
) -> Result<u32, LinkEnd>
    requires hosts { HaveHosts (store_of store.old) (hosts_in hosts.old) }
    requires closed { meter.old.frames ≡ 0 }
    ensures linked { Links (HostStep ⟦<dyn HostFn as HostFn>⟧) result meter.old.bound
        loaded.now.value.source externs.now
        (run_state (store_of store.old) (hosts_in hosts.old) meter.old.left)
        (run_state (store_of store.new) (hosts_in hosts.new) meter.new.left) }
    ensures own { IfHostsKeep ⟦<dyn HostFn as HostFn>⟧ (hosts_in hosts.old) (hosts_in hosts.new)
        (Links (OwnHostStep ⟦<dyn HostFn as HostFn>⟧) result meter.old.bound
        loaded.now.value.source externs.now
        (run_state (store_of store.old) (hosts_in hosts.old) meter.old.left)
        (run_state (store_of store.new) (hosts_in hosts.new) meter.new.left)) }
    ensures extends { Extends (store_of store.old) (store_of store.new) }
    ensures instance_stays { LeavesInstance result loaded.now.value.source externs.now
        (store_of store.old) (store_of store.new) }
    ensures hosts { HaveHosts (store_of store.new) (hosts_in hosts.new) }
    ensures charges { Charges meter.old meter.new }
{
    writing_is_read();
    let _ = store.state();
    let _ = loaded.as_ref().module();
    link(alloc, store, hosts, meter, loaded, externs)
}
