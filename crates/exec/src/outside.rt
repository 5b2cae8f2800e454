ghost use Rattle.std.specs.Prelude.{◌≡◌, ℕ, Some, length, map, replicate, slice_get, IfOk};
ghost use Rattle.core_types.specs.declared.outcome.Val.TheVariants as value;
ghost use Rattle.core_types.specs.declared.types.FuncType.{FuncType};
ghost use Rattle.meaning.specs.execution.Configurations.{no_frame};
ghost use Rattle.meaning.specs.execution.Runs.{Run};
ghost use Rattle.meaning.specs.execution.Store.{Store as AnyStore};
ghost use Rattle.meaning.specs.execution.Values.{type_of};
ghost use Rattle.meaning.specs.soundness.Values.{TakesArguments};
ghost use Rattle.soundness.specs.Embedding.{results_of};
ghost use Rattle.soundness.specs.Runs.{EndsWell};
ghost use Rattle.soundness.specs.Stores.{Extends, StoreIsValid};
ghost use Rattle.fuel.specs.Metering.{Charges};
ghost use Rattle.hostfunc.specs.Boxes.{HaveHosts, HostStep, IfHostsKeep, IsHost, OwnHostStep};
ghost use Rattle.hostfunc.specs.Tables.{hosts_in};
ghost use Rattle.store.specs.Contents.{host_function, store_of, store_with};
ghost use Rattle.exec.specs.Endings.{RunsCall, ending_of, run_state};
ghost use Rattle.interpreter.specs.Whole.{Whole, whole};
ghost use Rattle.exec.specs.Hosting.{RestsWith};
ghost use Rattle.exec.specs.Resting.{at_rest};
ghost use Rattle.exec.specs.Starting.{Takes, address_in};

use crate::call::{CELL_BYTES, Call, FRAME_BYTES};
use crate::calls::go_on;
use crate::hosts::{HostCall, call_host};
use crate::invocation::{begin, results};
use crate::outcome::Outcome;
use core_types::{Exhaustion, Items, Trap, Val, ValType};
use fuel::Meter;
use hostfunc::{HostFault, HostFn, HostTable};
use interpreter::Stop;
use std::alloc::{AllocError, Global};
use store::{Callee, Code, ModuleFunction, State, Store};

// Runs a call to its end. Results of these types overwrite the same number of values.
fn run_to_end<'a>(
    alloc: Global,
    code: &'a Code,
    state: &mut State,
    hosts: &mut HostTable,
    bound: u64,
    types: &[ValType],
    mut values: Vec<Val>,
    call: &mut Call,
) -> Outcome
    requires rests { (w : Whole)
        × RestsWith bound (at_rest code.now state.old call.old) w types.now }
    requires hosts { HaveHosts (store_with code.now state.old) (hosts_in hosts.old) }
    requires room { length values.items ≡ length types.now }
    ensures run { (w : Whole)
        → RestsWith bound (at_rest code.now state.old call.old) w types.now
        → Run (HostStep ⟦<dyn HostFn as HostFn>⟧) bound no_frame
        (run_state (store_with code.now state.old) (hosts_in hosts.old)
        call.old.position.fuel) (whole w) (ending_of result)
        (run_state (store_with code.now state.new) (hosts_in hosts.new)
        call.new.position.fuel) }
{
    loop {
        match go_on(code, state, bound, call) {
            Stop::Over => {
                results(call, types, &mut values);
                return Outcome::Values(Items::from_vec(values));
            }
            Stop::Traps(trap) => return Outcome::Trap(trap),
            Stop::NoFuel => return Outcome::Exhausted(Exhaustion::Fuel),
            Stop::NoDepth => return Outcome::Exhausted(Exhaustion::Depth),
            Stop::NoMemory => return Outcome::Exhausted(Exhaustion::Memory),
            Stop::CallsHost(kind, address, behind) => {
                let wanted = HostCall {
                    kind,
                    address,
                    behind,
                };
                if let Err(outcome) = call_host(alloc, code, state, hosts, bound, wanted, call) {
                    return outcome;
                }
            }
            Stop::NoRoom | Stop::Switches | Stop::LeavesOther(..) => unreachable!(),
        }
    }
}

// Returns that many values, which results overwrite.
fn reserve_results(alloc: Global, count: usize) -> Result<Vec<Val>, AllocError>
    ensures { IfOk result (λ values. values.items ≡ replicate count (value.I32 0)) }
{
    let mut values = Vec::new(alloc);
    values.resize(count, Val::I32(0))?;
    Ok(values)
}

// Returns how many bytes of a quota a call counts at first: the cells of its frame, and the frames that may be open.
fn bytes_of_call(function: &ModuleFunction<'_>, depth: u32) -> u64 {
    let cells = CELL_BYTES.saturating_mul(function.flat.greatest.saturating_add(1));
    cells.saturating_add(FRAME_BYTES * u64::from(depth))
}

// Calls a function of a module from outside, over both parts of a store.
fn call_code<'a>(
    alloc: Global,
    code: &'a Code,
    state: &mut State,
    hosts: &mut HostTable,
    fuel: &mut u64,
    depth: u32,
    function: &ModuleFunction<'a>,
    args: &[Val],
) -> Outcome
    requires takes { (address : ℕ)
        × Takes (address_in code.now state.old address) function.now args.now }
    requires hosts { HaveHosts (store_with code.now state.old) (hosts_in hosts.old) }
    ensures run { (address : ℕ)
        → Takes (address_in code.now state.old address) function.now args.now
        → RunsCall (HostStep ⟦<dyn HostFn as HostFn>⟧) depth
        (run_state (store_with code.now state.old) (hosts_in hosts.old) fuel.old) address args.now
        result (run_state (store_with code.now state.new) (hosts_in hosts.new) fuel.new) }
{
    if depth == 0 {
        return Outcome::Exhausted(Exhaustion::Depth);
    }
    let types = function.ty.results.as_slice();
    let Ok(values) = reserve_results(alloc, types.len()) else {
        return Outcome::Exhausted(Exhaustion::Memory);
    };
    let Ok(()) = state.borrow(bytes_of_call(function, depth)) else {
        return Outcome::Exhausted(Exhaustion::Memory);
    };
    let Ok(mut call) = begin(alloc, function, args, *fuel) else {
        return Outcome::Exhausted(Exhaustion::Memory);
    };
    let bound = u64::from(depth);
    let outcome = run_to_end(alloc, code, state, hosts, bound, types, values, &mut call);
    *fuel = call.position.fuel;
    outcome
}

// Calls a host function from outside, which borrows no bytes.
fn call_host_alone(hosts: &mut HostTable, number: u32, args: &[Val]) -> Outcome
    requires there { (t : FuncType) × IsHost (hosts_in hosts.old) number t
        × (map type_of args.now ≡ t.params) }
    ensures run { (store : AnyStore) (bound fuel address : ℕ) (t : FuncType) →
        slice_get store.functions address ≡ Some (host_function number t) → map type_of args.now ≡
        t.params → RunsCall (HostStep ⟦<dyn HostFn as HostFn>⟧) bound
        (run_state store (hosts_in hosts.old) fuel) address args.now result
        (run_state store (hosts_in hosts.new) fuel) }
{
    match hosts.call(number, args, &mut []) {
        Ok(values) => Outcome::Values(Items::from_vec(values)),
        Err(HostFault::Trap(why)) => Outcome::Trap(Trap::Host(why)),
        Err(HostFault::Memory) => Outcome::Exhausted(Exhaustion::Memory),
    }
}

// Calls the function at an address from outside, over both parts of a valid store.
fn call_function(
    alloc: Global,
    code: &Code,
    state: &mut State,
    hosts: &mut HostTable,
    fuel: &mut u64,
    depth: u32,
    address: u32,
    args: &[Val],
) -> Outcome
    requires arguments { TakesArguments (store_with code.now state.old) address args.now }
    requires valid { StoreIsValid (store_with code.now state.old) }
    requires hosts { HaveHosts (store_with code.now state.old) (hosts_in hosts.old) }
    ensures run { RunsCall (HostStep ⟦<dyn HostFn as HostFn>⟧) depth
        (run_state (store_with code.now state.old) (hosts_in hosts.old) fuel.old) address args.now
        result (run_state (store_with code.now state.new) (hosts_in hosts.new) fuel.new) }
{
    match code.function(address) {
        Some(Callee::InModule(function)) => {
            call_code(alloc, code, state, hosts, fuel, depth, &function, args)
        }
        Some(Callee::InHost(host)) => call_host_alone(hosts, host.number, args),
        None => unreachable!(),
    }
}

// Like `call_function`, with the fuel and the depth bound of a meter.
fn call_from_outside(
    alloc: Global,
    code: &Code,
    state: &mut State,
    hosts: &mut HostTable,
    meter: &mut Meter,
    address: u32,
    args: &[Val],
) -> Outcome
    requires arguments { TakesArguments (store_with code.now state.old) address args.now }
    requires valid { StoreIsValid (store_with code.now state.old) }
    requires hosts { HaveHosts (store_with code.now state.old) (hosts_in hosts.old) }
    ensures run { RunsCall (HostStep ⟦<dyn HostFn as HostFn>⟧) meter.old.bound
        (run_state (store_with code.now state.old) (hosts_in hosts.old) meter.old.left) address
        args.now result
        (run_state (store_with code.now state.new) (hosts_in hosts.new) meter.new.left) }
    ensures bound { meter.new.bound ≡ meter.old.bound }
    ensures frames { meter.new.frames ≡ meter.old.frames }
{
    let mut fuel = meter.left();
    let bound = meter.bound();
    let outcome = call_function(alloc, code, state, hosts, &mut fuel, bound, address, args);
    meter.set(fuel);
    outcome
}

/// Calls the function at an address from outside, and runs it to its end within the fuel left and the depth bound (Execution,
/// Modules, Invocation).
///
/// The caller must pass:
/// - a function at the address, and arguments of its parameter types (`accepts` tests both)
/// - an object of its type for each host function of the store
/// - a meter without an open frame
///
/// At the end no frame is open. A refused step charges nothing. In a valid store no call goes wrong: results have the function's
/// result types. It runs out of memory only when a frame is opened, a table or a memory grows, or a host function is called. If
/// each host function declares the type that it was defined with, each acts by the relation of its object alone, and still
/// declares that type.
pub fn invoke(
    alloc: Global,
    store: &mut Store,
    hosts: &mut HostTable,
    meter: &mut Meter,
    address: u32,
    args: &[Val],
) -> Outcome
    requires arguments { TakesArguments (store_of store.old) address args.now }
    requires hosts { HaveHosts (store_of store.old) (hosts_in hosts.old) }
    requires closed { meter.old.frames ≡ 0 }
    ensures run { RunsCall (HostStep ⟦<dyn HostFn as HostFn>⟧) meter.old.bound
        (run_state (store_of store.old) (hosts_in hosts.old) meter.old.left) address args.now result
        (run_state (store_of store.new) (hosts_in hosts.new) meter.new.left) }
    ensures own { IfHostsKeep ⟦<dyn HostFn as HostFn>⟧ (hosts_in hosts.old) (hosts_in hosts.new)
        (RunsCall (OwnHostStep ⟦<dyn HostFn as HostFn>⟧) meter.old.bound
        (run_state (store_of store.old) (hosts_in hosts.old) meter.old.left) address args.now result
        (run_state (store_of store.new) (hosts_in hosts.new) meter.new.left)) }
    ensures ends { EndsWell (store_of store.new)
        (results_of (slice_get (store_of store.old).functions address)) (ending_of result) }
    ensures extends { Extends (store_of store.old) (store_of store.new) }
    ensures hosts { HaveHosts (store_of store.new) (hosts_in hosts.new) }
    ensures charges { Charges meter.old meter.new }
{
    let (code, state) = (&store.code, &mut store.state);
    call_from_outside(alloc, code, state, hosts, meter, address, args)
}
