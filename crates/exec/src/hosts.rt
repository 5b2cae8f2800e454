ghost use Rattle.std.specs.Prelude.{◌≡◌, ◌↔◌, ◌+◌, ◌-◌, ◌<◌, ◌≤◌, ℕ, Err, Some, None, IfOk, IfErr, IsTrue, MatchOption, length, map};
ghost use Rattle.core_types.specs.declared.types.FuncType.{FuncType};
ghost use Rattle.meaning.specs.execution.Hosts.{memory_lent};
ghost use Rattle.meaning.specs.execution.Configurations.{no_frame};
ghost use Rattle.meaning.specs.execution.Runs.{HostTrap, Results, Run};
ghost use Rattle.meaning.specs.execution.Store.{InHost};
ghost use Rattle.meaning.specs.execution.Values.{type_of};
ghost use Rattle.hostfunc.specs.Boxes.{HaveHosts, HostStep, IsHost};
ghost use Rattle.hostfunc.specs.declared.host_function.HostFault.TheVariants.{Memory as MemoryFault};
ghost use Rattle.hostfunc.specs.Faults.{IfAnswered};
ghost use Rattle.hostfunc.specs.Tables.{hosts_in};
ghost use Rattle.cells.specs.Cells.{AreCellsOf, values_of};
ghost use Rattle.store.specs.Contents.{callee_function, code_store, store_of, store_with};
ghost use Rattle.exec.specs.Endings.{ending_of, first_memory, run_state};
ghost use Rattle.interpreter.specs.Whole.{Whole, whole};
ghost use Rattle.exec.specs.Hosting.{ReachesWithHostsOrEnds, EndsWith, ReturnsTo, HasRoomForResults, WaitsFor, cells_below, position_answered, with_results};
ghost use Rattle.exec.specs.Resting.{at_rest, fuel_left, store_around};

use crate::call::{Call, frame_behind};
use crate::outcome::Outcome;
use cells::{values_of, write_cells};
use core_types::{Exhaustion, Items, Trap, Val, ValType};
use hostfunc::{HostFault, HostFn, HostTable};
use interpreter::{CallKind, Frame};
use std::alloc::{AllocError, Global};
use store::{Callee, Code, State, Store};

// Returns the address of the memory of an instance, if it has one and that memory exists.
fn memory_to_lend(code: &Code, state: &State, instance: u32) -> Option<u32>
    ensures { MatchOption result (memory_lent (store_with code.now state.now)
        (first_memory (code_store code.now) instance) ≡ None) (λ address.
        (first_memory (code_store code.now) instance ≡ Some address)
        × (address < length state.now.contents.memories)) }
{
    let address = code.memory_address(instance, 0)?;
    match state.memory(address) {
        Some(_) => Some(address),
        None => None,
    }
}

// Calls the host function of a number. It is passed the memory of an instance, or no bytes if that has none.
fn call_lent(
    code: &Code,
    state: &mut State,
    hosts: &mut HostTable,
    instance: u32,
    number: u32,
    args: &[Val],
) -> Result<Vec<Val>, HostFault>
    requires there { (t : FuncType) × IsHost (hosts_in hosts.old) number t
        × (map type_of args.now ≡ t.params) }
    ensures answered { IfAnswered result (λ answer. HostStep ⟦<dyn HostFn as HostFn>⟧
        (hosts_in hosts.old) number (first_memory (code_store code.now) instance) args.now
        (store_with code.now state.old) answer (store_with code.now state.new)
        (hosts_in hosts.new)) }
    ensures unchanged { result ≡ Err MemoryFault → (hosts_in hosts.new ≡ hosts_in hosts.old)
        × (store_with code.now state.new ≡ store_with code.now state.old) }
{
    match memory_to_lend(code, state, instance) {
        Some(address) => hosts.call(number, args, state.memory_mut(address)),
        None => hosts.call(number, args, &mut []),
    }
}

// Reads arguments of these types, which are in the cells below a place.
fn read_arguments(
    alloc: Global,
    types: &[ValType],
    cells: &[u64],
    behind: usize,
) -> Result<Vec<Val>, AllocError>
    requires enough { length types.now ≤ behind }
    requires inside { behind ≤ length cells.now }
    requires fit { AreCellsOf types.now (cells_below behind (length types.now) cells.now) }
    ensures { IfOk result (λ args. args.items
        ≡ values_of types.now (cells_below behind (length types.now) cells.now)) }
{
    values_of(alloc, types, &cells[behind - types.len()..behind])
}

// Writes results from a cell on, and continues in a frame after the call, which was paid for.
fn put_results(values: &[Val], first: usize, frame: Frame, call: &mut Call)
    requires room { first + length values.now ≤ length call.old.cells.items }
    requires above { 1 ≤ first }
    requires paid { 1 ≤ call.old.position.fuel }
    ensures cells { call.new.cells.items ≡ with_results call.old.cells.items first values.now }
    ensures position { call.new.position ≡ position_answered frame call.old.position first
        values.now call.old.cells.items }
    ensures callers { call.new.callers ≡ call.old.callers }
{
    write_cells(values, &mut call.cells[first..]);
    let top = first + values.len() - 1;
    call.position.top = top;
    call.position.operand = call.cells[top];
    call.position.instance = frame.instance;
    call.position.base = frame.base;
    call.position.place = frame.place as usize;
    call.position.fuel -= 1;
}

// Replaces the innermost frame with results, after its last step was paid for. The waiting frame continues with them. If no
// frame waits, the call ends with them.
fn return_results(values: Vec<Val>, call: &mut Call) -> Result<(), Outcome>
    requires room { HasRoomForResults call.old (length values.items) }
    requires paid { 1 ≤ call.old.position.fuel }
    ensures back { IfOk result (λ done. ReturnsTo call.old values.items call.new) }
    ensures over { IfErr result (λ outcome. EndsWith call.old values.items outcome call.new) }
{
    let Some(frame) = call.callers.pop() else {
        call.position.fuel -= 1;
        return Err(Outcome::Values(Items::from_vec(values)));
    };
    let first = call.position.base;
    put_results(&values, first, frame, call);
    Ok(())
}

/// A host function that a call waits for: how it is called, its address, and the place in the cells below which its arguments
/// are.
#[derive(Clone, Copy)]
pub struct HostCall {
    pub kind: CallKind,
    pub address: u32,
    pub behind: usize,
}

/// Calls the host function that a call waits for. Its results replace its arguments. After a tail call they replace the
/// innermost frame, which may end the call.
pub fn call_host(
    alloc: Global,
    code: &Code,
    state: &mut State,
    hosts: &mut HostTable,
    bound: u64,
    wanted: HostCall,
    call: &mut Call,
) -> Result<(), Outcome>
    requires waits { (w : Whole) × WaitsFor bound (at_rest code.now state.old call.old) w wanted }
    requires hosts { HaveHosts (store_with code.now state.old) (hosts_in hosts.old) }
    ensures came { (w : Whole) → WaitsFor bound (at_rest code.now state.old call.old) w wanted
        → ReachesWithHostsOrEnds (HostStep ⟦<dyn HostFn as HostFn>⟧) bound
        (at_rest code.now state.old call.old) (hosts_in hosts.old) w result
        (at_rest code.now state.new call.new) (hosts_in hosts.new) }
    ensures hosts { HaveHosts (store_with code.now state.new) (hosts_in hosts.new) }
    ensures left { IfOk result (λ done. call.new.position.fuel + 1 ≡ call.old.position.fuel) }
{
    let Some(Callee::InHost(host)) = code.function(wanted.address) else {
        unreachable!()
    };
    let top = call.position.top;
    call.cells[top] = call.position.operand;
    let types = host.ty.params.as_slice();
    let Ok(args) = read_arguments(alloc, types, &call.cells, wanted.behind) else {
        return Err(Outcome::Exhausted(Exhaustion::Memory));
    };
    match call_lent(
        code,
        state,
        hosts,
        call.position.instance,
        host.number,
        &args,
    ) {
        Ok(values) => match wanted.kind {
            CallKind::Nested => {
                let frame = frame_behind(call.position);
                put_results(&values, wanted.behind - types.len(), frame, call);
                Ok(())
            }
            CallKind::Tail => return_results(values, call),
        },
        Err(HostFault::Trap(why)) => {
            call.position.fuel -= 1;
            Err(Outcome::Trap(Trap::Host(why)))
        }
        Err(HostFault::Memory) => Err(Outcome::Exhausted(Exhaustion::Memory)),
    }
}

// Returns whether a host function has an object of its type. For a function of a module, returns true.
fn has_host(callee: &Callee<'_>, hosts: &HostTable) -> bool
    ensures { IsTrue result ↔ ((number : ℕ)
        → (callee_function callee.now).implementation ≡ InHost number →
        IsHost (hosts_in hosts.now) number (callee_function callee.now).ty) }
{
    match callee {
        Callee::InModule(_) => true,
        Callee::InHost(function) => {
            if (function.number as usize) < hosts.len() {
                hosts.ty(function.number).is_same(function.ty)
            } else {
                false
            }
        }
    }
}

/// Returns whether each host function of the store has an object of its type. `invoke` and `instantiate` require this of host
/// functions.
pub fn have_hosts(store: &Store, hosts: &HostTable) -> bool
    ensures { IsTrue result ↔ HaveHosts (store_of store.now) (hosts_in hosts.now) }
{
    let _ = store.state();
    let code = store.code();
    for address in 0..code.function_count() {
        let Some(callee) = code.function(address as u32) else {
            unreachable!()
        };
        if !has_host(&callee, hosts) {
            return false;
        }
    }
    true
}
