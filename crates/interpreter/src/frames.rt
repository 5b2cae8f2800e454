ghost use Rattle.std.specs.Prelude.{◌≡◌, ◌+◌, ◌<◌, ◌≤◌, ◌^◌, ℕ, length, suc};
ghost use Rattle.interpreter.specs.Calling.{Calls, CallsInModule, CallsModule, IsCrossed, Leaves, ReplacesModule, with_instance};
ghost use Rattle.interpreter.specs.Callees.{operation_by_name, transfer_through};
ghost use Rattle.interpreter.specs.Crossing.{ContinuesOrStops};
ghost use Rattle.interpreter.specs.Looping.{loop_at, machine_at, world_at};
ghost use Rattle.interpreter.specs.Operations.{IsReadyFor, Executes};
ghost use Rattle.interpreter.specs.Whole.{RunsSomeWhole};
ghost use Rattle.sidetable.specs.declared.operations.PackedOp.TheVariants as op;

use crate::callees::{Found, find_through};
use crate::landing::{clear, land_results, move_down};
use crate::machine::{CallKind, Crossing, Frame, Position, Stop, Surroundings};
use crate::payment::pay;
use core_types::Stack;
use sidetable::PackedFunction;
use store::{Callee, ModuleFunction, State};

// Continues in a frame of an instance: the one whose code runs, or another one.
#[inline(always)]
fn cross(around: Surroundings<'_>, instance: u32, at: &mut Position) -> Crossing
    requires { at.old.instance ≡ around.number }
    ensures crossed { IsCrossed around.entry.number result instance }
    ensures there { at.new ≡ with_instance at.old instance }
{
    if instance == around.number {
        Crossing::Goes
    } else {
        at.instance = instance;
        Crossing::Switches
    }
}

// Opens a frame for a function of a module that is called at a position. Its arguments are on top at `from`, in the same frame.
#[inline(always)]
fn open<'a>(
    around: Surroundings<'a>,
    state: &State,
    memory: &[u8],
    cells: &mut [u64],
    callers: &mut Stack<Frame>,
    function: &ModuleFunction<'a>,
    from: Position,
    at: &mut Position,
    why: &mut Stop,
) -> Crossing
    requires sound { RunsSomeWhole around.bound
        (loop_at (world_at around state.now memory.now) cells.old callers.old at.old) }
    requires calls { CallsModule around.bound (world_at around state.now memory.now) cells.old
        callers.old at.old from function.now }
    requires paid { 1 ≤ at.old.fuel }
    requires shallow { suc (length callers.old) < around.bound }
    requires next { at.old.place + 1 < 2 ^ 32 }
    ensures { ContinuesOrStops around.entry.bound
        (loop_at (world_at around.entry state.now memory.now) cells.old callers.old at.old)
        result why.new cells.new callers.new at.new }
{
    let flat = function.flat;
    let behind = from.top + 1;
    let base = behind - flat.params as usize;
    if flat.greatest >= (cells.len() - base) as u64 {
        *why = Stop::NoRoom;
        return Crossing::Stops;
    }
    let waiting = Frame {
        base: at.base,
        place: at.place as u32 + 1,
        instance: around.number,
    };
    let Ok(()) = callers.push(waiting) else {
        *why = Stop::NoMemory;
        return Crossing::Stops;
    };
    cells[from.top] = from.operand;
    let declared = (flat.locals - flat.params) as usize;
    clear(cells, behind, declared);
    at.base = base;
    at.place = flat.place as usize;
    at.top = behind + declared;
    at.operand = 0;
    at.fuel -= 1;
    cross(around, function.instance, at)
}

// Replaces the frame at a position with a frame for a function of a module. Its arguments are on top at `from`, in the same
// frame.
#[cold]
#[inline(never)]
fn replace<'a>(
    around: Surroundings<'a>,
    state: &State,
    memory: &[u8],
    cells: &mut [u64],
    callers: &Stack<Frame>,
    function: &ModuleFunction<'a>,
    from: Position,
    at: &mut Position,
    why: &mut Stop,
) -> Crossing
    requires sound { RunsSomeWhole around.bound
        (loop_at (world_at around state.now memory.now) cells.old callers.now at.old) }
    requires replaces { ReplacesModule around.bound (world_at around state.now memory.now) cells.old
        callers.now at.old from function.now }
    requires paid { 1 ≤ at.old.fuel }
    ensures { ContinuesOrStops around.entry.bound
        (loop_at (world_at around.entry state.now memory.now) cells.old callers.now at.old)
        result why.new cells.new callers.now at.new }
{
    let flat = function.flat;
    let base = at.base;
    if flat.greatest >= (cells.len() - base) as u64 {
        *why = Stop::NoRoom;
        return Crossing::Stops;
    }
    let (params, locals) = (flat.params as usize, flat.locals as usize);
    cells[from.top] = from.operand;
    move_down(cells, from.top + 1 - params, base, params);
    clear(cells, base + params, locals - params);
    at.place = flat.place as usize;
    at.top = base + locals;
    at.operand = 0;
    at.fuel -= 1;
    cross(around, function.instance, at)
}

// Calls a function of a module, after there is fuel for it. Its arguments are on top at `from`, in the same frame.
#[inline(always)]
fn enter_function<'a>(
    around: Surroundings<'a>,
    state: &State,
    memory: &[u8],
    cells: &mut [u64],
    callers: &mut Stack<Frame>,
    kind: CallKind,
    function: &ModuleFunction<'a>,
    from: Position,
    at: &mut Position,
    why: &mut Stop,
) -> Crossing
    requires sound { RunsSomeWhole around.bound
        (loop_at (world_at around state.now memory.now) cells.old callers.old at.old) }
    requires calls { CallsInModule kind around.bound (world_at around state.now memory.now)
        cells.old callers.old at.old from function.now }
    requires paid { 1 ≤ at.old.fuel }
    requires next { at.old.place + 1 < 2 ^ 32 }
    ensures { ContinuesOrStops around.entry.bound
        (loop_at (world_at around.entry state.now memory.now) cells.old callers.old at.old)
        result why.new cells.new callers.new at.new }
{
    match kind {
        CallKind::Nested => {
            if callers.len() as u64 + 1 >= around.bound {
                *why = Stop::NoDepth;
                return Crossing::Stops;
            }
            open(
                around, state, memory, cells, callers, function, from, at, why,
            )
        }
        CallKind::Tail => {
            let mut to = *at;
            let crossing = replace(
                around, state, memory, cells, callers, function, from, &mut to, why,
            );
            *at = to;
            crossing
        }
    }
}

// Calls the function that was found, after there is fuel for it. Its arguments are on top at `from`, in the same frame.
#[inline(always)]
fn enter<'a>(
    around: Surroundings<'a>,
    state: &State,
    memory: &[u8],
    cells: &mut [u64],
    callers: &mut Stack<Frame>,
    kind: CallKind,
    found: Found<'a>,
    from: Position,
    at: &mut Position,
    why: &mut Stop,
) -> Crossing
    requires sound { RunsSomeWhole around.bound
        (loop_at (world_at around state.now memory.now) cells.old callers.old at.old) }
    requires calls { Calls around.bound (world_at around state.now memory.now) cells.old
        callers.old at.old from kind found.address found.callee }
    requires paid { 1 ≤ at.old.fuel }
    requires next { at.old.place + 1 < 2 ^ 32 }
    ensures { ContinuesOrStops around.entry.bound
        (loop_at (world_at around.entry state.now memory.now) cells.old callers.old at.old)
        result why.new cells.new callers.new at.new }
{
    match found.callee {
        Callee::InModule(function) => {
            enter_function(
                around, state, memory, cells, callers, kind, &function, from, at, why,
            )
        }
        Callee::InHost(_) => {
            *why = Stop::CallsHost(kind, found.address, from.top + 1);
            Crossing::Stops
        }
    }
}

// Does what `enter` does, outside of the loop's own code.
#[cold]
#[inline(never)]
fn enter_far<'a>(
    around: Surroundings<'a>,
    state: &State,
    memory: &[u8],
    cells: &mut [u64],
    callers: &mut Stack<Frame>,
    kind: CallKind,
    found: Found<'a>,
    from: Position,
    at: &mut Position,
    why: &mut Stop,
) -> Crossing
    requires sound { RunsSomeWhole around.bound
        (loop_at (world_at around state.now memory.now) cells.old callers.old at.old) }
    requires calls { Calls around.bound (world_at around state.now memory.now) cells.old
        callers.old at.old from kind found.address found.callee }
    requires paid { 1 ≤ at.old.fuel }
    requires next { at.old.place + 1 < 2 ^ 32 }
    ensures { ContinuesOrStops around.entry.bound
        (loop_at (world_at around.entry state.now memory.now) cells.old callers.old at.old)
        result why.new cells.new callers.new at.new }
{
    enter(
        around, state, memory, cells, callers, kind, found, from, at, why,
    )
}

// Calls the function that the instance has under an index, by its address, after there is fuel for it.
#[cold]
#[inline(never)]
fn call_imported<'a>(
    around: Surroundings<'a>,
    state: &State,
    memory: &[u8],
    cells: &mut [u64],
    callers: &mut Stack<Frame>,
    kind: CallKind,
    index: u32,
    at: &mut Position,
    why: &mut Stop,
) -> Crossing
    requires sound { RunsSomeWhole around.bound
        (loop_at (world_at around state.now memory.now) cells.old callers.old at.old) }
    requires fits { IsReadyFor (world_at around state.now memory.now) (machine_at cells.old at.old)
        (operation_by_name kind index) }
    requires executes { Executes (world_at around state.now memory.now)
        (machine_at cells.old at.old) (operation_by_name kind index) }
    requires paid { 1 ≤ at.old.fuel }
    requires next { at.old.place + 1 < 2 ^ 32 }
    ensures { ContinuesOrStops around.entry.bound
        (loop_at (world_at around.entry state.now memory.now) cells.old callers.old at.old)
        result why.new cells.new callers.new at.new }
{
    let address = around.instance.addresses.functions[index as usize];
    let callee = around.code.callee(address);
    let found = Found { address, callee };
    let from = *at;
    enter(
        around, state, memory, cells, callers, kind, found, from, at, why,
    )
}

// Returns whether a nested call clears more than four cells. Such a call is not inlined in the loop, which then keeps its values
// in registers.
#[inline(always)]
fn is_far(kind: CallKind, flat: &PackedFunction) -> bool {
    match kind {
        CallKind::Nested => flat.locals.wrapping_sub(flat.params) > 4,
        CallKind::Tail => false,
    }
}

/// Calls the function that the instance has under an index. A function of its own module is found without its address.
#[inline(always)]
pub fn call<'a>(
    around: Surroundings<'a>,
    state: &State,
    memory: &[u8],
    cells: &mut [u64],
    callers: &mut Stack<Frame>,
    kind: CallKind,
    index: u32,
    at: &mut Position,
    why: &mut Stop,
) -> Crossing
    requires sound { RunsSomeWhole around.bound
        (loop_at (world_at around state.now memory.now) cells.old callers.old at.old) }
    requires fits { IsReadyFor (world_at around state.now memory.now) (machine_at cells.old at.old)
        (operation_by_name kind index) }
    requires executes { Executes (world_at around state.now memory.now)
        (machine_at cells.old at.old) (operation_by_name kind index) }
    requires next { at.old.place + 1 < 2 ^ 32 }
    ensures { ContinuesOrStops around.entry.bound
        (loop_at (world_at around.entry state.now memory.now) cells.old callers.old at.old)
        result why.new cells.new callers.new at.new }
{
    if at.fuel == 0 {
        *why = Stop::NoFuel;
        return Crossing::Stops;
    }
    let imported = around.instance.imported;
    if (index as usize) < imported {
        let mut to = *at;
        let crossing = call_imported(
            around, state, memory, cells, callers, kind, index, &mut to, why,
        );
        *at = to;
        return crossing;
    }
    let own = around
        .instance
        .loaded
        .as_ref()
        .function((index as usize - imported) as u32);
    if is_far(kind, own.flat) {
        let mut to = *at;
        let crossing = call_imported(
            around, state, memory, cells, callers, kind, index, &mut to, why,
        );
        *at = to;
        return crossing;
    }
    let function = ModuleFunction {
        ty: own.ty,
        func: own.func,
        flat: own.flat,
        instance: around.number,
    };
    let from = *at;
    enter_function(
        around, state, memory, cells, callers, kind, &function, from, at, why,
    )
}

// Like `is_far`, for a call of a function that was found.
#[inline(always)]
fn is_found_far(kind: CallKind, callee: Callee<'_>) -> bool {
    match callee {
        Callee::InModule(function) => is_far(kind, function.flat),
        Callee::InHost(_) => false,
    }
}

/// Calls the function that an entry of a table refers to. The offset of the entry is the topmost operand. The type that the
/// function must have and the table have the indices of this number.
#[inline(always)]
pub fn call_indirect<'a>(
    around: Surroundings<'a>,
    state: &State,
    memory: &[u8],
    cells: &mut [u64],
    callers: &mut Stack<Frame>,
    kind: CallKind,
    number: u32,
    at: &mut Position,
    why: &mut Stop,
) -> Crossing
    requires sound { RunsSomeWhole around.bound
        (loop_at (world_at around state.now memory.now) cells.old callers.old at.old) }
    requires fits { IsReadyFor (world_at around state.now memory.now) (machine_at cells.old at.old)
        (op.Transfer (transfer_through kind) number) }
    requires executes { Executes (world_at around state.now memory.now)
        (machine_at cells.old at.old) (op.Transfer (transfer_through kind) number) }
    requires next { at.old.place + 1 < 2 ^ 32 }
    ensures { ContinuesOrStops around.entry.bound
        (loop_at (world_at around.entry state.now memory.now) cells.old callers.old at.old)
        result why.new cells.new callers.new at.new }
{
    let Some(left) = pay(at.fuel, why) else {
        return Crossing::Stops;
    };
    let indices = around.flat.tables.pairs[number as usize];
    match find_through(around.code, around.instance, state, indices, at.operand) {
        Ok(found) => {
            let mut from = *at;
            from.top -= 1;
            from.operand = cells[from.top];
            if is_found_far(kind, found.callee) {
                let mut to = *at;
                let crossing = enter_far(
                    around, state, memory, cells, callers, kind, found, from, &mut to, why,
                );
                *at = to;
                return crossing;
            }
            enter(
                around, state, memory, cells, callers, kind, found, from, at, why,
            )
        }
        Err(trap) => {
            at.fuel = left;
            *why = Stop::Traps(trap);
            Crossing::Stops
        }
    }
}

/// Leaves the innermost frame with that many results, after the step was paid for.
#[inline(always)]
pub fn leave<'a>(
    around: Surroundings<'a>,
    state: &State,
    memory: &[u8],
    cells: &mut [u64],
    callers: &mut Stack<Frame>,
    results: usize,
    at: &mut Position,
    why: &mut Stop,
) -> Crossing
    requires leaves { (fuel : ℕ) × Leaves around.bound
        (world_at around state.now memory.now) cells.old callers.old at.old fuel results }
    requires next { at.old.place + 1 < 2 ^ 32 }
    ensures { (fuel : ℕ)
        → Leaves around.entry.bound (world_at around.entry state.now memory.now) cells.old
        callers.old at.old fuel results
        → ContinuesOrStops around.entry.bound
        (loop_at (world_at around.entry state.now memory.now) cells.old callers.old
        (record at.old { fuel = fuel }))
        result why.new cells.new callers.new at.new }
{
    let Some(frame) = callers.pop() else {
        *why = Stop::Over;
        return Crossing::Stops;
    };
    let to = at.base - 1;
    cells[at.top] = at.operand;
    at.operand = land_results(cells, at.top, to, results, at.operand);
    at.base = frame.base;
    at.place = frame.place as usize;
    at.top = to + results;
    cross(around, frame.instance, at)
}
