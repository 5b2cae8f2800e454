ghost use Rattle.std.specs.Prelude.{◌≡◌, ◌+◌, ◌≤◌, ◌++◌, ℕ, List, length, map, drop, replicate, reverse, IfOk};
ghost use Rattle.core_types.specs.declared.outcome.Val.{Val as AnyVal};
ghost use Rattle.meaning.specs.execution.Store.{Store};
ghost use Rattle.cells.specs.Cells.{AreCellsOf, cell_of as cell, values_of};
ghost use Rattle.interpreter.specs.Looping.{machine_at};
ghost use Rattle.exec.specs.Starting.{BeginsSo, FunctionAddress, Takes};
ghost use Rattle.interpreter.specs.Whole.{HasResults};

use crate::call::Call;
use cells::{value_of, write_cells};
use core_types::{Stack, Val, ValType};
use interpreter::Position;
use std::alloc::{AllocError, Global};
use store::ModuleFunction;

// Returns the cells of an outermost frame, for that many locals and operands: the arguments, followed by zeros.
fn first_cells(alloc: Global, greatest: u64, arguments: &[Val]) -> Result<Vec<u64>, AllocError>
    requires { length arguments.now ≤ greatest }
    ensures { IfOk result (λ cells. cells.items ≡ map cell arguments.now ++ drop
        (length arguments.now) (replicate (greatest + 1) 0)) }
{
    if greatest == u64::MAX {
        return Err(AllocError);
    }
    let mut cells = Vec::new(alloc);
    cells.resize(greatest as usize + 1, 0)?;
    write_cells(arguments, &mut cells);
    Ok(cells)
}

/// Begins a call of a function of a module, with arguments of its parameter types (Execution, Modules, Invocation).
///
/// Fails if an allocation fails for the cells of its frame.
pub fn begin(
    alloc: Global,
    function: &ModuleFunction<'_>,
    arguments: &[Val],
    fuel: u64,
) -> Result<Call, AllocError>
    requires takes { (a : FunctionAddress) × Takes a function.now arguments.now }
    ensures begins { IfOk result (λ call. (a : FunctionAddress)
        → Takes a function.now arguments.now → BeginsSo a function.now arguments.now fuel call) }
{
    let flat = function.flat;
    let cells = first_cells(alloc, flat.greatest, arguments)?;
    Ok(Call {
        cells,
        callers: Stack::new(alloc),
        position: Position {
            instance: function.instance,
            base: 0,
            place: flat.place as usize,
            top: flat.locals as usize,
            operand: 0,
            fuel,
        },
    })
}

// Reads cells as values of these types, and overwrites the same number of values.
fn read_cells(types: &[ValType], cells: &[u64], into: &mut [Val])
    requires fit { AreCellsOf types.now cells.now }
    requires room { length into.old ≡ length types.now }
    ensures { into.new ≡ values_of types.now cells.now }
{
    for k in 0..into.len() {
        into[k] = value_of(types[k], cells[k]);
    }
}

/// Reads the results of a call that ended, of these types, and overwrites the same number of values. Allocates nothing
/// (Execution, Modules, Invocation).
pub fn results(call: &mut Call, types: &[ValType], values: &mut [Val])
    requires over { (store : Store) × (results : List AnyVal) × HasResults store
        (machine_at call.old.cells.items call.old.position) types.now results }
    requires room { length values.old ≡ length types.now }
    ensures read { (store : Store) (results : List AnyVal) → HasResults store
        (machine_at call.old.cells.items call.old.position) types.now results
        → values.new ≡ reverse results }
    ensures position { call.new.position ≡ call.old.position }
    ensures size { length values.new ≡ length values.old }
{
    let top = call.position.top;
    call.cells[top] = call.position.operand;
    read_cells(types, &call.cells[top + 1 - types.len()..top + 1], values);
}
