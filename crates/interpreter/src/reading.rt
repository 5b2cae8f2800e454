ghost use Rattle.std.specs.Prelude.{◌≡◌, ◌+◌, ◌<◌, ◌^◌, length};
ghost use Rattle.simulation.specs.Runs.{Ghost};
ghost use Rattle.interpreter.specs.Looping.{machine_at, world_at};
ghost use Rattle.interpreter.specs.Running.{RunsAt};
ghost use Rattle.interpreter.specs.Operations.{IsReadyFor, Executes};
ghost use Rattle.sidetable.specs.SideTables.{entry_of_number};

use crate::machine::{Position, Surroundings};
use sidetable::{Entry, PackedOp, SideTables};
use store::State;

/// Returns the operation at the machine's place. Only the contract needs the state, the memory, the cells, and the rest of the
/// position.
#[inline(always)]
pub fn fetch<'a>(
    around: Surroundings<'a>,
    state: &State,
    memory: &[u8],
    cells: &[u64],
    operations: &'a [PackedOp],
    at: Position,
) -> &'a PackedOp
    requires code { operations.now ≡ around.flat.now.operations.items }
    requires sound { (g : Ghost) × RunsAt (world_at around state.now memory.now)
        (machine_at cells.now at) g }
    ensures inside { at.place < length operations.now }
    ensures next { at.place + 1 < 2 ^ 32 }
    ensures fits { IsReadyFor (world_at around.entry state.now memory.now)
        (machine_at cells.now at) result.now }
    ensures executes { Executes (world_at around.entry state.now memory.now)
        (machine_at cells.now at) result.now }
{
    &operations[at.place]
}

/// Returns the entry of a number.
#[inline(always)]
pub fn entry(tables: &SideTables, number: u32) -> Entry
    requires { number < length tables.now.entries.items }
    ensures { result ≡ entry_of_number tables.now number }
{
    tables.entries[number as usize]
}
