ghost use Rattle.std.specs.Prelude.{◌≡◌};
ghost use Rattle.effects.specs.Outcomes.{IsLeft, after_growth, after_write};

use core_types::Trap;
use std::alloc::AllocError;

/// An instruction that was done and paid for: the fuel left, and the cell of its result, if it has one.
#[derive(Clone, Copy)]
pub struct Paid {
    pub fuel: u64,
    pub result: Option<u64>,
}

/// Why an instruction was not done. The store is unchanged.
#[derive(Clone, Copy)]
pub enum Fault {
    /// It costs more than the fuel left.
    NoFuel,
    /// An allocation failed for a table or a memory that grows. It costs nothing.
    NoMemory,
    /// It traps, which costs one unit.
    Traps(Trap),
}

pub(crate) fn pay(fuel: u64, cost: u64) -> Result<u64, Fault>
    ensures { IsLeft fuel cost result }
{
    if fuel < cost {
        return Err(Fault::NoFuel);
    }
    Ok(fuel - cost)
}

// Returns the outcome of a write that was paid for.
pub(crate) fn written(write: Result<(), Trap>, left: u64) -> Result<Paid, Fault>
    ensures { result ≡ after_write write left }
{
    match write {
        Ok(()) => Ok(Paid {
            fuel: left,
            result: None,
        }),
        Err(trap) => Err(Fault::Traps(trap)),
    }
}

// Returns the outcome of a growth that was paid for.
pub(crate) fn grown(growth: Result<u32, AllocError>, left: u64) -> Result<Paid, Fault>
    ensures { result ≡ after_growth growth left }
{
    match growth {
        Ok(size) => Ok(Paid {
            fuel: left,
            result: Some(u64::from(size)),
        }),
        Err(_) => Err(Fault::NoMemory),
    }
}
