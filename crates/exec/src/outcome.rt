use core_types::{Exhaustion, Items, Trap, Val};

/// The end of a call from outside.
#[derive(Debug, Drop)]
pub enum Outcome {
    /// The call returned these results.
    Values(Items<Val>),
    /// The call trapped.
    Trap(Trap),
    /// The call ran out of fuel, depth or memory.
    Exhausted(Exhaustion),
}
