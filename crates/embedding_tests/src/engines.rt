//! The engine under test: an embedding, or one that runs out of memory without need.

use core_types::Exhaustion;
use embed::{Refusal, Reply};

/// A command with any arguments.
#[derive(Clone, Copy, PartialEq, Eq)]
pub enum Asked {
    Load,
    Link,
    Register,
    Call,
    GetGlobal,
    SetFuel,
}

/// Returns the reply to a command of an embedding that runs out of memory without need.
pub fn want_memory(asked: Asked) -> Reply {
    match asked {
        Asked::Call => Reply::Exhausted(Exhaustion::Memory),
        _ => Reply::Refused(Refusal::OutOfMemory),
    }
}
