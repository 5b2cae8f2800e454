//! What is seen of a reply.

use core_types::{Exhaustion, Trap, Val};
use embed::{Refusal, Reply};

/// What is seen of the answer to a command or a script.
#[derive(Clone, Copy, PartialEq, Eq)]
pub enum Seen {
    /// The number of the module.
    Loaded(u64),
    /// The number of the instance.
    Linked(u64),
    /// The command is done.
    Done,
    /// No values.
    Nothing,
    /// A single i32.
    Number(u32),
    /// A single reference to the function at this address.
    Function(u32),
    /// Other values.
    Others,
    Trapped(Trap),
    Lacks(Exhaustion),
    Refused(Refusal),
    /// How many commands of a script passed, and how many failed.
    Counted(u64, u64),
}

// Returns what is seen of values.
fn seen_in_values(values: &[Val]) -> Seen {
    match values {
        [] => Seen::Nothing,
        [Val::I32(number)] => Seen::Number(*number),
        [Val::FuncRef(Some(address))] => Seen::Function(*address),
        _ => Seen::Others,
    }
}

/// Returns what is seen of a reply.
pub fn seen_in(reply: &Reply) -> Seen {
    match reply {
        Reply::Loaded(number) => Seen::Loaded(*number),
        Reply::Linked(number) => Seen::Linked(*number),
        Reply::Done => Seen::Done,
        Reply::Values(values) => seen_in_values(values),
        Reply::Trap(trap) => Seen::Trapped(*trap),
        Reply::Exhausted(what) => Seen::Lacks(*what),
        Reply::Refused(refusal) => Seen::Refused(*refusal),
    }
}

/// A command or a script is refused because it ran out of memory.
pub const REFUSED: Seen = Seen::Refused(Refusal::OutOfMemory);

/// A call or a link ran out of memory.
pub const EXHAUSTED: Seen = Seen::Lacks(Exhaustion::Memory);

impl Seen {
    /// Returns whether the answer states that memory ran out.
    pub fn wants_memory(self) -> bool {
        self == REFUSED || self == EXHAUSTED
    }
}
