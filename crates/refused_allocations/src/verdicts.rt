//! Verdicts on scenarios and on calls.

/// The verdict on the calls of a scenario.
#[derive(Clone, Copy)]
pub enum Verdict {
    /// An allocation was refused before the first call, after this number of unused ones.
    Unready(usize),
    /// Each answer was the one with ample memory.
    Ample,
    /// A call ran out of memory at this place. Each other answer was right.
    Wanting(&'static str),
    /// An answer was wrong at this place.
    Wrong(&'static str),
}

/// The verdict on a call.
#[derive(Clone, Copy, PartialEq, Eq)]
pub enum Answer {
    /// The answer with ample memory.
    Ample,
    /// The call ran out of memory, and nothing has changed.
    Wanting,
    /// Another answer.
    Wrong,
}

impl Answer {
    /// Returns the verdict on an answer that does not state that memory ran out.
    pub fn with_memory(is_right: bool) -> Answer {
        if is_right {
            Answer::Ample
        } else {
            Answer::Wrong
        }
    }
}
