//! Calls that are made again if they ran out of memory, alone or in a row.

use crate::padding::pad;
use crate::verdicts::{Answer, Verdict};
use std::alloc::Global;

/// A call that may be made twice, with everything that it needs.
pub trait Attempt {
    /// Makes the call.
    fn attempt(&mut self) -> Answer;
}

/// Makes a call after `before` unused allocations, and returns the verdict. If the call ran out of memory, it is made again,
/// and then it must answer as with ample memory. The call runs out of memory only at `place`.
pub fn judge<T: Attempt + Drop>(
    prepared: Option<T>,
    alloc: Global,
    before: usize,
    place: &'static str,
) -> Verdict {
    let Some(mut subject) = prepared else {
        return Verdict::Unready(0);
    };
    if let Err(verdict) = pad(alloc, before) {
        return verdict;
    }
    match subject.attempt() {
        Answer::Ample => Verdict::Ample,
        Answer::Wrong => Verdict::Wrong(place),
        Answer::Wanting => match subject.attempt() {
            Answer::Ample => Verdict::Wanting(place),
            _ => Verdict::Wrong(place),
        },
    }
}

/// Calls in a row, with everything that they need. Each one is made again if it ran out of memory.
pub trait Conversation {
    /// Makes the calls, and returns the verdict.
    fn hold(&mut self) -> Verdict;
}

/// Makes calls in a row, after `before` unused allocations. Returns the verdict.
pub fn hold<T: Conversation + Drop>(prepared: Option<T>, alloc: Global, before: usize) -> Verdict {
    let Some(mut subject) = prepared else {
        return Verdict::Unready(0);
    };
    match pad(alloc, before) {
        Ok(()) => subject.hold(),
        Err(verdict) => verdict,
    }
}
