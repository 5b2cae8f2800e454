ghost use Rattle.std.specs.Prelude.{◌≡◌};
ghost use Rattle.instantiate.specs.declared.link_end.LinkEnd.TheVariants.{Refused as RefusedEnd};
ghost use Rattle.instantiate.specs.declared.link_end.LinkRefusal.TheVariants.{OutOfMemory as OutOfMemoryCause};

use exec::Outcome;
use std::alloc::{AllocError, AllocFailed};

/// Why a link is refused. Nothing has changed.
#[derive(Clone, Copy, PartialEq, Eq)]
pub enum LinkRefusal {
    /// A limit of the embedding is exceeded.
    Limit,
    /// Nothing is given for the import of this index.
    UnknownImport(usize),
    /// What is given for the import of this index does not match.
    IncompatibleImport(usize),
    /// An allocation failed.
    OutOfMemory,
}

/// The end of a task of a link that is not completed.
#[derive(Drop)]
pub enum TaskEnd {
    /// It ended as a call may: with a trap, or out of fuel, depth or memory.
    Ended(Outcome),
    /// It can't continue. No task of a valid module in a valid store ends like this.
    Stuck,
}

/// The end of a link that is not completed.
#[derive(Drop)]
pub enum LinkEnd {
    /// It is refused, and nothing has changed.
    Refused(LinkRefusal),
    /// A trap or an exhaustion ended it, and what was done stays.
    Ended(Outcome),
}

impl From<LinkRefusal> for LinkEnd {
    ghost from_gives = { λ refusal end. end ≡ RefusedEnd refusal };

    fn from(refusal: LinkRefusal) -> LinkEnd {
        LinkEnd::Refused(refusal)
    }
}

impl From<AllocError> for LinkEnd {
    ghost from_gives = { λ _ end. end ≡ RefusedEnd OutOfMemoryCause };

    fn from(_error: AllocError) -> LinkEnd {
        LinkEnd::Refused(LinkRefusal::OutOfMemory)
    }
}

impl<T: Drop> From<AllocFailed<T>> for LinkEnd {
    ghost from_gives = { λ _ end. end ≡ RefusedEnd OutOfMemoryCause };

    fn from(_error: AllocFailed<T>) -> LinkEnd {
        LinkEnd::Refused(LinkRefusal::OutOfMemory)
    }
}
