ghost use Rattle.std.specs.Prelude.{◌≡◌};
ghost use Rattle.scripts.specs.declared.unread.Unread.TheVariants.{OutOfMemory};

use std::alloc::{AllocError, AllocFailed};

// Why a part of a command was not read.
#[derive(Clone, Copy)]
pub enum Unread {
    // It is missing, or does not have its form.
    BadForm,
    // An allocation failed.
    OutOfMemory,
}

impl From<AllocError> for Unread {
    ghost from_gives = { λ _ why. why ≡ OutOfMemory };

    fn from(_error: AllocError) -> Unread {
        Unread::OutOfMemory
    }
}

impl<T: Drop> From<AllocFailed<T>> for Unread {
    ghost from_gives = { λ _ why. why ≡ OutOfMemory };

    fn from(_error: AllocFailed<T>) -> Unread {
        Unread::OutOfMemory
    }
}
