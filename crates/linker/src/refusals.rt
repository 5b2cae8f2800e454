ghost use Rattle.std.specs.Prelude.{◌≡◌};
ghost use Rattle.linker.specs.declared.refusals.NameRefusal.TheVariants.{OutOfMemory};

use std::alloc::AllocError;

/// Why a name was not added.
#[derive(Clone, Copy, PartialEq, Eq)]
pub enum NameRefusal {
    /// A host function has the name already.
    NameTaken,
    /// An allocation failed.
    OutOfMemory,
}

impl From<AllocError> for NameRefusal {
    ghost from_gives = { λ _ refusal. refusal ≡ OutOfMemory };

    fn from(_error: AllocError) -> NameRefusal {
        NameRefusal::OutOfMemory
    }
}
