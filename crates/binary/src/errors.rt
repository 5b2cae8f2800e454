ghost use Rattle.std.specs.Prelude.{◌≡◌};

use std::alloc::{AllocError, AllocFailed};
use thiserror::Error;

/// Why bytes were not decoded. A number is the offset in the whole input at which reading failed.
#[derive(Debug, Drop, Error)]
pub enum DecodeError {
    /// The bytes encode no module.
    #[error("malformed module at byte {0}")]
    Malformed(usize),
    /// The bytes continue with an unsupported part of the format.
    #[error("unsupported feature at byte {0}")]
    Unsupported(usize),
    /// The module exceeds one of the decoder's limits.
    #[error("module exceeds a limit")]
    Limit,
    /// An allocation for the module failed.
    #[error("out of memory")]
    OutOfMemory,
}

impl From<AllocError> for DecodeError {
    ghost use Rattle.std.specs.Prelude.{◌≡◌};
    ghost use Rattle.binary.specs.declared.errors.DecodeError.TheVariants.{OutOfMemory};

    ghost from_gives = { λ _ error. error ≡ OutOfMemory };

    fn from(_error: AllocError) -> DecodeError {
        DecodeError::OutOfMemory
    }
}

impl<T: Drop> From<AllocFailed<T>> for DecodeError {
    ghost use Rattle.std.specs.Prelude.{◌≡◌};
    ghost use Rattle.binary.specs.declared.errors.DecodeError.TheVariants.{OutOfMemory};

    ghost from_gives = { λ _ error. error ≡ OutOfMemory };

    fn from(_error: AllocFailed<T>) -> DecodeError {
        DecodeError::OutOfMemory
    }
}
