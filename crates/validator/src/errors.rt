ghost use Rattle.std.specs.Prelude.{◌≡◌};
ghost use Rattle.validator.specs.Errors.{fault_of};
ghost use Rattle.validator.specs.declared.errors.Fault.TheVariants as faults;
ghost use Rattle.validator.specs.declared.errors.ValidateError.TheVariants.{OutOfMemory};

use binary::DecodeError;
use std::alloc::{AllocError, AllocFailed};
use std::fmt;
use thiserror::Error;

/// Where a module is invalid.
#[derive(Clone, Copy, PartialEq, Eq, Debug)]
pub enum Place {
    /// In the function of this index among the module's own.
    Func(usize),
    /// In the section of this id.
    Section(u8),
}

impl fmt::Display for Place {
    fn fmt<W: fmt::Write>(&self, f: &mut fmt::Formatter<W>) -> fmt::Result {
        match self {
            Place::Func(index) => write!(f, "function {index}"),
            Place::Section(id) => write!(f, "section {id}"),
        }
    }
}

/// Why a module was not validated.
#[derive(Debug, Drop, Error)]
pub enum ValidateError {
    /// No typing accepts the module.
    #[error("invalid module: {0}")]
    Invalid(Place),
    /// An allocation failed.
    #[error("out of memory")]
    OutOfMemory,
}

impl From<AllocError> for ValidateError {
    ghost from_gives = { λ _ error. error ≡ OutOfMemory };

    fn from(_error: AllocError) -> ValidateError {
        ValidateError::OutOfMemory
    }
}

/// Why a part of a module is refused.
#[derive(Clone, Copy)]
pub enum Fault {
    /// No typing accepts it.
    Invalid,
    /// An allocation failed.
    OutOfMemory,
}

impl From<AllocError> for Fault {
    ghost from_gives = { λ _ fault. fault ≡ faults.OutOfMemory };

    fn from(_error: AllocError) -> Fault {
        Fault::OutOfMemory
    }
}

impl<T: Drop> From<AllocFailed<T>> for Fault {
    ghost from_gives = { λ _ fault. fault ≡ faults.OutOfMemory };

    fn from(_error: AllocFailed<T>) -> Fault {
        Fault::OutOfMemory
    }
}

impl From<DecodeError> for Fault {
    ghost from_gives = { λ error fault. fault ≡ fault_of error };

    fn from(error: DecodeError) -> Fault {
        match error {
            DecodeError::OutOfMemory => Fault::OutOfMemory,
            _ => Fault::Invalid,
        }
    }
}
