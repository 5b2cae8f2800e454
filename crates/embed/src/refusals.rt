ghost use Rattle.std.specs.Prelude.{◌≡◌};
ghost use Rattle.embed.specs.declared.refusals.Refusal.TheVariants.{OutOfMemory as OutOfMemoryCause};
ghost use Rattle.meaning.specs.embedding.Refusals.{number_of};
ghost use Rattle.embed.specs.Replies.{refusal_of};
ghost use Rattle.embed.specs.Causes.{decode_refusal, validate_refusal, link_refusal, name_refusal};

use binary::DecodeError;
use instantiate::LinkRefusal;
use linker::NameRefusal;
use std::alloc::{AllocError, AllocFailed};
use thiserror::Error;
use validator::{Place, ValidateError};

/// Why a command is refused, and at which place, if there is one. A refused command changes nothing.
#[derive(Clone, Copy, PartialEq, Eq, Debug, Error)]
pub enum Refusal {
    /// The bytes encode no module: reading failed at this byte.
    #[error("malformed module at byte {0}")]
    Malformed(usize),
    /// The bytes use a feature that is not supported, at this byte.
    #[error("unsupported feature at byte {0}")]
    Unsupported(usize),
    /// A limit is exceeded.
    #[error("a limit is passed")]
    Limit,
    /// No typing accepts the module, at this place.
    #[error("invalid module in {0}")]
    Invalid(Place),
    /// No module has the number.
    #[error("there is no module of the number")]
    UnknownModule,
    /// The names of the import of this index stand for nothing.
    #[error("import {0} is unknown")]
    UnknownImport(usize),
    /// What the names of the import of this index stand for does not match.
    #[error("import {0} is of another type")]
    IncompatibleImport(usize),
    /// No instance has the number.
    #[error("there is no instance of the number")]
    UnknownInstance,
    /// Nothing is exported under the name.
    #[error("nothing is exported under the name")]
    UnknownExport,
    /// What is exported is not a function, or not a global.
    #[error("the export is of another kind")]
    WrongKind,
    /// The number of arguments is wrong, or an argument has the wrong type.
    #[error("the arguments are not those of the function")]
    BadArguments,
    /// A host function has the name.
    #[error("a host function has the name")]
    NameTaken,
    /// An allocation failed.
    #[error("out of memory")]
    OutOfMemory,
}

impl Refusal {
    /// Returns the number of the refusal, which does not include the place.
    pub fn number(self) -> u8
        ensures { result ≡ number_of (refusal_of self) }
    {
        match self {
            Refusal::Malformed(_) => 1,
            Refusal::Unsupported(_) => 2,
            Refusal::Limit => 3,
            Refusal::Invalid(_) => 4,
            Refusal::UnknownModule => 5,
            Refusal::UnknownImport(_) => 6,
            Refusal::IncompatibleImport(_) => 7,
            Refusal::UnknownInstance => 8,
            Refusal::UnknownExport => 9,
            Refusal::WrongKind => 10,
            Refusal::BadArguments => 11,
            Refusal::NameTaken => 12,
            Refusal::OutOfMemory => 13,
        }
    }

    /// Returns the name of the refusal, which does not include the place.
    pub fn name(self) -> &'static str {
        match self {
            Refusal::Malformed(_) => "Malformed",
            Refusal::Unsupported(_) => "Unsupported",
            Refusal::Limit => "Limit",
            Refusal::Invalid(_) => "Invalid",
            Refusal::UnknownModule => "UnknownModule",
            Refusal::UnknownImport(_) => "UnknownImport",
            Refusal::IncompatibleImport(_) => "IncompatibleImport",
            Refusal::UnknownInstance => "UnknownInstance",
            Refusal::UnknownExport => "UnknownExport",
            Refusal::WrongKind => "WrongKind",
            Refusal::BadArguments => "BadArguments",
            Refusal::NameTaken => "NameTaken",
            Refusal::OutOfMemory => "OutOfMemory",
        }
    }
}

impl From<AllocError> for Refusal {
    ghost from_gives = { λ _ refusal. refusal ≡ OutOfMemoryCause };

    fn from(_error: AllocError) -> Refusal {
        Refusal::OutOfMemory
    }
}

impl<T: Drop> From<AllocFailed<T>> for Refusal {
    ghost from_gives = { λ _ refusal. refusal ≡ OutOfMemoryCause };

    fn from(_error: AllocFailed<T>) -> Refusal {
        Refusal::OutOfMemory
    }
}

impl From<DecodeError> for Refusal {
    ghost from_gives = { λ error refusal. refusal ≡ decode_refusal error };

    fn from(error: DecodeError) -> Refusal {
        match error {
            DecodeError::Malformed(offset) => Refusal::Malformed(offset),
            DecodeError::Unsupported(offset) => Refusal::Unsupported(offset),
            DecodeError::Limit => Refusal::Limit,
            DecodeError::OutOfMemory => Refusal::OutOfMemory,
        }
    }
}

impl From<ValidateError> for Refusal {
    ghost from_gives = { λ error refusal. refusal ≡ validate_refusal error };

    fn from(error: ValidateError) -> Refusal {
        match error {
            ValidateError::Invalid(place) => Refusal::Invalid(place),
            ValidateError::OutOfMemory => Refusal::OutOfMemory,
        }
    }
}

impl From<LinkRefusal> for Refusal {
    ghost from_gives = { λ cause refusal. refusal ≡ link_refusal cause };

    fn from(cause: LinkRefusal) -> Refusal {
        match cause {
            LinkRefusal::Limit => Refusal::Limit,
            LinkRefusal::UnknownImport(index) => Refusal::UnknownImport(index),
            LinkRefusal::IncompatibleImport(index) => Refusal::IncompatibleImport(index),
            LinkRefusal::OutOfMemory => Refusal::OutOfMemory,
        }
    }
}

impl From<NameRefusal> for Refusal {
    ghost from_gives = { λ cause refusal. refusal ≡ name_refusal cause };

    fn from(cause: NameRefusal) -> Refusal {
        match cause {
            NameRefusal::NameTaken => Refusal::NameTaken,
            NameRefusal::OutOfMemory => Refusal::OutOfMemory,
        }
    }
}
