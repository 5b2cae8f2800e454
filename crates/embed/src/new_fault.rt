ghost use Rattle.std.specs.Prelude.{◌≡◌};
ghost use Rattle.embed.specs.declared.new_fault.NewFault.TheVariants.{OutOfMemory as OutOfMemoryFault};
ghost use Rattle.meaning.specs.embedding.Refusals.{fault_number};
ghost use Rattle.embed.specs.Definitions.{fault_in, name_fault};

use linker::NameRefusal;
use std::alloc::{AllocError, AllocFailed};
use thiserror::Error;

/// Why an embedding was not created.
#[derive(Debug, Drop, Error)]
pub enum NewFault {
    /// A host function declares a funcref among its results.
    #[error("a host function has a funcref result")]
    HostFuncRef,
    /// Two host functions have the same names.
    #[error("two host functions have the same names")]
    NameTaken,
    /// An allocation failed.
    #[error("out of memory")]
    OutOfMemory,
}

impl NewFault {
    /// Returns the number of the fault.
    pub fn number(&self) -> u8
        ensures { result ≡ fault_number (fault_in self.now) }
    {
        match self {
            NewFault::HostFuncRef => 14,
            NewFault::NameTaken => 12,
            NewFault::OutOfMemory => 13,
        }
    }
}

impl From<AllocError> for NewFault {
    ghost from_gives = { λ _ fault. fault ≡ OutOfMemoryFault };

    fn from(_error: AllocError) -> NewFault {
        NewFault::OutOfMemory
    }
}

impl<T: Drop> From<AllocFailed<T>> for NewFault {
    ghost from_gives = { λ _ fault. fault ≡ OutOfMemoryFault };

    fn from(_error: AllocFailed<T>) -> NewFault {
        NewFault::OutOfMemory
    }
}

impl From<NameRefusal> for NewFault {
    ghost from_gives = { λ cause fault. fault ≡ name_fault cause };

    fn from(cause: NameRefusal) -> NewFault {
        match cause {
            NameRefusal::NameTaken => NewFault::NameTaken,
            NameRefusal::OutOfMemory => NewFault::OutOfMemory,
        }
    }
}
