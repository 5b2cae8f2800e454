ghost use Rattle.std.specs.Prelude.{◌≡◌};
ghost use Rattle.scripts.specs.declared.faults.ScriptFault.TheVariants.{OutOfMemory};

use std::alloc::{AllocError, AllocFailed};
use thiserror::Error;

/// Why a script was not read, or not run to its end.
#[derive(Debug, Drop, Error)]
pub enum ScriptFault {
    /// The bytes are not JSON, or JSON whose arrays and objects are nested more than 127 levels deep.
    #[error("not JSON, or nested more than 127 levels deep")]
    NotJson,
    /// The command of this index, from 0, does not have its form. The index is 0 if there is no array of commands.
    #[error("command {0} has not its form")]
    BadCommand(u64),
    /// The file that the command of this index, from 0, names was not passed.
    #[error("the file of command {0} is missing")]
    MissingFile(u64),
    /// An allocation failed.
    #[error("out of memory")]
    OutOfMemory,
}

impl ScriptFault {
    ghost use Rattle.scripts.specs.Faults.{fault_number};

    /// Returns the number of the refusal.
    pub fn number(&self) -> u8
        ensures { result ≡ fault_number self.now }
    {
        match self {
            ScriptFault::NotJson => 15,
            ScriptFault::BadCommand(_) => 16,
            ScriptFault::MissingFile(_) => 17,
            ScriptFault::OutOfMemory => 13,
        }
    }
}

impl From<AllocError> for ScriptFault {
    ghost from_gives = { λ _ fault. fault ≡ OutOfMemory };

    fn from(_error: AllocError) -> ScriptFault {
        ScriptFault::OutOfMemory
    }
}

impl<T: Drop> From<AllocFailed<T>> for ScriptFault {
    ghost from_gives = { λ _ fault. fault ≡ OutOfMemory };

    fn from(_error: AllocFailed<T>) -> ScriptFault {
        ScriptFault::OutOfMemory
    }
}
