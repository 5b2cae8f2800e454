ghost use Rattle.std.specs.Prelude.{◌≡◌};

use embed::{NewFault, Place, Refusal};
use scripts::ScriptFault;
use thiserror::Error;

/// Why an order is refused.
#[derive(Debug, Drop, Error)]
pub enum Cause {
    /// The embedding refuses the command.
    #[error("{0}")]
    Command(Refusal),
    /// No embedding was created with the host functions.
    #[error("{0}")]
    Creation(NewFault),
    /// The script was not read, or not run to its end.
    #[error("{0}")]
    Script(ScriptFault),
    /// A number of the setup is out of its range.
    #[error("a number of the setup is out of its range")]
    Setup,
}

/// The kind and the index of a place. The kinds are: 0 none, 1 a byte of the module, 2 an import, 3 a section, 4 a function, 5 a
/// command of a script.
#[derive(Clone, Copy)]
pub struct Where {
    pub kind: u64,
    pub index: u64,
}

// Returns the place of a kind and an index.
fn at(kind: u64, index: u64) -> Where
    ensures { result ≡ record { kind = kind; index = index } }
{
    Where { kind, index }
}

impl Cause {
    ghost use Rattle.answers.specs.Causes.{cause_number, place_of};

    /// Returns the number of the refusal.
    pub fn number(&self) -> u64
        ensures { result ≡ cause_number self.now }
    {
        match self {
            Cause::Command(refusal) => u64::from(refusal.number()),
            Cause::Creation(fault) => u64::from(fault.number()),
            Cause::Script(fault) => u64::from(fault.number()),
            Cause::Setup => 64,
        }
    }

    /// Returns the place of the fault.
    pub fn place(&self) -> Where
        ensures { result ≡ place_of self.now }
    {
        match self {
            Cause::Command(Refusal::Malformed(offset) | Refusal::Unsupported(offset)) => {
                at(1, *offset as u64)
            }
            Cause::Command(Refusal::UnknownImport(index) | Refusal::IncompatibleImport(index)) =>
                at(2, *index as u64),
            Cause::Command(Refusal::Invalid(Place::Section(id))) => at(3, u64::from(*id)),
            Cause::Command(Refusal::Invalid(Place::Func(index))) => at(4, *index as u64),
            Cause::Script(ScriptFault::BadCommand(index) | ScriptFault::MissingFile(index)) => {
                at(5, *index)
            }
            _ => at(0, 0),
        }
    }
}
