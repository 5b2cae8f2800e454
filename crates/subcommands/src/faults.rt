//! Why a script was not run to its end, a function was not called, or a module was not found valid.

use crate::args::ArgsFault;
use command_line::WordsFault;
use embed::{NewFault, Refusal};
use scripts::ScriptFault;
use std::alloc::{AllocError, AllocFailed};

/// Why a script was not run to its end, a function was not called, or a module was not found valid.
#[derive(Drop)]
pub enum Fault<'a> {
    /// The arguments of the program do not have a form that it reads.
    Usage,
    /// The file at this path could not be read.
    CannotRead(&'a str),
    /// The file at this path, which a script names, could not be read.
    CannotReadNamed(String),
    /// A script was not read, or was not run to its end.
    Script(ScriptFault),
    /// The embedding refused a command.
    Refused(Refusal),
    /// A host function is defined under names that are taken.
    HostNameTaken,
    /// A host function has a funcref result.
    HostFuncRef,
    /// The arguments of the call do not fit the function.
    BadArguments,
}

impl From<Refusal> for Fault<'_> {
    fn from(refusal: Refusal) -> Self {
        Fault::Refused(refusal)
    }
}

impl From<AllocError> for Fault<'_> {
    fn from(_error: AllocError) -> Self {
        Fault::Refused(Refusal::OutOfMemory)
    }
}

impl<T: Drop> From<AllocFailed<T>> for Fault<'_> {
    fn from(_error: AllocFailed<T>) -> Self {
        Fault::Refused(Refusal::OutOfMemory)
    }
}

impl From<ScriptFault> for Fault<'_> {
    fn from(fault: ScriptFault) -> Self {
        Fault::Script(fault)
    }
}

impl From<WordsFault> for Fault<'_> {
    fn from(fault: WordsFault) -> Self {
        match fault {
            WordsFault::Usage => Fault::Usage,
            WordsFault::Memory => Fault::Refused(Refusal::OutOfMemory),
        }
    }
}

impl From<ArgsFault> for Fault<'_> {
    fn from(fault: ArgsFault) -> Self {
        match fault {
            ArgsFault::Unreadable => Fault::BadArguments,
            ArgsFault::Memory => Fault::Refused(Refusal::OutOfMemory),
        }
    }
}

impl From<NewFault> for Fault<'_> {
    fn from(fault: NewFault) -> Self {
        match fault {
            NewFault::HostFuncRef => Fault::HostFuncRef,
            NewFault::NameTaken => Fault::HostNameTaken,
            NewFault::OutOfMemory => Fault::Refused(Refusal::OutOfMemory),
        }
    }
}
