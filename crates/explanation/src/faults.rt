//! What is wrong with an operation.

use binary::DecodeError;
use std::alloc::AllocError;
use thiserror::Error;

/// What an index is one of.
#[derive(Clone, Copy, Debug)]
pub enum Kind {
    Label,
    Local,
    Global,
    Function,
    Table,
    Type,
    ElementSegment,
    DataSegment,
}

impl Kind {
    // Returns that nothing has an index of this kind.
    fn unknown(self) -> &'static str {
        match self {
            Kind::Label => "unknown label",
            Kind::Local => "unknown local",
            Kind::Global => "unknown global",
            Kind::Function => "unknown function",
            Kind::Table => "unknown table",
            Kind::Type => "unknown type",
            Kind::ElementSegment => "unknown element segment",
            Kind::DataSegment => "unknown data segment",
        }
    }
}

/// What is wrong with the types of an operation.
#[derive(Clone, Copy, Debug, Error)]
pub enum TypeFault {
    /// An operand, or what an index stands for, has another type than is expected.
    #[error("expects {0}, found {1}")]
    Mismatch(&'static str, &'static str),
    /// Operands are left at an end.
    #[error("expects no more operands, found {0}")]
    Left(&'static str),
    /// The labels of a branch by number have different numbers of operands.
    #[error("expects labels of as many operands, found {0} and {1}")]
    Labels(usize, usize),
    /// An `if` without `else` takes other types than it gives.
    #[error("expects an else, since the if takes other types than it gives")]
    NoElse,
    /// A tail call is to a function of other results.
    #[error("expects the results of its own function")]
    Results,
    /// A `select` without a type is of references.
    #[error("without a type expects i32 or i64, found {0}")]
    SelectOf(&'static str),
    /// A `select` has not one type.
    #[error("expects one type, found {0}")]
    SelectTypes(usize),
}

/// What is wrong with an operation.
#[derive(Clone, Copy, Debug, Error)]
pub enum Fault {
    #[error("{0}")]
    Type(TypeFault),
    /// Nothing has the index, and there are that many.
    #[error("has the index {1}, and there are {2}")]
    Unknown(Kind, u32, usize),
    /// There is no memory.
    #[error("needs a memory, and there is none")]
    NoMemory,
    /// A global that is set is immutable.
    #[error("sets the immutable global {0}")]
    Immutable(u32),
    /// The alignment of an access is larger than the access.
    #[error("has an alignment of 2^{0}, and at most 2^{1} is allowed")]
    Alignment(u32, u32),
    /// A function that is referred to is not named outside of bodies.
    #[error("names function {0}, which nothing names outside of bodies")]
    Undeclared(u32),
}

/// Returns that one type is expected and another one found.
pub fn mismatch(expected: &'static str, found: &'static str) -> Fault {
    Fault::Type(TypeFault::Mismatch(expected, found))
}

impl Fault {
    /// Returns what kind of fault it is, in a few words.
    pub fn heading(self) -> &'static str {
        match self {
            Fault::Type(_) => "type mismatch",
            Fault::Unknown(kind, ..) => kind.unknown(),
            Fault::NoMemory => "unknown memory",
            Fault::Immutable(_) => "immutable global",
            Fault::Alignment(..) => "alignment too large",
            Fault::Undeclared(_) => "undeclared reference",
        }
    }
}

/// Why the check of a body stops.
#[derive(Clone, Copy)]
pub enum Stop {
    Fault(Fault),
    OutOfMemory,
    /// The check gives up.
    TooLong,
    /// The bytes of the body encode no operation.
    Malformed,
}

impl From<TypeFault> for Stop {
    fn from(fault: TypeFault) -> Stop {
        Stop::Fault(Fault::Type(fault))
    }
}

impl From<AllocError> for Stop {
    fn from(_error: AllocError) -> Stop {
        Stop::OutOfMemory
    }
}

impl From<DecodeError> for Stop {
    fn from(error: DecodeError) -> Stop {
        match error {
            DecodeError::OutOfMemory => Stop::OutOfMemory,
            _ => Stop::Malformed,
        }
    }
}

impl From<Fault> for Stop {
    fn from(fault: Fault) -> Stop {
        Stop::Fault(fault)
    }
}
