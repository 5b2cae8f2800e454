//! Why bytes stop being a module.

use thiserror::Error;

/// What is wrong with the sections of a module.
#[derive(Clone, Copy, Debug, Error)]
pub enum SectionFault {
    #[error("the magic number is not 00 61 73 6d")]
    Magic,
    #[error("the version is not 1")]
    Version,
    #[error("unknown section {0}")]
    Unknown(u8),
    #[error("section {0} comes too late, or twice")]
    Misplaced(u8),
    #[error("functions, and no code section")]
    NoCode,
    #[error("the number of bodies is {0}, that of functions {1}")]
    Bodies(u32, u32),
    #[error("the data count is {0}, the number of data segments {1}")]
    DataCount(u32, u32),
    #[error("memory.init and data.drop need a data count section")]
    NoDataCount,
}

/// A type or an instruction that is not supported.
#[derive(Clone, Copy, Debug, Error)]
pub enum Unsupported {
    /// By its name in the standard, with the feature that it belongs to.
    #[error("{0} ({1})")]
    Feature(&'static str, &'static str),
    #[error("opcode 0x{0:x} (not in WebAssembly 2.0)")]
    Opcode(u8),
    #[error("opcode 0xfc {0} (not in WebAssembly 2.0)")]
    Prefixed(u32),
}

/// Why a number cannot be read.
#[derive(Clone, Copy, Debug, Error)]
pub enum NumberFault {
    #[error("unexpected end")]
    End,
    #[error("LEB128 number too long")]
    TooLong,
    #[error("LEB128 number too large")]
    TooLarge,
}

/// Why bytes stop being a module.
#[derive(Clone, Copy, Debug, Error)]
pub enum Malformation {
    #[error("{0}")]
    Sections(SectionFault),
    #[error("{0}")]
    Unsupported(Unsupported),
    #[error("{0}")]
    Number(NumberFault),
    /// A section or the body of a function is longer than what it is in.
    #[error("goes past the end of the {0}")]
    PastEnd(&'static str),
    /// That many bytes of a section or of the body of a function are left.
    #[error("ends {0} bytes too early")]
    Left(usize),
    #[error("invalid UTF-8")]
    NotUtf8,
    #[error("more than 4294967295 locals")]
    Locals,
    #[error("else without if")]
    Else,
    /// A byte is found where another one is expected.
    #[error("expected {0}, found 0x{1:x}")]
    Byte(&'static str, u8),
    /// The form of a segment is found where a smaller one is expected.
    #[error("expected {0}, found {1}")]
    Form(&'static str, u32),
}

impl Malformation {
    /// Returns whether bytes continue with an unsupported type or instruction.
    pub fn is_unsupported(self) -> bool {
        matches!(self, Malformation::Unsupported(_))
    }
}

/// The offset at which bytes stop being a module, and why.
#[derive(Clone, Copy)]
pub struct Misreading {
    pub offset: usize,
    pub cause: Malformation,
}
