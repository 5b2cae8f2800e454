use std::fmt;

/// A value (Execution, Runtime Structure, Values). The number in a `FuncRef` is a function's address in the store. The number in
/// an `ExternRef` belongs to the host, and is never inspected. `None` is null.
#[derive(Clone, Copy, PartialEq, Eq, Debug)]
pub enum Val {
    I32(u32),
    I64(u64),
    FuncRef(Option<u32>),
    ExternRef(Option<u32>),
}

/// Why an execution trapped, by the rules of its next instruction.
#[derive(Clone, Copy, PartialEq, Eq, Debug)]
pub enum Trap {
    Unreachable,
    DivideByZero,
    IntegerOverflow,
    MemoryBounds,
    TableBounds,
    UndefinedElement,
    UninitializedElement,
    IndirectType,
    Host(u32),
}

impl Trap {
    ghost use Rattle.std.specs.Prelude.{◌≡◌};
    ghost use Rattle.core_types.specs.Outcome.{trap_text};

    /// Returns the name of the trap in scripts.
    pub fn text(self) -> &'static str
        ensures { result.now ≡ trap_text self }
    {
        match self {
            Trap::Unreachable => "unreachable",
            Trap::DivideByZero => "integer divide by zero",
            Trap::IntegerOverflow => "integer overflow",
            Trap::MemoryBounds => "out of bounds memory access",
            Trap::TableBounds => "out of bounds table access",
            Trap::UndefinedElement => "undefined element",
            Trap::UninitializedElement => "uninitialized element",
            Trap::IndirectType => "indirect call type mismatch",
            Trap::Host(_) => "host trap",
        }
    }
}

impl fmt::Display for Trap {
    fn fmt<W: fmt::Write>(&self, f: &mut fmt::Formatter<W>) -> fmt::Result {
        f.write_str(self.text())
    }
}

/// What an execution ran out of.
#[derive(Clone, Copy, PartialEq, Eq, Debug)]
pub enum Exhaustion {
    Fuel,
    Depth,
    Memory,
}

impl fmt::Display for Exhaustion {
    fn fmt<W: fmt::Write>(&self, f: &mut fmt::Formatter<W>) -> fmt::Result {
        f.write_str(match self {
            Exhaustion::Fuel => "fuel",
            Exhaustion::Depth => "depth",
            Exhaustion::Memory => "memory",
        })
    }
}

/// An external value: its kind, and its address in the store (Execution, Runtime Structure, External Values).
#[derive(Clone, Copy)]
pub enum Extern {
    Func(u32),
    Table(u32),
    Memory(u32),
    Global(u32),
}
