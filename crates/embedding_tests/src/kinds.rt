//! Kinds of host functions.

ghost use Rattle.std.specs.Prelude.{◌≡◌};
ghost use Rattle.embedding_tests.specs.Kinds.{results_of};

use core_types::ValType;

/// The behavior of a host function.
#[derive(Clone, Copy)]
pub enum Kind {
    /// Counts its calls, from 1.
    Counts,
    /// Traps with the code 5.
    Traps,
    /// Returns that memory ran out.
    LacksMemory,
    /// Writes the byte 7 at 0 of what it borrows, if it borrows anything, and returns 5.
    Writes,
    /// Writes the byte 7 at 0 of what it borrows, if it borrows anything, and returns nothing.
    Marks,
    /// Returns the number of bytes that it borrows.
    Measures,
    /// Returns five values: 1 and 2, an i32 and an i64, a reference and null, and the i32 5.
    GivesFive,
    /// Takes an i32 and an i64, and returns them in the other order.
    Swaps,
    /// Has a funcref result, and is never called.
    GivesFunction,
}

impl Kind {
    /// Returns the types of its parameters.
    pub fn params(self) -> &'static [ValType] {
        match self {
            Kind::Swaps => &[ValType::I32, ValType::I64],
            _ => &[],
        }
    }

    /// Returns the types of its results.
    pub fn results(self) -> &'static [ValType]
        ensures { result.now ≡ results_of self }
    {
        match self {
            Kind::Counts | Kind::Writes | Kind::Measures => &[ValType::I32],
            Kind::Traps | Kind::LacksMemory | Kind::Marks => &[],
            Kind::GivesFive => &[
                ValType::I32,
                ValType::I64,
                ValType::ExternRef,
                ValType::ExternRef,
                ValType::I32,
            ],
            Kind::Swaps => &[ValType::I64, ValType::I32],
            Kind::GivesFunction => &[ValType::FuncRef],
        }
    }
}
