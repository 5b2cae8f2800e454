ghost use Rattle.std.specs.Prelude.{IsTrue, ◌↔◌, ◌≡◌};
ghost use Rattle.validator.specs.OperandStack.{code_of, one};
ghost use Rattle.validator.specs.declared.entries.Entry.TheVariants as entry;

use core_types::{OperandType, ValType};
use std::marker::Model;

/// One operand, whose type is known or not, or those of a run.
#[derive(Clone, Copy)]
pub enum Entry {
    Known(ValType),
    Unknown,
    Run,
}

/// An entry in one byte.
#[derive(Clone, Copy)]
pub struct PackedEntry {
    code: u8,
}

impl Model for PackedEntry {
    ghost use Rattle.std.specs.Prelude.{◌≤◌};
    ghost use Rattle.validator.specs.OperandStack.{code_of, entry_of};
    ghost use Rattle.validator.specs.declared.entries.Entry.{Entry};

    ghost Value = { Entry };

    ghost view = { λ e. entry_of e.code };

    ghost inverse = { λ e. record { code = code_of e } };

    ghost invariant = { λ e. e.code ≤ 5 };
}

// Returns the code of an operand whose type is known.
#[inline(always)]
fn code_of_type(ty: ValType) -> u8
    ensures { result ≡ code_of (entry.Known ty) }
{
    match ty {
        ValType::I32 => 0,
        ValType::I64 => 1,
        ValType::FuncRef => 2,
        ValType::ExternRef => 3,
    }
}

impl PackedEntry {
    #[inline(always)]
    pub fn known(ty: ValType) -> PackedEntry
        ensures { result ≡ entry.Known ty }
    {
        PackedEntry {
            code: code_of_type(ty),
        }
    }

    // Returns the entry of one operand.
    #[inline(always)]
    pub fn of(operand: OperandType) -> PackedEntry
        ensures { result ≡ one operand }
    {
        match operand {
            OperandType::Known(ty) => PackedEntry::known(ty),
            OperandType::Unknown => PackedEntry { code: 4 },
        }
    }

    pub fn run() -> PackedEntry
        ensures { result ≡ entry.Run }
    {
        PackedEntry { code: 5 }
    }

    #[inline(always)]
    pub fn get(self) -> Entry
        ensures { result ≡ self }
    {
        match self.code {
            0 => Entry::Known(ValType::I32),
            1 => Entry::Known(ValType::I64),
            2 => Entry::Known(ValType::FuncRef),
            3 => Entry::Known(ValType::ExternRef),
            4 => Entry::Unknown,
            _ => Entry::Run,
        }
    }

    #[inline(always)]
    pub fn is_known(self, ty: ValType) -> bool
        ensures { IsTrue result ↔ (self ≡ entry.Known ty) }
    {
        self.code == code_of_type(ty)
    }

    #[inline(always)]
    pub fn is_run(self) -> bool
        ensures { IsTrue result ↔ (self ≡ entry.Run) }
    {
        self.code == 5
    }
}
