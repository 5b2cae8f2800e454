ghost use Rattle.std.specs.Prelude.{◌≡◌, ◌↔◌, IfOk, IsTrue};

use crate::items::Items;
use std::alloc::{AllocError, Global};

/// A type of values (Structure, Types, Value Types).
#[derive(Clone, Copy, PartialEq, Eq)]
pub enum ValType {
    I32,
    I64,
    FuncRef,
    ExternRef,
}

/// A type of references (Structure, Types, Reference Types).
#[derive(Clone, Copy, PartialEq, Eq)]
pub enum RefType {
    FuncRef,
    ExternRef,
}

/// An operand's type while a body is validated: a value type, or any type, for an operand in unreachable code (Validation,
/// Instructions, Operand Types).
#[derive(Clone, Copy, PartialEq, Eq)]
pub enum OperandType {
    Known(ValType),
    Unknown,
}

/// The parameters and results of a function (Structure, Types, Function Types).
#[derive(Drop)]
pub struct FuncType {
    pub params: Items<ValType>,
    pub results: Items<ValType>,
}

/// Returns whether two lists of types are equal.
pub fn are_same_types(first: &[ValType], second: &[ValType]) -> bool
    ensures { IsTrue result ↔ (first.now ≡ second.now) }
{
    if first.len() != second.len() {
        return false;
    }
    for i in 0..first.len() {
        if first[i] != second[i] {
            return false;
        }
    }
    true
}

impl FuncType {
    /// Returns whether two types have equal parameters and equal results.
    pub fn is_same(&self, other: &FuncType) -> bool
        ensures { IsTrue result ↔ (self.now ≡ other.now) }
    {
        are_same_types(self.params.as_slice(), other.params.as_slice())
            && are_same_types(self.results.as_slice(), other.results.as_slice())
    }

    /// Returns a copy of the type, with its own lists.
    pub fn copy(&self, alloc: Global) -> Result<FuncType, AllocError>
        ensures { IfOk result (λ copied. copied ≡ self.now) }
    {
        let params = Vec::from_slice(alloc, self.params.as_slice())?;
        let results = Vec::from_slice(alloc, self.results.as_slice())?;
        Ok(FuncType {
            params: Items::from_vec(params),
            results: Items::from_vec(results),
        })
    }
}

/// The most pages that a memory may have: those that fill a 32-bit address space (Validation, Types, Memory Types).
pub const MAX_PAGES: u32 = 65_536;

/// The bounds of a memory or a table (Structure, Types, Limits).
#[derive(Clone, Copy)]
pub struct Limits {
    pub min: u32,
    pub max: Option<u32>,
}

/// What a table holds, and its bounds (Structure, Types, Table Types).
#[derive(Clone, Copy)]
pub struct TableType {
    pub element: RefType,
    pub limits: Limits,
}

/// Whether a global may be set (Structure, Types, Global Types).
#[derive(Clone, Copy)]
pub enum Mutability {
    Const,
    Var,
}

/// The type of a global (Structure, Types, Global Types).
#[derive(Clone, Copy)]
pub struct GlobalType {
    pub value: ValType,
    pub mutability: Mutability,
}

/// The type of what a module imports or exports (Structure, Types, External Types).
#[derive(Drop)]
pub enum ExternType {
    Func(FuncType),
    Table(TableType),
    Memory(Limits),
    Global(GlobalType),
}
