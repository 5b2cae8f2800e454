//! Types in the text format (Text Format, Types).

use core_types::{FuncType, GlobalType, Limits, Mutability, RefType, TableType, ValType};
use std::io::{self, Write};

fn name_of(ty: ValType) -> &'static str {
    match ty {
        ValType::I32 => "i32",
        ValType::I64 => "i64",
        ValType::FuncRef => "funcref",
        ValType::ExternRef => "externref",
    }
}

fn name_of_element(ty: RefType) -> &'static str {
    match ty {
        RefType::FuncRef => "funcref",
        RefType::ExternRef => "externref",
    }
}

// Writes parameters or results, or nothing if there are none.
fn write_types<W: Write>(out: &mut W, word: &str, types: &[ValType]) -> io::Result<()> {
    if types.is_empty() {
        return Ok(());
    }
    write!(out, " ({word}")?;
    for ty in types {
        write!(out, " {}", name_of(*ty))?;
    }
    write!(out, ")")
}

/// Writes the type of a function.
pub fn write_func<W: Write>(out: &mut W, ty: &FuncType) -> io::Result<()> {
    write!(out, "(func")?;
    write_types(out, "param", ty.params.as_slice())?;
    write_types(out, "result", ty.results.as_slice())?;
    write!(out, ")")
}

fn write_limits<W: Write>(out: &mut W, limits: Limits) -> io::Result<()> {
    write!(out, "{}", limits.min)?;
    match limits.max {
        Some(max) => write!(out, " {max}"),
        None => Ok(()),
    }
}

/// Writes the type of a table.
pub fn write_table<W: Write>(out: &mut W, ty: TableType) -> io::Result<()> {
    write!(out, "(table ")?;
    write_limits(out, ty.limits)?;
    write!(out, " {})", name_of_element(ty.element))
}

/// Writes the type of a memory.
pub fn write_memory<W: Write>(out: &mut W, limits: Limits) -> io::Result<()> {
    write!(out, "(memory ")?;
    write_limits(out, limits)?;
    write!(out, ")")
}

/// Writes the type of a global.
pub fn write_global<W: Write>(out: &mut W, ty: GlobalType) -> io::Result<()> {
    let value = name_of(ty.value);
    match ty.mutability {
        Mutability::Const => write!(out, "(global {value})"),
        Mutability::Var => write!(out, "(global (mut {value}))"),
    }
}
