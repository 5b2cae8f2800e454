//! The types of imports and exports, as text.

use crate::names::shown;
use crate::types::{name_of, reference_type};
use core_types::{
    Export, ExportDesc, ExternType, FuncType, GlobalType, ImportDesc, Limits, Module, Mutability,
    TableType, ValType, item,
};
use std::alloc::AllocError;

// The most names that a text lists.
const MOST_NAMES: usize = 8;

fn write_types(text: &mut String, types: &[ValType]) -> Result<(), AllocError> {
    text.push_str("(")?;
    for (k, ty) in types.iter().enumerate() {
        if k > 0 {
            text.push_str(" ")?;
        }
        text.push_str(name_of(*ty))?;
    }
    text.push_str(")")?;
    Ok(())
}

/// Appends the parameters and the results of a function.
pub fn write_signature(text: &mut String, ty: &FuncType) -> Result<(), AllocError> {
    write_types(text, ty.params.as_slice())?;
    text.push_str(" -> ")?;
    write_types(text, ty.results.as_slice())
}

fn write_function(text: &mut String, ty: &FuncType) -> Result<(), AllocError> {
    text.push_str("function ")?;
    write_signature(text, ty)
}

fn write_limits(text: &mut String, limits: Limits) -> Result<(), AllocError> {
    match limits.max {
        Some(max) => write!(text, " (minimum {}, maximum {max})", limits.min),
        None => write!(text, " (minimum {})", limits.min),
    }
}

fn write_table(text: &mut String, ty: TableType) -> Result<(), AllocError> {
    text.push_str("table of ")?;
    text.push_str(name_of(reference_type(ty.element)))?;
    write_limits(text, ty.limits)
}

fn write_memory(text: &mut String, limits: Limits) -> Result<(), AllocError> {
    text.push_str("memory")?;
    write_limits(text, limits)
}

fn write_global(text: &mut String, ty: GlobalType) -> Result<(), AllocError> {
    let kind = match ty.mutability {
        Mutability::Const => "global ",
        Mutability::Var => "mutable global ",
    };
    text.push_str(kind)?;
    text.push_str(name_of(ty.value))?;
    Ok(())
}

/// Appends the type of an import.
pub fn write_import(
    text: &mut String,
    module: &Module,
    desc: ImportDesc,
) -> Result<(), AllocError> {
    match desc {
        ImportDesc::Func(index) => match item(module.types.as_slice(), index) {
            Some(ty) => write_function(text, ty),
            None => write!(text, "function of type {index}"),
        },
        ImportDesc::Table(ty) => write_table(text, ty),
        ImportDesc::Memory(limits) => write_memory(text, limits),
        ImportDesc::Global(ty) => write_global(text, ty),
    }
}

/// Appends the type of what is exported.
pub fn write_extern(text: &mut String, ty: &ExternType) -> Result<(), AllocError> {
    match ty {
        ExternType::Func(ty) => write_function(text, ty),
        ExternType::Table(ty) => write_table(text, *ty),
        ExternType::Memory(limits) => write_memory(text, *limits),
        ExternType::Global(ty) => write_global(text, *ty),
    }
}

/// Returns what an export is.
pub fn kind_of(desc: ExportDesc) -> &'static str {
    match desc {
        ExportDesc::Func(_) => "function",
        ExportDesc::Table(_) => "table",
        ExportDesc::Memory(_) => "memory",
        ExportDesc::Global(_) => "global",
    }
}

/// Appends names, the first ones if there are many.
pub fn write_names(text: &mut String, names: &[&str]) -> Result<(), AllocError> {
    for (k, name) in names.iter().enumerate() {
        if k >= MOST_NAMES {
            return text.push_str(", and others");
        }
        if k > 0 {
            text.push_str(", ")?;
        }
        write!(text, "{:?}", shown(name))?;
    }
    Ok(())
}

/// Appends exports with what they are, the first ones if there are many.
pub fn write_exports(text: &mut String, exports: &[Export]) -> Result<(), AllocError> {
    for (k, export) in exports.iter().enumerate() {
        if k >= MOST_NAMES {
            return text.push_str(", and others");
        }
        if k > 0 {
            text.push_str(", ")?;
        }
        write!(
            text,
            "{:?} ({})",
            shown(export.name.as_str()),
            kind_of(export.desc)
        )?;
    }
    Ok(())
}
