//! Why a function is not called, or a global not read.

use crate::externs::{kind_of, write_exports};
use crate::names::shown;
use crate::types::name_of;
use core_types::{Export, ExportDesc, Val, ValType};
use std::alloc::{AllocError, Global};

// Returns the type of a value.
fn type_of(value: Val) -> ValType {
    match value {
        Val::I32(_) => ValType::I32,
        Val::I64(_) => ValType::I64,
        Val::FuncRef(_) => ValType::FuncRef,
        Val::ExternRef(_) => ValType::ExternRef,
    }
}

// An argument of another type than its parameter.
#[derive(Clone, Copy)]
struct Misfit {
    index: usize,
    expected: &'static str,
    found: &'static str,
}

// Returns the first argument of another type than its parameter.
fn first_misfit(params: &[ValType], args: &[Val]) -> Option<Misfit> {
    for (index, expected) in params.iter().enumerate() {
        let found = type_of(*args.get(index)?);
        if found != *expected {
            return Some(Misfit {
                index,
                expected: name_of(*expected),
                found: name_of(found),
            });
        }
    }
    None
}

// Returns the index of the first argument that refers to a function which does not exist, and the number of that function.
fn first_dangling(args: &[Val], functions: usize) -> Option<(usize, u32)> {
    for (k, arg) in args.iter().enumerate() {
        match arg {
            Val::FuncRef(Some(address)) if *address as usize >= functions => {
                return Some((k, *address));
            }
            _ => {}
        }
    }
    None
}

// Returns that there are too few or too many arguments.
fn explain_count(
    alloc: Global,
    expected: usize,
    found: usize,
) -> Result<Option<String>, AllocError> {
    Ok(Some(format!(in alloc; "number of arguments: expected {expected}, found {found}")?))
}

// Returns which argument is of another type than its parameter.
fn explain_misfit(alloc: Global, misfit: Misfit) -> Result<Option<String>, AllocError> {
    let (index, expected, found) = (misfit.index, misfit.expected, misfit.found);
    Ok(Some(format!(in alloc; "argument {index}: expected {expected}, found {found}")?))
}

// Returns which argument refers to a function that does not exist.
fn explain_dangling(
    alloc: Global,
    index: usize,
    address: u32,
) -> Result<Option<String>, AllocError> {
    Ok(Some(format!(in alloc; "argument {index}: there is no function {address}")?))
}

/// Returns which argument is not of the type of its parameter, or refers to none of so many functions, or that there are too few
/// or too many arguments. Returns none if the arguments are right.
///
/// # Errors
///
/// Fails if an allocation fails.
pub fn explain_arguments(
    alloc: Global,
    params: &[ValType],
    args: &[Val],
    functions: usize,
) -> Result<Option<String>, AllocError> {
    if params.len() != args.len() {
        return explain_count(alloc, params.len(), args.len());
    }
    if let Some(misfit) = first_misfit(params, args) {
        return explain_misfit(alloc, misfit);
    }
    match first_dangling(args, functions) {
        Some((index, address)) => explain_dangling(alloc, index, address),
        None => Ok(None),
    }
}

// Returns what is exported under a name.
fn export_of(exports: &[Export], name: &str) -> Option<ExportDesc> {
    for export in exports {
        if export.name.as_str() == name {
            return Some(export.desc);
        }
    }
    None
}

// Appends what is exported under a name, or that nothing is.
fn write_named(text: &mut String, exports: &[Export], name: &str) -> Result<(), AllocError> {
    let name_shown = shown(name);
    match export_of(exports, name) {
        Some(desc) => write!(text, "export {name_shown:?} is a {}: ", kind_of(desc)),
        None => write!(text, "no export {name_shown:?}: "),
    }
}

// Appends the exports that there are.
fn write_list(text: &mut String, exports: &[Export]) -> Result<(), AllocError> {
    if exports.is_empty() {
        return text.push_str("there are no exports");
    }
    text.push_str("the exports are ")?;
    write_exports(text, exports)
}

/// Returns that nothing is exported under a name, or what it is if something is, and the exports that there are.
///
/// # Errors
///
/// Fails if an allocation fails.
pub fn explain_export(alloc: Global, exports: &[Export], name: &str) -> Result<String, AllocError> {
    let mut text = String::new(alloc);
    write_named(&mut text, exports, name)?;
    write_list(&mut text, exports)?;
    Ok(text)
}
