//! Why a module is not linked.

use crate::externs::{write_extern, write_import, write_names};
use crate::names::shown;
use core_types::{ExternType, Import, Module};
use std::alloc::{AllocError, Global};

// Appends the names and the index of an import.
fn write_names_of(text: &mut String, import: &Import, index: usize) -> Result<(), AllocError> {
    let module_name = shown(import.module_name.as_str());
    let name = shown(import.name.as_str());
    write!(text, "import {module_name:?} {name:?} (import {index}")
}

// Appends the names that there are under the name of a module.
fn write_names_under(
    text: &mut String,
    module_name: &str,
    names: &[&str],
) -> Result<(), AllocError> {
    if names.is_empty() {
        return write!(text, "there is no {module_name:?}");
    }
    write!(text, "{module_name:?} has ")?;
    write_names(text, names)
}

// Appends that an import is unknown, and which names there are under the name of its module.
fn write_unknown(
    text: &mut String,
    module: &Module,
    (index, import): (usize, &Import),
    names: &[&str],
) -> Result<(), AllocError> {
    text.push_str("unknown ")?;
    write_names_of(text, import, index)?;
    text.push_str(", ")?;
    write_import(text, module, import.desc)?;
    text.push_str("): ")?;
    write_names_under(text, shown(import.module_name.as_str()), names)
}

// Appends that an import has another type than what is found for it.
fn write_incompatible(
    text: &mut String,
    module: &Module,
    (index, import): (usize, &Import),
    found: &ExternType,
) -> Result<(), AllocError> {
    text.push_str("incompatible ")?;
    write_names_of(text, import, index)?;
    text.push_str("): expected ")?;
    write_import(text, module, import.desc)?;
    text.push_str(", found ")?;
    write_extern(text, found)
}

/// Returns that nothing has the names of an import, of this index, and which names there are under the name of its module.
/// Returns none if there is no such import.
///
/// # Errors
///
/// Fails if an allocation fails.
pub fn explain_unknown_import(
    alloc: Global,
    module: &Module,
    index: usize,
    names: &[&str],
) -> Result<Option<String>, AllocError> {
    let Some(import) = module.imports.as_slice().get(index) else {
        return Ok(None);
    };
    let mut text = String::new(alloc);
    write_unknown(&mut text, module, (index, import), names)?;
    Ok(Some(text))
}

/// Returns that what has the names of an import, of this index, is of another type. Returns none if there is no such import.
///
/// # Errors
///
/// Fails if an allocation fails.
pub fn explain_incompatible_import(
    alloc: Global,
    module: &Module,
    index: usize,
    found: &ExternType,
) -> Result<Option<String>, AllocError> {
    let Some(import) = module.imports.as_slice().get(index) else {
        return Ok(None);
    };
    let mut text = String::new(alloc);
    write_incompatible(&mut text, module, (index, import), found)?;
    Ok(Some(text))
}
