//! The texts.

use crate::bodies::{Found, first_fault};
use crate::contexts::{Context, named_functions};
use crate::mnemonics::mnemonic;
use crate::names::write_function_name;
use crate::positions::from_operation;
use core_types::{Module, item};
use index_spaces::IndexSpaces;
use std::alloc::{AllocError, Global};

// Appends the instruction at fault, with its offset if that is found, and what is wrong with it.
fn write_instruction(
    text: &mut String,
    bytes: &[u8],
    body: usize,
    found: Found,
) -> Result<(), AllocError> {
    let fault = found.fault;
    match from_operation(bytes, body, found.operation) {
        Some(rest) => {
            let offset = bytes.len().saturating_sub(rest.len());
            let instruction = mnemonic(rest);
            write!(text, " at offset 0x{offset:x}: {instruction} {fault}")
        }
        None => write!(text, ": {fault}"),
    }
}

// Returns the text of a fault in the body of a function.
fn text_of(
    alloc: Global,
    module: &Module,
    bytes: &[u8],
    (body, function): (usize, u32),
    found: Found,
) -> Result<String, AllocError> {
    let mut text = String::new(alloc);
    text.push_str(found.fault.heading())?;
    text.push_str(" in ")?;
    write_function_name(&mut text, module, function)?;
    write!(text, ", operation {}", found.operation)?;
    write_instruction(&mut text, bytes, body, found)?;
    Ok(text)
}

/// Returns why a body of a module is not valid, or none if it is, or if the check takes very long. The bytes encode the module, and
/// the body is that of a function that it defines. A line break is never in the text.
///
/// # Errors
///
/// Fails if an allocation fails.
pub fn explain_function(
    alloc: Global,
    module: &Module,
    bytes: &[u8],
    body: usize,
) -> Result<Option<String>, AllocError> {
    let Some(func) = module.funcs.as_slice().get(body) else {
        return Ok(None);
    };
    let Some(ty) = item(module.types.as_slice(), func.ty) else {
        return Ok(None);
    };
    let spaces = IndexSpaces::new(alloc, module)?;
    let named = named_functions(alloc, module, spaces.functions.len())?;
    let context = Context {
        module,
        spaces: &spaces,
        func,
        ty,
        named: &named,
    };
    let Some(found) = first_fault(alloc, context)? else {
        return Ok(None);
    };
    let imported = spaces.functions.len().saturating_sub(module.funcs.len());
    let function = u32::try_from(imported.saturating_add(body)).unwrap_or(u32::MAX);
    let text = text_of(alloc, module, bytes, (body, function), found)?;
    Ok(Some(text))
}
