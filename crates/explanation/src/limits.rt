//! The limit that a module exceeds.

use crate::sections::{
    CODE_SECTION, FUNCTION, FUNCTION_SECTION, TYPE_SECTION, from_section, imported_items,
    skip_sized, split_number,
};
use std::alloc::{AllocError, Global};

// The most bytes of a module, parameters or results of a type, and locals of a function with its parameters.
const MAX_SIZE: usize = 67_108_864;

const MAX_VALUES: u32 = 1_000;

const MAX_LOCALS: u64 = 50_000;

// The numbers of parameters and of results of a type.
#[derive(Clone, Copy)]
struct Arity {
    params: u32,
    results: u32,
}

// Reads a list of types, and returns their number with the bytes after it.
fn split_types(bytes: &[u8]) -> Option<(u32, &[u8])> {
    let (count, types) = split_number(bytes)?;
    Some((count, types.get(count as usize..)?))
}

// Reads the type of a function.
fn split_arity(bytes: &[u8]) -> Option<(Arity, &[u8])> {
    let (params, rest) = split_types(bytes.get(1..)?)?;
    let (results, rest) = split_types(rest)?;
    Some((Arity { params, results }, rest))
}

// Returns the types of a module, as far as they can be read.
fn arities(alloc: Global, bytes: &[u8]) -> Result<Vec<Arity>, AllocError> {
    let mut found = Vec::new(alloc);
    let Some((count, mut rest)) = from_section(bytes, TYPE_SECTION).and_then(split_number) else {
        return Ok(found);
    };
    for _ in 0..count {
        let Some((arity, after)) = split_arity(rest) else {
            break;
        };
        found.push(arity)?;
        rest = after;
    }
    Ok(found)
}

// Returns the index of the first type with too many parameters or results, their number, and which they are.
fn large_type(types: &[Arity]) -> Option<(usize, u32, &'static str)> {
    for (index, ty) in types.iter().enumerate() {
        if ty.params > MAX_VALUES {
            return Some((index, ty.params, "parameters"));
        }
        if ty.results > MAX_VALUES {
            return Some((index, ty.results, "results"));
        }
    }
    None
}

// Returns the number of locals in the groups at the start of a body.
fn count_locals(body: &[u8]) -> Option<u64> {
    let (groups, mut rest) = split_number(body)?;
    let mut locals = 0_u64;
    for _ in 0..groups {
        let (count, ty) = split_number(rest)?;
        locals = locals.saturating_add(u64::from(count));
        rest = ty.get(1..)?;
    }
    Some(locals)
}

// Reads the type and the body of a function, and returns the number of its locals, its parameters included, with the bytes after both.
fn split_function<'a>(
    types: &[Arity],
    indices: &'a [u8],
    bodies: &'a [u8],
) -> Option<(u64, &'a [u8], &'a [u8])> {
    let (ty, indices) = split_number(indices)?;
    let locals = count_locals(split_number(bodies)?.1)?;
    let params = match types.get(ty as usize) {
        Some(arity) => u64::from(arity.params),
        None => 0,
    };
    Some((locals.saturating_add(params), indices, skip_sized(bodies)?))
}

// Returns the index of the first of that many functions with too many locals, and their number.
fn first_large<'a>(
    types: &[Arity],
    count: u32,
    mut indices: &'a [u8],
    mut bodies: &'a [u8],
) -> Option<(u32, u64)> {
    for index in 0..count {
        let (locals, other_indices, other_bodies) = split_function(types, indices, bodies)?;
        if locals > MAX_LOCALS {
            return Some((index, locals));
        }
        (indices, bodies) = (other_indices, other_bodies);
    }
    None
}

// Returns the index of the first function with too many locals, counted with those that are imported, and their number.
fn large_function(types: &[Arity], bytes: &[u8]) -> Option<(u32, u64)> {
    let (_, indices) = split_number(from_section(bytes, FUNCTION_SECTION)?)?;
    let (count, bodies) = split_number(from_section(bytes, CODE_SECTION)?)?;
    let (own, locals) = first_large(types, count, indices, bodies)?;
    Some((imported_items(bytes, FUNCTION)?.checked_add(own)?, locals))
}

// Returns the text of a type or a function that is too large, if there is one.
fn explain_items(
    alloc: Global,
    types: &[Arity],
    bytes: &[u8],
) -> Result<Option<String>, AllocError> {
    if let Some((index, count, what)) = large_type(types) {
        return Ok(Some(format!(in alloc;
            "type {index} has {count} {what}, and at most {MAX_VALUES} are allowed"
        )?));
    }
    match large_function(types, bytes) {
        Some((index, locals)) => Ok(Some(format!(in alloc;
            "function {index} has {locals} locals with its parameters, and at most {MAX_LOCALS} are allowed"
        )?)),
        None => Ok(None),
    }
}

/// Returns which limit a module exceeds, or none if that is not known.
///
/// # Errors
///
/// Fails if an allocation fails.
pub fn explain_limit(alloc: Global, bytes: &[u8]) -> Result<Option<String>, AllocError> {
    let size = bytes.len();
    if size > MAX_SIZE {
        return Ok(Some(format!(in alloc; "{size} bytes, and at most {MAX_SIZE} are allowed")?));
    }
    let types = arities(alloc, bytes)?;
    explain_items(alloc, &types, bytes)
}
