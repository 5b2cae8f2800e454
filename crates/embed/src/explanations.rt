//! Why the bytes of a module are refused, as a text for those who make modules.

use crate::refusals::Refusal;
use binary::decode;
use core_types::Module;
use explanation::{
    explain_function, explain_limit, explain_malformed, explain_section, explain_unsupported,
};
use std::alloc::{AllocError, Global};
use validator::{Place, validate};

// Returns why the bytes of a module are refused, or none if they are not.
fn refusal_of(alloc: Global, bytes: &[u8]) -> Option<Refusal> {
    match decode(alloc, bytes) {
        Ok(decoded) => validate(alloc, decoded).err().map(Refusal::from),
        Err(error) => Some(Refusal::from(error)),
    }
}

// Returns why a module that is decoded is not valid at a place.
fn explain_place(
    alloc: Global,
    module: &Module,
    bytes: &[u8],
    place: Place,
) -> Result<Option<String>, AllocError> {
    match place {
        Place::Func(body) => explain_function(alloc, module, bytes, body),
        Place::Section(id) => explain_section(alloc, module, id),
    }
}

// Returns why the module that bytes encode is not valid at a place.
fn explain_invalid(
    alloc: Global,
    bytes: &[u8],
    place: Place,
) -> Result<Option<String>, AllocError> {
    match decode(alloc, bytes) {
        Ok(decoded) => explain_place(alloc, &decoded, bytes, place),
        Err(_) => Ok(None),
    }
}

// Returns the reason of a refusal that bytes have.
fn reason_of(alloc: Global, bytes: &[u8], refusal: Refusal) -> Result<Option<String>, AllocError> {
    match refusal {
        Refusal::Malformed(offset) => explain_malformed(alloc, bytes, offset),
        Refusal::Unsupported(offset) => explain_unsupported(alloc, bytes, offset),
        Refusal::Limit => explain_limit(alloc, bytes),
        Refusal::Invalid(place) => explain_invalid(alloc, bytes, place),
        _ => Ok(None),
    }
}

// Returns the text of a refusal with its reason.
fn text_of(alloc: Global, refusal: Refusal, reason: Option<String>) -> Result<String, AllocError> {
    let Some(reason) = reason else {
        return format!(in alloc; "{refusal}");
    };
    match refusal {
        Refusal::Malformed(_) => format!(in alloc; "malformed module: {reason}"),
        Refusal::Unsupported(_) => format!(in alloc; "unsupported feature: {reason}"),
        Refusal::Limit => format!(in alloc; "module exceeds a limit: {reason}"),
        _ => format!(in alloc; "invalid module: {reason}"),
    }
}

/// Returns why a load of bytes had a refusal, in words for those who make modules: what was read and what was found, and where.
/// If the bytes are not refused so, the text is the short one of the refusal.
///
/// # Errors
///
/// Fails if an allocation fails.
pub fn explain_load(alloc: Global, bytes: &[u8], refusal: Refusal) -> Result<String, AllocError> {
    if refusal == Refusal::OutOfMemory {
        return text_of(alloc, refusal, None);
    }
    match refusal_of(alloc, bytes) {
        Some(Refusal::OutOfMemory) => Err(AllocError),
        Some(found) if found == refusal => {
            let reason = reason_of(alloc, bytes, refusal)?;
            text_of(alloc, refusal, reason)
        }
        _ => text_of(alloc, refusal, None),
    }
}

/// Returns why bytes are refused as a module, in words for those who make modules: what was read and what was found, and where.
/// The bytes are read and checked a second time, and slowly. Names in the text are escaped and cut at 80 characters, and it has
/// no line break. For a valid module, the text is `the module is valid`.
///
/// # Errors
///
/// Fails if an allocation fails.
pub fn explain_module(alloc: Global, bytes: &[u8]) -> Result<String, AllocError> {
    match refusal_of(alloc, bytes) {
        Some(Refusal::OutOfMemory) => Err(AllocError),
        Some(refusal) => {
            let reason = reason_of(alloc, bytes, refusal)?;
            text_of(alloc, refusal, reason)
        }
        None => String::from_str(alloc, "the module is valid"),
    }
}
