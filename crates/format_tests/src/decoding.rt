//! The results of `decode`.

use binary::{DecodeError, decode};
use explanation::{explain_malformed, explain_unsupported};
use std::alloc::{AllocError, Global};
use testing::bytes_of;

// The magic number and the version.
static HEADER: [u8; 8] = [0x00, 0x61, 0x73, 0x6D, 0x01, 0x00, 0x00, 0x00];

/// The result of `decode`.
#[derive(Clone, Copy, PartialEq, Eq)]
pub enum Answer {
    Decoded,
    Malformed,
    Unsupported,
    Limit,
    OutOfMemory,
}

// Returns the result for a refusal.
fn answer_of(error: &DecodeError) -> Answer {
    match error {
        DecodeError::Malformed(_) => Answer::Malformed,
        DecodeError::Unsupported(_) => Answer::Unsupported,
        DecodeError::Limit => Answer::Limit,
        DecodeError::OutOfMemory => Answer::OutOfMemory,
    }
}

/// Returns the result for these bytes.
pub fn answer_to(alloc: Global, bytes: &[u8]) -> Answer {
    match decode(alloc, bytes) {
        Ok(_) => Answer::Decoded,
        Err(error) => answer_of(&error),
    }
}

/// Returns these bytes in a row.
pub fn join(alloc: Global, parts: &[&[u8]]) -> Result<Vec<u8>, AllocError> {
    let mut bytes = Vec::new(alloc);
    for part in parts {
        bytes.extend_from_slice(part)?;
    }
    Ok(bytes)
}

/// Returns the header, followed by sections.
pub fn with_header(alloc: Global, sections: &[u8]) -> Result<Vec<u8>, AllocError> {
    join(alloc, &[&HEADER, sections])
}

/// A name, sections in hexadecimal numbers, and the result for a module of them.
pub struct Row {
    pub name: &'static str,
    pub sections: &'static str,
    pub answer: Answer,
}

/// Returns whether a row's module has its result.
pub fn agrees(alloc: Global, row: &Row) -> Result<bool, AllocError> {
    let sections = bytes_of(alloc, row.sections)?;
    answers_so(alloc, &sections, row.answer)
}

// Returns whether a refusal of bytes, if there is one, is explained at its place.
fn is_explained(alloc: Global, bytes: &[u8]) -> Result<bool, AllocError> {
    match decode(alloc, bytes) {
        Err(DecodeError::Malformed(offset)) => {
            Ok(explain_malformed(alloc, bytes, offset)?.is_some())
        }
        Err(DecodeError::Unsupported(offset)) => {
            Ok(explain_unsupported(alloc, bytes, offset)?.is_some())
        }
        _ => Ok(true),
    }
}

/// Returns whether a module of these sections has this result, and is explained if it is refused.
pub fn answers_so(alloc: Global, sections: &[u8], answer: Answer) -> Result<bool, AllocError> {
    let bytes = with_header(alloc, sections)?;
    Ok(answer_to(alloc, &bytes) == answer && is_explained(alloc, &bytes)?)
}
