//! The results for the bytes of modules, and rows that state them.

use binary::{DecodeError, decode, decode_outline};
use core_types::Module;
use explanation::explain_function;
use std::alloc::{AllocError, Global};
use std::process::Abort;
use testing::{AssembleError, assemble, bytes_of};
use validator::{Place, ValidModule, ValidateError, validate};

// The magic number and the version.
const HEADER: &str = "0061736D 01000000";

/// Why bytes encode no valid module.
#[derive(Clone, Copy, PartialEq, Eq)]
pub enum Refusal {
    /// They are not decoded.
    Undecoded,
    /// They encode a module that is invalid at this place.
    Invalid(Place),
    /// An allocation failed.
    OutOfMemory,
}

impl From<DecodeError> for Refusal {
    fn from(error: DecodeError) -> Refusal {
        match error {
            DecodeError::OutOfMemory => Refusal::OutOfMemory,
            _ => Refusal::Undecoded,
        }
    }
}

impl From<ValidateError> for Refusal {
    fn from(error: ValidateError) -> Refusal {
        match error {
            ValidateError::Invalid(place) => Refusal::Invalid(place),
            ValidateError::OutOfMemory => Refusal::OutOfMemory,
        }
    }
}

/// Returns the valid module that bytes encode.
pub fn load(alloc: Global, bytes: &[u8]) -> Result<ValidModule, Refusal> {
    let decoded = decode(alloc, bytes)?;
    Ok(validate(alloc, decoded)?)
}

// Returns the valid module that bytes encode, whose bodies are first cut out.
fn load_outline(alloc: Global, bytes: &[u8]) -> Result<ValidModule, Refusal> {
    let outline = decode_outline(alloc, bytes)?;
    let valid = validate(alloc, outline.module)?;
    if !outline.counted && valid.names_data() {
        return Err(Refusal::Undecoded);
    }
    Ok(valid)
}

/// Returns why a module in the text format is not valid, or none if it is valid.
pub fn refusal_of(alloc: Global, text: &str) -> Option<Refusal> {
    match assemble(alloc, text) {
        Ok(bytes) => load(alloc, &bytes).err(),
        Err(AssembleError::Unreadable) => Some(Refusal::Undecoded),
        Err(AssembleError::OutOfMemory) => Some(Refusal::OutOfMemory),
    }
}

// Returns whether a word states this result.
fn is_named(refusal: Option<Refusal>, word: &str) -> bool {
    match refusal {
        None => word == "valid",
        Some(Refusal::Invalid(_)) => word == "invalid",
        Some(Refusal::Undecoded | Refusal::OutOfMemory) => false,
    }
}

// Returns whether a body has an explanation exactly if it is the one that a refusal names.
fn is_explained(
    alloc: Global,
    module: &Module,
    bytes: &[u8],
    body: usize,
    refusal: Option<Refusal>,
) -> bool {
    let is_named = refusal == Some(Refusal::Invalid(Place::Func(body)));
    match explain_function(alloc, module, bytes, body) {
        Ok(text) => text.is_some() == is_named,
        Err(_) => false,
    }
}

// Returns how many bodies are known to be valid or not: all of a valid module, and those up to the first one that is not valid.
fn judged_bodies(module: &Module, refusal: Option<Refusal>) -> usize {
    match refusal {
        None => module.funcs.len(),
        Some(Refusal::Invalid(Place::Func(body))) => body.saturating_add(1),
        Some(_) => 0,
    }
}

// Returns whether the bodies of a module have explanations exactly where a refusal says that they are not valid.
fn are_explained(alloc: Global, bytes: &[u8], refusal: Option<Refusal>) -> bool {
    let Ok(module) = decode(alloc, bytes) else {
        return true;
    };
    (0..judged_bodies(&module, refusal)).all(|body| is_explained(
        alloc, &module, bytes, body, refusal,
    ))
}

// Returns whether a word states the result for bytes, also if bodies are cut out, and the explanations agree.
fn gives(alloc: Global, bytes: &[u8], word: &str) -> bool {
    let refusal = load(alloc, bytes).err();
    is_named(refusal, word)
        && load_outline(alloc, bytes).err() == refusal
        && are_explained(alloc, bytes, refusal)
}

// Returns whether a word states the result for a module in the text format.
fn text_gives(alloc: Global, text: &str, word: &str) -> bool {
    match assemble(alloc, text) {
        Ok(bytes) => gives(alloc, &bytes, word),
        Err(_) => false,
    }
}

// A row of text: a name, a module, and the word for the result.
#[derive(Clone, Copy)]
struct Row<'a> {
    name: &'a str,
    source: &'a str,
    word: &'a str,
}

fn read_row(text: &str) -> Row<'_> {
    let (name, others) = text.split_once(" | ").unwrap_or((text, ""));
    let (source, word) = others.rsplit_once(" | ").unwrap_or((others, ""));
    Row { name, source, word }
}

/// Tests the rows of a text, one per line, and that there are `count` of them. Their modules are in the text format.
pub fn check_rows(rt: &impl Abort, alloc: Global, rows: &str, count: usize) {
    assert!(rt; rows.lines().count() == count, "{count} rows");
    for text in rows.lines() {
        let row = read_row(text);
        assert!(rt; text_gives(alloc, row.source, row.word), "{}", row.name);
    }
}

// Returns whether a row states the right result. Its module begins with these types.
fn agrees_after(alloc: Global, types: &str, row: Row<'_>) -> Result<bool, AllocError> {
    let mut text = String::from_str(alloc, types)?;
    text.push_str(row.source)?;
    Ok(text_gives(alloc, text.as_str(), row.word))
}

/// Like `check_rows`. Each module begins with these types.
pub fn check_rows_after(rt: &impl Abort, alloc: Global, types: &str, rows: &str, count: usize) {
    assert!(rt; rows.lines().count() == count, "{count} rows");
    for text in rows.lines() {
        let row = read_row(text);
        assert!(rt; agrees_after(alloc, types, row) == Ok(true), "{}", row.name);
    }
}

// Returns whether a row states the right result. Its module consists of sections in hexadecimal.
fn agrees(alloc: Global, row: Row<'_>) -> Result<bool, AllocError> {
    let mut bytes = bytes_of(alloc, HEADER)?;
    bytes.extend_from_slice(bytes_of(alloc, row.source)?.as_slice())?;
    Ok(gives(alloc, &bytes, row.word))
}

/// Tests the rows of a text, one per line, and that there are `count` of them. Their modules consist of sections in
/// hexadecimal.
pub fn check_sections(rt: &impl Abort, alloc: Global, rows: &str, count: usize) {
    assert!(rt; rows.lines().count() == count, "{count} rows");
    for text in rows.lines() {
        let row = read_row(text);
        assert!(rt; agrees(alloc, row) == Ok(true), "{}", row.name);
    }
}
