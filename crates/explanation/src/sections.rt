//! The sections of a module, and the bodies in them.

use leb::read_u32;

// The size of the magic number with the version, the ids of sections, and the kinds of imports.
const HEADER_SIZE: usize = 8;

pub const TYPE_SECTION: u8 = 1;

const IMPORT_SECTION: u8 = 2;

pub const FUNCTION_SECTION: u8 = 3;

pub const CODE_SECTION: u8 = 10;

pub const FUNCTION: u8 = 0;

pub const TABLE: u8 = 1;

pub const MEMORY: u8 = 2;

pub const GLOBAL: u8 = 3;

/// Reads an unsigned integer at the start of bytes, and returns it with the bytes after it.
pub fn split_number(bytes: &[u8]) -> Option<(u32, &[u8])> {
    let (number, end) = read_u32(bytes, 0)?;
    Some((number, bytes.get(end..)?))
}

/// Skips an unsigned integer, and that many bytes after it.
pub fn skip_sized(bytes: &[u8]) -> Option<&[u8]> {
    let (size, rest) = split_number(bytes)?;
    rest.get(size as usize..)
}

/// Returns the bytes of a module from the content of a section on.
pub fn from_section(bytes: &[u8], wanted: u8) -> Option<&[u8]> {
    let mut rest = bytes.get(HEADER_SIZE..)?;
    for _ in 0..bytes.len() {
        let (id, section) = rest.split_first()?;
        if *id == wanted {
            return Some(split_number(section)?.1);
        }
        rest = skip_sized(section)?;
    }
    None
}

fn skip_limits(bytes: &[u8]) -> Option<&[u8]> {
    let (flag, limits) = bytes.split_first()?;
    let (_, rest) = split_number(limits)?;
    match *flag {
        0 => Some(rest),
        _ => Some(split_number(rest)?.1),
    }
}

// Skips the type of an import of this kind.
fn skip_type(kind: u8, bytes: &[u8]) -> Option<&[u8]> {
    match kind {
        FUNCTION => Some(split_number(bytes)?.1),
        TABLE => skip_limits(bytes.get(1..)?),
        MEMORY => skip_limits(bytes),
        _ => bytes.get(2..),
    }
}

// Skips an import. Returns its kind, and the bytes after it.
fn split_import(bytes: &[u8]) -> Option<(u8, &[u8])> {
    let name = skip_sized(bytes)?;
    let (kind, ty) = skip_sized(name)?.split_first()?;
    Some((*kind, skip_type(*kind, ty)?))
}

// Skips the groups of locals at the start of a body.
fn skip_locals(bytes: &[u8]) -> Option<&[u8]> {
    let (groups, mut rest) = split_number(bytes)?;
    for _ in 0..groups {
        rest = split_number(rest)?.1.get(1..)?;
    }
    Some(rest)
}

/// Returns the number of items of a kind that a module imports.
pub fn imported_items(bytes: &[u8], wanted: u8) -> Option<u32> {
    let Some(imports) = from_section(bytes, IMPORT_SECTION) else {
        return Some(0);
    };
    let (count, mut rest) = split_number(imports)?;
    let mut items = 0_u32;
    for _ in 0..count {
        let (kind, after) = split_import(rest)?;
        items = items.saturating_add(u32::from(kind == wanted));
        rest = after;
    }
    Some(items)
}

/// Returns the bytes of a module from the operations of a body on. The body is that of a function that the module defines.
pub fn from_body(bytes: &[u8], body: usize) -> Option<&[u8]> {
    let (_, mut rest) = split_number(from_section(bytes, CODE_SECTION)?)?;
    for _ in 0..body {
        rest = skip_sized(rest)?;
    }
    let (_, content) = split_number(rest)?;
    skip_locals(content)
}
