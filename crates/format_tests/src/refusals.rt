//! Opcodes that no supported instruction has, and the contents of a refusal.

use crate::decoding::{Answer, answers_so, join};
use binary::{DecodeError, decode};
use std::alloc::{AllocError, Global};
use testing::bytes_of;

// A type of two parameters and a result, and a function of it.
static FRONT: [u8; 13] = [
    0x01, 0x07, 0x01, 0x60, 0x02, 0x7F, 0x7F, 0x01, 0x7F, 0x03, 0x02, 0x01, 0x00,
];

// Returns whether the result for a code section after those is `Unsupported`.
fn is_unsupported(alloc: Global, code: &[u8]) -> Result<bool, AllocError> {
    let sections = join(alloc, &[&FRONT, code])?;
    answers_so(alloc, &sections, Answer::Unsupported)
}

// Returns whether a byte is the opcode of no instruction.
fn is_no_opcode(code: u8) -> bool {
    matches!(
        code,
        0x06..=0x0A | 0x14..=0x19 | 0x1D..=0x1F | 0x27 | 0x2A | 0x2B | 0x38 | 0x39 | 0x43 | 0x44
            | 0x5B..=0x66 | 0x8B..=0xA6 | 0xA8..=0xAB | 0xAE..=0xBF | 0xC5..=0xCF | 0xD3..=0xFB
            | 0xFD..=0xFF
    )
}

// Returns whether an opcode of no instruction is refused as such.
fn refuses_opcode(alloc: Global, code: u8) -> Result<bool, AllocError> {
    if !is_no_opcode(code) {
        return Ok(true);
    }
    is_unsupported(alloc, &[0x0A, 0x06, 0x01, 0x04, 0x00, code, 0x00, 0x0B])
}

#[test]
fn refuses_other_opcodes(rt: HostRuntime) {
    for code in 0..=255 {
        assert!(rt;
            refuses_opcode(rt.alloc(), code) == Ok(true),
            "opcode {code}"
        );
    }
}

// Returns whether a number after the byte FC that belongs to no instruction is refused as such.
fn refuses_number(alloc: Global, number: u8) -> Result<bool, AllocError> {
    if (8..=17).contains(&number) {
        return Ok(true);
    }
    is_unsupported(
        alloc,
        &[0x0A, 0x07, 0x01, 0x05, 0x00, 0xFC, number, 0x00, 0x0B],
    )
}

#[test]
fn refuses_other_numbers(rt: HostRuntime) {
    for number in 0..=127 {
        assert!(rt;
            refuses_number(rt.alloc(), number) == Ok(true),
            "opcode FC {number}"
        );
    }
}

// The offset in a refusal.
#[derive(Clone, Copy, PartialEq, Eq)]
enum Refusal {
    Malformed(usize),
    Unsupported(usize),
}

fn refusal_of(alloc: Global, bytes: &[u8]) -> Option<Refusal> {
    match decode(alloc, bytes) {
        Err(DecodeError::Malformed(offset)) => Some(Refusal::Malformed(offset)),
        Err(DecodeError::Unsupported(offset)) => Some(Refusal::Unsupported(offset)),
        _ => None,
    }
}

// Bytes, and their refusal with its offset.
#[rattlefmt::skip]
static OFFSETS: [(&str, Refusal); 4] = [
    ("0061736D01000000 01070160027F7F017F 03020100 070701036164640000 0A0901070020002001920B", Refusal::Unsupported(39)),
    ("0061736D010000", Refusal::Malformed(7)),
    ("0061736D01000000 0105FFFFFFFF0F", Refusal::Malformed(15)),
    ("0061736D02000000", Refusal::Malformed(4)),
];

// Returns whether bytes have this refusal.
fn names_offset(alloc: Global, bytes: &str, refusal: Refusal) -> Result<bool, AllocError> {
    Ok(refusal_of(alloc, &bytes_of(alloc, bytes)?) == Some(refusal))
}

#[test]
fn names_offsets(rt: HostRuntime) {
    for (bytes, refusal) in &OFFSETS {
        assert!(rt;
            names_offset(rt.alloc(), bytes, *refusal) == Ok(true),
            "{bytes}"
        );
    }
}

// A refusal and its text.
#[rattlefmt::skip]
static TEXTS: [(DecodeError, &str); 4] = [
    (DecodeError::Malformed(7), "malformed module at byte 7"),
    (DecodeError::Unsupported(39), "unsupported feature at byte 39"),
    (DecodeError::Limit, "module exceeds a limit"),
    (DecodeError::OutOfMemory, "out of memory"),
];

// Returns whether a refusal has this text.
fn is_shown_as(alloc: Global, error: &DecodeError, text: &str) -> Result<bool, AllocError> {
    Ok(format!(in alloc; "{error}")?.as_str() == text)
}

#[test]
fn shows_refusals(rt: HostRuntime) {
    for (error, text) in &TEXTS {
        assert!(rt; is_shown_as(rt.alloc(), error, text) == Ok(true), "{text}");
    }
}
