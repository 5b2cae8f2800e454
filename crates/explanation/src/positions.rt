//! Where the operations of a body are in the bytes of a module.

use crate::sections::{from_body, split_number};

// Skips an integer of any length and sign.
fn skip_integer(bytes: &[u8]) -> Option<&[u8]> {
    for k in 0..bytes.len() {
        if bytes[k] < 0x80 {
            return bytes.get(k + 1..);
        }
    }
    None
}

fn skip_two(bytes: &[u8]) -> Option<&[u8]> {
    skip_integer(skip_integer(bytes)?)
}

// Skips the labels of a branch by number, and the default.
fn skip_labels(bytes: &[u8]) -> Option<&[u8]> {
    let (count, mut rest) = split_number(bytes)?;
    for _ in 0..count {
        rest = skip_integer(rest)?;
    }
    skip_integer(rest)
}

// Skips the immediates of an instruction with this number after the prefix.
fn skip_prefixed(bytes: &[u8]) -> Option<&[u8]> {
    let (number, rest) = split_number(bytes)?;
    match number {
        8 | 10 | 12 | 14 => skip_two(rest),
        9 | 11 | 13 | 15 | 16 | 17 => skip_integer(rest),
        _ => Some(rest),
    }
}

// Skips an operation.
fn skip_operation(bytes: &[u8]) -> Option<&[u8]> {
    let (opcode, rest) = bytes.split_first()?;
    match *opcode {
        0x02..=0x04 | 0x0C | 0x0D | 0x10 | 0x12 | 0x20..=0x26 => skip_integer(rest),
        0x3F..=0x42 | 0xD0 | 0xD2 => skip_integer(rest),
        0x0E => skip_labels(rest),
        0x11 | 0x13 | 0x28..=0x3E => skip_two(rest),
        0x1C => {
            let (count, types) = split_number(rest)?;
            types.get(count as usize..)
        }
        0xFC => skip_prefixed(rest),
        _ => Some(rest),
    }
}

/// Returns the bytes of a module from an operation of a body on.
pub fn from_operation(bytes: &[u8], body: usize, operation: usize) -> Option<&[u8]> {
    let mut rest = from_body(bytes, body)?;
    for _ in 0..operation {
        rest = skip_operation(rest)?;
    }
    Some(rest)
}
