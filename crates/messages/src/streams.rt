ghost use Rattle.std.specs.Prelude.{◌≡◌, ◌++◌, IfSome, OnOk};
ghost use Rattle.messages.specs.Messages.{head_bytes as head_spelling, message_bytes};

use crate::numbers::{push_number, split_number};
use io::{read_full, write_all};
use std::alloc::AllocError;

// The size of the head of a message, in bytes.
const HEAD: usize = 16;

// The least room that is reserved for bytes that arrive.
const STEP: usize = 4_096;

/// The head of a message.
#[derive(Clone, Copy)]
pub struct Head {
    /// The number of bytes of its fields.
    pub size: u64,
    /// Its kind.
    pub kind: u64,
}

/// Why no message was read.
#[derive(Clone, Copy)]
pub enum StreamEnd {
    /// The input ended before the message began.
    Over,
    /// The input ended within the message.
    CutShort,
}

/// Why the fields of a message were not read.
#[derive(Clone, Copy)]
pub enum FieldsFault {
    /// The input ended within the fields.
    CutShort,
    /// An allocation failed. The fields were skipped to their end.
    OutOfMemory,
}

/// Appends the head of a message.
pub fn push_head(out: &mut Vec<u8>, head: Head) -> Result<(), AllocError>
    ensures { OnOk result (out.new.items ≡ out.old.items ++ head_spelling head.size head.kind) }
{
    push_number(out, head.size)?;
    push_number(out, head.kind)
}

/// Appends a message of a kind with these fields.
pub fn push_message(out: &mut Vec<u8>, kind: u64, fields: &[u8]) -> Result<(), AllocError>
    ensures { OnOk result (out.new.items ≡ out.old.items ++ message_bytes kind fields.now) }
{
    let size = fields.len() as u64;
    push_head(out, Head { size, kind })?;
    out.extend_from_slice(fields)
}

// Returns the head that sixteen bytes encode.
fn head_of(bytes: &[u8; 16]) -> Option<Head>
    ensures { IfSome result (λ head. head_spelling head.size head.kind ≡ bytes.now) }
{
    let (size, behind) = split_number(bytes)?;
    let (kind, _) = split_number(behind)?;
    Some(Head { size, kind })
}

/// Reads the head of a message from a descriptor.
pub fn read_head(hear: i32) -> Result<Head, StreamEnd> {
    let mut bytes = [0u8; HEAD];
    match read_full(hear, &mut bytes) {
        0 => Err(StreamEnd::Over),
        HEAD => head_of(&bytes).ok_or(StreamEnd::CutShort),
        _ => Err(StreamEnd::CutShort),
    }
}

/// Reads a number from a descriptor. Returns none if the input ends.
pub fn read_number(hear: i32) -> Option<u64> {
    let mut bytes = [0u8; 8];
    if read_full(hear, &mut bytes) != bytes.len() {
        return None;
    }
    Some(u64::from_le_bytes(bytes))
}

/// Writes a message of a kind with these fields to a descriptor. Returns whether it was written.
pub fn write_message(ask: i32, kind: u64, fields: &[u8]) -> bool {
    let size = (fields.len() as u64).to_le_bytes();
    write_all(ask, &size) && write_all(ask, &kind.to_le_bytes()) && write_all(ask, fields)
}

/// Reads that many bytes from a descriptor and discards them. Returns whether there were that many.
pub fn skip(hear: i32, count: u64) -> bool {
    let mut buffer = [0u8; STEP];
    let mut left = count;
    while left > 0 {
        let part = left.min(STEP as u64) as usize;
        if read_full(hear, &mut buffer[..part]) != part {
            return false;
        }
        left -= part as u64;
    }
    true
}

/// Reads that many bytes from a descriptor, and replaces those in `fields`. Room is reserved as they arrive, at most for twice
/// that many.
pub fn read_fields(hear: i32, size: u64, fields: &mut Vec<u8>) -> Result<(), FieldsFault> {
    fields.clear();
    let mut left = size;
    while left > 0 {
        let start = fields.len();
        let part = left.min(start.max(STEP) as u64);
        if fields.resize(start + part as usize, 0).is_err() {
            return if skip(hear, left) {
                Err(FieldsFault::OutOfMemory)
            } else {
                Err(FieldsFault::CutShort)
            };
        }
        let room = &mut fields.as_mut_slice()[start..];
        if read_full(hear, room) != room.len() {
            return Err(FieldsFault::CutShort);
        }
        left -= part;
    }
    Ok(())
}
