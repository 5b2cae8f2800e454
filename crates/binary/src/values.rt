//! Bytes, vectors and names (Binary Format, Values). The integers are methods of the reader.

ghost use Rattle.std.specs.Prelude.{◌≡◌, [], true, false, List, ℕ, Option, IfSome, IfNone};
ghost use Rattle.std.specs.Str.{is_utf8};
ghost use Rattle.binary.specs.Conventions.{Gives, GivesSeen};
ghost use Rattle.core_types.specs.reading.Values.{each_at, expected_at, vector_at};
ghost use Rattle.binary.specs.Values.{name_at, part_at};

use crate::errors::DecodeError;
use crate::reader::Reader;
use core_types::{Items, Name};
use std::alloc::Global;

// A type of values that the format encodes, with its reader.
pub trait Readable: Drop {
    ghost reads: { List ℕ → Option (Self × List ℕ) };

    fn read(alloc: Global, reader: &mut Reader<'_>) -> Result<Self, DecodeError>
        ensures { Gives result reader.new (reads reader.old) };
}

impl Readable for u32 {
    ghost use Rattle.core_types.specs.reading.Values.{unsigned_at};

    ghost reads = { unsigned_at 32 };

    fn read(_alloc: Global, reader: &mut Reader<'_>) -> Result<u32, DecodeError> {
        reader.u32()
    }
}

fn read_each<T: Readable>(
    alloc: Global,
    reader: &mut Reader<'_>,
    count: u32,
) -> Result<Items<T>, DecodeError>
    ensures { Gives result reader.new (each_at T.reads count [] reader.old) }
{
    let mut values = Vec::new(alloc);
    for _ in 0..count {
        values.push(T::read(alloc, reader)?)?;
    }
    Ok(Items::from_vec(values))
}

// Reads a vector: a count, and that many values.
#[tactic(auto, unfolding(core_types::specs::reading::Values::vector_at))]
pub fn read_vector<T: Readable>(
    alloc: Global,
    reader: &mut Reader<'_>,
) -> Result<Items<T>, DecodeError>
    ensures { Gives result reader.new (vector_at T.reads reader.old) }
{
    let count = reader.u32()?;
    read_each::<T>(alloc, reader, count)
}

// Reads a vector of bytes, which are copied once.
pub fn read_bytes(alloc: Global, reader: &mut Reader<'_>) -> Result<Items<u8>, DecodeError>
    ensures { Gives result reader.new (part_at reader.old) }
{
    let part = reader.part()?;
    Ok(Items::from_vec(Vec::from_slice(alloc, part.rest())?))
}

// Reads exactly these bytes.
pub fn read_expected(reader: &mut Reader<'_>, expected: &[u8]) -> Result<(), DecodeError>
    ensures { Gives result reader.new (expected_at expected.now reader.old) }
{
    for byte in expected {
        if !reader.accept(*byte) {
            return Err(DecodeError::Malformed(reader.offset()));
        }
    }
    Ok(())
}

// Returns the text that bytes encode in UTF-8, if they encode one.
fn text_in<'a>(bytes: &'a [u8]) -> Option<&'a str>
    ensures some { IfSome result (λ text. (text.now ≡ bytes.now) × (is_utf8 bytes.now ≡ true)) }
    ensures none { IfNone result (is_utf8 bytes.now ≡ false) }
{
    match std::str::from_utf8(bytes) {
        Ok(text) => Some(text),
        Err(_) => None,
    }
}

// Reads a name, and returns its text in the input.
#[tactic(auto, unfolding(crate::specs::Values::name_at))]
pub fn read_text<'a>(reader: &mut Reader<'a>) -> Result<&'a str, DecodeError>
    ensures { GivesSeen (λ text. text.now) result reader.new (name_at reader.old) }
{
    let part = reader.part()?;
    match text_in(part.rest()) {
        Some(text) => Ok(text),
        None => Err(DecodeError::Malformed(part.offset())),
    }
}

pub fn read_name(alloc: Global, reader: &mut Reader<'_>) -> Result<Name, DecodeError>
    ensures { Gives result reader.new (name_at reader.old) }
{
    let text = read_text(reader)?;
    Ok(Name::from_string(String::from_str(alloc, text)?))
}
