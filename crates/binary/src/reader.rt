ghost use Rattle.std.specs.Prelude.{◌≡◌, ◌≢◌, ◌<◌, ◌≤◌, ◌==◌, ℕ, Some, [], length, drop, if◌then◌else◌, ◌^◌, ◌<ℤ◌, pos, OnOk, IfOk, IfErr};
ghost use Rattle.binary.specs.Conventions.{Gives};
ghost use Rattle.binary.specs.Errors.{OnRefused};
ghost use Rattle.core_types.specs.reading.Values.{begins_negative, begins_with, byte_at, signed_at, unsigned_at};
ghost use Rattle.binary.specs.Values.{first_byte, part_at};

use crate::errors::DecodeError;
use leb::{read_s32, read_s33, read_s64, read_u32};
use std::marker::Model;

// A reader of the input, from left to right. Contracts see the bytes that are not read yet.
#[derive(Drop)]
pub struct Reader<'a> {
    rest: &'a [u8],
    // the offset in the whole input at which the bytes end
    end: usize,
}

impl<'a> Model for Reader<'a> {
    ghost use Rattle.std.specs.Prelude.{ℕ, List, length, ◌≤◌};

    ghost Value = { List ℕ };

    ghost view = { λ a. a.rest.now };

    ghost invariant = { λ a. length a.rest.now ≤ a.end };
}

impl<'a> Reader<'a> {
    pub fn new(bytes: &'a [u8]) -> Reader<'a>
        ensures { result ≡ bytes.now }
    {
        Reader {
            rest: bytes,
            end: bytes.len(),
        }
    }

    // Returns another reader of the same bytes, at the same offset.
    #[inline(always)]
    pub fn fork(&self) -> Reader<'a>
        ensures { result ≡ self.now }
    {
        Reader {
            rest: self.rest,
            end: self.end,
        }
    }

    // Returns whether all bytes have been read.
    #[inline(always)]
    pub fn is_empty(&self) -> bool
        ensures { result ≡ (length self.now == 0) }
    {
        self.rest.is_empty()
    }

    // Returns the offset in the whole input.
    #[inline(always)]
    pub fn offset(&self) -> usize {
        self.end - self.rest.len()
    }

    // Returns the bytes that are not read yet.
    pub fn rest(&self) -> &'a [u8]
        ensures { result.now ≡ self.now }
    {
        self.rest
    }

    // Returns the next byte, if one is left.
    #[inline(always)]
    pub fn peek(&self) -> Option<u8>
        ensures { result ≡ first_byte self.now }
    {
        if self.rest.is_empty() {
            return None;
        }
        Some(self.rest[0])
    }

    // Skips that many bytes.
    #[inline(always)]
    fn advance(&mut self, count: usize)
        requires { count ≤ length self.old }
        ensures { self.new ≡ drop count self.old }
    {
        self.rest = &self.rest[count..];
    }

    // Skips the next byte.
    #[inline(always)]
    pub fn skip(&mut self)
        requires { 0 < length self.old }
        ensures { (byte : ℕ) → first_byte self.old ≡ Some byte
            → byte_at self.old ≡ Some (byte, self.new) }
    {
        self.advance(1);
    }

    // Skips all bytes that are left.
    pub fn skip_rest(&mut self)
        ensures { self.new ≡ [] }
    {
        self.advance(self.rest.len());
    }

    // Skips the next byte if it is this one. Returns whether it is.
    #[inline(always)]
    pub fn accept(&mut self, byte: u8) -> bool
        ensures accepted { result ≡ begins_with byte self.old }
        ensures rest { self.new ≡ (if result then drop 1 self.old else self.old) }
    {
        if self.rest.is_empty() || self.rest[0] != byte {
            return false;
        }
        self.advance(1);
        true
    }

    // Fails if any bytes are left.
    pub fn finish(&self) -> Result<(), DecodeError>
        ensures ok { OnOk result (self.now ≡ []) }
        ensures refused { IfErr result (λ error. OnRefused error (self.now ≢ [])) }
    {
        if !self.is_empty() {
            return Err(DecodeError::Malformed(self.offset()));
        }
        Ok(())
    }

    #[inline(always)]
    pub fn byte(&mut self) -> Result<u8, DecodeError>
        ensures { Gives result self.new (byte_at self.old) }
    {
        if self.rest.is_empty() {
            return Err(DecodeError::Malformed(self.offset()));
        }
        let byte = self.rest[0];
        self.advance(1);
        Ok(byte)
    }

    // Reads an unsigned 32-bit integer.
    #[inline(always)]
    pub fn u32(&mut self) -> Result<u32, DecodeError>
        ensures { Gives result self.new (unsigned_at 32 self.old) }
    {
        let Some((value, end)) = read_u32(self.rest, 0) else {
            return Err(DecodeError::Malformed(self.offset()));
        };
        self.advance(end);
        Ok(value)
    }

    // Reads a signed 32-bit integer.
    #[inline(always)]
    pub fn s32(&mut self) -> Result<i32, DecodeError>
        ensures { Gives result self.new (signed_at 32 self.old) }
    {
        let Some((value, end)) = read_s32(self.rest, 0) else {
            return Err(DecodeError::Malformed(self.offset()));
        };
        self.advance(end);
        Ok(value)
    }

    // Reads a signed 33-bit integer.
    pub fn s33(&mut self) -> Result<i64, DecodeError>
        ensures gives { Gives result self.new (signed_at 33 self.old) }
        ensures range { IfOk result (λ value. value <ℤ pos (2 ^ 32)) }
    {
        let Some((value, end)) = read_s33(self.rest, 0) else {
            return Err(DecodeError::Malformed(self.offset()));
        };
        self.advance(end);
        Ok(value)
    }

    // Reads a signed 64-bit integer.
    pub fn s64(&mut self) -> Result<i64, DecodeError>
        ensures { Gives result self.new (signed_at 64 self.old) }
    {
        let Some((value, end)) = read_s64(self.rest, 0) else {
            return Err(DecodeError::Malformed(self.offset()));
        };
        self.advance(end);
        Ok(value)
    }

    // Returns whether the next byte alone encodes a negative number.
    pub fn begins_negative(&self) -> bool
        ensures { result ≡ begins_negative self.now }
    {
        matches!(self.rest().first(), Some(0x40..=0x7F))
    }

    // Reads a size, and returns a reader of that many bytes.
    #[tactic(auto, unfolding(crate::specs::Values::part_at))]
    pub fn part(&mut self) -> Result<Reader<'a>, DecodeError>
        ensures { Gives result self.new (part_at self.old) }
    {
        let size = self.u32()? as usize;
        if self.rest.len() < size {
            return Err(DecodeError::Malformed(self.offset()));
        }
        let end = self.end - (self.rest.len() - size);
        let part = &self.rest[..size];
        self.advance(size);
        Ok(Reader { rest: part, end })
    }
}
