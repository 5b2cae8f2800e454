ghost use Rattle.std.specs.Prelude.{◌<◌};

use crate::error::AssembleError;
use std::alloc::Global;

/// Bytes that are written in a row. If an allocation fails, the writer has failed, and `finish` returns that.
#[derive(Drop)]
pub struct Writer {
    bytes: Vec<u8>,
    has_failed: bool,
}

// Returns the lowest seven bits of a number, or of its complement.
fn seven_bits(number: u64, is_turned: bool) -> u8
    ensures { result < 0x80 }
{
    let bits = (number % 0x80) as u8;
    if is_turned { 0x7F - bits } else { bits }
}

impl Writer {
    /// Creates a writer without bytes. Allocates nothing.
    pub fn new(alloc: Global) -> Writer {
        Writer {
            bytes: Vec::new(alloc),
            has_failed: false,
        }
    }

    /// Returns the bytes so far.
    pub fn as_slice(&self) -> &[u8] {
        self.bytes.as_slice()
    }

    /// Writes a byte.
    pub fn write_byte(&mut self, byte: u8) {
        if self.bytes.push(byte).is_err() {
            self.has_failed = true;
        }
    }

    /// Writes bytes.
    pub fn write_bytes(&mut self, bytes: &[u8]) {
        if self.bytes.extend_from_slice(bytes).is_err() {
            self.has_failed = true;
        }
    }

    /// Writes an unsigned number in LEB128.
    pub fn write_number(&mut self, number: u64) {
        let mut rest = number;
        while rest >= 0x80 {
            self.write_byte((rest % 0x80) as u8 + 0x80);
            rest /= 0x80;
        }
        self.write_byte(rest as u8);
    }

    /// Writes a signed number, of which these are the 64 bits, in LEB128.
    pub fn write_signed(&mut self, number: u64) {
        let is_negative = number >= 1 << 63;
        let mut rest = if is_negative { !number } else { number };
        while rest >= 0x40 {
            self.write_byte(seven_bits(rest, is_negative) + 0x80);
            rest /= 0x80;
        }
        self.write_byte(seven_bits(rest, is_negative));
    }

    /// Writes the number of bytes, and then the bytes.
    pub fn write_counted(&mut self, bytes: &[u8]) {
        self.write_number(bytes.len() as u64);
        self.write_bytes(bytes);
    }

    /// Writes the bytes of another writer.
    pub fn append(&mut self, other: &Writer) {
        self.write_bytes(&other.bytes);
        self.has_failed |= other.has_failed;
    }

    /// Writes the number of bytes of another writer, and then the bytes.
    pub fn append_counted(&mut self, other: &Writer) {
        self.write_number(other.bytes.len() as u64);
        self.append(other);
    }

    /// Makes the writer fail.
    pub fn fail(&mut self) {
        self.has_failed = true;
    }

    /// Returns all bytes, unless an allocation failed.
    pub fn finish(self) -> Result<Vec<u8>, AssembleError> {
        let Writer { bytes, has_failed } = self;
        if has_failed {
            return Err(AssembleError::OutOfMemory);
        }
        Ok(bytes)
    }
}
