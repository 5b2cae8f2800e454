//! A reader that says why it fails.

use crate::malformations::{Malformation, Misreading, NumberFault};
use leb::{read_s32, read_s33, read_s64, read_u32};

/// A reader of bytes, from left to right, up to the place of a fault that is known.
#[derive(Clone, Copy)]
pub struct Reader<'a> {
    bytes: &'a [u8],
    offset: usize,
    /// The offset of the fault.
    fault: usize,
}

// Returns why a number at the start of bytes cannot be read that takes at most so many bytes.
fn number_fault(bytes: &[u8], most: usize) -> NumberFault {
    for k in 0..most {
        match bytes.get(k) {
            None => return NumberFault::End,
            Some(byte) if *byte < 0x80 => return NumberFault::TooLarge,
            Some(_) => {}
        }
    }
    NumberFault::TooLong
}

impl<'a> Reader<'a> {
    pub fn new(bytes: &'a [u8], fault: usize) -> Reader<'a> {
        Reader {
            bytes,
            offset: 0,
            fault,
        }
    }

    pub fn offset(&self) -> usize {
        self.offset
    }

    pub fn is_empty(&self) -> bool {
        self.offset >= self.bytes.len()
    }

    /// Returns whether the fault is at an offset.
    pub fn is_fault(&self, offset: usize) -> bool {
        self.fault == offset
    }

    /// Returns the bytes that are not read yet.
    pub fn rest(&self) -> &'a [u8] {
        self.bytes.get(self.offset..).unwrap_or(&[])
    }

    // Skips that many bytes.
    fn skip(&mut self, count: usize) {
        self.offset = self.offset.saturating_add(count);
    }

    // Returns the fault that there is a number which cannot be read.
    fn number_fault(&self, most: usize) -> Misreading {
        Misreading {
            offset: self.offset,
            cause: Malformation::Number(number_fault(self.rest(), most)),
        }
    }

    pub fn byte(&mut self) -> Result<u8, Misreading> {
        match self.bytes.get(self.offset) {
            Some(byte) => {
                self.skip(1);
                Ok(*byte)
            }
            None => Err(self.ended()),
        }
    }

    /// Returns the fault that no bytes are left.
    pub fn ended(&self) -> Misreading {
        Misreading {
            offset: self.offset,
            cause: Malformation::Number(NumberFault::End),
        }
    }

    /// Reads a byte that is below a bound.
    pub fn byte_below(&mut self, bound: u8, expected: &'static str) -> Result<u8, Misreading> {
        let offset = self.offset;
        let byte = self.byte()?;
        if byte >= bound {
            let cause = Malformation::Byte(expected, byte);
            return Err(Misreading { offset, cause });
        }
        Ok(byte)
    }

    /// Reads an unsigned 32-bit integer.
    pub fn number(&mut self) -> Result<u32, Misreading> {
        match read_u32(self.rest(), 0) {
            Some((number, end)) => {
                self.skip(end);
                Ok(number)
            }
            None => Err(self.number_fault(5)),
        }
    }

    /// Reads unsigned 32-bit integers, of which there are that many.
    pub fn numbers(&mut self, count: u32) -> Result<(), Misreading> {
        for _ in 0..count {
            let _ = self.number()?;
        }
        Ok(())
    }

    /// Reads a signed 32-bit integer.
    pub fn signed_32(&mut self) -> Result<(), Misreading> {
        match read_s32(self.rest(), 0) {
            Some((_, end)) => {
                self.skip(end);
                Ok(())
            }
            None => Err(self.number_fault(5)),
        }
    }

    /// Reads a signed 64-bit integer.
    pub fn signed_64(&mut self) -> Result<(), Misreading> {
        match read_s64(self.rest(), 0) {
            Some((_, end)) => {
                self.skip(end);
                Ok(())
            }
            None => Err(self.number_fault(10)),
        }
    }

    /// Reads a signed 33-bit integer that is not negative.
    pub fn nonnegative_33(&mut self) -> Result<(), Misreading> {
        match read_s33(self.rest(), 0) {
            Some((0..=0xFFFF_FFFF, end)) => {
                self.skip(end);
                Ok(())
            }
            Some(_) => Err(Misreading {
                offset: self.offset,
                cause: Malformation::Number(NumberFault::TooLarge),
            }),
            None => Err(self.number_fault(5)),
        }
    }

    /// Reads a size, and returns a reader of that many bytes, which may go past the end of what they are in.
    pub fn part(&mut self, whole: &'static str) -> Result<Reader<'a>, Misreading> {
        let size = self.number()? as usize;
        let end = self.offset.saturating_add(size);
        let Some(bytes) = self.bytes.get(..end) else {
            return Err(Misreading {
                offset: self.offset,
                cause: Malformation::PastEnd(whole),
            });
        };
        let part = Reader { bytes, ..*self };
        self.offset = end;
        Ok(part)
    }

    /// Fails if any bytes are left.
    pub fn finish(&self) -> Result<(), Misreading> {
        let left = self.rest().len();
        if left > 0 {
            return Err(Misreading {
                offset: self.offset,
                cause: Malformation::Left(left),
            });
        }
        Ok(())
    }
}
