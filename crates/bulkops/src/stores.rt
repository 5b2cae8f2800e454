ghost use Rattle.std.specs.Prelude.{◌≡◌, ◌+◌, ◌<◌, ◌≤◌, ◌^◌, length};
ghost use Rattle.byteorder.specs.Endian.{little_bytes};
ghost use Rattle.meaning.specs.execution.Memories.{store_into};
ghost use Rattle.meaning.specs.validation.Instructions.{store_width};
ghost use Rattle.meaning.specs.execution.Storage.{overwrite};
ghost use Rattle.bulkops.specs.Accesses.{Wrote};

use byteorder::{ByteOrder, LittleEndian};
use core_types::{StoreOp, Trap, Width};

// Writes the bytes of a 16-bit number from an offset on.
fn put_16(bytes: &mut [u8], offset: usize, n: u16)
    requires { offset + 2 ≤ length bytes.old }
    ensures { bytes.new ≡ overwrite bytes.old offset (little_bytes 2 n) }
{
    LittleEndian::write_u16(&mut bytes[offset..offset + 2], n);
}

// Writes the bytes of a 32-bit number from an offset on.
fn put_32(bytes: &mut [u8], offset: usize, n: u32)
    requires { offset + 4 ≤ length bytes.old }
    ensures { bytes.new ≡ overwrite bytes.old offset (little_bytes 4 n) }
{
    LittleEndian::write_u32(&mut bytes[offset..offset + 4], n);
}

// Writes the bytes of a 64-bit number from an offset on.
fn put_64(bytes: &mut [u8], offset: usize, n: u64)
    requires { offset + 8 ≤ length bytes.old }
    ensures { bytes.new ≡ overwrite bytes.old offset (little_bytes 8 n) }
{
    LittleEndian::write_u64(&mut bytes[offset..offset + 8], n);
}

/// Writes the low byte of a number at an offset, or traps past the end and writes nothing (Execution, Memory Instructions,
/// t.storeN).
#[tactic(auto, using(crate::proofs::lemmas::Numbers::slice_set_byte))]
#[inline(always)]
pub fn write_8(bytes: &mut [u8], offset: u64, n: u64) -> Result<(), Trap>
    ensures { Wrote result bytes.old bytes.new (store_into bytes.old offset 1 n) }
{
    if offset >= bytes.len() as u64 {
        return Err(Trap::MemoryBounds);
    }
    bytes[offset as usize] = (n % 0x100) as u8;
    Ok(())
}

/// Writes the low two bytes of a number from an offset on, or traps past the end and writes nothing (Execution, Memory
/// Instructions, t.storeN).
#[tactic(auto, using(crate::proofs::lemmas::Numbers::low_2_bytes))]
#[inline(always)]
pub fn write_16(bytes: &mut [u8], offset: u64, n: u64) -> Result<(), Trap>
    requires { offset < 2 ^ 33 }
    ensures { Wrote result bytes.old bytes.new (store_into bytes.old offset 2 n) }
{
    if offset + 2 > bytes.len() as u64 {
        return Err(Trap::MemoryBounds);
    }
    put_16(bytes, offset as usize, (n % 0x1_0000) as u16);
    Ok(())
}

/// Writes the low four bytes of a number from an offset on, or traps past the end and writes nothing (Execution, Memory
/// Instructions, t.store and t.storeN).
#[tactic(auto, using(crate::proofs::lemmas::Numbers::low_4_bytes))]
#[inline(always)]
pub fn write_32(bytes: &mut [u8], offset: u64, n: u64) -> Result<(), Trap>
    requires { offset < 2 ^ 33 }
    ensures { Wrote result bytes.old bytes.new (store_into bytes.old offset 4 n) }
{
    if offset + 4 > bytes.len() as u64 {
        return Err(Trap::MemoryBounds);
    }
    put_32(bytes, offset as usize, (n % 0x1_0000_0000) as u32);
    Ok(())
}

/// Writes the eight bytes of a number from an offset on, or traps past the end and writes nothing (Execution, Memory
/// Instructions, t.store).
#[tactic(auto, using(crate::proofs::lemmas::Numbers::all_8_bytes))]
#[inline(always)]
pub fn write_64(bytes: &mut [u8], offset: u64, n: u64) -> Result<(), Trap>
    requires { offset < 2 ^ 33 }
    ensures { Wrote result bytes.old bytes.new (store_into bytes.old offset 8 n) }
{
    if offset + 8 > bytes.len() as u64 {
        return Err(Trap::MemoryBounds);
    }
    put_64(bytes, offset as usize, n);
    Ok(())
}

/// Writes a number, or its low bytes, from an offset on, or traps and writes nothing (Execution, Memory Instructions).
///
/// The offset is the sum of an operand and the immediate offset of the instruction, both of which have 32 bits.
pub fn store(op: StoreOp, bytes: &mut [u8], offset: u64, n: u64) -> Result<(), Trap>
    requires { offset < 2 ^ 33 }
    ensures { Wrote result bytes.old bytes.new (store_into bytes.old offset (store_width op) n) }
{
    match op {
        StoreOp::Whole(Width::W32) | StoreOp::Bits32 => write_32(bytes, offset, n),
        StoreOp::Whole(Width::W64) => write_64(bytes, offset, n),
        StoreOp::Bits8(_) => write_8(bytes, offset, n),
        StoreOp::Bits16(_) => write_16(bytes, offset, n),
    }
}
