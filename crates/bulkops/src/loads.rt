ghost use Rattle.std.specs.Prelude.{◌≡◌, ◌+◌, ◌<◌, ◌^◌};
ghost use Rattle.core_types.specs.declared.op.LoadOp.TheVariants as load;
ghost use Rattle.meaning.specs.execution.Memories.{load_from, loaded_value};
ghost use Rattle.bulkops.specs.Accesses.{number_from};

use byteorder::{ByteOrder, LittleEndian};
use core_types::{LoadOp, Sign, Trap, UnaryOp, Val, Width};
use intops::{extend_low_signed, unary_32, unary_64};

/// Returns the byte at an offset, or a trap if it is past the end (Execution, Memory Instructions, t.loadN_sx).
#[inline(always)]
pub fn read_8(bytes: &[u8], offset: u64) -> Result<u8, Trap>
    ensures { result ≡ number_from bytes.now offset 1 }
{
    if offset >= bytes.len() as u64 {
        return Err(Trap::MemoryBounds);
    }
    Ok(bytes[offset as usize])
}

/// Returns the number of the two bytes from an offset on, or a trap if they reach past the end (Execution, Memory Instructions,
/// t.loadN_sx).
#[tactic(auto, using(crate::proofs::lemmas::Numbers::little_number_is))]
#[inline(always)]
pub fn read_16(bytes: &[u8], offset: u64) -> Result<u16, Trap>
    requires { offset < 2 ^ 33 }
    ensures { result ≡ number_from bytes.now offset 2 }
{
    if offset + 2 > bytes.len() as u64 {
        return Err(Trap::MemoryBounds);
    }
    Ok(LittleEndian::read_u16(&bytes[offset as usize..]))
}

/// Returns the number of the four bytes from an offset on, or a trap if they reach past the end (Execution, Memory Instructions,
/// t.load and t.loadN_sx).
#[tactic(auto, using(crate::proofs::lemmas::Numbers::little_number_is))]
#[inline(always)]
pub fn read_32(bytes: &[u8], offset: u64) -> Result<u32, Trap>
    requires { offset < 2 ^ 33 }
    ensures { result ≡ number_from bytes.now offset 4 }
{
    if offset + 4 > bytes.len() as u64 {
        return Err(Trap::MemoryBounds);
    }
    Ok(LittleEndian::read_u32(&bytes[offset as usize..]))
}

/// Returns the number of the eight bytes from an offset on, or a trap if they reach past the end (Execution, Memory
/// Instructions, t.load).
#[tactic(auto, using(crate::proofs::lemmas::Numbers::little_number_is))]
#[inline(always)]
pub fn read_64(bytes: &[u8], offset: u64) -> Result<u64, Trap>
    requires { offset < 2 ^ 33 }
    ensures { result ≡ number_from bytes.now offset 8 }
{
    if offset + 8 > bytes.len() as u64 {
        return Err(Trap::MemoryBounds);
    }
    Ok(LittleEndian::read_u64(&bytes[offset as usize..]))
}

// Returns the value of a byte.
fn value_of_8(width: Width, sign: Sign, n: u8) -> Val
    ensures { result ≡ loaded_value (load.Bits8 width sign) n }
{
    match (width, sign) {
        (Width::W32, Sign::Signed) => Val::I32(unary_32(UnaryOp::Extend8S, n as u32)),
        (Width::W32, Sign::Unsigned) => Val::I32(n as u32),
        (Width::W64, Sign::Signed) => Val::I64(unary_64(UnaryOp::Extend8S, n as u64)),
        (Width::W64, Sign::Unsigned) => Val::I64(n as u64),
    }
}

// Returns the value of two bytes.
fn value_of_16(width: Width, sign: Sign, n: u16) -> Val
    ensures { result ≡ loaded_value (load.Bits16 width sign) n }
{
    match (width, sign) {
        (Width::W32, Sign::Signed) => Val::I32(unary_32(UnaryOp::Extend16S, n as u32)),
        (Width::W32, Sign::Unsigned) => Val::I32(n as u32),
        (Width::W64, Sign::Signed) => Val::I64(unary_64(UnaryOp::Extend16S, n as u64)),
        (Width::W64, Sign::Unsigned) => Val::I64(n as u64),
    }
}

// Returns the value of four bytes, as an i64.
fn value_of_32(sign: Sign, n: u32) -> Val
    ensures { result ≡ loaded_value (load.Bits32 sign) n }
{
    match sign {
        Sign::Signed => Val::I64(extend_low_signed(n as u64)),
        Sign::Unsigned => Val::I64(n as u64),
    }
}

/// Returns the value of a load at an offset, or its trap (Execution, Memory Instructions).
///
/// The offset is the sum of an operand and the immediate offset of the instruction, both of which have 32 bits.
pub fn load(op: LoadOp, bytes: &[u8], offset: u64) -> Result<Val, Trap>
    requires { offset < 2 ^ 33 }
    ensures { result ≡ load_from op bytes.now offset }
{
    match op {
        LoadOp::Whole(Width::W32) => Ok(Val::I32(read_32(bytes, offset)?)),
        LoadOp::Whole(Width::W64) => Ok(Val::I64(read_64(bytes, offset)?)),
        LoadOp::Bits8(width, sign) => Ok(value_of_8(width, sign, read_8(bytes, offset)?)),
        LoadOp::Bits16(width, sign) => Ok(value_of_16(width, sign, read_16(bytes, offset)?)),
        LoadOp::Bits32(sign) => Ok(value_of_32(sign, read_32(bytes, offset)?)),
    }
}
