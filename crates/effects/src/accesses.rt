ghost use Rattle.std.specs.Prelude.{◌≡◌, ◌<◌, ◌^◌};
ghost use Rattle.core_types.specs.declared.op.LoadOp.TheVariants as from;
ghost use Rattle.core_types.specs.declared.op.Width.TheVariants.{W32};
ghost use Rattle.meaning.specs.execution.Memories.{load_from, store_into};
ghost use Rattle.meaning.specs.validation.Instructions.{store_width, load_type};
ghost use Rattle.bulkops.specs.Accesses.{Wrote, number_from};
ghost use Rattle.cells.specs.Cells.{value_of_result};
ghost use Rattle.sidetable.specs.Packing.{load_op, store_op};

use bulkops::{read_8, read_16, read_32, read_64, write_8, write_16, write_32, write_64};
use core_types::{Trap, UnaryOp};
use intops::{extend_signed, unary_32, unary_64};
use sidetable::{LoadInstruction, StoreInstruction};

// Returns the cell of the byte at an offset, or a trap if it is past the end.
#[inline(always)]
fn unsigned_8(bytes: &[u8], offset: u64) -> Result<u64, Trap>
    ensures { result ≡ number_from bytes.now offset 1 }
{
    Ok(read_8(bytes, offset)? as u64)
}

// Returns the cell of the number of the two bytes from an offset on, or a trap if they reach past the end.
#[inline(always)]
fn unsigned_16(bytes: &[u8], offset: u64) -> Result<u64, Trap>
    requires { offset < 2 ^ 33 }
    ensures { result ≡ number_from bytes.now offset 2 }
{
    Ok(read_16(bytes, offset)? as u64)
}

// Returns the cell of the number of the four bytes from an offset on, or a trap if they reach past the end.
#[inline(always)]
fn unsigned_32(bytes: &[u8], offset: u64) -> Result<u64, Trap>
    requires { offset < 2 ^ 33 }
    ensures { result ≡ number_from bytes.now offset 4 }
{
    Ok(read_32(bytes, offset)? as u64)
}

/// Returns the cell that a load reads at an offset, or a trap if it reads past the end (Execution, Memory Instructions, t.load
/// and t.loadN_sx).
///
/// The offset is the sum of an operand and the immediate offset of the instruction, both of which have 32 bits.
#[inline(always)]
pub fn load_cell(op: LoadInstruction, bytes: &[u8], offset: u64) -> Result<u64, Trap>
    requires { offset < 2 ^ 33 }
    ensures { load_from (load_op op) bytes.now offset
        ≡ value_of_result (load_type (load_op op)) result }
{
    match op {
        LoadInstruction::I64Load => read_64(bytes, offset),
        LoadInstruction::I32Load8S => {
            Ok(unary_32(UnaryOp::Extend8S, read_8(bytes, offset)? as u32) as u64)
        }
        LoadInstruction::I32Load8U => unsigned_8(bytes, offset),
        LoadInstruction::I64Load8S => {
            Ok(unary_64(UnaryOp::Extend8S, read_8(bytes, offset)? as u64))
        }
        LoadInstruction::I64Load8U => unsigned_8(bytes, offset),
        LoadInstruction::I32Load16S => {
            Ok(unary_32(UnaryOp::Extend16S, read_16(bytes, offset)? as u32) as u64)
        }
        LoadInstruction::I32Load16U => unsigned_16(bytes, offset),
        LoadInstruction::I64Load16S => {
            Ok(unary_64(UnaryOp::Extend16S, read_16(bytes, offset)? as u64))
        }
        LoadInstruction::I64Load16U => unsigned_16(bytes, offset),
        LoadInstruction::I64Load32S => Ok(extend_signed(read_32(bytes, offset)?)),
        LoadInstruction::I64Load32U => unsigned_32(bytes, offset),
    }
}

/// Returns the cell that `i32.load` reads at an offset, or a trap if it reads past the end (Execution, Memory Instructions,
/// t.load).
#[inline(always)]
pub fn load_i32(bytes: &[u8], offset: u64) -> Result<u64, Trap>
    requires { offset < 2 ^ 33 }
    ensures { load_from (from.Whole W32) bytes.now offset
        ≡ value_of_result (load_type (from.Whole W32)) result }
{
    unsigned_32(bytes, offset)
}

/// Writes a cell, or its low bytes, at an offset, or traps past the end and writes nothing (Execution, Memory Instructions,
/// t.store and t.storeN).
///
/// The offset is the sum of an operand and the immediate offset of the instruction, both of which have 32 bits.
#[inline(always)]
pub fn store_cell(
    op: StoreInstruction,
    bytes: &mut [u8],
    offset: u64,
    cell: u64,
) -> Result<(), Trap>
    requires { offset < 2 ^ 33 }
    ensures { Wrote result bytes.old bytes.new
        (store_into bytes.old offset (store_width (store_op op)) cell) }
{
    match op {
        StoreInstruction::I32Store => write_32(bytes, offset, cell),
        StoreInstruction::I64Store => write_64(bytes, offset, cell),
        StoreInstruction::I32Store8 => write_8(bytes, offset, cell),
        StoreInstruction::I64Store8 => write_8(bytes, offset, cell),
        StoreInstruction::I32Store16 => write_16(bytes, offset, cell),
        StoreInstruction::I64Store16 => write_16(bytes, offset, cell),
        StoreInstruction::I64Store32 => write_32(bytes, offset, cell),
    }
}
