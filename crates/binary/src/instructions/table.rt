//! Table instructions (Binary Format, Table Instructions).

ghost use Rattle.binary.specs.Conventions.{Gives};
ghost use Rattle.core_types.specs.reading.Instructions.{prefixed_table_at, table_at};

use crate::errors::DecodeError;
use crate::reader::Reader;
use core_types::TableOp;

// Reads the rest of a table instruction, whose opcode was read at the offset.
#[tactic(auto, unfolding(core_types::specs::reading::Instructions::table_at))]
#[inline(always)]
pub fn read_table(reader: &mut Reader<'_>, code: u8, offset: usize) -> Result<TableOp, DecodeError>
    ensures { Gives result reader.new (table_at code reader.old) }
{
    match code {
        0x25 => Ok(TableOp::Get(reader.u32()?)),
        0x26 => Ok(TableOp::Set(reader.u32()?)),
        _ => Err(DecodeError::Unsupported(offset)),
    }
}

// Reads the rest of a table instruction with this number after the byte FC, which was read at the offset.
#[tactic(auto, unfolding(core_types::specs::reading::Instructions::prefixed_table_at))]
pub fn read_prefixed_table(
    reader: &mut Reader<'_>,
    number: u32,
    offset: usize,
) -> Result<TableOp, DecodeError>
    ensures { Gives result reader.new (prefixed_table_at number reader.old) }
{
    match number {
        12 => {
            let segment = reader.u32()?;
            let table = reader.u32()?;
            Ok(TableOp::Init { segment, table })
        }
        13 => Ok(TableOp::ElemDrop(reader.u32()?)),
        14 => {
            let target = reader.u32()?;
            let source = reader.u32()?;
            Ok(TableOp::Copy { target, source })
        }
        15 => Ok(TableOp::Grow(reader.u32()?)),
        16 => Ok(TableOp::Size(reader.u32()?)),
        17 => Ok(TableOp::Fill(reader.u32()?)),
        _ => Err(DecodeError::Unsupported(offset)),
    }
}
