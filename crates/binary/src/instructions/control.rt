//! Control instructions without a body (Binary Format, Control Instructions).

ghost use Rattle.binary.specs.Conventions.{Gives};
ghost use Rattle.core_types.specs.reading.Instructions.{branch_table_at, control_at};

use crate::errors::DecodeError;
use crate::reader::Reader;
use crate::values::read_vector;
use core_types::{BranchTable, ControlOp};
use std::alloc::Global;

// Reads the rest of a control instruction, whose opcode was read at the offset.
#[tactic(auto, unfolding(core_types::specs::reading::Instructions::control_at))]
#[inline(always)]
pub fn read_control(
    reader: &mut Reader<'_>,
    code: u8,
    offset: usize,
) -> Result<ControlOp, DecodeError>
    ensures { Gives result reader.new (control_at code reader.old) }
{
    match code {
        0x00 => Ok(ControlOp::Unreachable),
        0x01 => Ok(ControlOp::Nop),
        0x0C => Ok(ControlOp::Br(reader.u32()?)),
        0x0D => Ok(ControlOp::BrIf(reader.u32()?)),
        0x0F => Ok(ControlOp::Return),
        0x10 => Ok(ControlOp::Call(reader.u32()?)),
        0x11 => {
            let ty = reader.u32()?;
            let table = reader.u32()?;
            Ok(ControlOp::CallIndirect { ty, table })
        }
        0x12 => Ok(ControlOp::ReturnCall(reader.u32()?)),
        0x13 => {
            let ty = reader.u32()?;
            let table = reader.u32()?;
            Ok(ControlOp::ReturnCallIndirect { ty, table })
        }
        _ => Err(DecodeError::Unsupported(offset)),
    }
}

// Reads the labels of a branch table, and its default.
#[tactic(auto, unfolding(core_types::specs::reading::Instructions::branch_table_at))]
pub fn read_branch_table(alloc: Global, reader: &mut Reader<'_>) -> Result<BranchTable, DecodeError>
    ensures { Gives result reader.new (branch_table_at reader.old) }
{
    let labels = read_vector::<u32>(alloc, reader)?;
    let default = reader.u32()?;
    Ok(BranchTable { labels, default })
}
