//! Variable instructions (Binary Format, Variable Instructions).

ghost use Rattle.binary.specs.Conventions.{Gives};
ghost use Rattle.core_types.specs.reading.Instructions.{variable_at};

use crate::errors::DecodeError;
use crate::reader::Reader;
use core_types::VariableOp;

// Reads the rest of a variable instruction, whose opcode was read at the offset.
#[tactic(auto, unfolding(core_types::specs::reading::Instructions::variable_at))]
#[inline(always)]
pub fn read_variable(
    reader: &mut Reader<'_>,
    code: u8,
    offset: usize,
) -> Result<VariableOp, DecodeError>
    ensures { Gives result reader.new (variable_at code reader.old) }
{
    if !matches!(code, 0x20..=0x24) {
        return Err(DecodeError::Unsupported(offset));
    }
    let index = reader.u32()?;
    match code {
        0x20 => Ok(VariableOp::LocalGet(index)),
        0x21 => Ok(VariableOp::LocalSet(index)),
        0x22 => Ok(VariableOp::LocalTee(index)),
        0x23 => Ok(VariableOp::GlobalGet(index)),
        0x24 => Ok(VariableOp::GlobalSet(index)),
        _ => unreachable!(),
    }
}
