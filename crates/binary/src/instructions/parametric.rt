//! Parametric instructions without an immediate (Binary Format, Parametric Instructions).

ghost use Rattle.binary.specs.Conventions.{Gives};
ghost use Rattle.core_types.specs.reading.Instructions.{parametric_at};

use crate::errors::DecodeError;
use crate::reader::Reader;
use core_types::ParametricOp;

// Reads the rest of a parametric instruction, whose opcode was read at the offset.
#[tactic(auto, unfolding(core_types::specs::reading::Instructions::parametric_at))]
#[inline(always)]
pub fn read_parametric(
    reader: &mut Reader<'_>,
    code: u8,
    offset: usize,
) -> Result<ParametricOp, DecodeError>
    ensures { Gives result reader.new (parametric_at code reader.old) }
{
    match code {
        0x1A => Ok(ParametricOp::DropOperand),
        0x1B => Ok(ParametricOp::Select),
        _ => Err(DecodeError::Unsupported(offset)),
    }
}
