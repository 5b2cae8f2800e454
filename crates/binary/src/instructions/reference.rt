//! Reference instructions (Binary Format, Reference Instructions).

ghost use Rattle.binary.specs.Conventions.{Gives};
ghost use Rattle.core_types.specs.reading.Instructions.{reference_at};

use crate::errors::DecodeError;
use crate::reader::Reader;
use crate::types::read_ref_type;
use core_types::ReferenceOp;

// Reads the rest of a reference instruction, whose opcode was read at the offset.
#[tactic(auto, unfolding(core_types::specs::reading::Instructions::reference_at))]
#[inline(always)]
pub fn read_reference(
    reader: &mut Reader<'_>,
    code: u8,
    offset: usize,
) -> Result<ReferenceOp, DecodeError>
    ensures { Gives result reader.new (reference_at code reader.old) }
{
    match code {
        0xD0 => Ok(ReferenceOp::Null(read_ref_type(reader)?)),
        0xD1 => Ok(ReferenceOp::IsNull),
        0xD2 => Ok(ReferenceOp::Func(reader.u32()?)),
        _ => Err(DecodeError::Unsupported(offset)),
    }
}
