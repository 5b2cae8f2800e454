//! Data segments (Binary Format, Data Section).

ghost use Rattle.binary.specs.Conventions.{Gives};
ghost use Rattle.binary.specs.Sections.{data_form_at};

use crate::errors::DecodeError;
use crate::expressions::read_expression;
use crate::reader::Reader;
use crate::sections::read_target;
use crate::values::{Readable, read_bytes};
use core_types::{DataMode, DataSegment};
use std::alloc::Global;

impl Readable for DataSegment {
    ghost use Rattle.binary.specs.Sections.{data_at};

    ghost reads = { data_at };

    #[tactic(auto, unfolding(crate::specs::Sections::data_at))]
    fn read(alloc: Global, reader: &mut Reader<'_>) -> Result<DataSegment, DecodeError> {
        let offset = reader.offset();
        let form = reader.u32()?;
        read_data_form(alloc, reader, form, offset)
    }
}

// Reads the rest of a data segment, whose number of the form was read at the offset.
#[tactic(auto, unfolding(crate::specs::Sections::data_form_at))]
fn read_data_form(
    alloc: Global,
    reader: &mut Reader<'_>,
    form: u32,
    form_offset: usize,
) -> Result<DataSegment, DecodeError>
    ensures { Gives result reader.new (data_form_at form reader.old) }
{
    match form {
        0 => {
            let offset = read_expression(alloc, reader)?;
            let bytes = read_bytes(alloc, reader)?;
            let mode = DataMode::Active { memory: 0, offset };
            Ok(DataSegment { bytes, mode })
        }
        1 => {
            let bytes = read_bytes(alloc, reader)?;
            let mode = DataMode::Passive;
            Ok(DataSegment { bytes, mode })
        }
        2 => {
            let (memory, offset) = read_target(alloc, reader)?;
            let bytes = read_bytes(alloc, reader)?;
            let mode = DataMode::Active { memory, offset };
            Ok(DataSegment { bytes, mode })
        }
        _ => Err(DecodeError::Malformed(form_offset)),
    }
}
