//! Exports (Binary Format, Export Section).

ghost use Rattle.binary.specs.Conventions.{Gives};
ghost use Rattle.binary.specs.Sections.{export_desc_at};

use crate::errors::DecodeError;
use crate::reader::Reader;
use crate::values::{Readable, read_name};
use core_types::{Export, ExportDesc};
use std::alloc::Global;

// A name, and what is exported under it.
impl Readable for Export {
    ghost use Rattle.binary.specs.Sections.{export_at};

    ghost reads = { export_at };

    #[tactic(auto, unfolding(crate::specs::Sections::export_at))]
    fn read(alloc: Global, reader: &mut Reader<'_>) -> Result<Export, DecodeError> {
        let name = read_name(alloc, reader)?;
        let desc = read_export_desc(reader)?;
        Ok(Export { name, desc })
    }
}

#[tactic(auto, unfolding(crate::specs::Sections::export_desc_at))]
fn read_export_desc(reader: &mut Reader<'_>) -> Result<ExportDesc, DecodeError>
    ensures { Gives result reader.new (export_desc_at reader.old) }
{
    let offset = reader.offset();
    match reader.byte()? {
        0x00 => Ok(ExportDesc::Func(reader.u32()?)),
        0x01 => Ok(ExportDesc::Table(reader.u32()?)),
        0x02 => Ok(ExportDesc::Memory(reader.u32()?)),
        0x03 => Ok(ExportDesc::Global(reader.u32()?)),
        _ => Err(DecodeError::Malformed(offset)),
    }
}
