//! Imports (Binary Format, Import Section).

ghost use Rattle.binary.specs.Conventions.{Gives};
ghost use Rattle.binary.specs.Sections.{import_desc_at};

use crate::errors::DecodeError;
use crate::reader::Reader;
use crate::types::{read_global_type, read_limits, read_table_type};
use crate::values::{Readable, read_name};
use core_types::{Import, ImportDesc};
use std::alloc::Global;

// The name of a module, a name in it, and what is imported.
impl Readable for Import {
    ghost use Rattle.binary.specs.Sections.{import_at};

    ghost reads = { import_at };

    #[tactic(auto, unfolding(crate::specs::Sections::import_at))]
    fn read(alloc: Global, reader: &mut Reader<'_>) -> Result<Import, DecodeError> {
        let module_name = read_name(alloc, reader)?;
        let name = read_name(alloc, reader)?;
        let desc = read_import_desc(reader)?;
        Ok(Import {
            module_name,
            name,
            desc,
        })
    }
}

#[tactic(auto, unfolding(crate::specs::Sections::import_desc_at))]
fn read_import_desc(reader: &mut Reader<'_>) -> Result<ImportDesc, DecodeError>
    ensures { Gives result reader.new (import_desc_at reader.old) }
{
    let offset = reader.offset();
    match reader.byte()? {
        0x00 => Ok(ImportDesc::Func(reader.u32()?)),
        0x01 => Ok(ImportDesc::Table(read_table_type(reader)?)),
        0x02 => Ok(ImportDesc::Memory(read_limits(reader)?)),
        0x03 => Ok(ImportDesc::Global(read_global_type(reader)?)),
        _ => Err(DecodeError::Malformed(offset)),
    }
}
