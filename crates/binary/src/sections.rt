//! Sections (Binary Format, Modules). The type, function, table, memory and start sections contain a vector or a number, and
//! have no file of their own.

pub mod code;
pub mod custom;
pub mod data_count;
pub mod data_segments;
pub mod elements;
pub mod exports;
pub mod globals;
pub mod imports;

ghost use Rattle.binary.specs.Conventions.{Gives};
ghost use Rattle.binary.specs.Sections.{target_at, value_section_at, vector_section_at};
ghost use Rattle.core_types.specs.reading.Values.{unsigned_at};

use crate::errors::DecodeError;
use crate::expressions::read_expression;
use crate::reader::Reader;
use crate::sections::custom::skip_customs;
use crate::values::{Readable, read_vector};
use core_types::{Expression, Items};
use std::alloc::Global;

// Reads a section with a vector. If it is absent, the vector is empty.
#[tactic(auto, unfolding(crate::specs::Sections::section_at, crate::specs::Values::sized_at))]
pub fn read_vector_section<T: Readable>(
    alloc: Global,
    reader: &mut Reader<'_>,
    id: u8,
) -> Result<Items<T>, DecodeError>
    ensures { Gives result reader.new (vector_section_at id T.reads reader.old) }
{
    skip_customs(reader)?;
    if !reader.accept(id) {
        return Ok(Items::from_vec(Vec::new(alloc)));
    }
    let mut content = reader.part()?;
    let values = read_vector::<T>(alloc, &mut content)?;
    content.finish()?;
    Ok(values)
}

// Reads a section with one number. If it is absent, there is no number.
#[tactic(auto, unfolding(crate::specs::Sections::section_at, crate::specs::Values::sized_at))]
pub fn read_number_section(reader: &mut Reader<'_>, id: u8) -> Result<Option<u32>, DecodeError>
    ensures { Gives result reader.new (value_section_at id (unsigned_at 32) reader.old) }
{
    skip_customs(reader)?;
    if !reader.accept(id) {
        return Ok(None);
    }
    let mut content = reader.part()?;
    let number = content.u32()?;
    content.finish()?;
    Ok(Some(number))
}

// Reads the index of a table or a memory, and an offset in it.
#[tactic(auto, unfolding(crate::specs::Sections::target_at))]
pub fn read_target(alloc: Global, reader: &mut Reader<'_>) -> Result<(u32, Expression), DecodeError>
    ensures { Gives result reader.new (target_at reader.old) }
{
    let index = reader.u32()?;
    let offset = read_expression(alloc, reader)?;
    Ok((index, offset))
}
