//! Element segments (Binary Format, Element Section).

ghost use Rattle.std.specs.Prelude.{◌≡◌};
ghost use Rattle.core_types.specs.declared.module.ElementItems.TheVariants.{Functions, Expressions};
ghost use Rattle.core_types.specs.declared.types.RefType.TheVariants.{FuncRef};
ghost use Rattle.meaning.specs.binary.Modules.{element};
ghost use Rattle.binary.specs.Conventions.{Gives};
ghost use Rattle.binary.specs.Sections.{element_form_at, expressions_form_at, functions_form_at, kind_functions_at, references_at};

use crate::errors::DecodeError;
use crate::expressions::read_expression;
use crate::reader::Reader;
use crate::sections::read_target;
use crate::types::read_ref_type;
use crate::values::{Readable, read_vector};
use core_types::{ElementItems, ElementMode, ElementSegment, Expression, Items, RefType};
use std::alloc::Global;

impl Readable for ElementSegment {
    ghost use Rattle.binary.specs.Sections.{element_at};

    ghost reads = { element_at };

    #[tactic(auto, unfolding(crate::specs::Sections::element_at))]
    fn read(alloc: Global, reader: &mut Reader<'_>) -> Result<ElementSegment, DecodeError> {
        let offset = reader.offset();
        let form = reader.u32()?;
        read_element_form(alloc, reader, form, offset)
    }
}

// Reads the rest of an element segment, whose number of the form was read at the offset.
#[tactic(auto, unfolding(crate::specs::Sections::element_form_at))]
fn read_element_form(
    alloc: Global,
    reader: &mut Reader<'_>,
    form: u32,
    form_offset: usize,
) -> Result<ElementSegment, DecodeError>
    ensures { Gives result reader.new (element_form_at form reader.old) }
{
    match form {
        0..=3 => read_functions_form(alloc, reader, form, form_offset),
        _ => read_expressions_form(alloc, reader, form, form_offset),
    }
}

// Reads a segment of function indices, of the forms 0 to 3.
#[tactic(auto, unfolding(crate::specs::Sections::functions_form_at))]
fn read_functions_form(
    alloc: Global,
    reader: &mut Reader<'_>,
    form: u32,
    form_offset: usize,
) -> Result<ElementSegment, DecodeError>
    ensures { Gives result reader.new (functions_form_at form reader.old) }
{
    match form {
        0 => {
            let offset = read_expression(alloc, reader)?;
            let indices = read_vector::<u32>(alloc, reader)?;
            Ok(functions(indices, ElementMode::Active { table: 0, offset }))
        }
        1 => Ok(functions(read_kind_functions(alloc, reader)?, ElementMode::Passive)),
        2 => {
            let (table, offset) = read_target(alloc, reader)?;
            let indices = read_kind_functions(alloc, reader)?;
            Ok(functions(indices, ElementMode::Active { table, offset }))
        }
        3 => Ok(functions(
            read_kind_functions(alloc, reader)?,
            ElementMode::Declarative,
        )),
        _ => Err(DecodeError::Malformed(form_offset)),
    }
}

// Reads a segment of expressions, of the forms 4 to 7.
#[tactic(auto, unfolding(crate::specs::Sections::expressions_form_at))]
fn read_expressions_form(
    alloc: Global,
    reader: &mut Reader<'_>,
    form: u32,
    form_offset: usize,
) -> Result<ElementSegment, DecodeError>
    ensures { Gives result reader.new (expressions_form_at form reader.old) }
{
    match form {
        4 => {
            let offset = read_expression(alloc, reader)?;
            let list = read_vector::<Expression>(alloc, reader)?;
            let mode = ElementMode::Active { table: 0, offset };
            Ok(expressions(RefType::FuncRef, list, mode))
        }
        5 => {
            let (ty, list) = read_references(alloc, reader)?;
            Ok(expressions(ty, list, ElementMode::Passive))
        }
        6 => {
            let (table, offset) = read_target(alloc, reader)?;
            let (ty, list) = read_references(alloc, reader)?;
            Ok(expressions(ty, list, ElementMode::Active { table, offset }))
        }
        7 => {
            let (ty, list) = read_references(alloc, reader)?;
            Ok(expressions(ty, list, ElementMode::Declarative))
        }
        _ => Err(DecodeError::Malformed(form_offset)),
    }
}

// Reads the byte 00, which is the element kind funcref, and function indices.
#[tactic(auto, unfolding(crate::specs::Sections::kind_functions_at))]
fn read_kind_functions(alloc: Global, reader: &mut Reader<'_>) -> Result<Items<u32>, DecodeError>
    ensures { Gives result reader.new (kind_functions_at reader.old) }
{
    let offset = reader.offset();
    if reader.byte()? != 0x00 {
        return Err(DecodeError::Malformed(offset));
    }
    read_vector::<u32>(alloc, reader)
}

#[tactic(auto, unfolding(crate::specs::Sections::references_at))]
fn read_references(
    alloc: Global,
    reader: &mut Reader<'_>,
) -> Result<(RefType, Items<Expression>), DecodeError>
    ensures { Gives result reader.new (references_at reader.old) }
{
    let ty = read_ref_type(reader)?;
    let expressions = read_vector::<Expression>(alloc, reader)?;
    Ok((ty, expressions))
}

fn functions(indices: Items<u32>, mode: ElementMode) -> ElementSegment
    ensures { result ≡ element FuncRef (Functions indices) mode }
{
    ElementSegment {
        ty: RefType::FuncRef,
        items: ElementItems::Functions(indices),
        mode,
    }
}

fn expressions(ty: RefType, list: Items<Expression>, mode: ElementMode) -> ElementSegment
    ensures { result ≡ element ty (Expressions list) mode }
{
    ElementSegment {
        ty,
        items: ElementItems::Expressions(list),
        mode,
    }
}
