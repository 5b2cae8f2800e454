//! Functions with their locals and bodies (Binary Format, Code Section).

ghost use Rattle.std.specs.Prelude.{IfOk, [], ◌≡◌, ◌||◌};
ghost use Rattle.std.specs.List.{list_any};
ghost use Rattle.core_types.specs.declared.module.Func.{Func as Function};
ghost use Rattle.binary.specs.Conventions.{Gives};
ghost use Rattle.binary.specs.Sections.{code_at, code_section_at, codes_at, functions_at, groups_at, local_group_at, locals_at};

use crate::errors::DecodeError;
use crate::function_bodies::ReadBody;
use crate::reader::Reader;
use crate::sections::custom::skip_customs;
use crate::types::read_val_type;
use core_types::{Func, Items, Locals, ValType};
use std::alloc::Global;

// Reads a count of locals, and their type.
#[tactic(auto, unfolding(crate::specs::Sections::local_group_at))]
fn read_local_group(reader: &mut Reader<'_>) -> Result<(u32, ValType), DecodeError>
    ensures { Gives result reader.new (local_group_at reader.old) }
{
    let count = reader.u32()?;
    let ty = read_val_type(reader)?;
    Ok((count, ty))
}

fn read_groups(alloc: Global, reader: &mut Reader<'_>, count: u32) -> Result<Locals, DecodeError>
    ensures { Gives result reader.new (groups_at count [] reader.old) }
{
    let mut locals = Locals::new(alloc);
    for _ in 0..count {
        let offset = reader.offset();
        let (more, ty) = read_local_group(reader)?;
        if more > u32::MAX - locals.len() {
            return Err(DecodeError::Malformed(offset));
        }
        locals.push(more, ty)?;
    }
    Ok(locals)
}

// Reads a count, and that many groups of locals.
#[tactic(auto, unfolding(crate::specs::Sections::locals_at))]
fn read_locals(alloc: Global, reader: &mut Reader<'_>) -> Result<Locals, DecodeError>
    ensures { Gives result reader.new (locals_at reader.old) }
{
    let count = reader.u32()?;
    read_groups(alloc, reader, count)
}

// Reads a size, and a function whose type has this index.
#[tactic(auto, unfolding(crate::specs::Sections::code_at, crate::specs::Sections::function_content_at, crate::specs::Values::sized_at))]
fn read_code<R: ReadBody>(
    alloc: Global,
    reader: &mut Reader<'_>,
    bodies: &mut R,
    ty: u32,
) -> Result<Func, DecodeError>
    ensures reads { Gives result reader.new (code_at R.reads ty reader.old) }
    ensures data { IfOk result (λ f. R.noted bodies.new ≡ (R.noted bodies.old || R.notes f.body)) }
{
    let mut content = reader.part()?;
    let locals = read_locals(alloc, &mut content)?;
    let body = bodies.read(alloc, &mut content)?;
    content.finish()?;
    Ok(Func { ty, locals, body })
}

// Reads a function for each index of a type.
fn read_codes<R: ReadBody>(
    alloc: Global,
    reader: &mut Reader<'_>,
    types: &[u32],
    bodies: &mut R,
) -> Result<Items<Func>, DecodeError>
    ensures reads { Gives result reader.new (codes_at R.reads types.now [] reader.old) }
    ensures data { IfOk result (λ funcs. R.noted bodies.new
        ≡ (R.noted bodies.old || list_any (λ (f : Function). R.notes f.body) funcs)) }
{
    let mut funcs = Vec::new(alloc);
    for ty in types {
        funcs.push(read_code(alloc, reader, bodies, *ty)?)?;
    }
    Ok(Items::from_vec(funcs))
}

// Reads the content of the code section: a function for each index of a type.
#[tactic(auto, unfolding(crate::specs::Sections::functions_at))]
fn read_functions<R: ReadBody>(
    alloc: Global,
    reader: &mut Reader<'_>,
    types: &[u32],
    bodies: &mut R,
) -> Result<Items<Func>, DecodeError>
    ensures reads { Gives result reader.new (functions_at R.reads types.now reader.old) }
    ensures data { IfOk result (λ funcs. R.noted bodies.new
        ≡ (R.noted bodies.old || list_any (λ (f : Function). R.notes f.body) funcs)) }
{
    let offset = reader.offset();
    let count = reader.u32()?;
    if count as usize != types.len() {
        return Err(DecodeError::Malformed(offset));
    }
    read_codes(alloc, reader, types, bodies)
}

// Reads the code section, which may be absent if there are no indices.
#[tactic(auto, unfolding(crate::specs::Sections::section_at, crate::specs::Values::sized_at))]
pub fn read_code_section<R: ReadBody>(
    alloc: Global,
    reader: &mut Reader<'_>,
    types: &[u32],
    bodies: &mut R,
) -> Result<Items<Func>, DecodeError>
    ensures reads { Gives result reader.new (code_section_at R.reads types.now reader.old) }
    ensures data { IfOk result (λ funcs. R.noted bodies.new
        ≡ (R.noted bodies.old || list_any (λ (f : Function). R.notes f.body) funcs)) }
{
    skip_customs(reader)?;
    if reader.accept(10) {
        let mut content = reader.part()?;
        let funcs = read_functions(alloc, &mut content, types, bodies)?;
        content.finish()?;
        return Ok(funcs);
    }
    if !types.is_empty() {
        return Err(DecodeError::Malformed(reader.offset()));
    }
    Ok(Items::from_vec(Vec::new(alloc)))
}
