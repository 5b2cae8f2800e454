//! Modules (Binary Format, Modules).

ghost use Rattle.std.specs.Prelude.{◌≡◌, IfOk, false, ◌||◌};
ghost use Rattle.std.specs.List.{list_any};
ghost use Rattle.core_types.specs.declared.module.Func.{Func as Function};
ghost use Rattle.binary.specs.Bodies.{HaveBodies};
ghost use Rattle.binary.specs.Sections.{name_data};
ghost use Rattle.binary.specs.Modules.{contents_at, definitions_at, module_at, module_from};
ghost use Rattle.binary.specs.Conventions.{Gives};
ghost use Rattle.binary.specs.Errors.{IfRefused, IsNoModule};
ghost use Rattle.meaning.specs.binary.Limits.{IsWithinLimits};
ghost use Rattle.meaning.specs.binary.Modules.{SpellsModule};

use crate::errors::DecodeError;
use crate::function_bodies::{CutBodies, ReadBody, WholeBodies};
use crate::limits::{MAX_SIZE, has_small_parts};
use crate::reader::Reader;
use crate::sections::code::read_code_section;
use crate::sections::custom::read_ending;
use crate::sections::data_count::{fits_count, may_fit_count};
use crate::sections::{read_number_section, read_vector_section};
use crate::values::read_expected;
use core_types::{
    DataSegment, ElementSegment, Export, Func, FuncType, Global as ModuleGlobal, Import, Items,
    Limits, Module, TableType,
};
use std::alloc::Global;

const HEADER: [u8; 8] = [0x00, 0x61, 0x73, 0x6D, 0x01, 0x00, 0x00, 0x00];

/// Decodes a module in the binary format (Binary Format, Modules).
///
/// The module is within the limits that the documents of this repository state:
/// - 67,108,864 bytes
/// - 1,000 parameters and 1,000 results of a type
/// - 50,000 locals of a function, its parameters included
///
/// # Errors
///
/// - `Malformed` if the bytes encode no module
/// - `Unsupported` if they continue with an unsupported part of the format
/// - `Limit` if they encode a module that is not within the limits
/// - `OutOfMemory` if an allocation fails
pub fn decode(alloc: Global, bytes: &[u8]) -> Result<Module, DecodeError>
    ensures spelt { IfOk result (λ m. SpellsModule bytes.now m) }
    ensures within_limits { IfOk result (λ m. IsWithinLimits bytes.now m) }
    ensures refused { IfRefused result (IsNoModule bytes.now) }
{
    if bytes.len() > MAX_SIZE {
        return Err(DecodeError::Limit);
    }
    let mut reader = Reader::new(bytes);
    let mut bodies = WholeBodies::new(alloc);
    let (decoded, count) = read_module(alloc, &mut reader, &mut bodies)?;
    if !fits_count(count, &decoded, bodies.data_named) {
        return Err(DecodeError::Malformed(bytes.len()));
    }
    if !has_small_parts(&decoded) {
        return Err(DecodeError::Limit);
    }
    Ok(decoded)
}

/// A module whose bodies were cut out, and whether it has a data count.
#[derive(Drop)]
pub struct Outline {
    pub module: Module,
    pub counted: bool,
}

/// Decodes a module but for the bodies of its functions, which are cut out by their sizes. They are taken over as they are.
///
/// The bytes encode the module if its bodies turn out to be expressions, and none of them names a data segment in a module without a
/// data count (Binary Format, Modules).
///
/// # Errors
///
/// Fails as `decode` does. What it states of the bytes is not claimed.
pub fn decode_outline(alloc: Global, bytes: &[u8]) -> Result<Outline, DecodeError>
    ensures spelt { IfOk result (λ found. HaveBodies found.module.funcs
        → (found.counted ≡ false → name_data found.module.funcs ≡ false)
        → SpellsModule bytes.now found.module) }
    ensures within_limits { IfOk result (λ found. IsWithinLimits bytes.now found.module) }
{
    if bytes.len() > MAX_SIZE {
        return Err(DecodeError::Limit);
    }
    let mut reader = Reader::new(bytes);
    let (module, count) = read_module(alloc, &mut reader, &mut CutBodies {})?;
    if !may_fit_count(count, &module) {
        return Err(DecodeError::Malformed(bytes.len()));
    }
    if !has_small_parts(&module) {
        return Err(DecodeError::Limit);
    }
    Ok(Outline {
        module,
        counted: count.is_some(),
    })
}

// The contents of the start, element, data count, code and data sections.
#[derive(Drop)]
struct Contents {
    start: Option<u32>,
    elements: Items<ElementSegment>,
    count: Option<u32>,
    funcs: Items<Func>,
    datas: Items<DataSegment>,
}

// The contents of the table, memory, global and export sections, and of those after them.
#[derive(Drop)]
struct Definitions {
    tables: Items<TableType>,
    memories: Items<Limits>,
    globals: Items<ModuleGlobal>,
    exports: Items<Export>,
    contents: Contents,
}

// Reads a module, and its data count.
#[tactic(auto, unfolding(crate::specs::Modules::module_at, crate::specs::Modules::sections_at))]
fn read_module<R: ReadBody>(
    alloc: Global,
    reader: &mut Reader<'_>,
    bodies: &mut R,
) -> Result<(Module, Option<u32>), DecodeError>
    ensures reads { Gives result reader.new (module_at R.reads reader.old) }
    ensures data { IfOk result
        (λ read. R.noted bodies.new
        ≡ (R.noted bodies.old || list_any (λ (f : Function). R.notes f.body) read.0.funcs)) }
{
    read_expected(reader, &HEADER)?;
    let types = read_vector_section::<FuncType>(alloc, reader, 1)?;
    let imports = read_vector_section::<Import>(alloc, reader, 2)?;
    let indices = read_vector_section::<u32>(alloc, reader, 3)?;
    let definitions = read_definitions(alloc, reader, indices.as_slice(), bodies)?;
    Ok(make_module(types, imports, definitions))
}

// Reads the sections from the table section on, for functions whose types have these indices.
#[tactic(auto, unfolding(crate::specs::Modules::definitions_at))]
fn read_definitions<R: ReadBody>(
    alloc: Global,
    reader: &mut Reader<'_>,
    indices: &[u32],
    bodies: &mut R,
) -> Result<Definitions, DecodeError>
    ensures data { IfOk result
        (λ read. R.noted bodies.new
        ≡ (R.noted bodies.old || list_any (λ (f : Function). R.notes f.body) read.contents.funcs)) }
    ensures reads { Gives result reader.new (definitions_at R.reads indices.now reader.old) }
{
    let tables = read_vector_section::<TableType>(alloc, reader, 4)?;
    let memories = read_vector_section::<Limits>(alloc, reader, 5)?;
    let globals = read_vector_section::<ModuleGlobal>(alloc, reader, 6)?;
    let exports = read_vector_section::<Export>(alloc, reader, 7)?;
    let contents = read_contents(alloc, reader, indices, bodies)?;
    Ok(Definitions {
        tables,
        memories,
        globals,
        exports,
        contents,
    })
}

// Reads the sections from the start section on, for functions whose types have these indices.
#[tactic(auto, unfolding(crate::specs::Modules::contents_at))]
fn read_contents<R: ReadBody>(
    alloc: Global,
    reader: &mut Reader<'_>,
    indices: &[u32],
    bodies: &mut R,
) -> Result<Contents, DecodeError>
    ensures data { IfOk result
        (λ read. R.noted bodies.new
        ≡ (R.noted bodies.old || list_any (λ (f : Function). R.notes f.body) read.funcs)) }
    ensures reads { Gives result reader.new (contents_at R.reads indices.now reader.old) }
{
    let start = read_number_section(reader, 8)?;
    let elements = read_vector_section::<ElementSegment>(alloc, reader, 9)?;
    let count = read_number_section(reader, 12)?;
    let funcs = read_code_section(alloc, reader, indices, bodies)?;
    let datas = read_vector_section::<DataSegment>(alloc, reader, 11)?;
    read_ending(reader)?;
    Ok(Contents {
        start,
        elements,
        count,
        funcs,
        datas,
    })
}

fn make_module(
    types: Items<FuncType>,
    imports: Items<Import>,
    definitions: Definitions,
) -> (Module, Option<u32>)
    ensures { result ≡ (module_from types imports definitions, definitions.contents.count) }
{
    let Definitions {
        tables,
        memories,
        globals,
        exports,
        contents,
    } = definitions;
    let Contents {
        start,
        elements,
        count,
        funcs,
        datas,
    } = contents;
    let decoded = Module {
        types,
        imports,
        funcs,
        tables,
        memories,
        globals,
        exports,
        start,
        elements,
        datas,
    };
    (decoded, count)
}
