//! What each index of a module refers to.
#![tactic(auto)]

ghost use Rattle.std.specs.Prelude.{◌≡◌, IfOk};
ghost use Rattle.index_spaces.specs.IndexSpaces.{AreIndexSpaces, function_of, functions_in, global_of, globals_in, memories_in, memory_of, table_of, tables_in};

use core_types::{
    Func, Global as ModuleGlobal, GlobalType, Import, ImportDesc, Limits, Module, TableType,
};
use std::alloc::{AllocError, Global};

/// What each index of a module refers to: the imports come first, and then the module's own definitions (Structure, Modules,
/// Indices).
#[derive(Drop)]
pub struct IndexSpaces {
    /// The indices of the functions' types.
    pub functions: Vec<u32>,
    pub tables: Vec<TableType>,
    pub memories: Vec<Limits>,
    pub globals: Vec<GlobalType>,
}

// Returns the type index of an imported function.
#[tactic(auto, unfolding(crate::specs::IndexSpaces::function_of))]
fn imported_function(import: &Import) -> Option<u32>
    ensures { result ≡ function_of import.now.desc }
{
    match import.desc {
        ImportDesc::Func(ty) => Some(ty),
        _ => None,
    }
}

#[tactic(auto, unfolding(crate::specs::IndexSpaces::table_of))]
fn imported_table(import: &Import) -> Option<TableType>
    ensures { result ≡ table_of import.now.desc }
{
    match import.desc {
        ImportDesc::Table(ty) => Some(ty),
        _ => None,
    }
}

#[tactic(auto, unfolding(crate::specs::IndexSpaces::memory_of))]
fn imported_memory(import: &Import) -> Option<Limits>
    ensures { result ≡ memory_of import.now.desc }
{
    match import.desc {
        ImportDesc::Memory(limits) => Some(limits),
        _ => None,
    }
}

#[tactic(auto, unfolding(crate::specs::IndexSpaces::global_of))]
fn imported_global(import: &Import) -> Option<GlobalType>
    ensures { result ≡ global_of import.now.desc }
{
    match import.desc {
        ImportDesc::Global(ty) => Some(ty),
        _ => None,
    }
}

fn function_space(alloc: Global, imports: &[Import], funcs: &[Func]) -> Result<Vec<u32>, AllocError>
    ensures { IfOk result (λ space. space.items ≡ functions_in imports.now funcs.now) }
{
    imports
        .iter()
        .filter_map(imported_function)
        .chain(funcs.iter().map(|func| func.ty))
        .collect(alloc)
}

fn table_space(
    alloc: Global,
    imports: &[Import],
    tables: &[TableType],
) -> Result<Vec<TableType>, AllocError>
    ensures { IfOk result (λ space. space.items ≡ tables_in imports.now tables.now) }
{
    imports
        .iter()
        .filter_map(imported_table)
        .chain(tables.iter().copied())
        .collect(alloc)
}

fn memory_space(
    alloc: Global,
    imports: &[Import],
    memories: &[Limits],
) -> Result<Vec<Limits>, AllocError>
    ensures { IfOk result (λ space. space.items ≡ memories_in imports.now memories.now) }
{
    imports
        .iter()
        .filter_map(imported_memory)
        .chain(memories.iter().copied())
        .collect(alloc)
}

fn global_space(
    alloc: Global,
    imports: &[Import],
    globals: &[ModuleGlobal],
) -> Result<Vec<GlobalType>, AllocError>
    ensures { IfOk result (λ space. space.items ≡ globals_in imports.now globals.now) }
{
    imports
        .iter()
        .filter_map(imported_global)
        .chain(globals.iter().map(|global| global.ty))
        .collect(alloc)
}

impl IndexSpaces {
    /// Creates the index spaces of a module.
    ///
    /// # Errors
    ///
    /// Fails if an allocation fails.
    pub fn new(alloc: Global, decoded: &Module) -> Result<IndexSpaces, AllocError>
        ensures { IfOk result (AreIndexSpaces decoded.now) }
    {
        let imports = decoded.imports.as_slice();
        let functions = function_space(alloc, imports, decoded.funcs.as_slice())?;
        let tables = table_space(alloc, imports, decoded.tables.as_slice())?;
        let memories = memory_space(alloc, imports, decoded.memories.as_slice())?;
        let globals = global_space(alloc, imports, decoded.globals.as_slice())?;
        Ok(IndexSpaces {
            functions,
            tables,
            memories,
            globals,
        })
    }
}
