ghost use Rattle.std.specs.Prelude.{◌≡◌, ◌++◌, ◌∷◌, [], IfOk, List, OnOk, filter_map, option_and_then, slice_get, ℕ};
ghost use Rattle.core_types.specs.declared.types.ExternType.{ExternType as Type_of};
ghost use Rattle.meaning.specs.execution.Modules.{import_type as required_type};
ghost use Rattle.interface.specs.Listings.{AreExports, AreImports, NamedImport, exports_with_types, imports_with_types, typed_export, typed_import};
ghost use Rattle.interface.specs.Types.{function_at, type_among};

use crate::exports::{Exports, Listing};
use crate::imports::{ImportListing, Imports};
use crate::types::Declaration;
use core_types::{Export, ExportDesc, ExternType, FuncType, Import, ImportDesc, Module, item};
use index_spaces::IndexSpaces;
use std::alloc::{AllocError, Global};

// Returns the type of this index as the type of a function, if there is one.
fn function_type(
    alloc: Global,
    types: &[FuncType],
    index: u32,
) -> Result<Option<ExternType>, AllocError>
    ensures { IfOk result (λ ty. ty ≡ function_at types.now index) }
{
    match item(types, index) {
        Some(ty) => Ok(Some(ExternType::Func(ty.copy(alloc)?))),
        None => Ok(None),
    }
}

// Returns the type that an import requires, if it exists.
fn import_type(
    alloc: Global,
    decoded: &Module,
    desc: ImportDesc,
) -> Result<Option<ExternType>, AllocError>
    ensures { IfOk result (λ ty. ty ≡ required_type decoded.now desc) }
{
    match desc {
        ImportDesc::Func(index) => function_type(alloc, decoded.types.as_slice(), index),
        ImportDesc::Table(ty) => Ok(Some(ExternType::Table(ty))),
        ImportDesc::Memory(limits) => Ok(Some(ExternType::Memory(limits))),
        ImportDesc::Global(ty) => Ok(Some(ExternType::Global(ty))),
    }
}

// Returns where an imported function is declared: by the index of its type.
fn import_declaration(desc: ImportDesc) -> Option<Declaration> {
    match desc {
        ImportDesc::Func(index) => Some(Declaration::InModule(0, index)),
        _ => None,
    }
}

// Appends an import to a list, if its type exists.
fn list_import(
    alloc: Global,
    decoded: &Module,
    import: &Import,
    listing: &mut ImportListing,
) -> Result<(), AllocError>
    ensures { OnOk result ((all : List NamedImport) → AreImports listing.old.found all →
        AreImports listing.new.found (all ++ filter_map (typed_import decoded.now)
        (import.now ∷ []))) }
{
    match import_type(alloc, decoded, import.desc)? {
        Some(ty) => listing.push(import, import_declaration(import.desc), ty),
        None => Ok(()),
    }
}

/// Returns a list of what a module imports, in its order. Functions of one type index share one type in the list.
///
/// # Errors
///
/// Fails if an allocation fails.
pub fn imports_of(alloc: Global, decoded: &Module) -> Result<Imports, AllocError>
    ensures { IfOk result (λ found. AreImports found (imports_with_types decoded.now)) }
{
    let mut listing = ImportListing::new(alloc);
    for import in decoded.imports.as_slice() {
        list_import(alloc, decoded, import, &mut listing)?;
    }
    Ok(listing.finish())
}

// Returns the type of what an export refers to, if it exists.
fn export_type(
    alloc: Global,
    types: &[FuncType],
    spaces: &IndexSpaces,
    desc: ExportDesc,
) -> Result<Option<ExternType>, AllocError>
    ensures { IfOk result (λ ty. ty ≡ type_among types.now spaces.now.functions.items
        spaces.now.tables.items spaces.now.memories.items spaces.now.globals.items desc) }
{
    match desc {
        ExportDesc::Func(index) => match item(&spaces.functions, index) {
            Some(ty) => function_type(alloc, types, *ty),
            None => Ok(None),
        },
        ExportDesc::Table(index) => match item(&spaces.tables, index) {
            Some(ty) => Ok(Some(ExternType::Table(*ty))),
            None => Ok(None),
        },
        ExportDesc::Memory(index) => match item(&spaces.memories, index) {
            Some(limits) => Ok(Some(ExternType::Memory(*limits))),
            None => Ok(None),
        },
        ExportDesc::Global(index) => match item(&spaces.globals, index) {
            Some(ty) => Ok(Some(ExternType::Global(*ty))),
            None => Ok(None),
        },
    }
}

// Returns where an exported function is declared: by the index of its type.
fn export_declaration(spaces: &IndexSpaces, desc: ExportDesc) -> Option<Declaration> {
    match desc {
        ExportDesc::Func(index) => {
            let ty = item(&spaces.functions, index)?;
            Some(Declaration::InModule(0, *ty))
        }
        _ => None,
    }
}

// Appends an export to a list, if what it refers to exists.
fn list_export(
    alloc: Global,
    types: &[FuncType],
    spaces: &IndexSpaces,
    export: &Export,
    listing: &mut Listing,
) -> Result<(), AllocError>
    ensures { OnOk result ((all : List (List ℕ × Type_of)) → AreExports listing.old.found all →
        AreExports listing.new.found (all ++ filter_map (typed_export types.now spaces.now)
        (export.now ∷ []))) }
{
    match export_type(alloc, types, spaces, export.desc)? {
        Some(ty) => {
            let declaration = export_declaration(spaces, export.desc);
            listing.push(export.name.as_str(), declaration, ty)
        }
        None => Ok(()),
    }
}

// Returns a list of these exports.
fn list_exports(
    alloc: Global,
    types: &[FuncType],
    spaces: &IndexSpaces,
    exports: &[Export],
) -> Result<Exports, AllocError>
    ensures { IfOk result (λ found. AreExports found
        (filter_map (typed_export types.now spaces.now) exports.now)) }
{
    let mut listing = Listing::new(alloc);
    for export in exports {
        list_export(alloc, types, spaces, export, &mut listing)?;
    }
    Ok(listing.finish())
}

/// Returns a list of what a module exports, in its order. Functions of one type index share one type in the list.
///
/// # Errors
///
/// Fails if an allocation fails.
pub fn exports_of(alloc: Global, decoded: &Module) -> Result<Exports, AllocError>
    ensures { IfOk result (λ found. AreExports found (exports_with_types decoded.now)) }
{
    let spaces = IndexSpaces::new(alloc, decoded)?;
    list_exports(
        alloc,
        decoded.types.as_slice(),
        &spaces,
        decoded.exports.as_slice(),
    )
}
