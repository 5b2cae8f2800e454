ghost use Rattle.std.specs.Prelude.{All, IsTrue, ◌↔◌};
ghost use Rattle.core_types.specs.declared.module.Import.{Import as Imported};
ghost use Rattle.validator.specs.Modules.{IsValidImport};

use crate::memories::is_valid_memory;
use crate::types::are_ordered;
use core_types::{Import, ImportDesc};

// Returns whether the type of an import is valid, in a module with this number of types (Validation, Imports).
fn is_valid_import(types: usize, desc: ImportDesc) -> bool
    ensures { IsTrue result ↔ IsValidImport types desc }
{
    match desc {
        ImportDesc::Func(ty) => (ty as usize) < types,
        ImportDesc::Table(table) => are_ordered(table.limits),
        ImportDesc::Memory(limits) => is_valid_memory(limits),
        ImportDesc::Global(_) => true,
    }
}

pub fn are_valid_imports(types: usize, imports: &[Import]) -> bool
    ensures { IsTrue result ↔ All (λ (import : Imported). IsValidImport types import.desc)
        imports.now }
{
    imports
        .iter()
        .all(|import| is_valid_import(types, import.desc))
}
