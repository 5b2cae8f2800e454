ghost use Rattle.std.specs.Prelude.{All, IsTrue, ◌↔◌};
ghost use Rattle.core_types.specs.declared.module.Export.{Export as Exported};
ghost use Rattle.validator.specs.ModuleParts.{ExistsIn};

use core_types::{Export, ExportDesc};
use index_spaces::IndexSpaces;

// Returns whether an export refers to something that exists (Validation, Exports).
fn exists(spaces: &IndexSpaces, desc: ExportDesc) -> bool
    ensures { IsTrue result ↔ ExistsIn spaces.now desc }
{
    match desc {
        ExportDesc::Func(index) => (index as usize) < spaces.functions.len(),
        ExportDesc::Table(index) => (index as usize) < spaces.tables.len(),
        ExportDesc::Memory(index) => (index as usize) < spaces.memories.len(),
        ExportDesc::Global(index) => (index as usize) < spaces.globals.len(),
    }
}

// Returns whether all exports refer to something that exists.
pub fn all_exist(spaces: &IndexSpaces, exports: &[Export]) -> bool
    ensures { IsTrue result ↔ All (λ (e : Exported). ExistsIn spaces.now e.desc) exports.now }
{
    exports.iter().all(|export| exists(spaces, export.desc))
}
