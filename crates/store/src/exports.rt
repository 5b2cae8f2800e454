ghost use Rattle.std.specs.Prelude.{◌≡◌, Some, option_map, bytes_eq};
ghost use Rattle.std.specs.List.{find};
ghost use Rattle.core_types.specs.declared.module.Export.{Export as Exported};
ghost use Rattle.meaning.specs.embedding.Names.{export_of, extern_of as value_of};
ghost use Rattle.meaning.specs.execution.Store.{instance_of};
ghost use Rattle.store.specs.Contents.{code_store};

use crate::instances::Code;
use core_types::{Export, ExportDesc, Extern};

impl Code {
    /// Returns what an instance exports, in the order of its module, or an empty slice if there is no such instance.
    pub fn exports(&self, instance: u32) -> &[Export]
        ensures { result.now ≡ (instance_of (code_store self.now) (Some instance)).exports }
    {
        match self.instance(instance) {
            Some(found) => found.loaded.as_ref().module().exports.as_slice(),
            None => &[],
        }
    }

    // Returns the index that the export of a name refers to.
    fn export_under(&self, instance: u32, name: &str) -> Option<ExportDesc>
        ensures { result ≡ option_map (λ (e : Exported). e.desc)
            (find (λ (e : Exported). bytes_eq e.name name.now)
            (instance_of (code_store self.now) (Some instance)).exports) }
    {
        let found = self.instance(instance)?;
        found.loaded.as_ref().export(name)
    }

    /// Returns the external value of an index of an instance, if the index is in use (Execution, Runtime Structure, Export
    /// Instances).
    pub fn extern_of(&self, instance: u32, desc: ExportDesc) -> Option<Extern>
        ensures { result ≡ value_of (instance_of (code_store self.now) (Some instance)) desc }
    {
        match desc {
            ExportDesc::Func(x) => Some(Extern::Func(self.function_address(instance, x)?)),
            ExportDesc::Table(x) => Some(Extern::Table(self.table_address(instance, x)?)),
            ExportDesc::Memory(x) => Some(Extern::Memory(self.memory_address(instance, x)?)),
            ExportDesc::Global(x) => Some(Extern::Global(self.global_address(instance, x)?)),
        }
    }

    /// Returns what an instance exports under a name, if there is such an instance and such an export. The search is binary and
    /// allocates nothing (Execution, Runtime Structure, Export Instances).
    pub fn export(&self, instance: u32, name: &str) -> Option<Extern>
        ensures { result ≡ export_of (instance_of (code_store self.now) (Some instance)) name.now }
    {
        self.extern_of(instance, self.export_under(instance, name)?)
    }
}
