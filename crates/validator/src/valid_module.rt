ghost use Rattle.std.specs.Prelude.{◌≡◌};

use core_types::{ExportDesc, Module};
use export_names::NameOrder;
use std::marker::Model;

/// A valid module, with the order of its exports' names.
#[derive(Drop)]
pub struct ValidModule {
    inner: Module,
    names: NameOrder,
    names_data: bool,
}

impl Model for ValidModule {
    ghost use Rattle.core_types.specs.declared.module.Module.{Module};

    ghost Value = { Module };

    ghost use Rattle.std.specs.Prelude.{◌≡◌};
    ghost use Rattle.binary.specs.Sections.{name_data};
    ghost use Rattle.validator.specs.Modules.{IsNamedValid};

    ghost view = { λ v. v.inner };

    ghost invariant = { λ v. IsNamedValid v.inner v.names × (v.names_data ≡ name_data v.inner.funcs) };
}

impl ValidModule {
    ghost use Rattle.std.specs.Prelude.{◌≡◌, bytes_eq, option_map};
    ghost use Rattle.std.specs.List.{find};
    ghost use Rattle.core_types.specs.declared.module.Export.{Export as Exported};
    ghost use Rattle.binary.specs.Sections.{name_data};
    ghost use Rattle.export_names.specs.Order.{IsNameOrder};
    ghost use Rattle.meaning.specs.validation.Modules.{IsValid};

    // Creates a valid module. The module must meet each rule.
    pub fn new(inner: Module, names: NameOrder, names_data: bool) -> ValidModule
        requires valid { IsValid inner }
        requires names { IsNameOrder inner.exports names }
        requires named { names_data ≡ name_data inner.funcs }
        ensures { result ≡ inner }
    {
        ValidModule {
            inner,
            names,
            names_data,
        }
    }

    /// Borrows the module.
    pub fn module(&self) -> &Module
        ensures same { result.now ≡ self.now }
        ensures valid { IsValid self.now }
    {
        &self.inner
    }

    /// Returns whether its code names a data segment.
    pub fn names_data(&self) -> bool
        ensures { result ≡ name_data self.now.funcs }
    {
        self.names_data
    }

    /// Returns the index that the export of a name refers to, if there is one. The search is binary: the number of comparisons
    /// is logarithmic in the number of exports (Structure, Modules, Exports).
    pub fn export(&self, name: &str) -> Option<ExportDesc>
        ensures { result ≡ option_map (λ (e : Exported). e.desc)
            (find (λ (e : Exported). bytes_eq e.name name.now) self.now.exports) }
    {
        self.names.find(self.inner.exports.as_slice(), name)
    }
}
