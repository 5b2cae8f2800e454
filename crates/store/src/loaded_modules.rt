ghost use Rattle.std.specs.Prelude.{◌<◌, ◌≤◌, ◌≡◌, ◌⊎◌, bytes_eq, length, option_map, slice_get, IfErr, IfOk, Some};
ghost use Rattle.meaning.specs.binary.Modules.{names_data};
ghost use Rattle.meaning.specs.structure.Bodies.{writing};
ghost use Rattle.meaning.specs.execution.Modules.{code_of};
ghost use Rattle.meaning.specs.validation.Modules.{IsValid};
ghost use Rattle.std.specs.List.{All, find, list_any};
ghost use Rattle.core_types.specs.declared.module.DataSegment.{DataSegment as AnySegment};
ghost use Rattle.core_types.specs.declared.module.Export.{Export as Exported};
ghost use Rattle.core_types.specs.declared.module.Func.{Func as Function};
ghost use Rattle.core_types.specs.declared.types.TableType.{TableType as AnyTable};
ghost use Rattle.meaning.specs.execution.Tables.{most_entries};
ghost use Rattle.soundness.specs.Links.{IsSoundModule};
ghost use Rattle.meaning.specs.execution.Storage.{AreBytes};
ghost use Rattle.validator.specs.declared.errors.ValidateError.TheVariants.{OutOfMemory};
ghost use Rattle.sidetable.specs.FlatModules.{IsFlat, IsFlatModule, module_signatures, operations_of};

use core_types::{DataSegment, ExportDesc, Func, FuncType, Limits, Module, TableType};
use sidetable::{FlatModule, PackedFunction, flatten};
use std::alloc::Global;
use std::marker::Model;
use validator::{ValidModule, ValidateError};

/// A loaded module, which all its instances share: the module, and the flat code of its functions.
#[derive(Drop)]
pub struct LoadedModule {
    validated: ValidModule,
    flat: FlatModule,
}

/// A borrowed function of a module: its type, its code, and its flat code.
#[derive(Clone, Copy)]
pub struct LoadedFunction<'a> {
    pub ty: &'a FuncType,
    pub func: &'a Func,
    pub flat: &'a PackedFunction,
}

impl Model for LoadedModule {
    ghost use Rattle.soundness.specs.Links.{IsSoundModule};
    ghost use Rattle.validator.specs.declared.errors.ValidateError.TheVariants.{OutOfMemory};
    ghost use Rattle.sidetable.specs.FlatModules.{IsFlatModule};
    ghost use Rattle.store.specs.Loaded.{LoadedContents};

    ghost Value = { LoadedContents };

    ghost view = { λ m. record { source = m.validated; flat = m.flat } };

    ghost invariant = { λ m. IsFlatModule m.validated m.flat × IsSoundModule m.validated };
}

// The functions named `show_` do nothing. They state what the types of numbers guarantee.

// Each byte is below 256.
fn show_bytes(bytes: &[u8])
    ensures { AreBytes bytes.now }
{}

// So is each byte of data segments.
fn show_datas(datas: &[DataSegment])
    ensures { All (λ (d : AnySegment). AreBytes d.bytes) datas.now }
{
    for k in 0..datas.len() {
        show_bytes(datas[k].bytes.as_slice());
    }
}

// A minimum has 32 bits.
fn show_minimum(limits: Limits)
    ensures { limits.min ≤ most_entries }
{}

// So have the minima of tables.
fn show_tables(tables: &[TableType])
    ensures { All (λ (t : AnyTable). t.limits.min ≤ most_entries) tables.now }
{
    for k in 0..tables.len() {
        show_minimum(tables[k].limits);
    }
}

// So do the numbers of a valid module.
fn show_sound(validated: &ValidModule)
    ensures { IsSoundModule validated.now }
{
    let wanted = validated.module();
    show_tables(wanted.tables.as_slice());
    show_datas(wanted.datas.as_slice());
}

impl LoadedModule {
    /// Loads a module: validates it, and flattens its functions.
    ///
    /// # Errors
    ///
    /// Fails as `validate` does, with `Invalid` and a place, or with `OutOfMemory`, also for the flat code. Both drop the module.
    pub fn new(alloc: Global, decoded: Module) -> Result<LoadedModule, ValidateError>
        ensures kept { IfOk result (λ loaded. loaded.source ≡ decoded) }
        ensures invalid { IfErr result (λ error. (error ≡ OutOfMemory) ⊎ (¬ IsValid decoded)) }
    {
        let (validated, flat) = flatten(alloc, decoded)?;
        show_sound(&validated);
        Ok(LoadedModule { validated, flat })
    }

    /// Returns the module.
    pub fn module(&self) -> &Module
        ensures same { result.now ≡ self.now.source }
        ensures valid { IsValid self.now.source }
        ensures sound { IsSoundModule self.now.source }
    {
        self.validated.module()
    }

    /// Returns whether its code names a data segment.
    pub fn names_data(&self) -> bool
        ensures { result ≡ list_any (λ (f : Function). list_any names_data f.body)
            self.now.source.funcs }
    {
        self.validated.names_data()
    }

    /// Returns the index that the export of a name refers to, if there is one.
    pub fn export(&self, name: &str) -> Option<ExportDesc>
        ensures { result ≡ option_map (λ (e : Exported). e.desc)
            (find (λ (e : Exported). bytes_eq e.name name.now) self.now.source.exports) }
    {
        self.validated.export(name)
    }

    /// Returns the flat code of its functions.
    #[inline(always)]
    pub fn flat(&self) -> &FlatModule
        ensures same { result.now ≡ self.now.flat }
        ensures flat { IsFlatModule self.now.source self.now.flat }
    {
        &self.flat
    }

    /// Returns the function of an index.
    #[inline(always)]
    pub fn function(&self, index: u32) -> LoadedFunction<'_>
        requires { index < length self.now.source.funcs }
        ensures whole { IsFlatModule self.now.source self.now.flat }
        ensures func { slice_get self.now.source.funcs index ≡ Some result.func.now }
        ensures ty { slice_get self.now.source.types result.func.now.ty ≡ Some result.ty.now }
        ensures flat { IsFlat (module_signatures self.now.source) (operations_of self.now.flat)
            result.func.now result.flat.now }
        ensures body { result.func.now.body ≡ writing (code_of result.func.now).body }
    {
        let module_read = self.validated.module();
        let func = &module_read.funcs.as_slice()[index as usize];
        let ty = &module_read.types.as_slice()[func.ty as usize];
        let flat = &self.flat.functions[index as usize];
        LoadedFunction { ty, func, flat }
    }
}
