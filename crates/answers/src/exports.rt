ghost use Rattle.std.specs.Prelude.{◌≡◌, ◌++◌, OnOk, flat_map};
ghost use Rattle.answers.specs.Exports.{export_bytes, exports_bytes, extern_bytes, import_bytes, imports_bytes, limits_bytes, maximum_bytes, mutability_number, reference_bytes};

use core_types::{
    ExternType, FuncType, GlobalType, Limits, Mutability, RefType, TableType, ValType,
};
use embed::{ExportType, Exports, ImportType, Imports};
use messages::{push_number, push_text, push_type, push_types};
use std::alloc::AllocError;

// Returns the number that encodes whether a global is mutable.
fn number_of_mutability(mutability: Mutability) -> u64
    ensures { result ≡ mutability_number mutability }
{
    match mutability {
        Mutability::Const => 0,
        Mutability::Var => 1,
    }
}

fn push_reference(out: &mut Vec<u8>, ty: RefType) -> Result<(), AllocError>
    ensures { OnOk result (out.new.items ≡ out.old.items ++ reference_bytes ty) }
{
    match ty {
        RefType::FuncRef => push_type(out, ValType::FuncRef),
        RefType::ExternRef => push_type(out, ValType::ExternRef),
    }
}

// Appends a maximum, or that there is none.
fn push_maximum(out: &mut Vec<u8>, max: Option<u32>) -> Result<(), AllocError>
    ensures { OnOk result (out.new.items ≡ out.old.items ++ maximum_bytes max) }
{
    match max {
        Some(max) => {
            push_number(out, 1)?;
            push_number(out, u64::from(max))
        }
        None => {
            push_number(out, 0)?;
            push_number(out, 0)
        }
    }
}

fn push_limits(out: &mut Vec<u8>, limits: Limits) -> Result<(), AllocError>
    ensures { OnOk result (out.new.items ≡ out.old.items ++ limits_bytes limits) }
{
    push_number(out, u64::from(limits.min))?;
    push_maximum(out, limits.max)
}

fn push_function(out: &mut Vec<u8>, ty: &FuncType) -> Result<(), AllocError>
    ensures { OnOk result (out.new.items ≡ out.old.items ++ extern_bytes (ExternType.Func ty.now)) }
{
    push_number(out, 0)?;
    push_types(out, ty.params.as_slice())?;
    push_types(out, ty.results.as_slice())
}

fn push_table(out: &mut Vec<u8>, ty: TableType) -> Result<(), AllocError>
    ensures { OnOk result (out.new.items ≡ out.old.items ++ extern_bytes (ExternType.Table ty)) }
{
    push_number(out, 1)?;
    push_reference(out, ty.element)?;
    push_limits(out, ty.limits)
}

fn push_memory(out: &mut Vec<u8>, limits: Limits) -> Result<(), AllocError>
    ensures { OnOk result (out.new.items
        ≡ out.old.items ++ extern_bytes (ExternType.Memory limits)) }
{
    push_number(out, 2)?;
    push_limits(out, limits)
}

fn push_global(out: &mut Vec<u8>, ty: GlobalType) -> Result<(), AllocError>
    ensures { OnOk result (out.new.items ≡ out.old.items ++ extern_bytes (ExternType.Global ty)) }
{
    push_number(out, 3)?;
    push_type(out, ty.value)?;
    push_number(out, number_of_mutability(ty.mutability))
}

// Appends the type of what is exported.
fn push_extern(out: &mut Vec<u8>, ty: &ExternType) -> Result<(), AllocError>
    ensures { OnOk result (out.new.items ≡ out.old.items ++ extern_bytes ty.now) }
{
    match ty {
        ExternType::Func(ty) => push_function(out, ty),
        ExternType::Table(ty) => push_table(out, *ty),
        ExternType::Memory(limits) => push_memory(out, *limits),
        ExternType::Global(ty) => push_global(out, *ty),
    }
}

fn push_externs(out: &mut Vec<u8>, types: &[ExternType]) -> Result<(), AllocError>
    ensures { OnOk result (out.new.items ≡ out.old.items ++ flat_map extern_bytes types.now) }
{
    for ty in types {
        push_extern(out, ty)?;
    }
    Ok(())
}

// Appends an export: its name, and the number of its type.
fn push_export(out: &mut Vec<u8>, export: &ExportType) -> Result<(), AllocError>
    ensures { OnOk result (out.new.items ≡ out.old.items ++ export_bytes export.now) }
{
    push_text(out, export.name.as_str())?;
    push_number(out, export.ty as u64)
}

fn push_all(out: &mut Vec<u8>, exports: &[ExportType]) -> Result<(), AllocError>
    ensures { OnOk result (out.new.items ≡ out.old.items ++ flat_map export_bytes exports.now) }
{
    for export in exports {
        push_export(out, export)?;
    }
    Ok(())
}

/// Appends a list of exports: the types, and then each export.
pub fn push_exports(out: &mut Vec<u8>, found: &Exports) -> Result<(), AllocError>
    ensures { OnOk result (out.new.items ≡ out.old.items ++ exports_bytes found.now) }
{
    push_number(out, found.types.len() as u64)?;
    push_externs(out, found.types.as_slice())?;
    push_all(out, found.exports.as_slice())
}

// Appends an import: its two names, and the number of its type.
fn push_import(out: &mut Vec<u8>, import: &ImportType) -> Result<(), AllocError>
    ensures { OnOk result (out.new.items ≡ out.old.items ++ import_bytes import.now) }
{
    push_text(out, import.module_name.as_str())?;
    push_text(out, import.name.as_str())?;
    push_number(out, import.ty as u64)
}

fn push_all_imports(out: &mut Vec<u8>, imports: &[ImportType]) -> Result<(), AllocError>
    ensures { OnOk result (out.new.items ≡ out.old.items ++ flat_map import_bytes imports.now) }
{
    for import in imports {
        push_import(out, import)?;
    }
    Ok(())
}

/// Appends a list of imports: the types, and then each import.
pub fn push_imports(out: &mut Vec<u8>, found: &Imports) -> Result<(), AllocError>
    ensures { OnOk result (out.new.items ≡ out.old.items ++ imports_bytes found.now) }
{
    push_number(out, found.types.len() as u64)?;
    push_externs(out, found.types.as_slice())?;
    push_all_imports(out, found.imports.as_slice())
}
