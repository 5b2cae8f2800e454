ghost use Rattle.std.specs.Prelude.{◌↔◌, ◌≤◌, length, IfNone, IfSome, IsTrue, Some};
ghost use Rattle.core_types.specs.declared.module.ImportDesc.TheVariants.{Func as FuncImport};
ghost use Rattle.core_types.specs.declared.outcome.Extern.TheVariants.{Func as FuncValue, Global as GlobalValue, Memory as MemoryValue, Table as TableValue};
ghost use Rattle.core_types.specs.declared.types.ExternType.TheVariants.{Global, Memory, Table};
ghost use Rattle.meaning.specs.execution.Modules.{AreGiven, IsGiven, import_type};
ghost use Rattle.store.specs.Contents.{store_of};
ghost use Rattle.instantiate.specs.Links.{IsMismatch};

use core_types::{Extern, ExternType, GlobalType, ImportDesc, Limits, Module, TableType};
use matching::matches;
use store::Store;

// Returns whether the function at an address has the type of this index.
fn is_function_given(store: &Store, address: u32, wanted: &Module, x: u32) -> bool
    ensures { IsTrue result ↔ IsGiven (store_of store.now) (FuncValue address)
        (import_type wanted.now (FuncImport x)) }
{
    match (
        store.code().function(address),
        wanted.types.as_slice().get(x as usize),
    ) {
        (Some(callee), Some(ty)) => callee.ty().is_same(ty),
        _ => false,
    }
}

// Returns whether the table at an address matches this type.
fn is_table_given(store: &Store, address: u32, wanted: TableType) -> bool
    ensures { IsTrue result ↔ IsGiven (store_of store.now) (TableValue address)
        (Some (Table wanted)) }
{
    match store.state().table(address) {
        Some(table) => matches(&ExternType::Table(table.ty()), &ExternType::Table(wanted)),
        None => false,
    }
}

// Returns whether the memory at an address matches this type.
fn is_memory_given(store: &Store, address: u32, wanted: Limits) -> bool
    ensures { IsTrue result ↔ IsGiven (store_of store.now) (MemoryValue address)
        (Some (Memory wanted)) }
{
    match store.state().memory(address) {
        Some(memory) => matches(
            &ExternType::Memory(memory.limits()),
            &ExternType::Memory(wanted),
        ),
        None => false,
    }
}

// Returns whether the global at an address matches this type.
fn is_global_given(store: &Store, address: u32, wanted: GlobalType) -> bool
    ensures { IsTrue result ↔ IsGiven (store_of store.now) (GlobalValue address)
        (Some (Global wanted)) }
{
    match store.state().global(address) {
        Some(variable) => {
            matches(
                &ExternType::Global(variable.ty()),
                &ExternType::Global(wanted),
            )
        }
        None => false,
    }
}

// Returns whether an external value matches an import.
fn is_given(store: &Store, value: Extern, wanted: &Module, desc: ImportDesc) -> bool
    ensures { IsTrue result ↔ IsGiven (store_of store.now) value (import_type wanted.now desc) }
{
    match (value, desc) {
        (Extern::Func(address), ImportDesc::Func(x)) => {
            is_function_given(store, address, wanted, x)
        }
        (Extern::Table(address), ImportDesc::Table(ty)) => is_table_given(store, address, ty),
        (Extern::Memory(address), ImportDesc::Memory(limits)) => {
            is_memory_given(store, address, limits)
        }
        (Extern::Global(address), ImportDesc::Global(ty)) => is_global_given(store, address, ty),
        _ => false,
    }
}

/// Returns the index of the first import of a module that is given a value that does not match (Execution, Modules,
/// Instantiation).
pub fn first_mismatch(store: &Store, wanted: &Module, externs: &[Extern]) -> Option<usize>
    requires { length wanted.now.imports ≤ length externs.now }
    ensures none { IfNone result (AreGiven (store_of store.now) wanted.now wanted.now.imports
        externs.now) }
    ensures some { IfSome result (λ index. IsMismatch (store_of store.now) wanted.now externs.now
        index) }
{
    let imports = wanted.imports.as_slice();
    for k in 0..imports.len() {
        if !is_given(store, externs[k], wanted, imports[k].desc) {
            return Some(k);
        }
    }
    None
}
