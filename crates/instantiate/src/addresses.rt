ghost use Rattle.std.specs.Prelude.{◌≡◌, ◌+◌, ◌≤◌, ◌^◌, ◌++◌, [], IfOk, OnOk};
ghost use Rattle.meaning.specs.execution.Modules.{HasRoom, consecutive, given_addresses, new_instance};
ghost use Rattle.store.specs.Contents.{lists_of, module_instance, store_of};
ghost use Rattle.instantiate.specs.Addresses.{address_as};

use core_types::{Extern, Module};
use std::alloc::{AllocError, Global};
use store::{Addresses, Store};

/// A kind of external values.
#[derive(Clone, Copy)]
pub enum Kind {
    Func,
    Table,
    Memory,
    Global,
}

// Returns the address of an external value, if it is of this kind.
fn address_of(kind: Kind, value: Extern) -> Option<u32>
    ensures { result ≡ address_as kind value }
{
    match (kind, value) {
        (Kind::Func, Extern::Func(address))
        | (Kind::Table, Extern::Table(address))
        | (Kind::Memory, Extern::Memory(address))
        | (Kind::Global, Extern::Global(address)) => Some(address),
        _ => None,
    }
}

// Appends the addresses of the external values of a kind, in their order.
fn push_given(addresses: &mut Vec<u32>, kind: Kind, given: &[Extern]) -> Result<(), AllocError>
    ensures { OnOk result (addresses.new.items ≡
        addresses.old.items ++ given_addresses (address_as kind) given.now) }
{
    for k in 0..given.len() {
        if let Some(address) = address_of(kind, given[k]) {
            addresses.push(address)?;
        }
    }
    Ok(())
}

// Appends that many consecutive addresses.
fn push_consecutive(addresses: &mut Vec<u32>, first: usize, count: usize) -> Result<(), AllocError>
    requires { first + count ≤ 2 ^ 32 }
    ensures { OnOk result (addresses.new.items ≡ addresses.old.items ++ consecutive first count) }
{
    for k in 0..count {
        addresses.push((first + k) as u32)?;
    }
    Ok(())
}

// Appends the addresses of the external values of a kind, followed by that many consecutive ones.
fn extend(
    addresses: &mut Vec<u32>,
    kind: Kind,
    given: &[Extern],
    first: usize,
    count: usize,
) -> Result<(), AllocError>
    requires { first + count ≤ 2 ^ 32 }
    ensures { OnOk result (addresses.new.items ≡
        (addresses.old.items ++ given_addresses (address_as kind) given.now) ++
        consecutive first count) }
{
    push_given(addresses, kind, given)?;
    push_consecutive(addresses, first, count)
}

// Returns empty lists of addresses.
fn no_addresses(alloc: Global) -> Addresses
    ensures functions { result.functions.items ≡ [] }
    ensures tables { result.tables.items ≡ [] }
    ensures memories { result.memories.items ≡ [] }
    ensures globals { result.globals.items ≡ [] }
    ensures elements { result.elements.items ≡ [] }
    ensures datas { result.datas.items ≡ [] }
{
    Addresses {
        functions: Vec::new(alloc),
        tables: Vec::new(alloc),
        memories: Vec::new(alloc),
        globals: Vec::new(alloc),
        elements: Vec::new(alloc),
        datas: Vec::new(alloc),
    }
}

/// Creates the addresses of the new instance of a module. For each kind, those given for its imports come first, and then the
/// next addresses of the store (Execution, Modules, Allocation).
pub fn new_addresses(
    alloc: Global,
    store: &Store,
    wanted: &Module,
    given: &[Extern],
) -> Result<Addresses, AllocError>
    requires { HasRoom (store_of store.now) wanted.now }
    ensures { IfOk result (λ addresses. module_instance (lists_of addresses) wanted.now ≡
        new_instance (store_of store.now) wanted.now given.now) }
{
    let (code, state) = (store.code(), store.state());
    let mut all = no_addresses(alloc);
    let (first, count) = (code.function_count(), wanted.funcs.len());
    extend(&mut all.functions, Kind::Func, given, first, count)?;
    let (first, count) = (state.table_count(), wanted.tables.len());
    extend(&mut all.tables, Kind::Table, given, first, count)?;
    let (first, count) = (state.memory_count(), wanted.memories.len());
    extend(&mut all.memories, Kind::Memory, given, first, count)?;
    let (first, count) = (state.global_count(), wanted.globals.len());
    extend(&mut all.globals, Kind::Global, given, first, count)?;
    push_consecutive(
        &mut all.elements,
        state.element_count(),
        wanted.elements.len(),
    )?;
    push_consecutive(&mut all.datas, state.data_count(), wanted.datas.len())?;
    Ok(all)
}
