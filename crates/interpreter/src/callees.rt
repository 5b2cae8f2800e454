ghost use Rattle.std.specs.Prelude.{◌<◌, length};
ghost use Rattle.interpreter.specs.Callees.{FindsEntry, RefersToFunction};
ghost use Rattle.interpreter.specs.Operations.{entry_through, table_address, type_of};

use core_types::{FuncType, Trap, Val};
use sidetable::IndexPair;
use store::{Callee, Code, Instance, State};

/// A function of the store, with its address.
#[derive(Clone, Copy)]
pub struct Found<'a> {
    pub address: u32,
    pub callee: Callee<'a>,
}

// Returns the function that an entry of a table refers to. The function must have this type.
#[inline(always)]
fn find_entry<'a>(code: &'a Code, wanted: &FuncType, entry: Option<Val>) -> Result<Found<'a>, Trap>
    requires { RefersToFunction code.now entry }
    ensures { FindsEntry code.now wanted.now entry result }
{
    match entry {
        None => Err(Trap::UndefinedElement),
        Some(Val::FuncRef(None)) => Err(Trap::UninitializedElement),
        Some(Val::FuncRef(Some(address))) => {
            let callee = code.callee(address);
            if callee.ty().is_same(wanted) {
                Ok(Found { address, callee })
            } else {
                Err(Trap::IndirectType)
            }
        }
        Some(_) => unreachable!(),
    }
}

/// Returns the function that the entry at an offset of a table refers to. The type that it must have and the table have these
/// indices in the instance. Fails with the trap of a call if there is no entry, if the entry is null, or if the function has
/// another type.
#[inline(always)]
pub fn find_through<'a>(
    code: &'a Code,
    instance: &Instance,
    state: &State,
    indices: IndexPair,
    offset: u64,
) -> Result<Found<'a>, Trap>
    requires ty { indices.first < length instance.now.loaded.value.source.types }
    requires table { indices.second < length instance.now.addresses.tables.items }
    requires there { table_address instance.now indices.second < length
        state.now.contents.tables }
    requires refers { RefersToFunction code.now
        (entry_through instance.now state.now indices.second offset) }
    ensures { FindsEntry code.now (type_of instance.now indices.first)
        (entry_through instance.now state.now indices.second offset) result }
{
    let wanted = &instance.loaded.as_ref().module().types.as_slice()[indices.first as usize];
    let address = instance.addresses.tables[indices.second as usize];
    let Some(table) = state.table(address) else {
        unreachable!()
    };
    find_entry(code, wanted, table.entries().get(offset as usize).copied())
}
