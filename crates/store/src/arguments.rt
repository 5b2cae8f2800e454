ghost use Rattle.std.specs.Prelude.{◌↔◌, IsTrue};
ghost use Rattle.meaning.specs.soundness.Values.{TakesArguments, ValueHasType, ValuesHaveTypes};
ghost use Rattle.store.specs.Contents.{store_of};

use crate::store::Store;
use core_types::{Val, ValType};

fn value_has_type(store: &Store, value: Val, ty: ValType) -> bool
    ensures { IsTrue result ↔ ValueHasType (store_of store.now) value ty }
{
    match ty {
        ValType::I32 => matches!(value, Val::I32(_)),
        ValType::I64 => matches!(value, Val::I64(_)),
        ValType::FuncRef => match value {
            Val::FuncRef(None) => true,
            Val::FuncRef(Some(address)) => store.code().function(address).is_some(),
            _ => false,
        },
        ValType::ExternRef => matches!(value, Val::ExternRef(_)),
    }
}

fn values_have_types(store: &Store, values: &[Val], types: &[ValType]) -> bool
    ensures { IsTrue result ↔ ValuesHaveTypes (store_of store.now) values.now types.now }
{
    if values.len() != types.len() {
        return false;
    }
    for i in 0..values.len() {
        if !value_has_type(store, values[i], types[i]) {
            return false;
        }
    }
    true
}

/// Returns whether there is a function at an address that takes these arguments: as many as its parameters, and each of its
/// type. `invoke` requires this of its caller (Execution, Modules, Invocation).
pub fn accepts(store: &Store, address: u32, args: &[Val]) -> bool
    ensures { IsTrue result ↔ TakesArguments (store_of store.now) address args.now }
{
    match store.code().function(address) {
        Some(callee) => values_have_types(store, args, callee.ty().params.as_slice()),
        None => false,
    }
}
