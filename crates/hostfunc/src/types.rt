ghost use Rattle.std.specs.Prelude.{◌≡◌, ◌↔◌, IsTrue, map};
ghost use Rattle.meaning.specs.embedding.Creation.{has_funcref as have_funcref};
ghost use Rattle.meaning.specs.execution.Values.{type_of as value_type};

use core_types::{Val, ValType};

fn type_of(value: Val) -> ValType
    ensures { result ≡ value_type value }
{
    match value {
        Val::I32(_) => ValType::I32,
        Val::I64(_) => ValType::I64,
        Val::FuncRef(_) => ValType::FuncRef,
        Val::ExternRef(_) => ValType::ExternRef,
    }
}

/// Returns whether the values are of these types, one by one.
pub fn have_types(values: &[Val], types: &[ValType]) -> bool
    ensures { IsTrue result ↔ (map value_type values.now ≡ types.now) }
{
    if values.len() != types.len() {
        return false;
    }
    for i in 0..values.len() {
        if type_of(values[i]) != types[i] {
            return false;
        }
    }
    true
}

/// Returns whether a funcref is among the types.
pub fn has_funcref(types: &[ValType]) -> bool
    ensures { result ≡ have_funcref types.now }
{
    for ty in types {
        if *ty == ValType::FuncRef {
            return true;
        }
    }
    false
}
