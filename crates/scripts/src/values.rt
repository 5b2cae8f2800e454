ghost use Rattle.std.specs.Prelude.{◌≡◌};
ghost use Rattle.serde_json.specs.View.{view};
ghost use Rattle.scripts.specs.Reading.{reference_of, value_of, value_of_type, values_in};
ghost use Rattle.scripts.specs.Reads.{Reads, items_in};

use crate::fields::{array, text};
use crate::numbers::{long_number, short_number};
use crate::unread::Unread;
use core_types::Val;
use serde_json::Value;
use std::alloc::Global;

// Returns the reference that a text represents: a number of the host, or null.
fn reference(text: &str) -> Option<Option<u32>>
    ensures { result ≡ reference_of text.now }
{
    if text == "null" {
        return Some(None);
    }
    Some(Some(short_number(text)?))
}

// Returns the value of a type that a text represents.
fn typed_value(ty: &str, text: &str) -> Option<Val>
    ensures { result ≡ value_of_type ty.now text.now }
{
    match ty {
        "i32" => Some(Val::I32(short_number(text)?)),
        "i64" => Some(Val::I64(long_number(text)?)),
        "externref" => Some(Val::ExternRef(reference(text)?)),
        "funcref" => (text == "null").then_some(Val::FuncRef(None)),
        _ => None,
    }
}

// Returns the value that an object represents.
pub fn value(object: &Value) -> Option<Val>
    ensures { result ≡ value_of (view object.now) }
{
    typed_value(text(object, "type")?, text(object, "value")?)
}

// Returns the values in the array in a field.
pub fn read_values(alloc: Global, object: &Value, key: &str) -> Result<Vec<Val>, Unread>
    ensures { Reads items_in (values_in key.now (view object.now)) result }
{
    let Some(items) = array(object, key) else {
        return Err(Unread::BadForm);
    };
    let mut values = Vec::new(alloc);
    for k in 0..items.len() {
        match value(&items[k]) {
            Some(found) => values.push(found)?,
            None => return Err(Unread::BadForm),
        }
    }
    Ok(values)
}
