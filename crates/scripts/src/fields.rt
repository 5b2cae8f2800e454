ghost use Rattle.std.specs.Prelude.{◌≡◌, map, option_map, string_bytes};
ghost use Rattle.serde_json.specs.View.{view};
ghost use Rattle.scripts.specs.Reading.{array_in, optional_text_in, text_in};
ghost use Rattle.scripts.specs.Reads.{Reads};
ghost use Rattle.scripts.specs.Views.{optional_bytes};

use crate::unread::Unread;
use serde_json::Value;
use std::alloc::Global;

// Returns the text in a field of an object.
pub fn text<'a>(object: &'a Value, key: &str) -> Option<&'a str>
    ensures { option_map (λ s. s.now) result ≡ text_in key.now (view object.now) }
{
    object.get(key).and_then(Value::as_str)
}

// Returns the items of the array in a field of an object.
pub fn array<'a>(object: &'a Value, key: &str) -> Option<&'a [Value]>
    ensures { option_map (λ items. map view items.now) result ≡ array_in key.now
        (view object.now) }
{
    let field = object.get(key)?;
    let items = field.as_array()?;
    Some(items.as_slice())
}

// Returns the text in a field of an object, as a new string.
pub fn read_text(alloc: Global, object: &Value, key: &str) -> Result<String, Unread>
    ensures { Reads string_bytes (text_in key.now (view object.now)) result }
{
    match text(object, key) {
        Some(found) => Ok(String::from_str(alloc, found)?),
        None => Err(Unread::BadForm),
    }
}

// Returns the text in a field that may be missing.
pub fn read_optional_text(
    alloc: Global,
    object: &Value,
    key: &str,
) -> Result<Option<String>, Unread>
    ensures { Reads optional_bytes (optional_text_in key.now (view object.now)) result }
{
    match object.get(key) {
        None => Ok(None),
        Some(field) => match field.as_str() {
            Some(found) => Ok(Some(String::from_str(alloc, found)?)),
            None => Err(Unread::BadForm),
        },
    }
}
