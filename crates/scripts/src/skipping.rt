ghost use Rattle.std.specs.Prelude.{◌≡◌};
ghost use Rattle.std.specs.List.{list_any};
ghost use Rattle.serde_json.specs.View.{view};
ghost use Rattle.scripts.specs.Reading.{has_left_out_in, is_left_out, is_left_out_type, is_skipped, is_text_module};

use crate::fields::{array, text};
use crate::kinds::Kind;
use serde_json::Value;

// Returns whether the name is that of an unsupported type of values.
fn is_other_type(name: &str) -> bool
    ensures { result ≡ is_left_out_type name.now }
{
    name == "f32" || name == "f64" || name == "v128"
}

// Returns whether an object is a value of an unsupported type.
fn is_other_value(object: &Value) -> bool
    ensures { result ≡ is_left_out (view object.now) }
{
    match text(object, "type") {
        Some(name) => is_other_type(name),
        None => false,
    }
}

// Returns whether such an object is among these.
fn any_other_value(items: &[Value]) -> bool
    ensures { result ≡ list_any (λ item. is_left_out (view item)) items.now }
{
    items.iter().any(is_other_value)
}

// Returns whether such an object is in the array in a field.
fn has_other_values(object: &Value, key: &str) -> bool
    ensures { result ≡ has_left_out_in key.now (view object.now) }
{
    match array(object, key) {
        Some(items) => any_other_value(items),
        None => false,
    }
}

// Returns whether the module of a command is given as text.
fn has_text_module(command: &Value) -> bool
    ensures { result ≡ is_text_module (view command.now) }
{
    match text(command, "module_type") {
        Some(name) => name == "text",
        None => false,
    }
}

// Returns whether a command is skipped: its module is given as text, or it has values of unsupported types.
pub fn skips(kind: Kind, command: &Value) -> bool
    ensures { result ≡ is_skipped kind (view command.now) }
{
    if has_text_module(command) {
        return true;
    }
    if kind.has_expected() && has_other_values(command, "expected") {
        return true;
    }
    match command.get("action") {
        Some(action) => kind.has_action() && has_other_values(action, "args"),
        None => false,
    }
}
