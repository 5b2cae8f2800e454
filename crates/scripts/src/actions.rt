ghost use Rattle.serde_json.specs.View.{view};
ghost use Rattle.scripts.specs.Reading.{action_in, action_of, get_of, invoke_of};
ghost use Rattle.scripts.specs.Reads.{Reads};
ghost use Rattle.scripts.specs.Views.{action_view};

use crate::fields::{read_optional_text, read_text, text};
use crate::script::Action;
use crate::unread::Unread;
use crate::values::read_values;
use serde_json::Value;
use std::alloc::Global;

// Reads a call.
fn read_invoke(alloc: Global, object: &Value) -> Result<Action, Unread>
    ensures { Reads action_view (invoke_of (view object.now)) result }
{
    let instance = read_optional_text(alloc, object, "module")?;
    let field = read_text(alloc, object, "field")?;
    let args = read_values(alloc, object, "args")?;
    Ok(Action::Invoke {
        instance,
        field,
        args,
    })
}

// Reads the reading of a global.
fn read_get(alloc: Global, object: &Value) -> Result<Action, Unread>
    ensures { Reads action_view (get_of (view object.now)) result }
{
    let instance = read_optional_text(alloc, object, "module")?;
    let field = read_text(alloc, object, "field")?;
    Ok(Action::Get { instance, field })
}

fn read_action_object(alloc: Global, object: &Value) -> Result<Action, Unread>
    ensures { Reads action_view (action_of (view object.now)) result }
{
    match text(object, "type") {
        Some("invoke") => read_invoke(alloc, object),
        Some("get") => read_get(alloc, object),
        _ => Err(Unread::BadForm),
    }
}

pub fn read_action(alloc: Global, command: &Value) -> Result<Action, Unread>
    ensures { Reads action_view (action_in (view command.now)) result }
{
    match command.get("action") {
        Some(object) => read_action_object(alloc, object),
        None => Err(Unread::BadForm),
    }
}
