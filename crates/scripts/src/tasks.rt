ghost use Rattle.serde_json.specs.View.{view};
ghost use Rattle.scripts.specs.Reading.{module_of, register_of, return_of, task_of, trap_of, uninstantiable_of};
ghost use Rattle.scripts.specs.Reads.{Reads};
ghost use Rattle.scripts.specs.Views.{task_view};

use crate::actions::read_action;
use crate::fields::{read_optional_text, read_text};
use crate::kinds::Kind;
use crate::script::Task;
use crate::unread::Unread;
use crate::values::read_values;
use serde_json::Value;
use std::alloc::Global;

fn read_module(alloc: Global, command: &Value) -> Result<Task, Unread>
    ensures { Reads task_view (module_of (view command.now)) result }
{
    let filename = read_text(alloc, command, "filename")?;
    let name = read_optional_text(alloc, command, "name")?;
    Ok(Task::Module { filename, name })
}

fn read_register(alloc: Global, command: &Value) -> Result<Task, Unread>
    ensures { Reads task_view (register_of (view command.now)) result }
{
    let name = read_text(alloc, command, "as")?;
    let instance = read_optional_text(alloc, command, "name")?;
    Ok(Task::Register { name, instance })
}

fn read_return(alloc: Global, command: &Value) -> Result<Task, Unread>
    ensures { Reads task_view (return_of (view command.now)) result }
{
    let action = read_action(alloc, command)?;
    let expected = read_values(alloc, command, "expected")?;
    Ok(Task::AssertReturn(action, expected))
}

fn read_trap(alloc: Global, command: &Value) -> Result<Task, Unread>
    ensures { Reads task_view (trap_of (view command.now)) result }
{
    let action = read_action(alloc, command)?;
    let text = read_text(alloc, command, "text")?;
    Ok(Task::AssertTrap(action, text))
}

fn read_uninstantiable(alloc: Global, command: &Value) -> Result<Task, Unread>
    ensures { Reads task_view (uninstantiable_of (view command.now)) result }
{
    let filename = read_text(alloc, command, "filename")?;
    let text = read_text(alloc, command, "text")?;
    Ok(Task::AssertUninstantiable(filename, text))
}

pub fn read_task(alloc: Global, kind: Kind, command: &Value) -> Result<Task, Unread>
    ensures { Reads task_view (task_of kind (view command.now)) result }
{
    match kind {
        Kind::Module => read_module(alloc, command),
        Kind::Register => read_register(alloc, command),
        Kind::Action => Ok(Task::Perform(read_action(alloc, command)?)),
        Kind::AssertReturn => read_return(alloc, command),
        Kind::AssertTrap => read_trap(alloc, command),
        Kind::AssertExhaustion => Ok(Task::AssertExhaustion(read_action(alloc, command)?)),
        Kind::AssertInvalid => Ok(Task::AssertInvalid(read_text(alloc, command, "filename")?)),
        Kind::AssertMalformed => Ok(Task::AssertMalformed(read_text(alloc, command, "filename")?)),
        Kind::AssertUnlinkable => {
            Ok(Task::AssertUnlinkable(read_text(alloc, command, "filename")?))
        }
        Kind::AssertUninstantiable => read_uninstantiable(alloc, command),
    }
}
