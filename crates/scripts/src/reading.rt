ghost use Rattle.std.specs.Prelude.{◌≡◌, ◌++◌, [], IfOk, OnOk, map, string_bytes};
ghost use Rattle.serde_json.specs.View.{view};
ghost use Rattle.meaning.specs.scripts.Commands.{command_file, with_name, filenames as files_of};
ghost use Rattle.scripts.specs.Faults.{ReadsCommands, ReadsScript};
ghost use Rattle.scripts.specs.Reading.{command_of, commands_in, line_of};
ghost use Rattle.scripts.specs.Reads.{Reads};
ghost use Rattle.scripts.specs.Views.{command_view};

use crate::faults::ScriptFault;
use crate::fields::{array, text};
use crate::kinds::kind_of;
use crate::script::{Script, ScriptCommand};
use crate::skipping::skips;
use crate::tasks::read_task;
use crate::unread::Unread;
use serde_json::Value;
use std::alloc::{AllocError, Global};

fn line(command: &Value) -> Option<u64>
    ensures { result ≡ line_of (view command.now) }
{
    let number = command.get("line").and_then(Value::as_u64)?;
    (number <= u64::from(u32::MAX)).then_some(number)
}

fn read_command(alloc: Global, command: &Value) -> Result<ScriptCommand, Unread>
    ensures { Reads command_view (command_of (view command.now)) result }
{
    let Some(kind) = text(command, "type").and_then(kind_of) else {
        return Err(Unread::BadForm);
    };
    let Some(line) = line(command) else {
        return Err(Unread::BadForm);
    };
    if skips(kind, command) {
        return Ok(ScriptCommand::Skipped);
    }
    Ok(ScriptCommand::Tried(line, read_task(alloc, kind, command)?))
}

// Reads all commands, or returns the first one at fault.
fn read_commands(alloc: Global, items: &[Value]) -> Result<Vec<ScriptCommand>, ScriptFault>
    ensures { ReadsCommands (commands_in 0 (map view items.now)) result }
{
    let mut commands = Vec::new(alloc);
    for k in 0..items.len() {
        match read_command(alloc, &items[k]) {
            Ok(command) => commands.push(command)?,
            Err(Unread::BadForm) => return Err(ScriptFault::BadCommand(k as u64)),
            Err(Unread::OutOfMemory) => return Err(ScriptFault::OutOfMemory),
        }
    }
    Ok(commands)
}

// Appends the name of the file that a command needs, if it needs one.
fn add_filename(
    alloc: Global,
    names: &mut Vec<String>,
    command: &ScriptCommand,
) -> Result<(), AllocError>
    ensures { OnOk result (map string_bytes names.new.items ≡ map string_bytes names.old.items ++
        with_name (command_file (command_view command.now)) ([])) }
{
    match command.filename() {
        Some(name) => {
            let copied = String::from_str(alloc, name)?;
            names.push(copied)?;
            Ok(())
        }
        None => Ok(()),
    }
}

fn files_needed(alloc: Global, commands: &[ScriptCommand]) -> Result<Vec<String>, AllocError>
    ensures { IfOk result (λ names. map string_bytes names.items ≡ files_of
        (map command_view commands.now)) }
{
    let mut names = Vec::new(alloc);
    for command in commands {
        add_filename(alloc, &mut names, command)?;
    }
    Ok(names)
}

/// Reads a script.
///
/// # Errors
///
/// Fails with `NotJson` if the bytes are not JSON text. Fails with `BadCommand` and the index of the first command that does not
/// have its form, or with 0 if there is no object with an array `commands`. Fails with `OutOfMemory` if an allocation fails.
pub fn read_script(alloc: Global, bytes: &[u8]) -> Result<Script, ScriptFault>
    ensures { ReadsScript bytes.now result }
{
    let value = match Value::from_slice(alloc, bytes) {
        Ok(value) => value,
        Err(error) => {
            if error.is_memory() {
                return Err(ScriptFault::OutOfMemory);
            }
            return Err(ScriptFault::NotJson);
        }
    };
    let Some(items) = array(&value, "commands") else {
        return Err(ScriptFault::BadCommand(0));
    };
    let commands = read_commands(alloc, items)?;
    let filenames = files_needed(alloc, &commands)?;
    Ok(Script::of(commands, filenames))
}
