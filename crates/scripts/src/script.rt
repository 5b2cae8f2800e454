use core_types::Val;
use std::marker::Model;

// An export that is called or read. Its instance is the one that a name of the script means, or the current one if there is no
// name.
#[derive(Drop)]
pub enum Action {
    Invoke {
        instance: Option<String>,
        field: String,
        args: Vec<Val>,
    },
    Get {
        instance: Option<String>,
        field: String,
    },
}

// What a command tries.
#[derive(Drop)]
pub enum Task {
    // Load and link the module in a file, and give its instance a name of the script.
    Module {
        filename: String,
        name: Option<String>,
    },
    // Register an instance under a name.
    Register {
        name: String,
        instance: Option<String>,
    },
    // Perform an action.
    Perform(Action),
    // Assert that an action returns these values.
    AssertReturn(Action, Vec<Val>),
    // Assert that an action traps with a text that is a prefix of this one.
    AssertTrap(Action, String),
    // Assert that an action runs out of fuel or depth.
    AssertExhaustion(Action),
    // Assert that the module in a file is not valid.
    AssertInvalid(String),
    // Assert that a file encodes no module.
    AssertMalformed(String),
    // Assert that an import of the module in a file is unknown or does not match.
    AssertUnlinkable(String),
    // Assert that the link of the module in a file traps with a text that is a prefix of this one.
    AssertUninstantiable(String, String),
}

// A command: a skipped one, or a task with its line.
#[derive(Drop)]
pub enum ScriptCommand {
    Skipped,
    Tried(u64, Task),
}

impl Task {
    ghost use Rattle.std.specs.Prelude.{◌≡◌, option_map};
    ghost use Rattle.meaning.specs.scripts.Commands.{task_file};
    ghost use Rattle.scripts.specs.Views.{task_view};

    // Returns the name of the file that the task needs, if it needs one.
    pub fn filename(&self) -> Option<&str>
        ensures { option_map (λ s. s.now) result ≡ task_file (task_view self.now) }
    {
        match self {
            Task::Module { filename, .. } => Some(filename.as_str()),
            Task::AssertInvalid(filename) => Some(filename.as_str()),
            Task::AssertMalformed(filename) => Some(filename.as_str()),
            Task::AssertUnlinkable(filename) => Some(filename.as_str()),
            Task::AssertUninstantiable(filename, _) => Some(filename.as_str()),
            _ => None,
        }
    }
}

impl ScriptCommand {
    ghost use Rattle.std.specs.Prelude.{◌≡◌, option_map};
    ghost use Rattle.meaning.specs.scripts.Commands.{command_file};
    ghost use Rattle.scripts.specs.Views.{command_view};

    // Returns the name of the file that the command needs, if it needs one.
    pub fn filename(&self) -> Option<&str>
        ensures { option_map (λ s. s.now) result ≡ command_file (command_view self.now) }
    {
        match self {
            ScriptCommand::Skipped => None,
            ScriptCommand::Tried(_, task) => task.filename(),
        }
    }
}

/// A script: commands in order.
#[derive(Drop)]
pub struct Script {
    commands: Vec<ScriptCommand>,
    filenames: Vec<String>,
}

impl Model for Script {
    ghost use Rattle.std.specs.Prelude.{◌≡◌, List, map, string_bytes};
    ghost use Rattle.meaning.specs.scripts.Commands.{ScriptCommand as AnyCommand, filenames as files_of};
    ghost use Rattle.scripts.specs.Views.{command_view};

    ghost Value = { List AnyCommand };

    ghost view = { λ s. map command_view s.commands.items };

    ghost invariant = { λ s. map string_bytes s.filenames.items ≡ files_of (map command_view
        s.commands.items) };
}

impl Script {
    ghost use Rattle.std.specs.Prelude.{◌≡◌, map, string_bytes};
    ghost use Rattle.meaning.specs.scripts.Commands.{filenames as files_of};
    ghost use Rattle.scripts.specs.Views.{command_view};

    // Returns the script of these commands, which need these files.
    pub(crate) fn of(commands: Vec<ScriptCommand>, filenames: Vec<String>) -> Script
        requires { map string_bytes filenames.items ≡ files_of (map command_view commands.items) }
        ensures { result ≡ map command_view commands.items }
    {
        Script {
            commands,
            filenames,
        }
    }

    // Returns the commands, in order.
    pub(crate) fn commands(&self) -> &[ScriptCommand]
        ensures { map command_view result.now ≡ self.now }
    {
        &self.commands
    }

    /// Returns the names of the files that the commands need, in order, without skipped commands. A name is repeated for each
    /// command that needs it.
    pub fn filenames(&self) -> &[String]
        ensures { map string_bytes result.now ≡ files_of self.now }
    {
        &self.filenames
    }
}
