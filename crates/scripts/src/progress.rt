ghost use Rattle.std.specs.Prelude.{◌≡◌, ◌+◌, ◌<◌, ◌^◌, OnOk};

use crate::asking::ask_for_task;
use crate::faults::ScriptFault;
use crate::instances::Instances;
use crate::passing::passes;
use crate::report::Report;
use crate::script::{ScriptCommand, Task};
use embed::Embedding;
use hostfunc::HostFn;
use indexmap::IndexMap;
use std::alloc::Global;

// The progress of a script: its instances, and its report so far.
#[derive(Drop)]
pub struct Progress {
    pub instances: Instances,
    pub report: Report,
}

impl Progress {
    ghost use Rattle.embed.specs.Contents.{embedding_of};
    ghost use Rattle.meaning.specs.scripts.Commands.{Tried};
    ghost use Rattle.meaning.specs.scripts.Runner.{counted, start, turn};
    ghost use Rattle.scripts.specs.FileMaps.{files_kept};
    ghost use Rattle.scripts.specs.Runs.{HoldsPart, progress_view};
    ghost use Rattle.scripts.specs.Views.{command_view, task_view};

    // Creates the progress at the beginning of a script.
    pub fn new(alloc: Global) -> Progress
        ensures { progress_view result ≡ start }
    {
        Progress {
            instances: Instances::new(alloc),
            report: Report {
                passed: 0,
                failed: 0,
                skipped: 0,
                failures: Vec::new(alloc),
            },
        }
    }

    // Tries a task, with this fuel.
    fn attempt(
        &mut self,
        alloc: Global,
        fuel: u64,
        files: &IndexMap<&str, &[u8]>,
        line: u64,
        task: &Task,
        embedding: &mut Embedding,
    ) -> Result<(), ScriptFault>
        requires { counted (progress_view self.old).report + 1 < 2 ^ 64 }
        ensures held { HoldsPart ⟦<dyn HostFn as HostFn>⟧ (λ _. progress_view self.new)
            (turn fuel (files_kept files.now)
            (Tried line (task_view task.now)) (progress_view self.old)) (embedding_of embedding.old)
            result (embedding_of embedding.new) }
        ensures counts { OnOk result (counted (progress_view self.new).report
            ≡ counted (progress_view self.old).report + 1) }
    {
        embedding.set_fuel(fuel);
        let reply = ask_for_task(alloc, files, &self.instances, task, embedding)?;
        self.instances.settle(alloc, task, &reply)?;
        self.report.count(line, passes(task, &reply))?;
        Ok(())
    }

    // Performs one command, with this fuel.
    pub fn advance(
        &mut self,
        alloc: Global,
        fuel: u64,
        files: &IndexMap<&str, &[u8]>,
        command: &ScriptCommand,
        embedding: &mut Embedding,
    ) -> Result<(), ScriptFault>
        requires { counted (progress_view self.old).report + 1 < 2 ^ 64 }
        ensures held { HoldsPart ⟦<dyn HostFn as HostFn>⟧ (λ _. progress_view self.new)
            (turn fuel (files_kept files.now)
            (command_view command.now) (progress_view self.old)) (embedding_of embedding.old) result
            (embedding_of embedding.new) }
        ensures counts { OnOk result (counted (progress_view self.new).report
            ≡ counted (progress_view self.old).report + 1) }
    {
        match command {
            ScriptCommand::Skipped => {
                self.report.skip();
                Ok(())
            }
            ScriptCommand::Tried(line, task) => self.attempt(
                alloc, fuel, files, *line, task, embedding,
            ),
        }
    }
}
