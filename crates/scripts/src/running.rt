ghost use Rattle.std.specs.Prelude.{◌≡◌, map};
ghost use Rattle.embed.specs.Contents.{embedding_of};
ghost use Rattle.meaning.specs.scripts.Commands.{files_in};
ghost use Rattle.meaning.specs.scripts.Runner.{start};
ghost use Rattle.scripts.specs.FileMaps.{files_kept};
ghost use Rattle.scripts.specs.Runs.{HoldsAll, Runs, files_view};
ghost use Rattle.scripts.specs.Views.{command_view};

use crate::faults::ScriptFault;
use crate::file_maps::{files_by_name, missing};
use crate::progress::Progress;
use crate::report::Report;
use crate::script::{Script, ScriptCommand};
use embed::Embedding;
use hostfunc::HostFn;
use indexmap::IndexMap;
use std::alloc::Global;

// Performs all commands, each with this fuel.
fn run_commands(
    alloc: Global,
    fuel: u64,
    files: &IndexMap<&str, &[u8]>,
    commands: &[ScriptCommand],
    embedding: &mut Embedding,
) -> Result<Report, ScriptFault>
    ensures { HoldsAll ⟦<dyn HostFn as HostFn>⟧ fuel (files_kept files.now)
        (map command_view commands.now)
        (embedding_of embedding.old) result (embedding_of embedding.new) }
{
    let mut at = Progress::new(alloc);
    for k in 0..commands.len() {
        at.advance(alloc, fuel, files, &commands[k], embedding)?;
    }
    let Progress {
        instances: _,
        report,
    } = at;
    Ok(report)
}

/// Runs a script on an embedding, with these files and their names. Of two files with one name, the first counts.
///
/// # Errors
///
/// Fails with `MissingFile` and the index of the first command whose file was not passed. Then nothing has changed. Fails with
/// `OutOfMemory` if the embedding or the runner runs out of memory. Then the effects of the commands so far stay.
pub fn run_script(
    alloc: Global,
    script: &Script,
    files: &[(String, Vec<u8>)],
    embedding: &mut Embedding,
) -> Result<Report, ScriptFault>
    requires nothing { Unit {0} }
    ensures { Runs ⟦<dyn HostFn as HostFn>⟧ script.now (files_in (files_view files.now))
        (embedding_of embedding.old) result (embedding_of embedding.new) }
{
    let kept = files_by_name(alloc, files)?;
    if let Some(index) = missing(&kept, script.commands()) {
        return Err(ScriptFault::MissingFile(index));
    }
    let fuel = embedding.config().fuel();
    run_commands(alloc, fuel, &kept, script.commands(), embedding)
}
