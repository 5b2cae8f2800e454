//! Performs the subcommands of the program: a run of a script, a call, or a check of a module.

ghost use Rattle.std.specs.Prelude.{◌≡◌, ◌<◌, ◌^◌, IfOk, Ok, OnOk, length, map, string_bytes};
ghost use Rattle.embed.specs.Contents.{embedding_of};
ghost use Rattle.exec.specs.Endings.{ending_of};
ghost use Rattle.meaning.specs.scripts.Commands.{files_in};
ghost use Rattle.scripts.specs.Runs.{Runs, files_view};
ghost use Rattle.subcommands.specs.Embeddings.{EndsCall};
ghost use Rattle.subcommands.specs.Files.{AreBytesOf};
ghost use Rattle.subcommands.specs.Performing.{CallsBytes, IsCalled, IsChecked, IsRun, IsScriptIn, Performs, RunsFiles, SpellValidModule};

use crate::calls::{call, embedding_with_spectest, new_embedding};
use crate::faults::Fault;
use crate::inputs::{Files, ReadFault};
use crate::script_files::read_named;
use command_line::{
    CallSubcommand, DEFAULT_DEPTH, DEFAULT_FUEL, ScriptSubcommand, Subcommand, read_words,
};
use embed::{Embedding, HostDef, Outcome, Refusal};
use hostfunc::HostFn;
use scripts::{Report, Script, read_script, run_script};
use std::alloc::Global;

/// How a call ended, and the fuel left.
#[derive(Drop)]
pub struct CallEnd {
    pub outcome: Outcome,
    pub fuel_left: u64,
}

/// What the program did.
#[derive(Drop)]
pub enum End {
    /// The script was run.
    Ran(Report),
    /// The function was called.
    Called(CallEnd),
    /// The module is valid.
    Valid,
}

// Returns the bytes of a file.
fn read_file<'a, F: Files>(files: &mut F, path: &'a str) -> Result<Vec<u8>, Fault<'a>>
    ensures read { IfOk result (λ bytes. AreBytesOf (F.contents files.old) path.now bytes.items) }
    ensures kept { F.contents files.new ≡ F.contents files.old }
{
    match files.read(path) {
        Ok(bytes) => Ok(bytes),
        Err(ReadFault::Failed) => Err(Fault::CannotRead(path)),
        Err(ReadFault::Memory) => Err(Fault::Refused(Refusal::OutOfMemory)),
    }
}

// Runs a script with its files in an embedding.
fn run_in<'a>(
    alloc: Global,
    script: &Script,
    named: &[(String, Vec<u8>)],
    embedding: &mut Embedding,
) -> Result<Report, Fault<'a>>
    requires nothing { Unit {0} }
    ensures { IfOk result (λ report. Runs ⟦<dyn HostFn as HostFn>⟧ script.now
        (files_in (files_view named.now)) (embedding_of embedding.old) (Ok report)
        (embedding_of embedding.new)) }
{
    Ok(run_script(alloc, script, named, embedding)?)
}

// Runs a script with its files in a new embedding. Each command has the fuel of the subcommand.
fn run_over_files<'a>(
    alloc: Global,
    subcommand: &ScriptSubcommand<'a>,
    script: &Script,
    named: &[(String, Vec<u8>)],
    hosts: Vec<HostDef>,
) -> Result<Report, Fault<'a>>
    requires { length hosts.items < 2 ^ 32 }
    ensures { IfOk result (λ report. RunsFiles ⟦<dyn HostFn as HostFn>⟧ hosts.items subcommand.now
        script.now (files_view named.now) report) }
{
    match embedding_with_spectest(alloc, subcommand.fuel, subcommand.depth, hosts) {
        Ok(mut embedding) => run_in(alloc, script, named, &mut embedding),
        Err(fault) => Err(fault),
    }
}

// Returns the script in a file.
fn read_script_in_file<'a, F: Files>(
    alloc: Global,
    files: &mut F,
    path: &'a str,
) -> Result<Script, Fault<'a>>
    ensures read { IfOk result (λ script. IsScriptIn (F.contents files.old) path.now script) }
    ensures kept { F.contents files.new ≡ F.contents files.old }
{
    let bytes = read_file(files, path)?;
    Ok(read_script(alloc, bytes.as_slice())?)
}

// Runs the script in the file that the subcommand names. Each command has the fuel of the subcommand. Modules may import the stored
// module.
fn run_script_in_file<'a, F: Files>(
    alloc: Global,
    subcommand: &ScriptSubcommand<'a>,
    files: &mut F,
    hosts: Vec<HostDef>,
) -> Result<Report, Fault<'a>>
    requires { length hosts.items < 2 ^ 32 }
    ensures { IfOk result (λ report. IsRun ⟦<dyn HostFn as HostFn>⟧ (F.contents files.old)
        hosts.items subcommand.now report) }
{
    let script = read_script_in_file(alloc, files, subcommand.file)?;
    let named = read_named(alloc, files, subcommand.file, script.filenames())?;
    run_over_files(alloc, subcommand, &script, named.as_slice(), hosts)
}

// Calls the function that the subcommand names, of the module that the bytes encode, in an embedding.
fn call_in<'a>(
    alloc: Global,
    subcommand: &CallSubcommand<'a>,
    bytes: &[u8],
    embedding: &mut Embedding,
) -> Result<CallEnd, Fault<'a>>
    requires nothing { Unit {0} }
    ensures called { IfOk result (λ call. EndsCall ⟦<dyn HostFn as HostFn>⟧
        (embedding_of embedding.old) subcommand.now bytes.now (ending_of call.outcome)
        (embedding_of embedding.new)) }
    ensures left { IfOk result (λ call. call.fuel_left ≡
        (embedding_of embedding.new).state.fuel) }
{
    let outcome = call(alloc, subcommand, embedding, bytes)?;
    Ok(CallEnd {
        outcome,
        fuel_left: embedding.fuel_left(),
    })
}

// Calls the function that the subcommand names, of the module that the bytes encode, with the fuel of the subcommand.
fn call_in_bytes<'a>(
    alloc: Global,
    subcommand: &CallSubcommand<'a>,
    bytes: &[u8],
    hosts: Vec<HostDef>,
) -> Result<CallEnd, Fault<'a>>
    requires { length hosts.items < 2 ^ 32 }
    ensures { IfOk result (λ call. CallsBytes ⟦<dyn HostFn as HostFn>⟧ hosts.items subcommand.now
        bytes.now call) }
{
    match embedding_with_spectest(alloc, subcommand.fuel, subcommand.depth, hosts) {
        Ok(mut embedding) => call_in(alloc, subcommand, bytes, &mut embedding),
        Err(fault) => Err(fault),
    }
}

// Calls the function that the subcommand names, of the module in the subcommand's file, with the fuel of the subcommand. The module may import
// the stored module.
fn call_in_file<'a, F: Files>(
    alloc: Global,
    subcommand: &CallSubcommand<'a>,
    files: &mut F,
    hosts: Vec<HostDef>,
) -> Result<CallEnd, Fault<'a>>
    requires { length hosts.items < 2 ^ 32 }
    ensures { IfOk result (λ call. IsCalled ⟦<dyn HostFn as HostFn>⟧ (F.contents files.old)
        hosts.items subcommand.now call) }
{
    let bytes = read_file(files, subcommand.file)?;
    call_in_bytes(alloc, subcommand, bytes.as_slice(), hosts)
}

// Loads the module that the bytes encode in an embedding.
fn load_in<'a>(bytes: &[u8], embedding: &mut Embedding) -> Result<(), Fault<'a>>
    requires nothing { Unit {0} }
    ensures { OnOk result (SpellValidModule bytes.now) }
{
    embedding.load(bytes)?;
    Ok(())
}

// Loads the module that the bytes encode in a new embedding.
fn check_bytes<'a>(alloc: Global, bytes: &[u8], hosts: Vec<HostDef>) -> Result<(), Fault<'a>>
    requires { length hosts.items < 2 ^ 32 }
    ensures { OnOk result (SpellValidModule bytes.now) }
{
    match new_embedding(alloc, DEFAULT_FUEL, DEFAULT_DEPTH, hosts) {
        Ok(mut embedding) => load_in(bytes, &mut embedding),
        Err(fault) => Err(fault),
    }
}

// Loads the module in a file.
fn check_file<'a, F: Files>(
    alloc: Global,
    files: &mut F,
    path: &'a str,
    hosts: Vec<HostDef>,
) -> Result<(), Fault<'a>>
    requires { length hosts.items < 2 ^ 32 }
    ensures { OnOk result (IsChecked (F.contents files.old) path.now) }
{
    let bytes = read_file(files, path)?;
    check_bytes(alloc, bytes.as_slice(), hosts)
}

/// Reads the arguments after the program's name, and does what they request.
///
/// Modules may import the functions in `hosts`, which are the three print functions. There must be at most 2^32 - 1 of them.
///
/// # Errors
///
/// Returns a fault that states why the request was not performed, or was not performed to its end.
pub fn perform<'a, F: Files>(
    alloc: Global,
    words: &'a [String],
    files: &mut F,
    hosts: Vec<HostDef>,
) -> Result<End, Fault<'a>>
    requires { length hosts.items < 2 ^ 32 }
    ensures { IfOk result (Performs ⟦<dyn HostFn as HostFn>⟧ (F.contents files.old) hosts.items
        (map string_bytes words.now)) }
{
    match read_words(alloc, words)? {
        Subcommand::Script(subcommand) => Ok(End::Ran(run_script_in_file(
            alloc,
            &subcommand,
            files,
            hosts,
        )?)),
        Subcommand::Call(subcommand) => Ok(End::Called(call_in_file(
            alloc,
            &subcommand,
            files,
            hosts,
        )?)),
        Subcommand::Check(path) => {
            check_file(alloc, files, path, hosts)?;
            Ok(End::Valid)
        }
    }
}
