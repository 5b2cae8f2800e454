//! The command line.

ghost use Rattle.std.specs.Prelude.{◌≡◌, [], IfOk, IfSome, IsOkAnd, MatchOption, None, Some, codes, map, string_bytes, unwrap_or};
ghost use Rattle.clap.specs.Words.{AddsSubcommand, all_of, first_of, found_of, rows_of, subcommand_rows_of};
ghost use Rattle.command_line.specs.Commands.{IsArgument, IsCommand, call, check, option as option_rule, plain, program, repeated as repeated_rule, required as required_rule, script};
ghost use Rattle.command_line.specs.Depths.{IsDepth, IsNoDepth};
ghost use Rattle.command_line.specs.Numbers.{IsBound, IsFuel, IsNumberOf};
ghost use Rattle.command_line.specs.Subcommands.{AsksFor, IsCallSubcommand, IsSubcommand, IsScriptSubcommand};

use crate::digits::number;
use clap::error::ErrorKind;
use clap::{Arg, ArgAction, ArgMatches, Command, Error};
use std::alloc::{AllocError, Global};

/// The default fuel of a call, and of each command of a script.
pub const DEFAULT_FUEL: u64 = 1_000_000_000;

/// The default bound on the frames that a call may have open at once.
pub const DEFAULT_DEPTH: u32 = 1024;

/// The largest bound on open frames that the arguments may set.
pub const LARGEST_DEPTH: u32 = 65_535;

/// The call that the arguments request.
#[derive(Drop)]
pub struct CallSubcommand<'a> {
    pub file: &'a str,
    pub export: &'a str,
    pub args: Vec<&'a str>,
    pub fuel: u64,
    pub depth: u32,
}

/// The run of a script that the arguments request.
#[derive(Clone, Copy)]
pub struct ScriptSubcommand<'a> {
    pub file: &'a str,
    pub fuel: u64,
    pub depth: u32,
}

/// What the arguments request.
#[derive(Drop)]
pub enum Subcommand<'a> {
    /// A run of a script.
    Script(ScriptSubcommand<'a>),
    /// A call of an exported function.
    Call(CallSubcommand<'a>),
    /// A check of the module in the file at this path.
    Check(&'a str),
}

/// Why the arguments request nothing.
#[derive(Clone, Copy)]
pub enum WordsFault {
    /// They do not have a form that the program reads.
    Usage,
    /// An allocation for them failed.
    Memory,
}

impl From<AllocError> for WordsFault {
    fn from(_error: AllocError) -> WordsFault {
        WordsFault::Memory
    }
}

impl From<Error> for WordsFault {
    fn from(error: Error) -> WordsFault {
        if error.kind() == ErrorKind::OutOfMemory {
            WordsFault::Memory
        } else {
            WordsFault::Usage
        }
    }
}

// Creates a command without help and version flags, and without a help subcommand.
fn plain_command<'a>(alloc: Global, name: &'a str) -> Command<'a>
    ensures { IsCommand (plain name.now) result }
{
    Command::new(alloc, name)
        .disable_help_flag(true)
        .disable_version_flag(true)
        .disable_help_subcommand(true)
}

// Creates a required argument.
fn required<'a>(alloc: Global, name: &'a str) -> Arg<'a>
    ensures { IsArgument (required_rule name.now) result }
{
    Arg::new(alloc, name).required(true).action(ArgAction::Set)
}

// Creates an argument that takes any number of values.
fn repeated<'a>(alloc: Global, name: &'a str) -> Arg<'a>
    ensures { IsArgument (repeated_rule name.now) result }
{
    Arg::new(alloc, name)
        .num_args(0..)
        .action(ArgAction::Append)
}

// Creates an option with one value. It is given by `--` and the name.
fn option<'a>(alloc: Global, name: &'a str) -> Arg<'a>
    ensures { IsArgument (option_rule name.now) result }
{
    Arg::new(alloc, name).long(name).action(ArgAction::Set)
}

fn script_command<'a>(alloc: Global) -> Result<Command<'a>, AllocError>
    ensures { IfOk result (IsCommand script) }
{
    plain_command(alloc, "script")
        .arg(required(alloc, "file"))?
        .arg(option(alloc, "fuel"))?
        .arg(option(alloc, "depth"))
}

fn call_command<'a>(alloc: Global) -> Result<Command<'a>, AllocError>
    ensures { IfOk result (IsCommand call) }
{
    plain_command(alloc, "call")
        .arg(required(alloc, "file"))?
        .arg(required(alloc, "export"))?
        .arg(repeated(alloc, "args"))?
        .arg(option(alloc, "fuel"))?
        .arg(option(alloc, "depth"))
}

fn check_command<'a>(alloc: Global) -> Result<Command<'a>, AllocError>
    ensures { IfOk result (IsCommand check) }
{
    plain_command(alloc, "check").arg(required(alloc, "file"))
}

// Adds a subcommand to a command. Fails if an allocation fails, or failed for the subcommand.
fn with_subcommand<'a>(
    command: Command<'a>,
    made: Result<Command<'a>, AllocError>,
) -> Result<Command<'a>, AllocError>
    ensures { IfOk result (λ new. IsOkAnd made.entry
        (λ subcommand. AddsSubcommand command.entry subcommand new)) }
{
    match made {
        Ok(subcommand) => command.subcommand(subcommand),
        Err(wanting) => Err(wanting),
    }
}

fn program_command<'a>(alloc: Global) -> Result<Command<'a>, AllocError>
    ensures { IfOk result (IsCommand program) }
{
    let command = plain_command(alloc, "wasmrun")
        .subcommand_required(true)
        .no_binary_name(true);
    let command = with_subcommand(command, script_command(alloc))?;
    let command = with_subcommand(command, call_command(alloc))?;
    with_subcommand(command, check_command(alloc))
}

// Returns the value of the argument with this name. Fails with `Usage` if there is none.
fn word_of<'a>(matches: &ArgMatches<'a>, name: &str) -> Result<&'a str, WordsFault>
    ensures { IfOk result (λ word. first_of name.now (rows_of (found_of matches.now))
        ≡ Some word.now) }
{
    match matches.get_str(name) {
        Some(word) => Ok(word),
        None => Err(WordsFault::Usage),
    }
}

// Returns all values of the argument with this name.
fn words_of<'a>(
    alloc: Global,
    matches: &ArgMatches<'a>,
    name: &str,
) -> Result<Vec<&'a str>, WordsFault>
    ensures { IfOk result (λ words. unwrap_or (all_of name.now (rows_of (found_of matches.now))) []
        ≡ map (λ word. word.now) words.items) }
{
    match matches.get_strs(name) {
        Some(words) => Ok(Vec::from_slice(alloc, words)?),
        None => Ok(Vec::new(alloc)),
    }
}

// Returns the number that an option sets, if the option is there. Fails with `Usage` if its value is not a number.
fn option_of(matches: &ArgMatches<'_>, name: &str) -> Result<Option<u64>, WordsFault>
    ensures { IfOk result (IsNumberOf (first_of name.now (rows_of (found_of matches.now)))) }
{
    match matches.get_str(name) {
        None => Ok(None),
        Some(word) => match number(word) {
            Some(value) => Ok(Some(value)),
            None => Err(WordsFault::Usage),
        },
    }
}

// Returns the bound on open frames that the number of an option sets, or the default without one. Returns none if the number is
// out of range.
fn depth_of(given: Option<u64>) -> Option<u32>
    ensures default { given ≡ None → result ≡ Some 1024 }
    ensures named { IfSome given (λ n. MatchOption result (IsNoDepth n)
        (λ depth. (depth ≡ n) × IsDepth n)) }
{
    match given {
        None => Some(DEFAULT_DEPTH),
        Some(depth) if depth == 0 || depth > LARGEST_DEPTH as u64 => None,
        Some(depth) => Some(depth as u32),
    }
}

// Returns the fuel that the arguments set, or the default.
fn fuel_in(matches: &ArgMatches<'_>) -> Result<u64, WordsFault>
    ensures { IfOk result (IsFuel (first_of (codes "fuel") (rows_of (found_of matches.now)))) }
{
    Ok(option_of(matches, "fuel")?.unwrap_or(DEFAULT_FUEL))
}

// Returns the bound on open frames that the arguments set, or the default.
fn depth_in(matches: &ArgMatches<'_>) -> Result<u32, WordsFault>
    ensures { IfOk result (IsBound (first_of (codes "depth") (rows_of (found_of matches.now)))) }
{
    match depth_of(option_of(matches, "depth")?) {
        Some(depth) => Ok(depth),
        None => Err(WordsFault::Usage),
    }
}

fn script_subcommand_of<'a>(matches: &ArgMatches<'a>) -> Result<ScriptSubcommand<'a>, WordsFault>
    ensures { IfOk result (IsScriptSubcommand (rows_of (found_of matches.now))) }
{
    Ok(ScriptSubcommand {
        file: word_of(matches, "file")?,
        fuel: fuel_in(matches)?,
        depth: depth_in(matches)?,
    })
}

fn call_subcommand_of<'a>(
    alloc: Global,
    matches: &ArgMatches<'a>,
) -> Result<CallSubcommand<'a>, WordsFault>
    ensures { IfOk result (IsCallSubcommand (rows_of (found_of matches.now))) }
{
    Ok(CallSubcommand {
        file: word_of(matches, "file")?,
        export: word_of(matches, "export")?,
        args: words_of(alloc, matches, "args")?,
        fuel: fuel_in(matches)?,
        depth: depth_in(matches)?,
    })
}

// Returns what the arguments request, after they were matched against the commands.
fn subcommand_in<'a>(alloc: Global, matches: &ArgMatches<'a>) -> Result<Subcommand<'a>, WordsFault>
    ensures { IfOk result (IsSubcommand (subcommand_rows_of matches.now)) }
{
    if let Some(found) = matches.subcommand_matches("script") {
        return Ok(Subcommand::Script(script_subcommand_of(found)?));
    }
    if let Some(found) = matches.subcommand_matches("call") {
        return Ok(Subcommand::Call(call_subcommand_of(alloc, found)?));
    }
    match matches.subcommand_matches("check") {
        Some(found) => Ok(Subcommand::Check(word_of(found, "file")?)),
        None => Err(WordsFault::Usage),
    }
}

/// Returns what the arguments after the program's name request.
///
/// # Errors
///
/// Fails with `Usage` if the arguments do not have a form that the program reads, and with `Memory` if an allocation fails.
pub fn read_words<'a>(alloc: Global, words: &'a [String]) -> Result<Subcommand<'a>, WordsFault>
    ensures { IfOk result (AsksFor (map string_bytes words.now)) }
{
    let matches = program_command(alloc)?.try_get_matches_from(words)?;
    subcommand_in(alloc, &matches)
}
