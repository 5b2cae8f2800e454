//! The program, with its arguments, its files and its writers.

ghost use Rattle.std.specs.Prelude.{◌≡◌, ◌<◌, ◌^◌, IfOk, Result, length, map, string_bytes};
ghost use Rattle.std.specs.IoError.{error_kind};
ghost use Rattle.program.specs.Endings.{IsToldBy, words_fault as fault_of_words};
ghost use Rattle.program.specs.Lines.{fault_line};
ghost use Rattle.program.specs.Outputs.{Prints};
ghost use Rattle.program.specs.Statuses.{fault_status};
ghost use Rattle.subcommands.specs.Performing.{Performs};
ghost use Rattle.subcommands.specs.declared.faults.Fault.{Fault as AnyFault};
ghost use Rattle.subcommands.specs.declared.performing.End.{End as AnyEnd};

use crate::output::Output;
use crate::print::{print_end, print_fault, print_report, print_valid};
use embed::{HostDef, Refusal};
use hostfunc::HostFn;
use std::alloc::Global;
use std::io::{self, Write};
use subcommands::{End, Fault, Files, perform};

/// Runs the program with the arguments after its name, and returns its exit status.
///
/// Modules may import the functions in `hosts`, which are the three print functions. There must be at most 2^32 - 1 of them.
/// The result is printed to `out`, and a fault to `err`. Unless there is a fault, the exit status is 1 if `out` has failed.
pub fn run<F: Files, W: Write, E: Write>(
    alloc: Global,
    words: &[String],
    files: &mut F,
    hosts: Vec<HostDef>,
    out: &mut Output<W>,
    err: &mut Output<E>,
) -> u8
    requires { length hosts.items < 2 ^ 32 }
    ensures { (done : Result AnyEnd AnyFault) × IfOk done (Performs ⟦<dyn HostFn as HostFn>⟧
        (F.contents files.old) hosts.items (map string_bytes words.now))
        × IsToldBy W.contents E.contents done out.old out.new err.old err.new result }
{
    match perform(alloc, words, files, hosts) {
        Ok(End::Ran(report)) => print_report(out, &report),
        Ok(End::Called(end)) => print_end(out, &end),
        Ok(End::Valid) => print_valid(out),
        Err(fault) => print_fault(err, &fault),
    }
}

// Returns the fault if the arguments cannot be obtained. If memory did not run out, one of them is not text, which is a usage
// fault.
fn words_fault(error: &io::Error) -> Fault<'static>
    ensures { result ≡ fault_of_words (error_kind error.now) }
{
    if error.kind() == io::ErrorKind::OutOfMemory {
        Fault::Refused(Refusal::OutOfMemory)
    } else {
        Fault::Usage
    }
}

/// Prints why the arguments after the program's name, or the print functions, cannot be obtained. Returns the exit status.
pub fn refuse_words<E: Write>(error: &io::Error, err: &mut Output<E>) -> u8
    ensures lines { Prints E.contents err.old err.new
        (fault_line (fault_of_words (error_kind error.now))) }
    ensures status { result ≡ fault_status (fault_of_words (error_kind error.now)) }
{
    print_fault(err, &words_fault(error))
}
