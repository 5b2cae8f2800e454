//! The lines that the program prints, and the exit statuses that go with them.

ghost use Rattle.std.specs.Prelude.{◌≡◌, ◌++◌, Ok, codes, flat_map};
ghost use Rattle.embed.specs.Replies.{call_reply, refusal_of};
ghost use Rattle.program.specs.Lines.{call_lines, counts_line, exhaustion_text, failure_line, fault_line, fuel_line, line, outcome_lines, reference_text, refusal_text, report_lines, script_fault_line, valid_line, value_line};
ghost use Rattle.program.specs.Outputs.{Prints, printed_status};
ghost use Rattle.program.specs.Statuses.{fault_status, refusal_status, reply_status, script_fault_status, script_status};

use crate::output::Output;
use core_types::{Exhaustion, Val};
use embed::{Outcome, Refusal};
use scripts::{Report, ScriptFault};
use std::io::Write;
use subcommands::{CallEnd, Fault};

// Returns the exit status after lines were printed to an output: 1 if the output has failed, and `status` otherwise.
fn status_after<W: Write>(out: &Output<W>, status: u8) -> u8
    ensures { result ≡ printed_status out.now status }
{
    if out.has_failed() { 1 } else { status }
}

// Prints a line with a reference of this type.
fn print_reference<W: Write>(out: &mut Output<W>, ty: &str, reference: Option<u32>)
    ensures { Prints W.contents out.old out.new (ty.now ++ (codes " " ++
        line (reference_text reference))) }
{
    match reference {
        Some(number) => writeln!(out, "{ty} {number}"),
        None => writeln!(out, "{ty} null"),
    }
}

fn print_value<W: Write>(out: &mut Output<W>, value: Val)
    ensures { Prints W.contents out.old out.new (value_line value) }
{
    match value {
        Val::I32(number) => writeln!(out, "i32 {number}"),
        Val::I64(number) => writeln!(out, "i64 {number}"),
        Val::FuncRef(reference) => print_reference(out, "funcref", reference),
        Val::ExternRef(reference) => print_reference(out, "externref", reference),
    }
}

fn print_values<W: Write>(out: &mut Output<W>, values: &[Val])
    ensures { Prints W.contents out.old out.new (flat_map value_line values.now) }
{
    for value in values {
        print_value(out, *value);
    }
}

fn exhaustion_word(exhaustion: Exhaustion) -> &'static str
    ensures { result.now ≡ exhaustion_text exhaustion }
{
    match exhaustion {
        Exhaustion::Fuel => "fuel",
        Exhaustion::Depth => "depth",
        Exhaustion::Memory => "memory",
    }
}

fn print_outcome<W: Write>(out: &mut Output<W>, outcome: &Outcome)
    ensures { Prints W.contents out.old out.new (outcome_lines outcome.now) }
{
    match outcome {
        Outcome::Values(values) => print_values(out, values.as_slice()),
        Outcome::Trap(trap) => writeln!(out, "trap: {}", trap.text()),
        Outcome::Exhausted(what) => writeln!(out, "exhausted: {}", exhaustion_word(*what)),
    }
}

fn print_fuel<W: Write>(out: &mut Output<W>, left: u64)
    ensures { Prints W.contents out.old out.new (fuel_line left) }
{
    writeln!(out, "fuel left {left}");
}

fn print_call<W: Write>(out: &mut Output<W>, end: &CallEnd)
    ensures { Prints W.contents out.old out.new (call_lines end.now) }
{
    print_outcome(out, &end.outcome);
    print_fuel(out, end.fuel_left);
    out.flush();
}

fn outcome_status(outcome: &Outcome) -> u8
    ensures { result ≡ reply_status (call_reply (Ok outcome.now)) }
{
    match outcome {
        Outcome::Values(_) => 0,
        Outcome::Trap(_) => 1,
        Outcome::Exhausted(_) => 6,
    }
}

/// Prints how a call ended. Returns the exit status, which is 1 if the output has failed.
pub fn print_end<W: Write>(out: &mut Output<W>, end: &CallEnd) -> u8
    ensures lines { Prints W.contents out.old out.new (call_lines end.now) }
    ensures status { result ≡ printed_status out.new
        (reply_status (call_reply (Ok end.now.outcome))) }
{
    print_call(out, end);
    status_after(out, outcome_status(&end.outcome))
}

fn print_failure<W: Write>(out: &mut Output<W>, number: u64)
    ensures { Prints W.contents out.old out.new (failure_line number) }
{
    writeln!(out, "line {number}: failed");
}

fn print_failures<W: Write>(out: &mut Output<W>, numbers: &[u64])
    ensures { Prints W.contents out.old out.new (flat_map failure_line numbers.now) }
{
    for number in numbers {
        print_failure(out, *number);
    }
}

fn print_counts<W: Write>(out: &mut Output<W>, report: &Report)
    ensures { Prints W.contents out.old out.new
        (counts_line report.now.passed report.now.failed report.now.skipped) }
{
    let (passed, failed, skipped) = (report.passed, report.failed, report.skipped);
    writeln!(out, "passed {passed} failed {failed} skipped {skipped}");
}

fn print_report_lines<W: Write>(out: &mut Output<W>, report: &Report)
    ensures { Prints W.contents out.old out.new (report_lines report.now) }
{
    print_failures(out, report.failures.as_slice());
    print_counts(out, report);
    out.flush();
}

/// Prints the report of a script. Returns the exit status: 1 if a command or the output has failed, and 0 otherwise.
pub fn print_report<W: Write>(out: &mut Output<W>, report: &Report) -> u8
    ensures lines { Prints W.contents out.old out.new (report_lines report.now) }
    ensures status { result ≡ printed_status out.new (script_status report.now.failed) }
{
    print_report_lines(out, report);
    status_after(out, if report.failed == 0 { 0 } else { 1 })
}

fn print_valid_line<W: Write>(out: &mut Output<W>)
    ensures { Prints W.contents out.old out.new valid_line }
{
    writeln!(out, "valid");
}

/// Prints that a module is valid. Returns the exit status: 1 if the output has failed, and 0 otherwise.
pub fn print_valid<W: Write>(out: &mut Output<W>) -> u8
    ensures lines { Prints W.contents out.old out.new valid_line }
    ensures status { result ≡ printed_status out.new 0 }
{
    print_valid_line(out);
    out.flush();
    status_after(out, 0)
}

fn refusal_status(refusal: Refusal) -> u8
    ensures { result ≡ refusal_status (refusal_of refusal) }
{
    match refusal {
        Refusal::Malformed(_) => 5,
        Refusal::Unsupported(_) => 5,
        Refusal::Limit => 5,
        Refusal::Invalid(_) => 5,
        Refusal::UnknownModule => 5,
        Refusal::UnknownImport(_) => 5,
        Refusal::IncompatibleImport(_) => 5,
        Refusal::UnknownInstance => 5,
        Refusal::UnknownExport => 2,
        Refusal::WrongKind => 2,
        Refusal::BadArguments => 2,
        Refusal::NameTaken => 5,
        Refusal::OutOfMemory => 6,
    }
}

fn script_fault_status(fault: &ScriptFault) -> u8
    ensures { result ≡ script_fault_status fault.now }
{
    match fault {
        ScriptFault::NotJson => 4,
        ScriptFault::BadCommand(_) => 4,
        ScriptFault::MissingFile(_) => 3,
        ScriptFault::OutOfMemory => 6,
    }
}

fn fault_status(fault: &Fault<'_>) -> u8
    ensures { result ≡ fault_status fault.now }
{
    match fault {
        Fault::Usage => 2,
        Fault::CannotRead(_) => 3,
        Fault::CannotReadNamed(_) => 3,
        Fault::Script(fault) => script_fault_status(fault),
        Fault::Refused(refusal) => refusal_status(*refusal),
        Fault::HostNameTaken => 5,
        Fault::HostFuncRef => 5,
        Fault::BadArguments => 2,
    }
}

// Returns the number and the name of a refusal as a text.
fn refusal_line(refusal: Refusal) -> &'static str
    ensures { result.now ≡ refusal_text (refusal_of refusal) }
{
    match refusal {
        Refusal::Malformed(_) => "refused 1 Malformed",
        Refusal::Unsupported(_) => "refused 2 Unsupported",
        Refusal::Limit => "refused 3 Limit",
        Refusal::Invalid(_) => "refused 4 Invalid",
        Refusal::UnknownModule => "refused 5 UnknownModule",
        Refusal::UnknownImport(_) => "refused 6 UnknownImport",
        Refusal::IncompatibleImport(_) => "refused 7 IncompatibleImport",
        Refusal::UnknownInstance => "refused 8 UnknownInstance",
        Refusal::UnknownExport => "refused 9 UnknownExport",
        Refusal::WrongKind => "refused 10 WrongKind",
        Refusal::BadArguments => "refused 11 BadArguments",
        Refusal::NameTaken => "refused 12 NameTaken",
        Refusal::OutOfMemory => "refused 13 OutOfMemory",
    }
}

fn print_script_fault<E: Write>(err: &mut Output<E>, fault: &ScriptFault)
    ensures { Prints E.contents err.old err.new (script_fault_line fault.now) }
{
    match fault {
        ScriptFault::NotJson => writeln!(err, "refused 15 NotJson"),
        ScriptFault::BadCommand(index) => writeln!(err, "refused 16 BadCommand({index})"),
        ScriptFault::MissingFile(index) => writeln!(err, "refused 17 MissingFile({index})"),
        ScriptFault::OutOfMemory => writeln!(err, "refused 13 OutOfMemory"),
    }
}

fn print_fault_line<E: Write>(err: &mut Output<E>, fault: &Fault<'_>)
    ensures { Prints E.contents err.old err.new (fault_line fault.now) }
{
    match fault {
        Fault::Usage => writeln!(err, "usage"),
        Fault::CannotRead(path) => writeln!(err, "cannot read {path}"),
        Fault::CannotReadNamed(path) => writeln!(err, "cannot read {path}"),
        Fault::Script(fault) => print_script_fault(err, fault),
        Fault::Refused(refusal) => writeln!(err, "{}", refusal_line(*refusal)),
        Fault::HostNameTaken => writeln!(err, "refused 12 NameTaken"),
        Fault::HostFuncRef => writeln!(err, "refused 14 HostFuncRef"),
        Fault::BadArguments => writeln!(err, "bad arguments"),
    }
}

/// Prints the line of a fault. Returns the exit status, which is the same if the output has failed.
pub fn print_fault<E: Write>(err: &mut Output<E>, fault: &Fault<'_>) -> u8
    ensures lines { Prints E.contents err.old err.new (fault_line fault.now) }
    ensures status { result ≡ fault_status fault.now }
{
    print_fault_line(err, fault);
    fault_status(fault)
}
