ghost use Rattle.std.specs.Prelude.{◌≡◌, ◌++◌, ℕ, List, OnOk, flat_map};
ghost use Rattle.messages.specs.Messages.{message_bytes};
ghost use Rattle.messages.specs.Numbers.{number_bytes};
ghost use Rattle.answers.specs.Answers.{cause_bytes, cause_numbers, exhaustion_number, fields_of, kind_of, reply_fields, reply_kind, report_bytes, trap_code, trap_number};

use crate::answer::Answer;
use crate::causes::Cause;
use crate::exports::{push_exports, push_imports};
use core_types::{Exhaustion, Trap};
use embed::{Refusal, Reply};
use messages::{push_message, push_number, push_value, push_values};
use scripts::Report;
use std::alloc::{AllocError, Global};

fn number_of_trap(trap: Trap) -> u64
    ensures { result ≡ trap_number trap }
{
    match trap {
        Trap::Unreachable => 1,
        Trap::DivideByZero => 2,
        Trap::IntegerOverflow => 3,
        Trap::MemoryBounds => 4,
        Trap::TableBounds => 5,
        Trap::UndefinedElement => 6,
        Trap::UninitializedElement => 7,
        Trap::IndirectType => 8,
        Trap::Host(_) => 9,
    }
}

// Returns the code of a host function's trap, or 0.
fn code_of_trap(trap: Trap) -> u64
    ensures { result ≡ trap_code trap }
{
    match trap {
        Trap::Host(code) => u64::from(code),
        _ => 0,
    }
}

fn number_of_exhaustion(what: Exhaustion) -> u64
    ensures { result ≡ exhaustion_number what }
{
    match what {
        Exhaustion::Fuel => 1,
        Exhaustion::Depth => 2,
        Exhaustion::Memory => 3,
    }
}

fn push_trap(out: &mut Vec<u8>, trap: Trap) -> Result<(), AllocError>
    ensures { OnOk result (out.new.items ≡ out.old.items
        ++ (number_bytes (trap_number trap) ++ number_bytes (trap_code trap))) }
{
    push_number(out, number_of_trap(trap))?;
    push_number(out, code_of_trap(trap))
}

fn push_cause_numbers(out: &mut Vec<u8>, cause: &Cause) -> Result<(), AllocError>
    ensures { OnOk result (out.new.items ≡ out.old.items ++ cause_numbers cause.now) }
{
    let place = cause.place();
    push_number(out, cause.number())?;
    push_number(out, place.kind)?;
    push_number(out, place.index)
}

// Appends a cause: its numbers, and a description if memory is available for it.
fn push_cause(alloc: Global, out: &mut Vec<u8>, cause: &Cause) -> Result<(), AllocError>
    ensures { OnOk result ((words : List ℕ) × (out.new.items ≡ out.old.items
        ++ cause_bytes cause.now words)) }
{
    push_cause_numbers(out, cause)?;
    match format!(in alloc; "{cause}") {
        Ok(words) => out.extend_from_slice(words.as_bytes()),
        Err(_) => Ok(()),
    }
}

fn push_report(out: &mut Vec<u8>, report: &Report) -> Result<(), AllocError>
    ensures { OnOk result (out.new.items ≡ out.old.items ++ report_bytes report.now) }
{
    push_number(out, report.passed)?;
    push_number(out, report.failed)?;
    push_number(out, report.skipped)?;
    push_lines(out, report.failures.as_slice())
}

// Appends the numbers of lines.
fn push_lines(out: &mut Vec<u8>, lines: &[u64]) -> Result<(), AllocError>
    ensures { OnOk result (out.new.items ≡ out.old.items ++ flat_map number_bytes lines.now) }
{
    for i in 0..lines.len() {
        push_number(out, lines[i])?;
    }
    Ok(())
}

// Appends the reply of an embedding.
fn push_reply(alloc: Global, out: &mut Vec<u8>, reply: &Reply) -> Result<(), AllocError>
    ensures { OnOk result ((words : List ℕ) × (out.new.items ≡ out.old.items
        ++ reply_fields reply.now words)) }
{
    match reply {
        Reply::Done => Ok(()),
        Reply::Loaded(number) | Reply::Linked(number) => push_number(out, *number),
        Reply::Values(values) => push_values(out, values.as_slice()),
        Reply::Trap(trap) => push_trap(out, *trap),
        Reply::Exhausted(what) => push_number(out, number_of_exhaustion(*what)),
        Reply::Refused(refusal) => push_refusal(alloc, out, *refusal),
    }
}

// Appends the refusal of a command.
fn push_refusal(alloc: Global, out: &mut Vec<u8>, refusal: Refusal) -> Result<(), AllocError>
    ensures { OnOk result ((words : List ℕ) × (out.new.items ≡ out.old.items
        ++ cause_bytes (Cause.Command refusal) words)) }
{
    push_cause(alloc, out, &Cause::Command(refusal))
}

fn push_fields(alloc: Global, out: &mut Vec<u8>, answer: &Answer) -> Result<(), AllocError>
    ensures { OnOk result ((words : List ℕ) × (out.new.items ≡ out.old.items
        ++ fields_of answer.now words)) }
{
    match answer {
        Answer::Done | Answer::NotSpelt | Answer::NotNow => Ok(()),
        Answer::Applied(reply) => push_reply(alloc, out, reply),
        Answer::Global(value) => push_value(out, *value),
        Answer::FuelLeft(left) | Answer::QuotaLeft(left) => push_number(out, *left),
        Answer::Exports(exports) => push_exports(out, exports),
        Answer::Imports(imports) => push_imports(out, imports),
        Answer::Ran(report) => push_report(out, report),
        Answer::Text(text) => out.extend_from_slice(text.as_bytes()),
        Answer::Refused(cause) => push_cause(alloc, out, cause),
    }
}

// Returns the kind of the message for a reply of an embedding.
fn kind_of_reply(reply: &Reply) -> u64
    ensures { result ≡ reply_kind reply.now }
{
    match reply {
        Reply::Done => 0,
        Reply::Loaded(_) | Reply::Linked(_) => 1,
        Reply::Values(_) => 2,
        Reply::Trap(_) => 3,
        Reply::Exhausted(_) => 4,
        Reply::Refused(_) => 5,
    }
}

// Returns the kind of the message for an answer.
fn kind_of_answer(answer: &Answer) -> u64
    ensures { result ≡ kind_of answer.now }
{
    match answer {
        Answer::Done => 0,
        Answer::Applied(reply) => kind_of_reply(reply),
        Answer::FuelLeft(_) | Answer::QuotaLeft(_) => 1,
        Answer::Global(_) => 2,
        Answer::Refused(_) => 5,
        Answer::Exports(_) => 6,
        Answer::Ran(_) => 7,
        Answer::NotSpelt => 8,
        Answer::NotNow => 9,
        Answer::Imports(_) => 12,
        Answer::Text(_) => 13,
    }
}

/// Appends the message of an answer. Its fields are built in `fields`, and replace what was there. A refusal has its numbers,
/// followed by a description if memory is available for it.
pub fn push_answer(
    alloc: Global,
    fields: &mut Vec<u8>,
    out: &mut Vec<u8>,
    answer: &Answer,
) -> Result<(), AllocError>
    ensures { OnOk result ((words : List ℕ) × (out.new.items ≡ out.old.items
        ++ message_bytes (kind_of answer.now) (fields_of answer.now words))) }
{
    fields.clear();
    push_fields(alloc, fields, answer)?;
    push_message(out, kind_of_answer(answer), fields.as_slice())
}
