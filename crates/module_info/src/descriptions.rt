ghost use Rattle.std.specs.Prelude.{◌≡◌, IfOk, IsSomeAnd, false};
ghost use Rattle.meaning.specs.validation.Modules.{IsValid};
ghost use Rattle.module_info.specs.Lines.{Tells, says_valid};
ghost use Rattle.module_info.specs.Verdicts.{IsFound, IsFoundOf, decode_verdict, validate_verdict};

use binary::{BodyReader, DecodeError, bytes_spell_one_module, decode};
use core_types::{Func, FuncBody, Module};
use explanation::{
    explain_function, explain_limit, explain_malformed, explain_section, explain_unsupported,
};
use index_spaces::IndexSpaces;
use module_text::write_module;
use std::alloc::Global;
use std::fmt::Display;
use std::io::{self, Write};
use validator::{Place, ValidateError, validate};

/// The verdict on bytes.
#[derive(Clone, Copy, PartialEq, Eq, Debug)]
pub enum Verdict {
    /// A valid module.
    Valid,
    /// No module within the limits, or one that is not valid.
    Refused,
    /// Memory ran out before there was a verdict.
    OutOfMemory,
}

// Writes why bytes are refused, in a line that does not begin with `valid`.
fn write_refusal<W: Write, D: Display + Drop>(out: &mut W, line: D) -> io::Result<Verdict>
    requires { IsSomeAnd (D.output line) (λ text. says_valid text ≡ false) }
    ensures verdict { IfOk result (λ verdict. verdict ≡ Verdict.Refused) }
    ensures told { IfOk result (Tells (W.contents out.old) (W.contents out.new)) }
{
    out.write_fmt(line)?;
    Ok(Verdict::Refused)
}

// Writes which feature begins at an offset, and where.
fn write_unsupported<W: Write>(
    alloc: Global,
    out: &mut W,
    bytes: &[u8],
    offset: usize,
) -> io::Result<Verdict>
    ensures verdict { IfOk result (λ verdict. verdict ≡ Verdict.Refused) }
    ensures told { IfOk result (Tells (W.contents out.old) (W.contents out.new)) }
{
    match explain_unsupported(alloc, bytes, offset) {
        Ok(Some(text)) => write_refusal(out, format_args_nl!("unsupported feature: {text}")),
        _ => write_refusal(out, format_args_nl!("unsupported feature at byte {offset}")),
    }
}

// Writes why bytes are malformed at an offset.
fn write_malformed<W: Write>(
    alloc: Global,
    out: &mut W,
    bytes: &[u8],
    offset: usize,
) -> io::Result<Verdict>
    ensures verdict { IfOk result (λ verdict. verdict ≡ Verdict.Refused) }
    ensures told { IfOk result (Tells (W.contents out.old) (W.contents out.new)) }
{
    match explain_malformed(alloc, bytes, offset) {
        Ok(Some(text)) => write_refusal(out, format_args_nl!("malformed module: {text}")),
        _ => write_refusal(out, format_args_nl!("malformed module at byte {offset}")),
    }
}

// Writes which limit a module exceeds.
fn write_limit<W: Write>(alloc: Global, out: &mut W, bytes: &[u8]) -> io::Result<Verdict>
    ensures verdict { IfOk result (λ verdict. verdict ≡ Verdict.Refused) }
    ensures told { IfOk result (Tells (W.contents out.old) (W.contents out.new)) }
{
    match explain_limit(alloc, bytes) {
        Ok(Some(text)) => write_refusal(out, format_args_nl!("module exceeds a limit: {text}")),
        _ => write_refusal(out, format_args_nl!("module exceeds a limit")),
    }
}

// Writes why bytes encode no module.
fn write_decode_error<W: Write>(
    alloc: Global,
    out: &mut W,
    bytes: &[u8],
    error: &DecodeError,
) -> io::Result<Verdict>
    ensures verdict { IfOk result (λ verdict. verdict ≡ decode_verdict error.now) }
    ensures told { IfOk result (Tells (W.contents out.old) (W.contents out.new)) }
{
    match error {
        DecodeError::Unsupported(offset) => write_unsupported(alloc, out, bytes, *offset),
        DecodeError::Malformed(offset) => write_malformed(alloc, out, bytes, *offset),
        DecodeError::Limit => write_limit(alloc, out, bytes),
        DecodeError::OutOfMemory => Ok(Verdict::OutOfMemory),
    }
}

// Returns why a module is not valid at a place, or none if memory runs out.
fn explain(alloc: Global, bytes: &[u8], place: Place) -> Option<String> {
    let decoded = decode(alloc, bytes).ok()?;
    match place {
        Place::Func(body) => explain_function(alloc, &decoded, bytes, body).ok()?,
        Place::Section(id) => explain_section(alloc, &decoded, id).ok()?,
    }
}

// Writes why a module is not valid at a place.
fn write_invalid<W: Write>(
    alloc: Global,
    out: &mut W,
    bytes: &[u8],
    place: Place,
) -> io::Result<Verdict>
    ensures verdict { IfOk result (λ verdict. verdict ≡ Verdict.Refused) }
    ensures told { IfOk result (Tells (W.contents out.old) (W.contents out.new)) }
{
    if let Some(reason) = explain(alloc, bytes, place) {
        return write_refusal(out, format_args_nl!("invalid module: {reason}"));
    }
    match place {
        Place::Func(body) => {
            write_refusal(out, format_args_nl!("invalid module: function {body}"))
        }
        Place::Section(id) => write_refusal(out, format_args_nl!("invalid module: section {id}")),
    }
}

// Writes why a module is not valid.
fn write_validate_error<W: Write>(
    alloc: Global,
    out: &mut W,
    bytes: &[u8],
    error: &ValidateError,
) -> io::Result<Verdict>
    ensures verdict { IfOk result (λ verdict. verdict ≡ validate_verdict error.now) }
    ensures told { IfOk result (Tells (W.contents out.old) (W.contents out.new)) }
{
    match error {
        ValidateError::Invalid(place) => write_invalid(alloc, out, bytes, *place),
        ValidateError::OutOfMemory => Ok(Verdict::OutOfMemory),
    }
}

// Returns the number of operations of a body, including those that begin and end a body in it.
fn count_operations(alloc: Global, body: &FuncBody) -> Result<u64, DecodeError> {
    let mut reader = BodyReader::new(alloc, body);
    for count in 0..u64::MAX {
        if reader.opcode().is_none() {
            return Ok(count);
        }
        reader.any()?;
    }
    Ok(u64::MAX)
}

// Returns the number of operations of all functions.
fn count_all_operations(alloc: Global, funcs: &[Func]) -> Result<u64, DecodeError> {
    let mut count: u64 = 0;
    for func in funcs {
        count = count.saturating_add(count_operations(alloc, &func.body)?);
    }
    Ok(count)
}

// Returns the lines that describe a module, or none if memory runs out.
fn lines_of(alloc: Global, module: &Module) -> Option<Vec<u8>> {
    let spaces = IndexSpaces::new(alloc, module).ok()?;
    let operations = count_all_operations(alloc, module.funcs.as_slice()).ok()?;
    let mut lines = Vec::new(alloc);
    match write_module(&mut lines, module, &spaces, operations) {
        Ok(()) => Some(lines),
        Err(_) => None,
    }
}

// Writes that a module is valid, followed by these lines.
fn write_valid<W: Write>(out: &mut W, len: usize, lines: &[u8]) -> io::Result<Verdict>
    ensures verdict { IfOk result (λ verdict. verdict ≡ Verdict.Valid) }
    ensures told { IfOk result (Tells (W.contents out.old) (W.contents out.new)) }
{
    writeln!(out, "valid, {len} bytes")?;
    out.write_all(lines)?;
    Ok(Verdict::Valid)
}

// Writes what a valid module contains. All lines are created before the first one is written, so that nothing is written if
// memory runs out.
fn describe_valid<W: Write>(
    alloc: Global,
    out: &mut W,
    len: usize,
    valid: &Module,
) -> io::Result<Verdict>
    requires { IsValid valid.now }
    ensures found { IfOk result (λ verdict. IsFoundOf valid.now verdict) }
    ensures told { IfOk result (Tells (W.contents out.old) (W.contents out.new)) }
{
    match lines_of(alloc, valid) {
        Some(lines) => write_valid(out, len, lines.as_slice()),
        None => Ok(Verdict::OutOfMemory),
    }
}

// Writes what a module contains, or why it is not valid.
fn describe_module<W: Write>(
    alloc: Global,
    out: &mut W,
    bytes: &[u8],
    decoded: Module,
) -> io::Result<Verdict>
    ensures found { IfOk result (λ verdict. IsFoundOf decoded verdict) }
    ensures told { IfOk result (Tells (W.contents out.old) (W.contents out.new)) }
{
    match validate(alloc, decoded) {
        Ok(valid) => describe_valid(alloc, out, bytes.len(), valid.module()),
        Err(error) => write_validate_error(alloc, out, bytes, &error),
    }
}

/// Writes what the bytes encode, and returns the verdict.
///
/// For a valid module, the first line begins with `valid`. The imports and the exports follow with their types, in the order of
/// the module. Then come its tables and memories, and then how much there is of everything else. Each of these has a line.
/// Names are escaped, so that each one stays on its line.
///
/// For other bytes, one line states why they are refused, and where if that is known. If memory runs out, nothing is written.
///
/// # Errors
///
/// Fails if the writer fails.
pub fn describe<W: Write>(alloc: Global, out: &mut W, bytes: &[u8]) -> io::Result<Verdict>
    ensures found { IfOk result (λ verdict. IsFound bytes.now verdict) }
    ensures told { IfOk result (Tells (W.contents out.old) (W.contents out.new)) }
{
    bytes_spell_one_module();
    match decode(alloc, bytes) {
        Ok(decoded) => describe_module(alloc, out, bytes, decoded),
        Err(error) => write_decode_error(alloc, out, bytes, &error),
    }
}
