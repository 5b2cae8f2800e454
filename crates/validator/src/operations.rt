//! The operations of a body, in turn: each is read, checked and shown to the visitor (Validation, Expressions).

ghost use Rattle.std.specs.Prelude.{IfErr, None, OnOk, Some, ◌≡◌, ◌≢◌, ◌≤◌, ◌⊎◌};
ghost use Rattle.binary.specs.Values.{first_byte};
ghost use Rattle.validator.specs.Errors.{OnInvalid};
ghost use Rattle.validator.specs.Steps.{IsRefusedNext};
ghost use Rattle.validator.specs.Visiting.{IsShownNext};

use crate::context::BodyContext;
use crate::control_frames::Stacks;
use crate::errors::Fault;
use crate::instructions::control::step_control;
use crate::instructions::memory::step_memory;
use crate::instructions::numeric::{step_i32_const, step_numeric};
use crate::instructions::parametric::step_parametric;
use crate::instructions::variable::{step_local_get, step_variable};
use crate::instructions::{step, step_mark};
use crate::visitor::Visitor;
use binary::BodyReader;
use std::alloc::Global;

// Reads, checks and shows any operation.
#[inline(never)]
fn check_any<'a, V: Visitor>(
    alloc: Global,
    context: &BodyContext<'a>,
    stacks: &mut Stacks<'a>,
    visitor: &mut V,
    reader: &mut BodyReader<'_>,
) -> Result<(), Fault>
    requires more { first_byte reader.old.0 ≢ None }
    requires ready { V.IsReady visitor.old }
    ensures ready { OnOk result (V.IsReady visitor.new) }
    ensures shows { OnOk result (IsShownNext V.Visits context.now stacks.old stacks.new
        visitor.old visitor.new reader.old reader.new) }
    ensures refused { IfErr result (OnInvalid (IsRefusedNext context.now stacks.old reader.old)) }
{
    let op = reader.any()?;
    step(alloc, context, stacks, &op)?;
    visitor.any(&op)?;
    Ok(())
}

// Like `check_any`. Only a copy of the reader is in memory.
#[inline(always)]
fn check_infrequent<'a, V: Visitor>(
    alloc: Global,
    context: &BodyContext<'a>,
    stacks: &mut Stacks<'a>,
    visitor: &mut V,
    reader: &mut BodyReader<'_>,
) -> Result<(), Fault>
    requires more { first_byte reader.old.0 ≢ None }
    requires ready { V.IsReady visitor.old }
    ensures ready { OnOk result (V.IsReady visitor.new) }
    ensures shows { OnOk result (IsShownNext V.Visits context.now stacks.old stacks.new
        visitor.old visitor.new reader.old reader.new) }
    ensures refused { IfErr result (OnInvalid (IsRefusedNext context.now stacks.old reader.old)) }
{
    let mut copy = reader.fork();
    let result = check_any(alloc, context, stacks, visitor, &mut copy);
    *reader = copy;
    result
}

// Reads, checks and shows a branch, a return or a call, which has this opcode.
#[inline(always)]
fn check_control<'a, V: Visitor>(
    context: &BodyContext<'a>,
    stacks: &mut Stacks<'a>,
    visitor: &mut V,
    reader: &mut BodyReader<'_>,
    code: u8,
) -> Result<(), Fault>
    requires opcode { first_byte reader.old.0 ≡ Some code }
    requires group { ((0x0C ≤ code) × (code ≤ 0x0D)) ⊎ ((0x0F ≤ code) × (code ≤ 0x10)) }
    requires ready { V.IsReady visitor.old }
    ensures ready { OnOk result (V.IsReady visitor.new) }
    ensures shows { OnOk result (IsShownNext V.Visits context.now stacks.old stacks.new
        visitor.old visitor.new reader.old reader.new) }
    ensures refused { IfErr result (OnInvalid (IsRefusedNext context.now stacks.old reader.old)) }
{
    let op = reader.control(code)?;
    step_control(context, stacks, op)?;
    visitor.control(op)?;
    Ok(())
}

// Reads, checks and shows an operation, at which a body begins or ends, and which has this opcode.
#[inline(always)]
fn check_mark<'a, V: Visitor>(
    context: &BodyContext<'a>,
    stacks: &mut Stacks<'a>,
    visitor: &mut V,
    reader: &mut BodyReader<'_>,
    code: u8,
) -> Result<(), Fault>
    requires opcode { first_byte reader.old.0 ≡ Some code }
    requires group { ((0x02 ≤ code) × (code ≤ 0x05)) ⊎ (code ≡ 0x0B) }
    requires ready { V.IsReady visitor.old }
    ensures ready { OnOk result (V.IsReady visitor.new) }
    ensures shows { OnOk result (IsShownNext V.Visits context.now stacks.old stacks.new
        visitor.old visitor.new reader.old reader.new) }
    ensures refused { IfErr result (OnInvalid (IsRefusedNext context.now stacks.old reader.old)) }
{
    let mark = reader.mark(code)?;
    step_mark(context, stacks, mark)?;
    visitor.mark(mark)?;
    Ok(())
}

// Reads, checks and shows a `local.get`.
#[inline(always)]
fn check_local_get<'a, V: Visitor>(
    context: &BodyContext<'a>,
    stacks: &mut Stacks<'a>,
    visitor: &mut V,
    reader: &mut BodyReader<'_>,
) -> Result<(), Fault>
    requires opcode { first_byte reader.old.0 ≡ Some 0x20 }
    requires ready { V.IsReady visitor.old }
    ensures ready { OnOk result (V.IsReady visitor.new) }
    ensures shows { OnOk result (IsShownNext V.Visits context.now stacks.old stacks.new
        visitor.old visitor.new reader.old reader.new) }
    ensures refused { IfErr result (OnInvalid (IsRefusedNext context.now stacks.old reader.old)) }
{
    let index = reader.local_get()?;
    step_local_get(context, stacks, index)?;
    visitor.local_get(index)?;
    Ok(())
}

// Reads, checks and shows an instruction on a local or a global, which has this opcode.
#[inline(always)]
fn check_variable<'a, V: Visitor>(
    context: &BodyContext<'a>,
    stacks: &mut Stacks<'a>,
    visitor: &mut V,
    reader: &mut BodyReader<'_>,
    code: u8,
) -> Result<(), Fault>
    requires opcode { first_byte reader.old.0 ≡ Some code }
    requires group { (0x20 ≤ code) × (code ≤ 0x24) }
    requires ready { V.IsReady visitor.old }
    ensures ready { OnOk result (V.IsReady visitor.new) }
    ensures shows { OnOk result (IsShownNext V.Visits context.now stacks.old stacks.new
        visitor.old visitor.new reader.old reader.new) }
    ensures refused { IfErr result (OnInvalid (IsRefusedNext context.now stacks.old reader.old)) }
{
    let op = reader.variable(code)?;
    step_variable(context, stacks, op)?;
    visitor.variable(op)?;
    Ok(())
}

// Reads, checks and shows a load or a store, which has this opcode.
#[inline(always)]
fn check_memory<'a, V: Visitor>(
    context: &BodyContext<'a>,
    stacks: &mut Stacks<'a>,
    visitor: &mut V,
    reader: &mut BodyReader<'_>,
    code: u8,
) -> Result<(), Fault>
    requires opcode { first_byte reader.old.0 ≡ Some code }
    requires group { (0x28 ≤ code) × (code ≤ 0x3E) }
    requires ready { V.IsReady visitor.old }
    ensures ready { OnOk result (V.IsReady visitor.new) }
    ensures shows { OnOk result (IsShownNext V.Visits context.now stacks.old stacks.new
        visitor.old visitor.new reader.old reader.new) }
    ensures refused { IfErr result (OnInvalid (IsRefusedNext context.now stacks.old reader.old)) }
{
    let op = reader.memory(code)?;
    step_memory(context, stacks, op)?;
    visitor.memory(op)?;
    Ok(())
}

// Reads, checks and shows a 32-bit constant.
#[inline(always)]
fn check_i32_const<'a, V: Visitor>(
    context: &BodyContext<'a>,
    stacks: &mut Stacks<'a>,
    visitor: &mut V,
    reader: &mut BodyReader<'_>,
) -> Result<(), Fault>
    requires opcode { first_byte reader.old.0 ≡ Some 0x41 }
    requires ready { V.IsReady visitor.old }
    ensures ready { OnOk result (V.IsReady visitor.new) }
    ensures shows { OnOk result (IsShownNext V.Visits context.now stacks.old stacks.new
        visitor.old visitor.new reader.old reader.new) }
    ensures refused { IfErr result (OnInvalid (IsRefusedNext context.now stacks.old reader.old)) }
{
    let value = reader.i32_const()?;
    step_i32_const(stacks, value)?;
    visitor.i32_const(value)?;
    Ok(())
}

// Reads, checks and shows a numeric instruction without an immediate, which has this opcode.
#[inline(always)]
fn check_numeric<'a, V: Visitor>(
    context: &BodyContext<'a>,
    stacks: &mut Stacks<'a>,
    visitor: &mut V,
    reader: &mut BodyReader<'_>,
    code: u8,
) -> Result<(), Fault>
    requires opcode { first_byte reader.old.0 ≡ Some code }
    requires group { (0x45 ≤ code) × (code ≤ 0xC4) }
    requires ready { V.IsReady visitor.old }
    ensures ready { OnOk result (V.IsReady visitor.new) }
    ensures shows { OnOk result (IsShownNext V.Visits context.now stacks.old stacks.new
        visitor.old visitor.new reader.old reader.new) }
    ensures refused { IfErr result (OnInvalid (IsRefusedNext context.now stacks.old reader.old)) }
{
    let op = reader.numeric(code)?;
    step_numeric(stacks, op)?;
    visitor.numeric(op)?;
    Ok(())
}

// Reads, checks and shows a parametric instruction without an immediate, which has this opcode.
#[inline(always)]
fn check_parametric<'a, V: Visitor>(
    context: &BodyContext<'a>,
    stacks: &mut Stacks<'a>,
    visitor: &mut V,
    reader: &mut BodyReader<'_>,
    code: u8,
) -> Result<(), Fault>
    requires opcode { first_byte reader.old.0 ≡ Some code }
    requires group { (0x1A ≤ code) × (code ≤ 0x1B) }
    requires ready { V.IsReady visitor.old }
    ensures ready { OnOk result (V.IsReady visitor.new) }
    ensures shows { OnOk result (IsShownNext V.Visits context.now stacks.old stacks.new
        visitor.old visitor.new reader.old reader.new) }
    ensures refused { IfErr result (OnInvalid (IsRefusedNext context.now stacks.old reader.old)) }
{
    let op = reader.parametric(code)?;
    step_parametric(stacks, op)?;
    visitor.parametric(op)?;
    Ok(())
}

// Reads, checks and shows the next operation, which has this opcode. Those of a frequent group are passed by value.
#[inline(always)]
fn check_group<'a, V: Visitor>(
    alloc: Global,
    context: &BodyContext<'a>,
    stacks: &mut Stacks<'a>,
    visitor: &mut V,
    reader: &mut BodyReader<'_>,
    code: u8,
) -> Result<(), Fault>
    requires opcode { first_byte reader.old.0 ≡ Some code }
    requires ready { V.IsReady visitor.old }
    ensures ready { OnOk result (V.IsReady visitor.new) }
    ensures shows { OnOk result (IsShownNext V.Visits context.now stacks.old stacks.new
        visitor.old visitor.new reader.old reader.new) }
    ensures refused { IfErr result (OnInvalid (IsRefusedNext context.now stacks.old reader.old)) }
{
    if code >= 0x45 {
        if code <= 0xC4 {
            return check_numeric(context, stacks, visitor, reader, code);
        }
    } else if code >= 0x28 {
        if code <= 0x3E {
            return check_memory(context, stacks, visitor, reader, code);
        }
    } else if code == 0x0C || code == 0x0D || code == 0x0F || code == 0x10 {
        return check_control(context, stacks, visitor, reader, code);
    } else if code == 0x23 || code == 0x24 {
        return check_variable(context, stacks, visitor, reader, code);
    }
    check_infrequent(alloc, context, stacks, visitor, reader)
}

// Like `check_group`. The most frequent instructions have arms of their own, in which the compiler knows the opcode, and leaves out what
// it takes for others.
#[inline(always)]
pub fn check_next<'a, V: Visitor>(
    alloc: Global,
    context: &BodyContext<'a>,
    stacks: &mut Stacks<'a>,
    visitor: &mut V,
    reader: &mut BodyReader<'_>,
    code: u8,
) -> Result<(), Fault>
    requires opcode { first_byte reader.old.0 ≡ Some code }
    requires ready { V.IsReady visitor.old }
    ensures ready { OnOk result (V.IsReady visitor.new) }
    ensures shows { OnOk result (IsShownNext V.Visits context.now stacks.old stacks.new
        visitor.old visitor.new reader.old reader.new) }
    ensures refused { IfErr result (OnInvalid (IsRefusedNext context.now stacks.old reader.old)) }
{
    match code {
        0x02 => check_mark(context, stacks, visitor, reader, 0x02)?,
        0x03 => check_mark(context, stacks, visitor, reader, 0x03)?,
        0x04 => check_mark(context, stacks, visitor, reader, 0x04)?,
        0x05 => check_mark(context, stacks, visitor, reader, 0x05)?,
        0x0B => check_mark(context, stacks, visitor, reader, 0x0B)?,
        0x1A => check_parametric(context, stacks, visitor, reader, 0x1A)?,
        0x1B => check_parametric(context, stacks, visitor, reader, 0x1B)?,
        0x20 => check_local_get(context, stacks, visitor, reader)?,
        0x21 => check_variable(context, stacks, visitor, reader, 0x21)?,
        0x22 => check_variable(context, stacks, visitor, reader, 0x22)?,
        0x28 => check_memory(context, stacks, visitor, reader, 0x28)?,
        0x36 => check_memory(context, stacks, visitor, reader, 0x36)?,
        0x41 => check_i32_const(context, stacks, visitor, reader)?,
        0x6A => check_numeric(context, stacks, visitor, reader, 0x6A)?,
        _ => return check_group(alloc, context, stacks, visitor, reader, code),
    }
    Ok(())
}
