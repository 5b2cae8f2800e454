//! The first fault of a body.

use crate::contexts::Context;
use crate::control::{check_branch_table, check_control, check_mark};
use crate::faults::{Fault, Stop};
use crate::instructions::{
    check_parametric, check_reference, check_typed_select, signature_of_memory,
    signature_of_numeric, signature_of_table, signature_of_variable,
};
use crate::operands::{Opener, Stacks};
use crate::types::{Signature, once, signature_of, takes_gives};
use binary::BodyReader;
use core_types::{LentOp, Op, OpWith, PlainOp, ValType, lent, mark_of, plain_op};
use std::alloc::{AllocError, Global};

/// The place of a fault in a body, as the number of operations before it.
#[derive(Clone, Copy)]
pub struct Found {
    pub operation: usize,
    pub fault: Fault,
}

// Returns what an instruction takes and gives, if that is known from what it names.
fn signature_of_plain(
    context: Context<'_>,
    op: &PlainOp,
) -> Result<Option<Signature<'static>>, Fault> {
    let signature = match op {
        PlainOp::Variable(op) => signature_of_variable(context, *op),
        PlainOp::Table(op) => signature_of_table(context, *op),
        PlainOp::Memory(op) => signature_of_memory(context, *op),
        PlainOp::Numeric(op) => Ok(signature_of_numeric(*op)),
        PlainOp::I32Const(_) => Ok(takes_gives(&[], once(ValType::I32))),
        PlainOp::I64Const(_) => Ok(takes_gives(&[], once(ValType::I64))),
        _ => return Ok(None),
    };
    Ok(Some(signature?))
}

// Checks an instruction of which that is not known.
fn check_other<'a>(
    context: Context<'a>,
    stacks: &mut Stacks<'a>,
    op: &PlainOp,
) -> Result<(), Stop> {
    match op {
        PlainOp::Control(op) => check_control(context, stacks, *op),
        PlainOp::Reference(op) => check_reference(context, stacks, *op),
        PlainOp::Parametric(op) => check_parametric(stacks, *op),
        PlainOp::BrTable(table) => check_branch_table(stacks, table.get()),
        PlainOp::SelectTyped(types) => check_typed_select(stacks, types.get().as_slice()),
        _ => Ok(()),
    }
}

// Checks an instruction without a body.
fn check_plain<'a>(
    context: Context<'a>,
    stacks: &mut Stacks<'a>,
    op: &PlainOp,
) -> Result<(), Stop> {
    match signature_of_plain(context, op)? {
        Some(signature) => stacks.apply(signature),
        None => check_other(context, stacks, op),
    }
}

// Checks an operation.
fn check<'a>(context: Context<'a>, stacks: &mut Stacks<'a>, op: LentOp<'_>) -> Result<(), Stop> {
    if let Some(mark) = mark_of(op) {
        return check_mark(context, stacks, mark);
    }
    if let Some(plain) = plain_op(op) {
        return check_plain(context, stacks, &plain);
    }
    match op {
        OpWith::Other(Op::Plain(plain)) => check_plain(context, stacks, plain),
        _ => Ok(()),
    }
}

// Begins the body of a function.
fn begin<'a>(context: Context<'a>, stacks: &mut Stacks<'a>) -> Result<(), Stop> {
    let signature = Signature {
        takes: &[],
        gives: signature_of(context.ty).gives,
    };
    stacks.open(Opener::Block, signature)?;
    Ok(())
}

// Where and why the check of a body stops.
#[derive(Clone, Copy)]
struct Halt {
    operation: usize,
    stop: Stop,
}

// Checks the next operation of a body. Returns whether there was one.
fn check_next<'a>(
    context: Context<'a>,
    stacks: &mut Stacks<'a>,
    reader: &mut BodyReader<'_>,
) -> Result<bool, Stop> {
    if reader.opcode().is_none() {
        return Ok(false);
    }
    let op = reader.any()?;
    check(context, stacks, lent(&op))?;
    if stacks.is_too_long() {
        return Err(Stop::TooLong);
    }
    Ok(true)
}

// Checks the operations of a body. Returns their number.
fn check_operations<'a>(
    alloc: Global,
    context: Context<'a>,
    stacks: &mut Stacks<'a>,
) -> Result<usize, Halt> {
    let mut reader = BodyReader::new(alloc, &context.func.body);
    for operation in 0..usize::MAX {
        match check_next(context, stacks, &mut reader) {
            Ok(true) => {}
            Ok(false) => return Ok(operation),
            Err(stop) => return Err(Halt { operation, stop }),
        }
    }
    Ok(usize::MAX)
}

// Checks a body.
fn check_body<'a>(
    alloc: Global,
    context: Context<'a>,
    stacks: &mut Stacks<'a>,
) -> Result<(), Halt> {
    if let Err(stop) = begin(context, stacks) {
        return Err(Halt { operation: 0, stop });
    }
    let operation = check_operations(alloc, context, stacks)?;
    match stacks.close() {
        Ok(_) => Ok(()),
        Err(fault) => Err(Halt {
            operation,
            stop: Stop::Fault(fault),
        }),
    }
}

/// Returns the first fault of a body, if it has one. Returns none, too, for a body that is malformed, or whose check takes very long.
pub fn first_fault(alloc: Global, context: Context<'_>) -> Result<Option<Found>, AllocError> {
    let mut stacks = Stacks::new(alloc);
    let Err(Halt { operation, stop }) = check_body(alloc, context, &mut stacks) else {
        return Ok(None);
    };
    match stop {
        Stop::Fault(fault) => Ok(Some(Found { operation, fault })),
        Stop::OutOfMemory => Err(AllocError),
        Stop::TooLong | Stop::Malformed => Ok(None),
    }
}
