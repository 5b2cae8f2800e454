//! Control instructions.

use crate::contexts::{Context, find_function, find_table, find_type};
use crate::faults::{Fault, Kind, Stop, TypeFault, mismatch};
use crate::operands::{Opener, Stacks};
use crate::types::{Signature, name_of, reference_type, signature_of_block};
use core_types::{BlockType, BranchTable, ControlOp, Mark, RefType, ValType, are_same_types};

// Begins a block of a type.
fn open<'a>(
    context: Context<'a>,
    stacks: &mut Stacks<'a>,
    opener: Opener,
    block: BlockType,
) -> Result<(), Stop> {
    let types = context.module.types.as_slice();
    let Some(signature) = signature_of_block(types, block) else {
        let index = match block {
            BlockType::Index(index) => index,
            _ => 0,
        };
        return Err(Stop::Fault(Fault::Unknown(Kind::Type, index, types.len())));
    };
    stacks.take_all(signature.takes)?;
    stacks.open(opener, signature)?;
    Ok(())
}

// Ends a body, and gives its results to the one around it.
fn close(stacks: &mut Stacks<'_>) -> Result<(), Stop> {
    let frame = stacks.close()?;
    let signature = frame.signature;
    if frame.opener == Opener::If && !are_same_types(signature.takes, signature.gives) {
        return Err(Stop::from(TypeFault::NoElse));
    }
    stacks.push_all(signature.gives)?;
    Ok(())
}

fn open_if<'a>(
    context: Context<'a>,
    stacks: &mut Stacks<'a>,
    block: BlockType,
) -> Result<(), Stop> {
    stacks.take(ValType::I32)?;
    open(context, stacks, Opener::If, block)
}

// Ends the first body of an `if`, and begins the second.
fn open_else(stacks: &mut Stacks<'_>) -> Result<(), Stop> {
    let frame = stacks.close()?;
    stacks.open(Opener::Else, frame.signature)?;
    Ok(())
}

pub fn check_mark<'a>(
    context: Context<'a>,
    stacks: &mut Stacks<'a>,
    mark: Mark,
) -> Result<(), Stop> {
    match mark {
        Mark::Block(block) => open(context, stacks, Opener::Block, block),
        Mark::Loop(block) => open(context, stacks, Opener::Loop, block),
        Mark::If(block) => open_if(context, stacks, block),
        Mark::Else => open_else(stacks),
        Mark::End => close(stacks),
    }
}

// Pops operands of these types, after which nothing continues.
fn leave_with(stacks: &mut Stacks<'_>, types: &[ValType]) -> Result<(), Stop> {
    stacks.take_all(types)?;
    stacks.leave();
    Ok(())
}

fn branch(stacks: &mut Stacks<'_>, label: u32) -> Result<(), Stop> {
    let types = stacks.label(label)?;
    leave_with(stacks, types)
}

fn branch_if(stacks: &mut Stacks<'_>, label: u32) -> Result<(), Stop> {
    let types = stacks.label(label)?;
    stacks.take(ValType::I32)?;
    stacks.take_all(types)?;
    stacks.push_all(types)?;
    Ok(())
}

// Pops the operands of a call through a table: the offset, and what the type takes.
fn take_through<'a>(
    context: Context<'a>,
    stacks: &mut Stacks<'a>,
    ty: u32,
    table: u32,
) -> Result<Signature<'a>, Stop> {
    let element = find_table(context, table)?;
    if element != RefType::FuncRef {
        let found = name_of(reference_type(element));
        return Err(Stop::Fault(mismatch("a table of funcref", found)));
    }
    let signature = find_type(context, ty)?;
    stacks.take(ValType::I32)?;
    Ok(signature)
}

// Ends a body with a tail call.
fn call_last<'a>(
    context: Context<'a>,
    stacks: &mut Stacks<'a>,
    signature: Signature<'a>,
) -> Result<(), Stop> {
    if !are_same_types(signature.gives, context.ty.results.as_slice()) {
        return Err(Stop::from(TypeFault::Results));
    }
    leave_with(stacks, signature.takes)
}

// Checks a tail call of a function.
fn return_call<'a>(
    context: Context<'a>,
    stacks: &mut Stacks<'a>,
    function: u32,
) -> Result<(), Stop> {
    let signature = find_function(context, function)?;
    call_last(context, stacks, signature)
}

// Checks a call of a function.
fn call<'a>(context: Context<'a>, stacks: &mut Stacks<'a>, function: u32) -> Result<(), Stop> {
    let signature = find_function(context, function)?;
    stacks.apply(signature)
}

// Checks a call through a table.
fn call_indirect<'a>(
    context: Context<'a>,
    stacks: &mut Stacks<'a>,
    ty: u32,
    table: u32,
) -> Result<(), Stop> {
    let signature = take_through(context, stacks, ty, table)?;
    stacks.apply(signature)
}

// Checks a tail call through a table.
fn return_call_indirect<'a>(
    context: Context<'a>,
    stacks: &mut Stacks<'a>,
    ty: u32,
    table: u32,
) -> Result<(), Stop> {
    let signature = take_through(context, stacks, ty, table)?;
    call_last(context, stacks, signature)
}

pub fn check_control<'a>(
    context: Context<'a>,
    stacks: &mut Stacks<'a>,
    op: ControlOp,
) -> Result<(), Stop> {
    match op {
        ControlOp::Unreachable => leave_with(stacks, &[]),
        ControlOp::Nop => Ok(()),
        ControlOp::Br(label) => branch(stacks, label),
        ControlOp::BrIf(label) => branch_if(stacks, label),
        ControlOp::Return => leave_with(stacks, context.ty.results.as_slice()),
        ControlOp::Call(function) => call(context, stacks, function),
        ControlOp::CallIndirect { ty, table } => call_indirect(context, stacks, ty, table),
        ControlOp::ReturnCall(function) => return_call(context, stacks, function),
        ControlOp::ReturnCallIndirect { ty, table } => {
            return_call_indirect(context, stacks, ty, table)
        }
    }
}

// Requires that a label takes as many operands as are wanted, and that they are there.
fn check_label(stacks: &mut Stacks<'_>, label: u32, wanted: usize) -> Result<(), Stop> {
    let types = stacks.label(label)?;
    if types.len() != wanted {
        return Err(Stop::from(TypeFault::Labels(wanted, types.len())));
    }
    stacks.look_at(types)?;
    if stacks.is_too_long() {
        return Err(Stop::TooLong);
    }
    Ok(())
}

/// Checks a branch by number.
pub fn check_branch_table(stacks: &mut Stacks<'_>, table: &BranchTable) -> Result<(), Stop> {
    stacks.take(ValType::I32)?;
    let wanted = stacks.label(table.default)?;
    for label in table.labels.as_slice() {
        check_label(stacks, *label, wanted.len())?;
    }
    leave_with(stacks, wanted)
}
