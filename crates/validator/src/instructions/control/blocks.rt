ghost use Rattle.std.specs.Prelude.{IsTrue, OnOk, ◌↔◌, ◌≡◌};
ghost use Rattle.core_types.specs.declared.op.Op.TheVariants as flat;
ghost use Rattle.validator.specs.ControlFrames.{FrameNeedsNoElse, PushesFrame};
ghost use Rattle.validator.specs.declared.control_frames.FrameKind.TheVariants.{If};
ghost use Rattle.validator.specs.Steps.{Finishes, StepsAnywhere, StepsInto};
ghost use Rattle.validator.specs.Operands.{SameFrames};

use crate::context::BodyContext;
use crate::control_frames::{ControlFrame, FrameKind, Stacks};
use crate::errors::Fault;
use crate::instructions::pop_operands;
use crate::operands::pop_types;
use crate::types::{InstructionType, are_equal, type_of_block};
use core_types::{BlockType, append};
use std::alloc::AllocError;
use std::mem;

// Pushes a control frame, and the operands at its start.
fn enter<'a>(stacks: &mut Stacks<'a>, frame: &ControlFrame<'a>) -> Result<(), AllocError>
    ensures { OnOk result (PushesFrame stacks.old frame.now stacks.new) }
{
    append(&mut stacks.outer, stacks.innermost)?;
    stacks.innermost = *frame;
    stacks.operands.push_types(frame.start_types)
}

// Returns whether the instruction of a frame takes an i32 above the operands of its body.
fn takes_condition(kind: FrameKind) -> bool
    ensures { IsTrue result ↔ (kind ≡ If) }
{
    match kind {
        FrameKind::If => true,
        FrameKind::Function | FrameKind::Block | FrameKind::Loop | FrameKind::Else => false,
    }
}

// Steps over the beginning of a block, a loop or an if.
#[inline(never)]
pub fn step_begin<'a>(
    context: &BodyContext<'a>,
    stacks: &mut Stacks<'a>,
    kind: FrameKind,
    block: BlockType,
) -> Result<(), Fault>
    ensures { StepsInto context.now stacks.old stacks.new kind block result }
{
    let Some(ty) = type_of_block(context.types, block) else {
        return Err(Fault::Invalid);
    };
    let taken = InstructionType {
        operands: ty.params,
        i32_on_top: takes_condition(kind),
        results: ty.results,
    };
    if !pop_operands(stacks, &taken) {
        return Err(Fault::Invalid);
    }
    let height = stacks.operands.len();
    enter(
        stacks,
        &ControlFrame {
            kind,
            start_types: ty.params,
            end_types: ty.results,
            height,
            unreachable: false,
        },
    )?;
    Ok(())
}

// Pops the results of the innermost frame, which leaves none of its operands.
#[inline(always)]
fn finish(stacks: &mut Stacks<'_>) -> Result<(), Fault>
    ensures frames { SameFrames stacks.old stacks.new }
    ensures operands { Finishes stacks.old stacks.new.operands result }
{
    if !pop_types(
        &mut stacks.operands,
        &stacks.innermost,
        stacks.innermost.end_types,
    ) {
        return Err(Fault::Invalid);
    }
    if stacks.operands.len() != stacks.innermost.height {
        return Err(Fault::Invalid);
    }
    Ok(())
}

// Pops the results of a function, which leaves none of its operands.
#[inline(never)]
pub fn finish_body(stacks: &mut Stacks<'_>) -> Result<(), Fault>
    ensures frames { SameFrames stacks.old stacks.new }
    ensures operands { Finishes stacks.old stacks.new.operands result }
{
    finish(stacks)
}

// Steps over the beginning of the second body of an if.
#[inline(never)]
pub fn step_else(stacks: &mut Stacks<'_>) -> Result<(), Fault>
    ensures { StepsAnywhere stacks.old stacks.new flat.Else result }
{
    let FrameKind::If = stacks.innermost.kind else {
        return Err(Fault::Invalid);
    };
    finish(stacks)?;
    stacks.innermost.kind = FrameKind::Else;
    stacks.innermost.unreachable = false;
    stacks.operands.push_types(stacks.innermost.start_types)?;
    Ok(())
}

// Returns whether the frame may end without an else.
fn needs_no_else(frame: &ControlFrame<'_>) -> bool
    ensures { IsTrue result ↔ FrameNeedsNoElse frame.now }
{
    match frame.kind {
        FrameKind::If => are_equal(frame.start_types, frame.end_types),
        FrameKind::Function | FrameKind::Block | FrameKind::Loop | FrameKind::Else => true,
    }
}

// Steps over the end of the innermost frame. Its results go to the frame around it.
#[inline(never)]
pub fn step_end(stacks: &mut Stacks<'_>) -> Result<(), Fault>
    ensures { StepsAnywhere stacks.old stacks.new flat.End result }
{
    if !needs_no_else(&stacks.innermost) {
        return Err(Fault::Invalid);
    }
    finish(stacks)?;
    let Some(around) = stacks.outer.pop() else {
        return Err(Fault::Invalid);
    };
    let inner = mem::replace(&mut stacks.innermost, around);
    stacks.operands.push_types(inner.end_types)?;
    Ok(())
}
