pub mod blocks;
pub mod branches;
pub mod calls;

ghost use Rattle.core_types.specs.declared.op.Op.TheVariants as flat;
ghost use Rattle.core_types.specs.declared.op.PlainOp.TheVariants as plain;
ghost use Rattle.validator.specs.Steps.{Steps};

use crate::context::BodyContext;
use crate::control_frames::{Stacks, set_unreachable};
use crate::errors::Fault;
use crate::instructions::control::branches::{step_br, step_br_if};
use crate::instructions::control::calls::{
    step_return, step_tail_call, type_of_call, type_of_call_indirect,
};
use crate::instructions::{apply, apply_some};
use crate::types::takes_gives;
use core_types::ControlOp;

// Steps over a control instruction.
#[inline(always)]
pub fn step_control<'a>(
    context: &BodyContext<'a>,
    stacks: &mut Stacks<'a>,
    op: ControlOp,
) -> Result<(), Fault>
    ensures { Steps context.now stacks.old stacks.new (flat.Plain (plain.Control op)) result }
{
    match op {
        ControlOp::Unreachable => {
            set_unreachable(stacks);
            Ok(())
        }
        ControlOp::Nop => apply(stacks, &takes_gives(&[], &[])),
        ControlOp::Br(index) => step_br(stacks, index),
        ControlOp::BrIf(index) => step_br_if(stacks, index),
        ControlOp::Return => step_return(context, stacks),
        ControlOp::Call(index) => apply_some(stacks, &type_of_call(context, index)),
        ControlOp::CallIndirect { ty, table } => {
            apply_some(stacks, &type_of_call_indirect(context, ty, table))
        }
        ControlOp::ReturnCall(index) => {
            step_tail_call(context, stacks, &type_of_call(context, index))
        }
        ControlOp::ReturnCallIndirect { ty, table } => {
            step_tail_call(context, stacks, &type_of_call_indirect(context, ty, table))
        }
    }
}
