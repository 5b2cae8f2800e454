ghost use Rattle.core_types.specs.declared.op.ControlOp.TheVariants as control;
ghost use Rattle.core_types.specs.declared.op.Op.TheVariants as flat;
ghost use Rattle.core_types.specs.declared.op.PlainOp.TheVariants as plain;
ghost use Rattle.validator.specs.InstructionTypes.{HasTypeOf};
ghost use Rattle.validator.specs.Steps.{Steps, StepsByTailCall};

use crate::context::{BodyContext, function_type, table_element};
use crate::control_frames::{Stacks, set_unreachable};
use crate::errors::Fault;
use crate::instructions::pop_operands;
use crate::operands::pop_types;
use crate::types::{InstructionType, are_equal, takes_gives, takes_i32_gives};
use core_types::{RefType, item};

pub fn type_of_call<'a>(context: &BodyContext<'a>, index: u32) -> Option<InstructionType<'a>>
    ensures { HasTypeOf context.now (plain.Control (control.Call index)) result }
{
    let ty = function_type(context, index)?;
    Some(takes_gives(ty.params, ty.results))
}

// Returns the type of `call_indirect`, through a table of functions.
pub fn type_of_call_indirect<'a>(
    context: &BodyContext<'a>,
    ty: u32,
    table: u32,
) -> Option<InstructionType<'a>>
    ensures { HasTypeOf context.now (plain.Control (control.CallIndirect ty table)) result }
{
    let called = item(context.types, ty)?;
    match table_element(context, table)? {
        RefType::FuncRef => Some(takes_i32_gives(
            called.params.as_slice(),
            called.results.as_slice(),
        )),
        RefType::ExternRef => None,
    }
}

pub fn step_return(context: &BodyContext<'_>, stacks: &mut Stacks<'_>) -> Result<(), Fault>
    ensures { Steps context.now stacks.old stacks.new (flat.Plain (plain.Control control.Return))
        result }
{
    if !pop_types(&mut stacks.operands, &stacks.innermost, context.results) {
        return Err(Fault::Invalid);
    }
    set_unreachable(stacks);
    Ok(())
}

// Steps over a tail call, given the type of the call. Its results must be those of the function that contains it.
pub fn step_tail_call(
    context: &BodyContext<'_>,
    stacks: &mut Stacks<'_>,
    call: &Option<InstructionType<'_>>,
) -> Result<(), Fault>
    ensures { StepsByTailCall context.now stacks.old stacks.new call.now result }
{
    let Some(ty) = call else {
        return Err(Fault::Invalid);
    };
    if !are_equal(ty.results, context.results) {
        return Err(Fault::Invalid);
    }
    if !pop_operands(stacks, ty) {
        return Err(Fault::Invalid);
    }
    set_unreachable(stacks);
    Ok(())
}
