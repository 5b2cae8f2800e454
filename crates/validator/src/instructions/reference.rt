ghost use Rattle.std.specs.Bool.{OnFalse, OnTrue};
ghost use Rattle.core_types.specs.declared.op.Op.TheVariants as flat;
ghost use Rattle.core_types.specs.declared.op.PlainOp.TheVariants as plain;
ghost use Rattle.core_types.specs.declared.op.ReferenceOp.TheVariants as reference_op;
ghost use Rattle.core_types.specs.declared.types.RefType.{RefType};
ghost use Rattle.meaning.specs.validation.Types.{reference_type};
ghost use Rattle.validator.specs.InstructionTypes.{HasTypeOf};
ghost use Rattle.validator.specs.Steps.{Steps, StepsOver};
ghost use Rattle.validator.specs.Operands.{FitsReference};

use crate::context::{BodyContext, function_type, is_declared};
use crate::control_frames::Stacks;
use crate::errors::Fault;
use crate::instructions::{apply, apply_some};
use crate::operands::pop;
use crate::types::{InstructionType, once, reference_type, takes_gives};
use core_types::{OperandType, ReferenceOp, ValType};

// Returns whether an operand fits some reference type.
pub fn may_be_reference(given: OperandType) -> bool
    ensures fits { OnTrue result ((t : RefType) × FitsReference given t) }
    ensures none { OnFalse result ((t : RefType) → FitsReference given t → ⊥) }
{
    match given {
        OperandType::Known(ValType::I32) => false,
        OperandType::Known(ValType::I64) => false,
        OperandType::Known(ValType::FuncRef) => true,
        OperandType::Known(ValType::ExternRef) => true,
        OperandType::Unknown => true,
    }
}

// Steps over a test of a reference.
fn step_is_null(stacks: &mut Stacks<'_>) -> Result<(), Fault>
    ensures { StepsOver stacks.old stacks.new (plain.Reference reference_op.IsNull) result }
{
    let Some(given) = pop(&mut stacks.operands, &stacks.innermost) else {
        return Err(Fault::Invalid);
    };
    if !may_be_reference(given) {
        return Err(Fault::Invalid);
    }
    stacks.operands.push(OperandType::Known(ValType::I32))?;
    Ok(())
}

// Returns the type of `ref.func`, for a function that it may name.
pub fn type_of_ref_func(context: &BodyContext<'_>, index: u32) -> Option<InstructionType<'static>>
    ensures { HasTypeOf context.now (plain.Reference (reference_op.Func index)) result }
{
    let _ = function_type(context, index)?;
    is_declared(context, index).then_some(takes_gives(&[], once(ValType::FuncRef)))
}

// Steps over an instruction on references.
#[inline(always)]
pub fn step_reference(
    context: &BodyContext<'_>,
    stacks: &mut Stacks<'_>,
    op: ReferenceOp,
) -> Result<(), Fault>
    ensures { Steps context.now stacks.old stacks.new (flat.Plain (plain.Reference op)) result }
{
    match op {
        ReferenceOp::Null(ty) => apply(stacks, &takes_gives(&[], once(reference_type(ty)))),
        ReferenceOp::IsNull => step_is_null(stacks),
        ReferenceOp::Func(index) => apply_some(stacks, &type_of_ref_func(context, index)),
    }
}
