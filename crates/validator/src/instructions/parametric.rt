ghost use Rattle.std.specs.Prelude.{IfNone, IfSome, ◌≡◌};
ghost use Rattle.core_types.specs.declared.op.ParametricOp.TheVariants as parametric;
ghost use Rattle.core_types.specs.declared.op.PlainOp.TheVariants as plain;
ghost use Rattle.core_types.specs.declared.types.OperandType.{OperandType as Operand};
ghost use Rattle.meaning.specs.validation.Instructions.{Fits, IsNumeric};
ghost use Rattle.validator.specs.InstructionTypes.{HasTypeOf};
ghost use Rattle.validator.specs.Steps.{StepsOver};
ghost use Rattle.validator.specs.declared.context.BodyContext.{BodyContext as Lent};
ghost use Rattle.validator.specs.Operands.{AreBothNumeric};

use crate::control_frames::Stacks;
use crate::errors::Fault;
use crate::instructions::apply_some;
use crate::operands::{pop, pop_fitting};
use crate::types::{InstructionType, once, takes_i32_gives, twice};
use core_types::{Items, OperandType, ParametricOp, ValType};

// Returns the operand type of this type, if it is a numeric type.
fn numeric_operand(ty: ValType) -> Option<OperandType>
    ensures some { IfSome result (λ t. (t ≡ OperandType.Known ty) × IsNumeric t) }
    ensures none { IfNone result (IsNumeric (OperandType.Known ty) → ⊥) }
{
    match ty {
        ValType::I32 | ValType::I64 => Some(OperandType::Known(ty)),
        ValType::FuncRef | ValType::ExternRef => None,
    }
}

// Returns the type of the result of a select of two operands.
pub fn joint(first: OperandType, second: OperandType) -> Option<OperandType>
    ensures some { IfSome result (AreBothNumeric first second) }
    ensures least { IfSome result (λ t. (u : Operand) → AreBothNumeric first second u → Fits t u) }
    ensures none { IfNone result ((u : Operand) → AreBothNumeric first second u → ⊥) }
{
    match (first, second) {
        (OperandType::Unknown, OperandType::Unknown) => Some(OperandType::Unknown),
        (OperandType::Unknown, OperandType::Known(ty)) => numeric_operand(ty),
        (OperandType::Known(ty), OperandType::Unknown) => numeric_operand(ty),
        (OperandType::Known(ty), OperandType::Known(other)) => {
            if ty == other {
                numeric_operand(ty)
            } else {
                None
            }
        }
    }
}

fn step_drop(stacks: &mut Stacks<'_>) -> Result<(), Fault>
    ensures { StepsOver stacks.old stacks.new (plain.Parametric parametric.DropOperand) result }
{
    match pop(&mut stacks.operands, &stacks.innermost) {
        Some(_) => Ok(()),
        None => Err(Fault::Invalid),
    }
}

// Steps over a select without types.
fn step_select(stacks: &mut Stacks<'_>) -> Result<(), Fault>
    ensures { StepsOver stacks.old stacks.new (plain.Parametric parametric.Select) result }
{
    if !pop_fitting(
        &mut stacks.operands,
        &stacks.innermost,
        OperandType::Known(ValType::I32),
    ) {
        return Err(Fault::Invalid);
    }
    let Some(second) = pop(&mut stacks.operands, &stacks.innermost) else {
        return Err(Fault::Invalid);
    };
    let Some(first) = pop(&mut stacks.operands, &stacks.innermost) else {
        return Err(Fault::Invalid);
    };
    let Some(chosen) = joint(first, second) else {
        return Err(Fault::Invalid);
    };
    stacks.operands.push(chosen)?;
    Ok(())
}

// Steps over an instruction on operands of any type.
#[inline(always)]
pub fn step_parametric(stacks: &mut Stacks<'_>, op: ParametricOp) -> Result<(), Fault>
    ensures { StepsOver stacks.old stacks.new (plain.Parametric op) result }
{
    match op {
        ParametricOp::DropOperand => step_drop(stacks),
        ParametricOp::Select => step_select(stacks),
    }
}

// Returns the type of a select with types, of which there must be one.
fn type_of_select(types: &[ValType]) -> Option<InstructionType<'static>>
    ensures { (lent : Lent) → HasTypeOf lent (plain.SelectTyped types.now) result }
{
    if types.len() != 1 {
        return None;
    }
    Some(takes_i32_gives(twice(types[0]), once(types[0])))
}

// Steps over a select with types.
pub fn step_typed_select(stacks: &mut Stacks<'_>, types: &Items<ValType>) -> Result<(), Fault>
    ensures { StepsOver stacks.old stacks.new (plain.SelectTyped types.now) result }
{
    apply_some(stacks, &type_of_select(types.as_slice()))
}
