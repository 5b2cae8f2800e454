pub mod control;
pub mod memory;
pub mod numeric;
pub mod parametric;
pub mod reference;
pub mod table;
pub mod variable;

ghost use Rattle.std.specs.Prelude.{[], ◌++◌, ◌∷◌};
ghost use Rattle.core_types.specs.Expressions.{mark_op};
ghost use Rattle.core_types.specs.declared.types.ValType.TheVariants.{I32};
ghost use Rattle.meaning.specs.validation.Instructions.{known};
ghost use Rattle.meaning.specs.validation.Types.{function_type as type_of};
ghost use Rattle.validator.specs.Operands.{PopsFrom, SameFrames};
ghost use Rattle.validator.specs.InstructionTypes.{lent_type};
ghost use Rattle.validator.specs.Steps.{Steps, StepsByFound, StepsByType};

use crate::context::BodyContext;
use crate::control_frames::{FrameKind, Stacks};
use crate::errors::Fault;
use crate::instructions::control::blocks::{step_begin, step_else, step_end};
use crate::instructions::control::branches::step_br_table;
use crate::instructions::control::step_control;
use crate::instructions::memory::step_memory;
use crate::instructions::numeric::{step_i32_const, step_i64_const, step_numeric};
use crate::instructions::parametric::{step_parametric, step_typed_select};
use crate::instructions::reference::step_reference;
use crate::instructions::table::step_table;
use crate::instructions::variable::step_variable;
use crate::operands::{pop_fitting, pop_one, pop_two, pop_types, replace_one, replace_two};
use crate::types::InstructionType;
use core_types::{Mark, Op, OperandType, PlainOp, ValType};
use std::alloc::Global;

// Pops an i32, and then operands that fit the types under it.
#[inline(always)]
fn pop_under_i32(stacks: &mut Stacks<'_>, wanted: &[ValType]) -> bool
    ensures frames { SameFrames stacks.old stacks.new }
    ensures operands { PopsFrom stacks.old (known (wanted.now ++ I32 ∷ [])) stacks.new result }
{
    if !pop_fitting(
        &mut stacks.operands,
        &stacks.innermost,
        OperandType::Known(ValType::I32),
    ) {
        return false;
    }
    pop_types(&mut stacks.operands, &stacks.innermost, wanted)
}

#[inline(always)]
pub fn pop_operands(stacks: &mut Stacks<'_>, ty: &InstructionType<'_>) -> bool
    ensures frames { SameFrames stacks.old stacks.new }
    ensures operands { PopsFrom stacks.old (known (lent_type ty.now).params) stacks.new result }
{
    if ty.i32_on_top {
        pop_under_i32(stacks, ty.operands)
    } else {
        pop_types(&mut stacks.operands, &stacks.innermost, ty.operands)
    }
}

// Steps over an instruction of this type.
#[inline(always)]
pub fn apply<'a>(stacks: &mut Stacks<'a>, ty: &InstructionType<'a>) -> Result<(), Fault>
    ensures { StepsByType stacks.old stacks.new (lent_type ty.now) result }
{
    if !pop_operands(stacks, ty) {
        return Err(Fault::Invalid);
    }
    stacks.operands.push_types(ty.results)?;
    Ok(())
}

// Steps over an instruction that takes nothing and gives an operand of a type.
#[inline(always)]
pub fn apply_nullary(stacks: &mut Stacks<'_>, gives: ValType) -> Result<(), Fault>
    ensures { StepsByType stacks.old stacks.new (type_of [] (gives ∷ [])) result }
{
    stacks.operands.push(OperandType::Known(gives))?;
    Ok(())
}

// Steps over an instruction that takes an operand of a type and gives nothing.
#[inline(always)]
pub fn apply_taking_one(stacks: &mut Stacks<'_>, takes: ValType) -> Result<(), Fault>
    ensures { StepsByType stacks.old stacks.new (type_of (takes ∷ []) []) result }
{
    if !pop_one(&mut stacks.operands, &stacks.innermost, takes) {
        return Err(Fault::Invalid);
    }
    Ok(())
}

// Steps over an instruction that takes an operand of a type, under one of another type, and gives nothing.
#[inline(always)]
pub fn apply_taking_two(stacks: &mut Stacks<'_>, under: ValType, top: ValType) -> Result<(), Fault>
    ensures { StepsByType stacks.old stacks.new (type_of (under ∷ top ∷ []) []) result }
{
    if !pop_two(&mut stacks.operands, &stacks.innermost, under, top) {
        return Err(Fault::Invalid);
    }
    Ok(())
}

// Steps over an instruction that takes an operand of a type and gives one.
#[inline(never)]
fn apply_to_one(stacks: &mut Stacks<'_>, takes: ValType, gives: ValType) -> Result<(), Fault>
    ensures { StepsByType stacks.old stacks.new (type_of (takes ∷ []) (gives ∷ [])) result }
{
    if !pop_one(&mut stacks.operands, &stacks.innermost, takes) {
        return Err(Fault::Invalid);
    }
    stacks.operands.push(OperandType::Known(gives))?;
    Ok(())
}

// Like `apply_to_one`. The operand is mostly known, and is then overwritten.
#[inline(always)]
pub fn apply_unary(stacks: &mut Stacks<'_>, takes: ValType, gives: ValType) -> Result<(), Fault>
    ensures { StepsByType stacks.old stacks.new (type_of (takes ∷ []) (gives ∷ [])) result }
{
    if replace_one(&mut stacks.operands, &stacks.innermost, takes, gives) {
        return Ok(());
    }
    apply_to_one(stacks, takes, gives)
}

// Steps over an instruction that takes two operands of a type and gives one.
#[inline(never)]
fn apply_to_two(stacks: &mut Stacks<'_>, takes: ValType, gives: ValType) -> Result<(), Fault>
    ensures { StepsByType stacks.old stacks.new (type_of (takes ∷ takes ∷ []) (gives ∷ [])) result }
{
    if !pop_two(&mut stacks.operands, &stacks.innermost, takes, takes) {
        return Err(Fault::Invalid);
    }
    stacks.operands.push(OperandType::Known(gives))?;
    Ok(())
}

// Like `apply_to_two`. Both operands are mostly known, and are then overwritten.
#[inline(always)]
pub fn apply_binary(stacks: &mut Stacks<'_>, takes: ValType, gives: ValType) -> Result<(), Fault>
    ensures { StepsByType stacks.old stacks.new (type_of (takes ∷ takes ∷ []) (gives ∷ [])) result }
{
    if replace_two(&mut stacks.operands, &stacks.innermost, takes, gives) {
        return Ok(());
    }
    apply_to_two(stacks, takes, gives)
}

// Steps over an instruction whose type was looked up.
#[inline(always)]
pub fn apply_some<'a>(
    stacks: &mut Stacks<'a>,
    found: &Option<InstructionType<'a>>,
) -> Result<(), Fault>
    ensures { StepsByFound stacks.old stacks.new found.now result }
{
    match found {
        Some(ty) => apply(stacks, ty),
        None => Err(Fault::Invalid),
    }
}

// Steps over a mark, at which a body begins or ends.
#[inline(always)]
pub fn step_mark<'a>(
    context: &BodyContext<'a>,
    stacks: &mut Stacks<'a>,
    mark: Mark,
) -> Result<(), Fault>
    ensures { Steps context.now stacks.old stacks.new (mark_op mark) result }
{
    match mark {
        Mark::Block(ty) => step_begin(context, stacks, FrameKind::Block, ty),
        Mark::Loop(ty) => step_begin(context, stacks, FrameKind::Loop, ty),
        Mark::If(ty) => step_begin(context, stacks, FrameKind::If, ty),
        Mark::Else => step_else(stacks),
        Mark::End => step_end(stacks),
    }
}

// Steps over any operation.
#[inline(never)]
pub fn step<'a>(
    alloc: Global,
    context: &BodyContext<'a>,
    stacks: &mut Stacks<'a>,
    op: &Op,
) -> Result<(), Fault>
    ensures { Steps context.now stacks.old stacks.new op.now result }
{
    match op {
        Op::Plain(PlainOp::Control(op)) => step_control(context, stacks, *op),
        Op::Plain(PlainOp::BrTable(table)) => step_br_table(alloc, stacks, table.get()),
        Op::Plain(PlainOp::Reference(op)) => step_reference(context, stacks, *op),
        Op::Plain(PlainOp::Parametric(op)) => step_parametric(stacks, *op),
        Op::Plain(PlainOp::SelectTyped(types)) => step_typed_select(stacks, types.get()),
        Op::Plain(PlainOp::Variable(op)) => step_variable(context, stacks, *op),
        Op::Plain(PlainOp::Table(op)) => step_table(context, stacks, *op),
        Op::Plain(PlainOp::Memory(op)) => step_memory(context, stacks, *op),
        Op::Plain(PlainOp::Numeric(op)) => step_numeric(stacks, *op),
        Op::Plain(PlainOp::I32Const(value)) => step_i32_const(stacks, *value),
        Op::Plain(PlainOp::I64Const(value)) => step_i64_const(stacks, *value),
        Op::Block(ty) => step_begin(context, stacks, FrameKind::Block, *ty),
        Op::Loop(ty) => step_begin(context, stacks, FrameKind::Loop, *ty),
        Op::If(ty) => step_begin(context, stacks, FrameKind::If, *ty),
        Op::Else => step_else(stacks),
        Op::End => step_end(stacks),
    }
}
