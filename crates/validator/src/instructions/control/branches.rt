ghost use Rattle.std.specs.Bool.{OnFalse, OnTrue};
ghost use Rattle.std.specs.Prelude.{All, [], ◌++◌, ◌∷◌};
ghost use Rattle.core_types.specs.declared.op.ControlOp.TheVariants as control;
ghost use Rattle.core_types.specs.declared.op.PlainOp.TheVariants as plain;
ghost use Rattle.core_types.specs.declared.types.ValType.TheVariants.{I32};
ghost use Rattle.meaning.specs.validation.Instructions.{known};
ghost use Rattle.meaning.specs.validation.Types.{function_type as type_of};
ghost use Rattle.validator.specs.ControlFrames.{FitsLabelAt};
ghost use Rattle.validator.specs.Steps.{StepsByType, StepsOver};

use crate::control_frames::{ControlFrame, Stacks, find_label, set_unreachable};
use crate::errors::Fault;
use crate::instructions::{apply, apply_taking_one};
use crate::operands::{all_fit, pop_fitting, pop_types, take_operands};
use crate::types::{are_equal, takes_i32_gives};
use core_types::{BranchTable, OperandType, ValType};
use std::alloc::Global;

pub fn step_br(stacks: &mut Stacks<'_>, index: u32) -> Result<(), Fault>
    ensures { StepsOver stacks.old stacks.new (plain.Control (control.Br index)) result }
{
    let Some(types) = find_label(&stacks.innermost, &stacks.outer, index) else {
        return Err(Fault::Invalid);
    };
    if !pop_types(&mut stacks.operands, &stacks.innermost, types) {
        return Err(Fault::Invalid);
    }
    set_unreachable(stacks);
    Ok(())
}

// Steps over an instruction that takes an i32 above operands of these types, and gives those back.
#[inline(never)]
fn apply_above_any<'a>(stacks: &mut Stacks<'a>, types: &'a [ValType]) -> Result<(), Fault>
    ensures { StepsByType stacks.old stacks.new (type_of (types.now ++ I32 ∷ []) types.now) result }
{
    apply(stacks, &takes_i32_gives(types, types))
}

// Like `apply_above_any`. Mostly, there are no operands under the i32.
#[inline(always)]
fn apply_above<'a>(stacks: &mut Stacks<'a>, types: &'a [ValType]) -> Result<(), Fault>
    ensures { StepsByType stacks.old stacks.new (type_of (types.now ++ I32 ∷ []) types.now) result }
{
    if types.is_empty() {
        return apply_taking_one(stacks, ValType::I32);
    }
    apply_above_any(stacks, types)
}

#[inline(never)]
pub fn step_br_if(stacks: &mut Stacks<'_>, index: u32) -> Result<(), Fault>
    ensures { StepsOver stacks.old stacks.new (plain.Control (control.BrIf index)) result }
{
    let Some(types) = find_label(&stacks.innermost, &stacks.outer, index) else {
        return Err(Fault::Invalid);
    };
    apply_above(stacks, types)
}

// Returns whether operands can be carried to each of the labels. A label equal to the previous one is not checked again.
fn fit_labels<'a>(
    given: &[OperandType],
    innermost: &ControlFrame<'a>,
    outer: &[ControlFrame<'a>],
    numbers: &[u32],
) -> bool
    ensures fit { OnTrue result (All (FitsLabelAt innermost.now outer.now given.now) numbers.now) }
    ensures refused { OnFalse result
        (¬ All (FitsLabelAt innermost.now outer.now given.now) numbers.now) }
{
    let mut fitting = None;
    for index in numbers {
        if fitting == Some(*index) {
            continue;
        }
        let Some(types) = find_label(innermost, outer, *index) else {
            return false;
        };
        if !all_fit(given, types) {
            return false;
        }
        fitting = Some(*index);
    }
    true
}

// Returns whether operands of these types can be carried to each of the labels. A label equal to the previous one is not checked again.
fn have_types<'a>(
    types: &[ValType],
    innermost: &ControlFrame<'a>,
    outer: &[ControlFrame<'a>],
    numbers: &[u32],
) -> bool
    ensures have { OnTrue result
        (All (FitsLabelAt innermost.now outer.now (known types.now)) numbers.now) }
    ensures refused { OnFalse result
        (¬ All (FitsLabelAt innermost.now outer.now (known types.now)) numbers.now) }
{
    let mut fitting = None;
    for index in numbers {
        if fitting == Some(*index) {
            continue;
        }
        let Some(found) = find_label(innermost, outer, *index) else {
            return false;
        };
        if !are_equal(types, found) {
            return false;
        }
        fitting = Some(*index);
    }
    true
}

// Steps over a branch to one of several labels.
pub fn step_br_table(
    alloc: Global,
    stacks: &mut Stacks<'_>,
    table: &BranchTable,
) -> Result<(), Fault>
    ensures { StepsOver stacks.old stacks.new (plain.BrTable table.now) result }
{
    if !pop_fitting(
        &mut stacks.operands,
        &stacks.innermost,
        OperandType::Known(ValType::I32),
    ) {
        return Err(Fault::Invalid);
    }
    let Some(types) = find_label(&stacks.innermost, &stacks.outer, table.default) else {
        return Err(Fault::Invalid);
    };
    if stacks.operands.ends_with(stacks.innermost.height, types) {
        if !have_types(
            types,
            &stacks.innermost,
            &stacks.outer,
            table.labels.as_slice(),
        ) {
            return Err(Fault::Invalid);
        }
        set_unreachable(stacks);
        return Ok(());
    }
    let given = take_operands(alloc, &mut stacks.operands, &stacks.innermost, types.len())?;
    if !all_fit(&given, types) {
        return Err(Fault::Invalid);
    }
    if !fit_labels(
        &given,
        &stacks.innermost,
        &stacks.outer,
        table.labels.as_slice(),
    ) {
        return Err(Fault::Invalid);
    }
    set_unreachable(stacks);
    Ok(())
}
