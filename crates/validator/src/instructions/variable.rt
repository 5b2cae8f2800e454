ghost use Rattle.std.specs.Prelude.{IfNone, IfSome, List, [], ◌∷◌};
ghost use Rattle.core_types.specs.declared.op.Op.TheVariants as flat;
ghost use Rattle.core_types.specs.declared.op.PlainOp.TheVariants as plain;
ghost use Rattle.core_types.specs.declared.op.VariableOp.TheVariants as variable_op;
ghost use Rattle.core_types.specs.declared.types.ValType.{ValType as AnyType};
ghost use Rattle.meaning.specs.validation.Types.{function_type};
ghost use Rattle.validator.specs.InstructionTypes.{HasNoType, HasTypeOf, IsTypeOf};
ghost use Rattle.validator.specs.Steps.{Steps};

use crate::context::{BodyContext, global_type, local_type};
use crate::control_frames::Stacks;
use crate::errors::Fault;
use crate::instructions::{apply_nullary, apply_some, apply_taking_one, apply_unary};
use crate::types::{InstructionType, once, takes_gives};
use core_types::{Mutability, ValType, VariableOp};

// Returns the type of `global.set`, for a mutable global.
fn type_of_global_set(context: &BodyContext<'_>, index: u32) -> Option<InstructionType<'static>>
    ensures { HasTypeOf context.now (plain.Variable (variable_op.GlobalSet index)) result }
{
    let global = global_type(context, index)?;
    match global.mutability {
        Mutability::Var => Some(takes_gives(once(global.value), &[])),
        Mutability::Const => None,
    }
}

// Returns the type that `local.get` gives, if the local exists.
#[inline(always)]
fn read_type(context: &BodyContext<'_>, index: u32) -> Option<ValType>
    ensures some { IfSome result (λ t. (labels : List (List AnyType)) → IsTypeOf context.now labels
        (plain.Variable (variable_op.LocalGet index)) (function_type [] (t ∷ []))) }
    ensures none { IfNone result ((labels : List (List AnyType)) → HasNoType context.now labels
        (plain.Variable (variable_op.LocalGet index))) }
{
    local_type(context, index)
}

// Returns the type of the operand that `local.set` takes, if the local exists.
#[inline(always)]
fn set_type(context: &BodyContext<'_>, index: u32) -> Option<ValType>
    ensures some { IfSome result (λ t. (labels : List (List AnyType)) → IsTypeOf context.now labels
        (plain.Variable (variable_op.LocalSet index)) (function_type (t ∷ []) [])) }
    ensures none { IfNone result ((labels : List (List AnyType)) → HasNoType context.now labels
        (plain.Variable (variable_op.LocalSet index))) }
{
    local_type(context, index)
}

// Returns the type of the operand that `local.tee` takes and gives, if the local exists.
#[inline(always)]
fn tee_type(context: &BodyContext<'_>, index: u32) -> Option<ValType>
    ensures some { IfSome result (λ t. (labels : List (List AnyType)) → IsTypeOf context.now labels
        (plain.Variable (variable_op.LocalTee index)) (function_type (t ∷ []) (t ∷ []))) }
    ensures none { IfNone result ((labels : List (List AnyType)) → HasNoType context.now labels
        (plain.Variable (variable_op.LocalTee index))) }
{
    local_type(context, index)
}

// Returns the type of an instruction on a local or a global.
fn type_of_variable(context: &BodyContext<'_>, op: VariableOp) -> Option<InstructionType<'static>>
    ensures { HasTypeOf context.now (plain.Variable op) result }
{
    match op {
        VariableOp::LocalGet(index) => {
            let ty = read_type(context, index)?;
            Some(takes_gives(&[], once(ty)))
        }
        VariableOp::LocalSet(index) => {
            let ty = set_type(context, index)?;
            Some(takes_gives(once(ty), &[]))
        }
        VariableOp::LocalTee(index) => {
            let ty = tee_type(context, index)?;
            Some(takes_gives(once(ty), once(ty)))
        }
        VariableOp::GlobalGet(index) => {
            let global = global_type(context, index)?;
            Some(takes_gives(&[], once(global.value)))
        }
        VariableOp::GlobalSet(index) => type_of_global_set(context, index),
    }
}

// Steps over an instruction on a local or a global, whichever it is.
#[inline(never)]
fn step_any_variable(
    context: &BodyContext<'_>,
    stacks: &mut Stacks<'_>,
    op: VariableOp,
) -> Result<(), Fault>
    ensures { Steps context.now stacks.old stacks.new (flat.Plain (plain.Variable op)) result }
{
    apply_some(stacks, &type_of_variable(context, op))
}

// Steps over a `local.get`.
#[inline(always)]
pub fn step_local_get(
    context: &BodyContext<'_>,
    stacks: &mut Stacks<'_>,
    index: u32,
) -> Result<(), Fault>
    ensures { Steps context.now stacks.old stacks.new
        (flat.Plain (plain.Variable (variable_op.LocalGet index))) result }
{
    if !context.locals.is_first(index) {
        return step_any_variable(context, stacks, VariableOp::LocalGet(index));
    }
    let Some(ty) = read_type(context, index) else {
        return Err(Fault::Invalid);
    };
    apply_nullary(stacks, ty)
}

// Steps over a `local.set`.
#[inline(always)]
fn step_local_set(
    context: &BodyContext<'_>,
    stacks: &mut Stacks<'_>,
    index: u32,
) -> Result<(), Fault>
    ensures { Steps context.now stacks.old stacks.new
        (flat.Plain (plain.Variable (variable_op.LocalSet index))) result }
{
    if !context.locals.is_first(index) {
        return step_any_variable(context, stacks, VariableOp::LocalSet(index));
    }
    let Some(ty) = set_type(context, index) else {
        return Err(Fault::Invalid);
    };
    apply_taking_one(stacks, ty)
}

// Steps over a `local.tee`.
#[inline(always)]
fn step_local_tee(
    context: &BodyContext<'_>,
    stacks: &mut Stacks<'_>,
    index: u32,
) -> Result<(), Fault>
    ensures { Steps context.now stacks.old stacks.new
        (flat.Plain (plain.Variable (variable_op.LocalTee index))) result }
{
    if !context.locals.is_first(index) {
        return step_any_variable(context, stacks, VariableOp::LocalTee(index));
    }
    let Some(ty) = tee_type(context, index) else {
        return Err(Fault::Invalid);
    };
    apply_unary(stacks, ty, ty)
}

// Steps over an instruction on a local or a global.
#[inline(always)]
pub fn step_variable(
    context: &BodyContext<'_>,
    stacks: &mut Stacks<'_>,
    op: VariableOp,
) -> Result<(), Fault>
    ensures { Steps context.now stacks.old stacks.new (flat.Plain (plain.Variable op)) result }
{
    match op {
        VariableOp::LocalGet(index) => step_local_get(context, stacks, index),
        VariableOp::LocalSet(index) => step_local_set(context, stacks, index),
        VariableOp::LocalTee(index) => step_local_tee(context, stacks, index),
        _ => step_any_variable(context, stacks, op),
    }
}
