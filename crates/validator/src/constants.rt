ghost use Rattle.std.specs.Prelude.{IsTrue, Some, ℕ, ◌+◌, ◌<◌, ◌^◌, ◌↔◌, ◌≡◌};
ghost use Rattle.core_types.specs.Expressions.{lent_op};
ghost use Rattle.core_types.specs.declared.op.Op.TheVariants as flat;
ghost use Rattle.core_types.specs.declared.op.PlainOp.{PlainOp as Plain};
ghost use Rattle.core_types.specs.declared.types.ValType.{ValType as Value};
ghost use Rattle.validator.specs.Constants.{GivesConstant, GivesGlobal, GivesReference, IsConstantIn, Leads, Operates};

use crate::types::{integer_type, reference_type};
use core_types::{
    BinaryOp, Expression, GlobalType, LentOp, Mutability, NumericOp, PlainOp, ReferenceOp, ValType,
    VariableOp, is_mark, plain_op,
};

/// The context in which a constant expression is typed (Validation, Constant Expressions).
#[derive(Clone, Copy)]
pub struct ConstantContext<'a> {
    /// The types of the imported globals.
    pub globals: &'a [GlobalType],
    /// For each function, whether it is named outside of bodies and the start.
    pub declared: &'a [bool],
}

// Returns the type of a null, or of a reference to a function that is named.
#[tactic(auto, unfolding(crate::specs::Constants::GivesReference))]
fn reference_constant(context: &ConstantContext<'_>, op: ReferenceOp) -> Option<ValType>
    ensures { (t : Value) → (result ≡ Some t) ↔ GivesReference context.now op t }
{
    match op {
        ReferenceOp::Null(ty) => Some(reference_type(ty)),
        ReferenceOp::Func(index) => match context.declared.get(index as usize) {
            Some(true) => Some(ValType::FuncRef),
            _ => None,
        },
        ReferenceOp::IsNull => None,
    }
}

// Returns the type of an imported global that is never set.
#[tactic(auto, unfolding(crate::specs::Constants::GivesGlobal))]
fn global_constant(context: &ConstantContext<'_>, op: VariableOp) -> Option<ValType>
    ensures { (t : Value) → (result ≡ Some t) ↔ GivesGlobal context.now op t }
{
    let VariableOp::GlobalGet(index) = op else {
        return None;
    };
    let ty = context.globals.get(index as usize).copied()?;
    match ty.mutability {
        Mutability::Const => Some(ty.value),
        Mutability::Var => None,
    }
}

// Returns the type of the value of a constant instruction.
#[tactic(auto, unfolding(crate::specs::Constants::GivesConstant))]
fn constant_type(context: &ConstantContext<'_>, op: LentOp<'_>) -> Option<ValType>
    ensures { (plain : Plain) → lent_op op.entry ≡ flat.Plain plain → (t : Value)
        → (result ≡ Some t) ↔ GivesConstant context.now plain t }
{
    match plain_op(op)? {
        PlainOp::I32Const(_) => Some(ValType::I32),
        PlainOp::I64Const(_) => Some(ValType::I64),
        PlainOp::Reference(op) => reference_constant(context, op),
        PlainOp::Variable(op) => global_constant(context, op),
        _ => None,
    }
}

// Returns whether an instruction is a constant of this type.
fn is_constant_of(context: &ConstantContext<'_>, op: LentOp<'_>, wanted: ValType) -> bool
    ensures { (plain : Plain) → lent_op op.entry ≡ flat.Plain plain
        → IsTrue result ↔ GivesConstant context.now plain wanted }
{
    constant_type(context, op) == Some(wanted)
}

// Returns whether an instruction is an operator of constant expressions, on operands of this type.
#[tactic(auto, unfolding(crate::specs::Constants::Operates))]
fn is_operator(op: LentOp<'_>, wanted: ValType) -> bool
    ensures { (plain : Plain) → lent_op op.entry ≡ flat.Plain plain
        → IsTrue result ↔ Operates plain wanted }
{
    match plain_op(op) {
        Some(
            PlainOp::Numeric(
                NumericOp::Binary(width, BinaryOp::Add | BinaryOp::Sub | BinaryOp::Mul),
            ),
        ) => integer_type(width) == wanted,
        _ => false,
    }
}

// Returns the number of operands of a type after a constant instruction, if it is one on that type.
fn height_behind(
    context: &ConstantContext<'_>,
    op: LentOp<'_>,
    wanted: ValType,
    height: usize,
) -> Option<usize>
    requires { height + 1 < 2 ^ 64 }
    ensures { (plain : Plain) → lent_op op.entry ≡ flat.Plain plain → (after : ℕ)
        → (result ≡ Some after) ↔ Leads context.now wanted plain height after }
{
    if is_constant_of(context, op, wanted) {
        return Some(height + 1);
    }
    if height >= 2 && is_operator(op, wanted) {
        return Some(height - 1);
    }
    None
}

// Returns whether an expression consists of constant instructions that leave one value of this type.
pub fn is_constant(context: &ConstantContext<'_>, ops: &Expression, wanted: ValType) -> bool
    ensures { IsTrue result ↔ IsConstantIn context.now ops.now wanted }
{
    let mut height = 0;
    for k in 0..ops.len() {
        let op = ops.get(k);
        if is_mark(op) {
            return false;
        }
        match height_behind(context, op, wanted, height) {
            Some(after) => height = after,
            None => return false,
        }
    }
    height == 1
}
