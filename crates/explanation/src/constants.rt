//! Constant expressions.

use crate::types::{integer_type, name_of, reference_type};
use core_types::{
    BinaryOp, Expression, Module, Mutability, NumericOp, PlainOp, ReferenceOp, ValType, VariableOp,
    Width, item, plain_op,
};
use index_spaces::IndexSpaces;
use std::alloc::{AllocError, Global};

/// The module of a constant expression.
#[derive(Clone, Copy)]
pub struct Constants<'a> {
    pub module: &'a Module,
    pub spaces: &'a IndexSpaces,
}

// Returns the type of an imported global that is immutable.
fn type_of_global(constants: Constants<'_>, index: u32) -> Option<ValType> {
    let own = constants.module.globals.len();
    let imported = constants.spaces.globals.len().saturating_sub(own);
    let global = item(constants.spaces.globals.as_slice(), index)?;
    let is_constant = matches!(global.mutability, Mutability::Const);
    ((index as usize) < imported && is_constant).then_some(global.value)
}

// Returns the type that a constant instruction pushes, if it is one.
fn pushed_type(constants: Constants<'_>, op: &PlainOp) -> Option<ValType> {
    match op {
        PlainOp::I32Const(_) => Some(ValType::I32),
        PlainOp::I64Const(_) => Some(ValType::I64),
        PlainOp::Reference(ReferenceOp::Null(ty)) => Some(reference_type(*ty)),
        PlainOp::Reference(ReferenceOp::Func(index)) => {
            let is_there = (*index as usize) < constants.spaces.functions.len();
            is_there.then_some(ValType::FuncRef)
        }
        PlainOp::Variable(VariableOp::GlobalGet(index)) => type_of_global(constants, *index),
        _ => None,
    }
}

// Returns the width of an operator of constant expressions.
fn operator_width(op: &PlainOp) -> Option<Width> {
    match op {
        PlainOp::Numeric(NumericOp::Binary(width, BinaryOp::Add | BinaryOp::Sub | BinaryOp::Mul)) =>
            Some(*width),
        _ => None,
    }
}

// Applies an operator to the two topmost types. Returns whether they are its own.
fn operate(types: &mut Vec<ValType>, width: Width) -> Result<bool, AllocError> {
    let wanted = integer_type(width);
    let (Some(second), Some(first)) = (types.pop(), types.pop()) else {
        return Ok(false);
    };
    types.push(wanted)?;
    Ok(first == wanted && second == wanted)
}

// Applies an instruction to the types of the operands. Returns whether it is constant and may be applied.
fn apply(
    constants: Constants<'_>,
    types: &mut Vec<ValType>,
    op: &PlainOp,
) -> Result<bool, AllocError> {
    if let Some(ty) = pushed_type(constants, op) {
        types.push(ty)?;
        return Ok(true);
    }
    match operator_width(op) {
        Some(width) => operate(types, width),
        None => Ok(false),
    }
}

// Applies the instructions of an expression in turn. Returns whether each is constant and may be applied.
fn apply_all(
    constants: Constants<'_>,
    types: &mut Vec<ValType>,
    ops: &Expression,
) -> Result<bool, AllocError> {
    for k in 0..ops.len() {
        let is_applied = match plain_op(ops.get(k)) {
            Some(op) => apply(constants, types, &op)?,
            None => false,
        };
        if !is_applied {
            return Ok(false);
        }
    }
    Ok(true)
}

/// Returns the type of a constant expression, or none if it is not constant.
pub fn constant_type(
    alloc: Global,
    constants: Constants<'_>,
    ops: &Expression,
) -> Result<Option<ValType>, AllocError> {
    let mut types = Vec::new(alloc);
    let is_constant = apply_all(constants, &mut types, ops)?;
    match types.as_slice() {
        [ty] if is_constant => Ok(Some(*ty)),
        _ => Ok(None),
    }
}

/// What is wrong with a constant expression, as the words after its name.
#[derive(Clone, Copy)]
pub enum ConstantFault {
    NotConstant,
    OfType(&'static str),
}

/// Returns what is wrong with a constant expression that should be of a type.
pub fn constant_fault(
    alloc: Global,
    constants: Constants<'_>,
    ops: &Expression,
    expected: ValType,
) -> Result<Option<ConstantFault>, AllocError> {
    match constant_type(alloc, constants, ops)? {
        None => Ok(Some(ConstantFault::NotConstant)),
        Some(ty) if ty == expected => Ok(None),
        Some(ty) => Ok(Some(ConstantFault::OfType(name_of(ty)))),
    }
}
