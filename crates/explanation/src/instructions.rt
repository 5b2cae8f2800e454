//! Instructions that are neither control nor branches.

use crate::contexts::{
    Context, find_data, find_elements, find_global, find_local, find_table, need_function,
    need_memory,
};
use crate::faults::{Fault, Stop, TypeFault, mismatch};
use crate::operands::Stacks;
use crate::types::{
    Signature, between_numbers, integer_type, name_of, once, over_i32, reference_type, takes_gives,
    three_numbers, twice, under_i32,
};
use core_types::{
    Conversion, LoadOp, MemArg, MemoryOp, Mutability, NumericOp, OperandType, ParametricOp,
    RefType, ReferenceOp, StoreOp, TableOp, ValType, VariableOp, Width,
};

// The exponents of the sizes of accesses.
const BYTE: u32 = 0;

const HALF: u32 = 1;

const WORD: u32 = 2;

const DOUBLE: u32 = 3;

fn signature_of_conversion(op: Conversion) -> Signature<'static> {
    match op {
        Conversion::I32WrapI64 => takes_gives(once(ValType::I64), once(ValType::I32)),
        Conversion::I64ExtendI32S | Conversion::I64ExtendI32U => {
            takes_gives(once(ValType::I32), once(ValType::I64))
        }
        Conversion::I64Extend32S => takes_gives(once(ValType::I64), once(ValType::I64)),
    }
}

pub fn signature_of_numeric(op: NumericOp) -> Signature<'static> {
    match op {
        NumericOp::Eqz(width) => takes_gives(once(integer_type(width)), once(ValType::I32)),
        NumericOp::Compare(width, _) => takes_gives(twice(width), once(ValType::I32)),
        NumericOp::Unary(width, _) => {
            takes_gives(once(integer_type(width)), once(integer_type(width)))
        }
        NumericOp::Binary(width, _) => takes_gives(twice(width), once(integer_type(width))),
        NumericOp::Convert(op) => signature_of_conversion(op),
    }
}

// Checks `ref.is_null`.
fn check_is_null(stacks: &mut Stacks<'_>) -> Result<(), Stop> {
    match stacks.pop("a reference")? {
        OperandType::Known(ValType::I32) => Err(Stop::Fault(mismatch("a reference", "i32"))),
        OperandType::Known(ValType::I64) => Err(Stop::Fault(mismatch("a reference", "i64"))),
        _ => Ok(stacks.push(ValType::I32)?),
    }
}

pub fn check_reference(
    context: Context<'_>,
    stacks: &mut Stacks<'_>,
    op: ReferenceOp,
) -> Result<(), Stop> {
    match op {
        ReferenceOp::Null(ty) => Ok(stacks.push(reference_type(ty))?),
        ReferenceOp::IsNull => check_is_null(stacks),
        ReferenceOp::Func(index) => {
            need_function(context, index)?;
            Ok(stacks.push(ValType::FuncRef)?)
        }
    }
}

// Pops an operand of a `select` without a type.
fn take_selected(stacks: &mut Stacks<'_>) -> Result<OperandType, Fault> {
    let operand = stacks.pop("i32 or i64")?;
    match operand {
        OperandType::Known(ValType::FuncRef) => Err(Fault::Type(TypeFault::SelectOf("funcref"))),
        OperandType::Known(ValType::ExternRef) => Err(Fault::Type(TypeFault::SelectOf(
            "externref",
        ))),
        _ => Ok(operand),
    }
}

// Pops the operands of a `select` without a type, and returns the one that it gives.
fn select(stacks: &mut Stacks<'_>) -> Result<OperandType, Fault> {
    stacks.take(ValType::I32)?;
    let second = take_selected(stacks)?;
    let OperandType::Known(ty) = second else {
        return take_selected(stacks);
    };
    stacks.take(ty)?;
    Ok(second)
}

pub fn check_parametric(stacks: &mut Stacks<'_>, op: ParametricOp) -> Result<(), Stop> {
    match op {
        ParametricOp::DropOperand => {
            stacks.pop("an operand")?;
            Ok(())
        }
        ParametricOp::Select => {
            let operand = select(stacks)?;
            Ok(stacks.push_operand(operand)?)
        }
    }
}

/// Checks a `select` with a list of types.
pub fn check_typed_select(stacks: &mut Stacks<'_>, types: &[ValType]) -> Result<(), Stop> {
    let [ty] = types else {
        return Err(Stop::from(TypeFault::SelectTypes(types.len())));
    };
    stacks.take(ValType::I32)?;
    stacks.take(*ty)?;
    stacks.take(*ty)?;
    Ok(stacks.push(*ty)?)
}

// Returns the type of a global that may be set.
fn find_variable(context: Context<'_>, index: u32) -> Result<ValType, Fault> {
    let global = find_global(context, index)?;
    match global.mutability {
        Mutability::Const => Err(Fault::Immutable(index)),
        Mutability::Var => Ok(global.value),
    }
}

// Returns the type that a variable instruction names.
fn find_named(context: Context<'_>, op: VariableOp) -> Result<ValType, Fault> {
    match op {
        VariableOp::LocalGet(x) | VariableOp::LocalSet(x) | VariableOp::LocalTee(x) => {
            find_local(context, x)
        }
        VariableOp::GlobalGet(x) => Ok(find_global(context, x)?.value),
        VariableOp::GlobalSet(x) => find_variable(context, x),
    }
}

pub fn signature_of_variable(
    context: Context<'_>,
    op: VariableOp,
) -> Result<Signature<'static>, Fault> {
    let types = once(find_named(context, op)?);
    match op {
        VariableOp::LocalGet(_) | VariableOp::GlobalGet(_) => Ok(takes_gives(&[], types)),
        VariableOp::LocalSet(_) | VariableOp::GlobalSet(_) => Ok(takes_gives(types, &[])),
        VariableOp::LocalTee(_) => Ok(takes_gives(types, types)),
    }
}

// Returns the type of references that are copied to where references of a type are, which is the same.
fn copied(into: RefType, from: RefType) -> Result<RefType, Fault> {
    if into == from {
        return Ok(into);
    }
    let (expected, found) = (reference_type(into), reference_type(from));
    Err(mismatch(name_of(expected), name_of(found)))
}

// Returns the type of references that are copied from a table to another one.
fn copied_from_table(context: Context<'_>, target: u32, source: u32) -> Result<RefType, Fault> {
    let into = find_table(context, target)?;
    let from = find_table(context, source)?;
    copied(into, from)
}

// Returns the type of references that are copied from a segment to a table.
fn copied_from_segment(context: Context<'_>, table: u32, segment: u32) -> Result<RefType, Fault> {
    let into = find_table(context, table)?;
    let from = find_elements(context, segment)?;
    copied(into, from)
}

// Returns the type of the references in what a table instruction names.
fn find_references(context: Context<'_>, op: TableOp) -> Result<RefType, Fault> {
    match op {
        TableOp::Get(x)
        | TableOp::Set(x)
        | TableOp::Size(x)
        | TableOp::Grow(x)
        | TableOp::Fill(x) => find_table(context, x),
        TableOp::Copy { target, source } => copied_from_table(context, target, source),
        TableOp::Init { segment, table } => copied_from_segment(context, table, segment),
        TableOp::ElemDrop(segment) => find_elements(context, segment),
    }
}

// Returns the signature of a table instruction on references of a type.
fn signature_on_table(op: TableOp, element: RefType) -> Signature<'static> {
    match op {
        TableOp::Get(_) => takes_gives(once(ValType::I32), once(reference_type(element))),
        TableOp::Set(_) => takes_gives(over_i32(reference_type(element)), &[]),
        TableOp::Size(_) => takes_gives(&[], once(ValType::I32)),
        TableOp::Grow(_) => takes_gives(under_i32(element), once(ValType::I32)),
        TableOp::Fill(_) => takes_gives(between_numbers(element), &[]),
        TableOp::Copy { .. } | TableOp::Init { .. } => takes_gives(three_numbers(), &[]),
        TableOp::ElemDrop(_) => takes_gives(&[], &[]),
    }
}

pub fn signature_of_table(context: Context<'_>, op: TableOp) -> Result<Signature<'static>, Fault> {
    let element = find_references(context, op)?;
    Ok(signature_on_table(op, element))
}

// Returns the type of a load, and the exponent of its size.
fn load_of(op: LoadOp) -> (ValType, u32) {
    match op {
        LoadOp::Whole(Width::W32) => (ValType::I32, WORD),
        LoadOp::Whole(Width::W64) => (ValType::I64, DOUBLE),
        LoadOp::Bits8(width, _) => (integer_type(width), BYTE),
        LoadOp::Bits16(width, _) => (integer_type(width), HALF),
        LoadOp::Bits32(_) => (ValType::I64, WORD),
    }
}

fn store_of(op: StoreOp) -> (ValType, u32) {
    match op {
        StoreOp::Whole(Width::W32) => (ValType::I32, WORD),
        StoreOp::Whole(Width::W64) => (ValType::I64, DOUBLE),
        StoreOp::Bits8(width) => (integer_type(width), BYTE),
        StoreOp::Bits16(width) => (integer_type(width), HALF),
        StoreOp::Bits32 => (ValType::I64, WORD),
    }
}

// Requires that an alignment is at most the size of the access.
fn need_alignment(memarg: MemArg, size: u32) -> Result<(), Fault> {
    if memarg.align > size {
        return Err(Fault::Alignment(memarg.align, size));
    }
    Ok(())
}

// Requires what an instruction on a memory names: the memory, a segment, and an alignment that is allowed.
fn need_named(context: Context<'_>, op: MemoryOp) -> Result<(), Fault> {
    match op {
        MemoryOp::Load(op, memarg) => need_alignment(memarg, load_of(op).1),
        MemoryOp::Store(op, memarg) => need_alignment(memarg, store_of(op).1),
        MemoryOp::Init(segment) | MemoryOp::DataDrop(segment) => find_data(context, segment),
        MemoryOp::Size | MemoryOp::Grow | MemoryOp::Fill | MemoryOp::Copy => Ok(()),
    }
}

// Returns the signature of an instruction on a memory.
fn signature_on_memory(op: MemoryOp) -> Signature<'static> {
    match op {
        MemoryOp::Load(op, _) => takes_gives(once(ValType::I32), once(load_of(op).0)),
        MemoryOp::Store(op, _) => takes_gives(over_i32(store_of(op).0), &[]),
        MemoryOp::Size => takes_gives(&[], once(ValType::I32)),
        MemoryOp::Grow => takes_gives(once(ValType::I32), once(ValType::I32)),
        MemoryOp::Fill | MemoryOp::Copy | MemoryOp::Init(_) => takes_gives(three_numbers(), &[]),
        MemoryOp::DataDrop(_) => takes_gives(&[], &[]),
    }
}

pub fn signature_of_memory(
    context: Context<'_>,
    op: MemoryOp,
) -> Result<Signature<'static>, Fault> {
    match op {
        MemoryOp::DataDrop(_) => {}
        _ => need_memory(context)?,
    }
    need_named(context, op)?;
    Ok(signature_on_memory(op))
}
