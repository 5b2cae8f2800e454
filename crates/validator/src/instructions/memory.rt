ghost use Rattle.std.specs.Prelude.{IfNone, IfSome, IsTrue, List, [], ◌^◌, ◌↔◌, ◌∷◌, ◌≡◌, ◌≤◌};
ghost use Rattle.core_types.specs.declared.op.MemoryOp.TheVariants as memory_op;
ghost use Rattle.core_types.specs.declared.op.Op.TheVariants as flat;
ghost use Rattle.core_types.specs.declared.op.PlainOp.TheVariants as plain;
ghost use Rattle.meaning.specs.validation.Instructions.{load_type as type_of_load, load_width as width_of_load, store_type as type_of_store, store_width as width_of_store};
ghost use Rattle.core_types.specs.declared.types.ValType.{ValType as AnyType};
ghost use Rattle.core_types.specs.declared.types.ValType.TheVariants.{I32};
ghost use Rattle.meaning.specs.validation.Types.{function_type};
ghost use Rattle.validator.specs.InstructionTypes.{HasNoType, HasTypeOf, IsTypeOf};
ghost use Rattle.validator.specs.Steps.{Steps};

use crate::context::{BodyContext, has_data, memory_type};
use crate::control_frames::Stacks;
use crate::errors::Fault;
use crate::instructions::{apply_some, apply_taking_two, apply_unary};
use crate::types::{
    InstructionType, integer_type, once, over_i32, takes_gives, takes_i32_gives, twice,
};
use core_types::{LoadOp, MemArg, MemoryOp, StoreOp, ValType, Width};

// Returns the number of bytes that a load reads, as an exponent of 2.
fn load_exponent(load: LoadOp) -> u32
    ensures { 2 ^ result ≡ width_of_load load }
{
    match load {
        LoadOp::Whole(Width::W32) => 2,
        LoadOp::Whole(Width::W64) => 3,
        LoadOp::Bits8(_, _) => 0,
        LoadOp::Bits16(_, _) => 1,
        LoadOp::Bits32(_) => 2,
    }
}

// Returns the number of bytes that a store writes, as an exponent of 2.
fn store_exponent(store: StoreOp) -> u32
    ensures { 2 ^ result ≡ width_of_store store }
{
    match store {
        StoreOp::Whole(Width::W32) => 2,
        StoreOp::Whole(Width::W64) => 3,
        StoreOp::Bits8(_) => 0,
        StoreOp::Bits16(_) => 1,
        StoreOp::Bits32 => 2,
    }
}

// Returns whether an alignment is at most the number of bytes of an access, both as exponents of 2.
fn is_aligned(align: u32, exponent: u32) -> bool
    ensures { IsTrue result ↔ (2 ^ align ≤ 2 ^ exponent) }
{
    align <= exponent
}

// Returns the type that a load gives.
fn load_type(load: LoadOp) -> ValType
    ensures { result ≡ type_of_load load }
{
    match load {
        LoadOp::Whole(width) => integer_type(width),
        LoadOp::Bits8(width, _) => integer_type(width),
        LoadOp::Bits16(width, _) => integer_type(width),
        LoadOp::Bits32(_) => ValType::I64,
    }
}

// Returns the type that a store takes.
fn store_type(store: StoreOp) -> ValType
    ensures { result ≡ type_of_store store }
{
    match store {
        StoreOp::Whole(width) => integer_type(width),
        StoreOp::Bits8(width) => integer_type(width),
        StoreOp::Bits16(width) => integer_type(width),
        StoreOp::Bits32 => ValType::I64,
    }
}

// Returns the type that a load gives, if the load is valid. A load takes an i32.
fn loaded_type(context: &BodyContext<'_>, load: LoadOp, argument: MemArg) -> Option<ValType>
    ensures some { IfSome result (λ t. (labels : List (List AnyType)) → IsTypeOf context.now labels
        (plain.Memory (memory_op.Load load argument)) (function_type (I32 ∷ []) (t ∷ []))) }
    ensures none { IfNone result ((labels : List (List AnyType)) → HasNoType context.now labels
        (plain.Memory (memory_op.Load load argument))) }
{
    let _ = memory_type(context)?;
    if !is_aligned(argument.align, load_exponent(load)) {
        return None;
    }
    Some(load_type(load))
}

fn type_of_load(
    context: &BodyContext<'_>,
    load: LoadOp,
    argument: MemArg,
) -> Option<InstructionType<'static>>
    ensures { HasTypeOf context.now (plain.Memory (memory_op.Load load argument)) result }
{
    let ty = loaded_type(context, load, argument)?;
    Some(takes_i32_gives(&[], once(ty)))
}

// Returns the type of the integer that a store takes, if the store is valid. Under the integer, it takes an i32.
fn stored_type(context: &BodyContext<'_>, store: StoreOp, argument: MemArg) -> Option<ValType>
    ensures some { IfSome result (λ t. (labels : List (List AnyType)) → IsTypeOf context.now labels
        (plain.Memory (memory_op.Store store argument)) (function_type (I32 ∷ t ∷ []) [])) }
    ensures none { IfNone result ((labels : List (List AnyType)) → HasNoType context.now labels
        (plain.Memory (memory_op.Store store argument))) }
{
    let _ = memory_type(context)?;
    if !is_aligned(argument.align, store_exponent(store)) {
        return None;
    }
    Some(store_type(store))
}

fn type_of_store(
    context: &BodyContext<'_>,
    store: StoreOp,
    argument: MemArg,
) -> Option<InstructionType<'static>>
    ensures { HasTypeOf context.now (plain.Memory (memory_op.Store store argument)) result }
{
    let ty = stored_type(context, store, argument)?;
    Some(takes_gives(over_i32(ty), &[]))
}

fn type_of_memory_init(context: &BodyContext<'_>, segment: u32) -> Option<InstructionType<'static>>
    ensures { HasTypeOf context.now (plain.Memory (memory_op.Init segment)) result }
{
    let _ = memory_type(context)?;
    if !has_data(context, segment) {
        return None;
    }
    Some(takes_i32_gives(twice(ValType::I32), &[]))
}

// Returns the type of an instruction on the memory or a data segment.
#[inline(always)]
fn type_of_memory(context: &BodyContext<'_>, op: MemoryOp) -> Option<InstructionType<'static>>
    ensures { HasTypeOf context.now (plain.Memory op) result }
{
    match op {
        MemoryOp::Load(load, argument) => type_of_load(context, load, argument),
        MemoryOp::Store(store, argument) => type_of_store(context, store, argument),
        MemoryOp::Size => {
            let _ = memory_type(context)?;
            Some(takes_gives(&[], once(ValType::I32)))
        }
        MemoryOp::Grow => {
            let _ = memory_type(context)?;
            Some(takes_gives(once(ValType::I32), once(ValType::I32)))
        }
        MemoryOp::Fill | MemoryOp::Copy => {
            let _ = memory_type(context)?;
            Some(takes_i32_gives(twice(ValType::I32), &[]))
        }
        MemoryOp::Init(segment) => type_of_memory_init(context, segment),
        MemoryOp::DataDrop(segment) => has_data(context, segment).then_some(takes_gives(&[], &[])),
    }
}

// Steps over a load.
#[inline(always)]
fn step_load(
    context: &BodyContext<'_>,
    stacks: &mut Stacks<'_>,
    load: LoadOp,
    argument: MemArg,
) -> Result<(), Fault>
    ensures { Steps context.now stacks.old stacks.new
        (flat.Plain (plain.Memory (memory_op.Load load argument))) result }
{
    let Some(ty) = loaded_type(context, load, argument) else {
        return Err(Fault::Invalid);
    };
    apply_unary(stacks, ValType::I32, ty)
}

// Steps over a store.
#[inline(always)]
fn step_store(
    context: &BodyContext<'_>,
    stacks: &mut Stacks<'_>,
    store: StoreOp,
    argument: MemArg,
) -> Result<(), Fault>
    ensures { Steps context.now stacks.old stacks.new
        (flat.Plain (plain.Memory (memory_op.Store store argument))) result }
{
    let Some(ty) = stored_type(context, store, argument) else {
        return Err(Fault::Invalid);
    };
    apply_taking_two(stacks, ValType::I32, ty)
}

// Steps over an instruction on the memory or a data segment.
#[inline(always)]
pub fn step_memory(
    context: &BodyContext<'_>,
    stacks: &mut Stacks<'_>,
    op: MemoryOp,
) -> Result<(), Fault>
    ensures { Steps context.now stacks.old stacks.new (flat.Plain (plain.Memory op)) result }
{
    match op {
        MemoryOp::Load(load, argument) => step_load(context, stacks, load, argument),
        MemoryOp::Store(store, argument) => step_store(context, stacks, store, argument),
        _ => apply_some(stacks, &type_of_memory(context, op)),
    }
}
