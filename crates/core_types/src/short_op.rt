ghost use Rattle.std.specs.Prelude.{◌≡◌, IfSome};
ghost use Rattle.core_types.specs.declared.op.Op.{Op as AnyOp};
ghost use Rattle.core_types.specs.declared.op.Op.TheVariants as flat;
ghost use Rattle.core_types.specs.declared.op.PlainOp.TheVariants as plain;
ghost use Rattle.core_types.specs.Expressions.{lent_op, short_op};

use crate::lent_op::{LentOp, OpWith};
use crate::op::{
    BlockType, ControlOp, LoadOp, MemArg, MemoryOp, Op, PlainOp, ReferenceOp, StoreOp, VariableOp,
};

/// A flat operation in eight bytes. One that takes more is beside it.
pub type ShortOp = OpWith<()>;

// Returns a control instruction in eight bytes, if it fits.
#[inline(always)]
fn short_control(op: ControlOp) -> Option<ShortOp>
    ensures { IfSome result (λ o. (other : AnyOp)
        → short_op other o ≡ flat.Plain (plain.Control op)) }
{
    match op {
        ControlOp::Unreachable => Some(OpWith::Unreachable),
        ControlOp::Nop => Some(OpWith::Nop),
        ControlOp::Br(label) => Some(OpWith::Br(label)),
        ControlOp::BrIf(label) => Some(OpWith::BrIf(label)),
        ControlOp::Return => Some(OpWith::Return),
        ControlOp::Call(function) => Some(OpWith::Call(function)),
        _ => None,
    }
}

// Returns an instruction on references in eight bytes.
#[inline(always)]
fn short_reference(op: ReferenceOp) -> ShortOp
    ensures { (other : AnyOp) → short_op other result ≡ flat.Plain (plain.Reference op) }
{
    match op {
        ReferenceOp::Null(ty) => OpWith::RefNull(ty),
        ReferenceOp::IsNull => OpWith::RefIsNull,
        ReferenceOp::Func(function) => OpWith::RefFunc(function),
    }
}

// Returns an instruction on a local or a global in eight bytes.
#[inline(always)]
fn short_variable(op: VariableOp) -> ShortOp
    ensures { (other : AnyOp) → short_op other result ≡ flat.Plain (plain.Variable op) }
{
    match op {
        VariableOp::LocalGet(index) => OpWith::LocalGet(index),
        VariableOp::LocalSet(index) => OpWith::LocalSet(index),
        VariableOp::LocalTee(index) => OpWith::LocalTee(index),
        VariableOp::GlobalGet(index) => OpWith::GlobalGet(index),
        VariableOp::GlobalSet(index) => OpWith::GlobalSet(index),
    }
}

// Returns an instruction on the memory in eight bytes, if it fits.
#[inline(always)]
fn short_memory(op: MemoryOp) -> Option<ShortOp>
    ensures { IfSome result (λ o. (other : AnyOp)
        → short_op other o ≡ flat.Plain (plain.Memory op)) }
{
    match op {
        MemoryOp::Load(op, MemArg { align, offset }) => {
            let Ok(align) = u8::try_from(align) else {
                return None;
            };
            match op {
                LoadOp::Whole(width) => Some(OpWith::Load(width, align, offset)),
                LoadOp::Bits8(width, sign) => Some(OpWith::Load8(width, sign, align, offset)),
                LoadOp::Bits16(width, sign) => Some(OpWith::Load16(width, sign, align, offset)),
                LoadOp::Bits32(sign) => Some(OpWith::Load32(sign, align, offset)),
            }
        }
        MemoryOp::Store(op, MemArg { align, offset }) => {
            let Ok(align) = u8::try_from(align) else {
                return None;
            };
            match op {
                StoreOp::Whole(width) => Some(OpWith::Store(width, align, offset)),
                StoreOp::Bits8(width) => Some(OpWith::Store8(width, align, offset)),
                StoreOp::Bits16(width) => Some(OpWith::Store16(width, align, offset)),
                StoreOp::Bits32 => Some(OpWith::Store32(align, offset)),
            }
        }
        MemoryOp::Size => Some(OpWith::MemorySize),
        MemoryOp::Grow => Some(OpWith::MemoryGrow),
        MemoryOp::Fill => Some(OpWith::MemoryFill),
        MemoryOp::Copy => Some(OpWith::MemoryCopy),
        MemoryOp::Init(_) | MemoryOp::DataDrop(_) => None,
    }
}

// Returns a constant in eight bytes, if it fits.
#[inline(always)]
fn short_i64(n: u64) -> Option<ShortOp>
    ensures { IfSome result (λ o. (other : AnyOp)
        → short_op other o ≡ flat.Plain (plain.I64Const n)) }
{
    match u32::try_from(n) {
        Ok(n) => Some(OpWith::I64Const(n)),
        Err(_) => None,
    }
}

// Returns an operation in eight bytes, if it fits.
#[inline(always)]
fn short_op(op: &Op) -> Option<ShortOp>
    ensures { IfSome result (λ o. (other : AnyOp) → short_op other o ≡ op.now) }
{
    match op {
        Op::Plain(PlainOp::Control(op)) => short_control(*op),
        Op::Plain(PlainOp::Reference(op)) => Some(short_reference(*op)),
        Op::Plain(PlainOp::Parametric(op)) => Some(OpWith::Parametric(*op)),
        Op::Plain(PlainOp::Variable(op)) => Some(short_variable(*op)),
        Op::Plain(PlainOp::Memory(op)) => short_memory(*op),
        Op::Plain(PlainOp::Numeric(op)) => Some(OpWith::Numeric(*op)),
        Op::Plain(PlainOp::I32Const(n)) => Some(OpWith::I32Const(*n)),
        Op::Plain(PlainOp::I64Const(n)) => short_i64(*n),
        Op::Block(BlockType::Empty) => Some(OpWith::Block(None)),
        Op::Block(BlockType::Value(ty)) => Some(OpWith::Block(Some(*ty))),
        Op::Loop(BlockType::Empty) => Some(OpWith::Loop(None)),
        Op::Loop(BlockType::Value(ty)) => Some(OpWith::Loop(Some(*ty))),
        Op::If(BlockType::Empty) => Some(OpWith::If(None)),
        Op::If(BlockType::Value(ty)) => Some(OpWith::If(Some(*ty))),
        Op::Else => Some(OpWith::Else),
        Op::End => Some(OpWith::End),
        _ => None,
    }
}

/// Returns an operation in eight bytes. One that takes more is put in the place of the other.
#[inline(always)]
pub fn shorten(op: Op, other: &mut Op) -> ShortOp
    ensures { short_op other.new result ≡ op }
{
    match short_op(&op) {
        Some(short) => short,
        None => {
            *other = op;
            OpWith::Other(())
        }
    }
}

/// Returns an operation in eight bytes, or the other one, borrowed.
#[inline(always)]
pub fn lend(op: ShortOp, other: &Op) -> LentOp<'_>
    ensures { lent_op result ≡ short_op other.now op }
{
    match op {
        OpWith::Unreachable => OpWith::Unreachable,
        OpWith::Nop => OpWith::Nop,
        OpWith::Br(label) => OpWith::Br(label),
        OpWith::BrIf(label) => OpWith::BrIf(label),
        OpWith::Return => OpWith::Return,
        OpWith::Call(function) => OpWith::Call(function),
        OpWith::RefNull(ty) => OpWith::RefNull(ty),
        OpWith::RefIsNull => OpWith::RefIsNull,
        OpWith::RefFunc(function) => OpWith::RefFunc(function),
        OpWith::Parametric(op) => OpWith::Parametric(op),
        OpWith::LocalGet(index) => OpWith::LocalGet(index),
        OpWith::LocalSet(index) => OpWith::LocalSet(index),
        OpWith::LocalTee(index) => OpWith::LocalTee(index),
        OpWith::GlobalGet(index) => OpWith::GlobalGet(index),
        OpWith::GlobalSet(index) => OpWith::GlobalSet(index),
        OpWith::Load(width, align, offset) => OpWith::Load(width, align, offset),
        OpWith::Load8(width, sign, align, offset) => OpWith::Load8(width, sign, align, offset),
        OpWith::Load16(width, sign, align, offset) => OpWith::Load16(width, sign, align, offset),
        OpWith::Load32(sign, align, offset) => OpWith::Load32(sign, align, offset),
        OpWith::Store(width, align, offset) => OpWith::Store(width, align, offset),
        OpWith::Store8(width, align, offset) => OpWith::Store8(width, align, offset),
        OpWith::Store16(width, align, offset) => OpWith::Store16(width, align, offset),
        OpWith::Store32(align, offset) => OpWith::Store32(align, offset),
        OpWith::MemorySize => OpWith::MemorySize,
        OpWith::MemoryGrow => OpWith::MemoryGrow,
        OpWith::MemoryFill => OpWith::MemoryFill,
        OpWith::MemoryCopy => OpWith::MemoryCopy,
        OpWith::Numeric(op) => OpWith::Numeric(op),
        OpWith::I32Const(n) => OpWith::I32Const(n),
        OpWith::I64Const(n) => OpWith::I64Const(n),
        OpWith::Block(value) => OpWith::Block(value),
        OpWith::Loop(value) => OpWith::Loop(value),
        OpWith::If(value) => OpWith::If(value),
        OpWith::Else => OpWith::Else,
        OpWith::End => OpWith::End,
        OpWith::Other(()) => OpWith::Other(other),
    }
}

/// Returns an operation, borrowed.
pub fn lent(op: &Op) -> LentOp<'_>
    ensures { lent_op result ≡ op.now }
{
    match short_op(op) {
        Some(short) => lend(short, op),
        None => OpWith::Other(op),
    }
}
