ghost use Rattle.std.specs.Prelude.{◌≡◌, false, ◌≢◌, IfNone, IfSome, IsTrue, ⊤};
ghost use Rattle.core_types.specs.declared.op.Op.TheVariants as flat;
ghost use Rattle.core_types.specs.declared.op.PlainOp.{PlainOp as Plain};
ghost use Rattle.core_types.specs.Expressions.{block_type_of, lent_op, mark_op};

use crate::op::{BlockType, NumericOp, Op, ParametricOp, Sign, Width};
use crate::types::{RefType, ValType};
use std::alloc::AllocError;

/// A flat operation that fits in eight bytes, or a `T` for one that does not.
///
/// These take more than eight bytes: a branch by number, a call through a table, a select with types, and an instruction on a
/// table or a segment. So do a block with a type of the module, a constant of more than 32 bits, and an access with an alignment
/// of more than eight bits.
#[derive(Copy)]
pub enum OpWith<T> {
    Unreachable,
    Nop,
    Br(u32),
    BrIf(u32),
    Return,
    Call(u32),
    RefNull(RefType),
    RefIsNull,
    RefFunc(u32),
    Parametric(ParametricOp),
    LocalGet(u32),
    LocalSet(u32),
    LocalTee(u32),
    GlobalGet(u32),
    GlobalSet(u32),
    Load(Width, u8, u32),
    Load8(Width, Sign, u8, u32),
    Load16(Width, Sign, u8, u32),
    Load32(Sign, u8, u32),
    Store(Width, u8, u32),
    Store8(Width, u8, u32),
    Store16(Width, u8, u32),
    Store32(u8, u32),
    MemorySize,
    MemoryGrow,
    MemoryFill,
    MemoryCopy,
    Numeric(NumericOp),
    I32Const(u32),
    I64Const(u32),
    Block(Option<ValType>),
    Loop(Option<ValType>),
    If(Option<ValType>),
    Else,
    End,
    Other(T),
}

impl<T: Copy> Clone for OpWith<T> {
    ghost is_clone = { λ x y. y ≡ x };

    ghost is_infallible = { λ _. ⊤ };

    fn clone(&self) -> Result<Self, AllocError> {
        Ok(*self)
    }
}

/// A borrowed flat operation.
pub type LentOp<'a> = OpWith<&'a Op>;

// Returns the type of a block that takes nothing and gives this.
#[inline(always)]
fn block_type(value: Option<ValType>) -> BlockType
    ensures { result ≡ block_type_of value }
{
    match value {
        None => BlockType::Empty,
        Some(ty) => BlockType::Value(ty),
    }
}

/// A mark: the beginning or the end of a body.
#[derive(Clone, Copy)]
pub enum Mark {
    Block(BlockType),
    Loop(BlockType),
    If(BlockType),
    Else,
    End,
}

// Returns the mark that an operation is, if it is one.
fn mark_of_other(op: &Op) -> Option<Mark>
    ensures some { IfSome result (λ mark. op.now ≡ mark_op mark) }
    ensures none { IfNone result ((plain : Plain) × (op.now ≡ flat.Plain plain)) }
{
    match op {
        Op::Block(ty) => Some(Mark::Block(*ty)),
        Op::Loop(ty) => Some(Mark::Loop(*ty)),
        Op::If(ty) => Some(Mark::If(*ty)),
        Op::Else => Some(Mark::Else),
        Op::End => Some(Mark::End),
        Op::Plain(_) => None,
    }
}

/// Returns the mark that an operation is, if it is one.
#[inline(always)]
pub fn mark_of(op: LentOp<'_>) -> Option<Mark>
    ensures some { IfSome result (λ mark. lent_op op.entry ≡ mark_op mark) }
    ensures none { IfNone result ((plain : Plain) × (lent_op op.entry ≡ flat.Plain plain)) }
{
    match op {
        OpWith::Block(value) => Some(Mark::Block(block_type(value))),
        OpWith::Loop(value) => Some(Mark::Loop(block_type(value))),
        OpWith::If(value) => Some(Mark::If(block_type(value))),
        OpWith::Else => Some(Mark::Else),
        OpWith::End => Some(Mark::End),
        OpWith::Other(op) => mark_of_other(op),
        _ => None,
    }
}

/// Returns whether an operation is a mark, at which a body begins or ends.
#[inline(always)]
pub fn is_mark(op: LentOp<'_>) -> bool
    ensures mark { IsTrue result → (plain : Plain) → lent_op op.entry ≢ flat.Plain plain }
    ensures plain { result ≡ false → (plain : Plain) × (lent_op op.entry ≡ flat.Plain plain) }
{
    if let OpWith::Other(op) = op {
        return !matches!(op, Op::Plain(_));
    }
    matches!(
        op,
        OpWith::Block(_) | OpWith::Loop(_) | OpWith::If(_) | OpWith::Else | OpWith::End
    )
}
