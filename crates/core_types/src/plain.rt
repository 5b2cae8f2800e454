ghost use Rattle.std.specs.Prelude.{◌≡◌, IfNone, IfSome};
ghost use Rattle.core_types.specs.declared.op.Op.TheVariants.{Plain};
ghost use Rattle.core_types.specs.Expressions.{HasListOrBody, lent_op, load_at, store_at};

use crate::lent_op::{LentOp, OpWith};
use crate::op::{
    ControlOp, LoadOp, MemArg, MemoryOp, Op, PlainOp, ReferenceOp, StoreOp, VariableOp,
};

// Returns a load with an alignment of eight bits.
fn load(op: LoadOp, align: u8, offset: u32) -> PlainOp
    ensures { Plain result ≡ load_at op align offset }
{
    let align = u32::from(align);
    PlainOp::Memory(MemoryOp::Load(op, MemArg { align, offset }))
}

// Returns a store with an alignment of eight bits.
fn store(op: StoreOp, align: u8, offset: u32) -> PlainOp
    ensures { Plain result ≡ store_at op align offset }
{
    let align = u32::from(align);
    PlainOp::Memory(MemoryOp::Store(op, MemArg { align, offset }))
}

// Returns a copy of an instruction without a body and a list, if the operation is one.
fn copy_plain(op: &Op) -> Option<PlainOp>
    ensures some { IfSome result (λ plain. op.now ≡ Plain plain) }
    ensures none { IfNone result (HasListOrBody op.now) }
{
    match op {
        Op::Plain(PlainOp::Control(op)) => Some(PlainOp::Control(*op)),
        Op::Plain(PlainOp::BrTable(_)) => None,
        Op::Plain(PlainOp::Reference(op)) => Some(PlainOp::Reference(*op)),
        Op::Plain(PlainOp::Parametric(op)) => Some(PlainOp::Parametric(*op)),
        Op::Plain(PlainOp::SelectTyped(_)) => None,
        Op::Plain(PlainOp::Variable(op)) => Some(PlainOp::Variable(*op)),
        Op::Plain(PlainOp::Table(op)) => Some(PlainOp::Table(*op)),
        Op::Plain(PlainOp::Memory(op)) => Some(PlainOp::Memory(*op)),
        Op::Plain(PlainOp::Numeric(op)) => Some(PlainOp::Numeric(*op)),
        Op::Plain(PlainOp::I32Const(n)) => Some(PlainOp::I32Const(*n)),
        Op::Plain(PlainOp::I64Const(n)) => Some(PlainOp::I64Const(*n)),
        Op::Block(_) => None,
        Op::Loop(_) => None,
        Op::If(_) => None,
        Op::Else => None,
        Op::End => None,
    }
}

/// Returns the instruction that an operation is, if it has neither a body nor a list.
pub fn plain_op(op: LentOp<'_>) -> Option<PlainOp>
    ensures some { IfSome result (λ plain. lent_op op.entry ≡ Plain plain) }
    ensures none { IfNone result (HasListOrBody (lent_op op.entry)) }
{
    match op {
        OpWith::Unreachable => Some(PlainOp::Control(ControlOp::Unreachable)),
        OpWith::Nop => Some(PlainOp::Control(ControlOp::Nop)),
        OpWith::Br(label) => Some(PlainOp::Control(ControlOp::Br(label))),
        OpWith::BrIf(label) => Some(PlainOp::Control(ControlOp::BrIf(label))),
        OpWith::Return => Some(PlainOp::Control(ControlOp::Return)),
        OpWith::Call(function) => Some(PlainOp::Control(ControlOp::Call(function))),
        OpWith::RefNull(ty) => Some(PlainOp::Reference(ReferenceOp::Null(ty))),
        OpWith::RefIsNull => Some(PlainOp::Reference(ReferenceOp::IsNull)),
        OpWith::RefFunc(function) => Some(PlainOp::Reference(ReferenceOp::Func(function))),
        OpWith::Parametric(op) => Some(PlainOp::Parametric(op)),
        OpWith::LocalGet(index) => Some(PlainOp::Variable(VariableOp::LocalGet(index))),
        OpWith::LocalSet(index) => Some(PlainOp::Variable(VariableOp::LocalSet(index))),
        OpWith::LocalTee(index) => Some(PlainOp::Variable(VariableOp::LocalTee(index))),
        OpWith::GlobalGet(index) => Some(PlainOp::Variable(VariableOp::GlobalGet(index))),
        OpWith::GlobalSet(index) => Some(PlainOp::Variable(VariableOp::GlobalSet(index))),
        OpWith::Load(width, align, offset) => Some(load(LoadOp::Whole(width), align, offset)),
        OpWith::Load8(width, sign, align, offset) => {
            Some(load(LoadOp::Bits8(width, sign), align, offset))
        }
        OpWith::Load16(width, sign, align, offset) => {
            Some(load(LoadOp::Bits16(width, sign), align, offset))
        }
        OpWith::Load32(sign, align, offset) => Some(load(LoadOp::Bits32(sign), align, offset)),
        OpWith::Store(width, align, offset) => Some(store(StoreOp::Whole(width), align, offset)),
        OpWith::Store8(width, align, offset) => Some(store(StoreOp::Bits8(width), align, offset)),
        OpWith::Store16(width, align, offset) => Some(store(StoreOp::Bits16(width), align, offset)),
        OpWith::Store32(align, offset) => Some(store(StoreOp::Bits32, align, offset)),
        OpWith::MemorySize => Some(PlainOp::Memory(MemoryOp::Size)),
        OpWith::MemoryGrow => Some(PlainOp::Memory(MemoryOp::Grow)),
        OpWith::MemoryFill => Some(PlainOp::Memory(MemoryOp::Fill)),
        OpWith::MemoryCopy => Some(PlainOp::Memory(MemoryOp::Copy)),
        OpWith::Numeric(op) => Some(PlainOp::Numeric(op)),
        OpWith::I32Const(n) => Some(PlainOp::I32Const(n)),
        OpWith::I64Const(n) => Some(PlainOp::I64Const(u64::from(n))),
        OpWith::Block(_) => None,
        OpWith::Loop(_) => None,
        OpWith::If(_) => None,
        OpWith::Else => None,
        OpWith::End => None,
        OpWith::Other(op) => copy_plain(op),
    }
}
