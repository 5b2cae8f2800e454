use crate::boxed::Boxed;
use crate::items::Items;
use crate::types::{RefType, ValType};

/// The width of an integer type.
#[derive(Clone, Copy)]
pub enum Width {
    W32,
    W64,
}

/// How a number of fewer bits is extended to one of more bits.
#[derive(Clone, Copy)]
pub enum Sign {
    Signed,
    Unsigned,
}

/// An operator on one integer, with a result of the same width.
#[derive(Clone, Copy)]
pub enum UnaryOp {
    Clz,
    Ctz,
    Popcnt,
    Extend8S,
    Extend16S,
}

/// An operator on two integers of one width, with a result of the same width.
#[derive(Clone, Copy)]
pub enum BinaryOp {
    Add,
    Sub,
    Mul,
    DivS,
    DivU,
    RemS,
    RemU,
    And,
    Or,
    Xor,
    Shl,
    ShrS,
    ShrU,
    Rotl,
    Rotr,
}

/// A comparison of two integers of one width.
#[derive(Clone, Copy)]
pub enum Comparison {
    Eq,
    Ne,
    LtS,
    LtU,
    GtS,
    GtU,
    LeS,
    LeU,
    GeS,
    GeU,
}

/// An operator on one integer that exists for one width only.
#[derive(Clone, Copy)]
pub enum Conversion {
    I32WrapI64,
    I64ExtendI32S,
    I64ExtendI32U,
    I64Extend32S,
}

/// A numeric instruction without an immediate (Structure, Instructions, Numeric Instructions).
#[derive(Clone, Copy)]
pub enum NumericOp {
    Eqz(Width),
    Compare(Width, Comparison),
    Unary(Width, UnaryOp),
    Binary(Width, BinaryOp),
    Convert(Conversion),
}

/// An instruction on references (Structure, Instructions, Reference Instructions).
#[derive(Clone, Copy)]
pub enum ReferenceOp {
    Null(RefType),
    IsNull,
    Func(u32),
}

/// An instruction on operands of any type (Structure, Instructions, Parametric Instructions).
#[derive(Clone, Copy)]
pub enum ParametricOp {
    DropOperand,
    Select,
}

/// An instruction on a local or a global (Structure, Instructions, Variable Instructions).
#[derive(Clone, Copy)]
pub enum VariableOp {
    LocalGet(u32),
    LocalSet(u32),
    LocalTee(u32),
    GlobalGet(u32),
    GlobalSet(u32),
}

/// An instruction on a table or an element segment (Structure, Instructions, Table Instructions).
#[derive(Clone, Copy)]
pub enum TableOp {
    Get(u32),
    Set(u32),
    Size(u32),
    Grow(u32),
    Fill(u32),
    Copy { target: u32, source: u32 },
    Init { segment: u32, table: u32 },
    ElemDrop(u32),
}

/// What a load reads: a whole integer, or some low bits of one.
#[derive(Clone, Copy)]
pub enum LoadOp {
    Whole(Width),
    Bits8(Width, Sign),
    Bits16(Width, Sign),
    Bits32(Sign),
}

/// What a store writes: a whole integer, or its low bits.
#[derive(Clone, Copy)]
pub enum StoreOp {
    Whole(Width),
    Bits8(Width),
    Bits16(Width),
    Bits32,
}

/// The alignment, as an exponent of 2, and the offset of an access.
#[derive(Clone, Copy)]
pub struct MemArg {
    pub align: u32,
    pub offset: u32,
}

/// An instruction on the memory or a data segment (Structure, Instructions, Memory Instructions).
#[derive(Clone, Copy)]
pub enum MemoryOp {
    Load(LoadOp, MemArg),
    Store(StoreOp, MemArg),
    Size,
    Grow,
    Fill,
    Copy,
    Init(u32),
    DataDrop(u32),
}

/// A control instruction that has neither a body nor a list (Structure, Instructions, Control Instructions).
#[derive(Clone, Copy)]
pub enum ControlOp {
    Unreachable,
    Nop,
    Br(u32),
    BrIf(u32),
    Return,
    Call(u32),
    CallIndirect { ty: u32, table: u32 },
    ReturnCall(u32),
    ReturnCallIndirect { ty: u32, table: u32 },
}

/// The labels of a branch by number, and the label for all larger numbers.
#[derive(Drop)]
pub struct BranchTable {
    pub labels: Items<u32>,
    pub default: u32,
}

/// An instruction that has no body (Structure, Instructions). A list of an instruction is on the heap. An instruction with an
/// immediate of eight bytes is not in its group.
#[derive(Drop)]
pub enum PlainOp {
    Control(ControlOp),
    BrTable(Boxed<BranchTable>),
    Reference(ReferenceOp),
    Parametric(ParametricOp),
    SelectTyped(Boxed<Items<ValType>>),
    Variable(VariableOp),
    Table(TableOp),
    Memory(MemoryOp),
    Numeric(NumericOp),
    I32Const(u32),
    I64Const(u64),
}

/// The type of a block: from nothing to nothing, from nothing to one value, or the type of an index.
#[derive(Clone, Copy)]
pub enum BlockType {
    Empty,
    Value(ValType),
    Index(u32),
}

/// A flat operation: an instruction without a body, or a mark at which a body begins or ends.
#[derive(Drop)]
pub enum Op {
    Plain(PlainOp),
    Block(BlockType),
    Loop(BlockType),
    If(BlockType),
    Else,
    End,
}
