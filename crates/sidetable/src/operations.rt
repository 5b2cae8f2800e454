/// Where a branch, a return, an `if` whose condition is zero or a jump continues. It has the place of the next operation, the
/// number of operands that are kept, and the height of those below them.
#[derive(Clone, Copy)]
pub struct Entry {
    pub target: u32,
    pub kept: u32,
    pub height: u64,
}

/// An instruction on two integers, except `i32.add`.
#[derive(Clone, Copy)]
pub enum BinaryInstruction {
    I32Sub,
    I32Mul,
    I32DivS,
    I32DivU,
    I32RemS,
    I32RemU,
    I32And,
    I32Or,
    I32Xor,
    I32Shl,
    I32ShrS,
    I32ShrU,
    I32Rotl,
    I32Rotr,
    I64Add,
    I64Sub,
    I64Mul,
    I64DivS,
    I64DivU,
    I64RemS,
    I64RemU,
    I64And,
    I64Or,
    I64Xor,
    I64Shl,
    I64ShrS,
    I64ShrU,
    I64Rotl,
    I64Rotr,
    I32Eq,
    I32Ne,
    I32LtS,
    I32LtU,
    I32GtS,
    I32GtU,
    I32LeS,
    I32LeU,
    I32GeS,
    I32GeU,
    I64Eq,
    I64Ne,
    I64LtS,
    I64LtU,
    I64GtS,
    I64GtU,
    I64LeS,
    I64LeU,
    I64GeS,
    I64GeU,
}

/// An instruction on one integer.
#[derive(Clone, Copy)]
pub enum UnaryInstruction {
    I32Eqz,
    I64Eqz,
    I32Clz,
    I32Ctz,
    I32Popcnt,
    I32Extend8S,
    I32Extend16S,
    I64Clz,
    I64Ctz,
    I64Popcnt,
    I64Extend8S,
    I64Extend16S,
    I32WrapI64,
    I64ExtendI32S,
    I64ExtendI32U,
    I64Extend32S,
}

/// A load, except `i32.load`.
#[derive(Clone, Copy)]
pub enum LoadInstruction {
    I64Load,
    I32Load8S,
    I32Load8U,
    I64Load8S,
    I64Load8U,
    I32Load16S,
    I32Load16U,
    I64Load16S,
    I64Load16U,
    I64Load32S,
    I64Load32U,
}

/// A store.
#[derive(Clone, Copy)]
pub enum StoreInstruction {
    I32Store,
    I64Store,
    I32Store8,
    I64Store8,
    I32Store16,
    I64Store16,
    I64Store32,
}

/// A rarer operation that does not continue with the next one, or that calls.
#[derive(Clone, Copy)]
pub enum TransferInstruction {
    Unreachable,
    Jump,
    Br,
    BrTable,
    Return,
    CallIndirect,
    ReturnCall,
    ReturnCallIndirect,
}

/// A rarer instruction.
#[derive(Clone, Copy)]
pub enum OtherInstruction {
    Nop,
    DropOperand,
    Select,
    Unary(UnaryInstruction),
    GlobalGet,
    GlobalSet,
    I64Const,
    RefNullFunc,
    RefNullExtern,
    RefIsNull,
    RefFunc,
    MemorySize,
    MemoryGrow,
    MemoryFill,
    MemoryCopy,
    MemoryInit,
    DataDrop,
    TableGet,
    TableSet,
    TableSize,
    TableGrow,
    TableFill,
    TableCopy,
    TableInit,
    ElemDrop,
}

/// An operation, packed into eight bytes. There are sixteen kinds: each frequent instruction has its own, and the others share
/// one. A number is an index, a constant, an offset, or a place in a side table.
#[derive(Clone, Copy)]
pub enum PackedOp {
    LocalGet(u32),
    LocalSet(u32),
    LocalTee(u32),
    I32Const(u32),
    I32Add,
    Enter,
    If(u32),
    BrIf(u32),
    Call(u32),
    /// The operation after the last one of a function. It leaves the frame with that many results.
    Leave(u32),
    I32Load(u32),
    Binary(BinaryInstruction),
    Load(LoadInstruction, u32),
    Store(StoreInstruction, u32),
    Transfer(TransferInstruction, u32),
    Other(OtherInstruction, u32),
}
