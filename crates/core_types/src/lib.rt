//! The types that the layers share.
#![tactic(auto)]

mod appending;
mod boxed;
mod expression;
mod func_body;
mod halving;
mod items;
mod lent_op;
mod locals;
mod module;
mod op;
mod outcome;
mod plain;
mod short_op;
mod stack;
mod text;
mod types;

pub use appending::append;
pub use boxed::Boxed;
pub use expression::Expression;
pub use func_body::FuncBody;
pub use items::{Items, item};
pub use lent_op::{LentOp, Mark, OpWith, is_mark, mark_of};
pub use locals::{LocalRun, Locals};
pub use module::{
    DataMode, DataSegment, ElementItems, ElementMode, ElementSegment, Export, ExportDesc, Func,
    Global, Import, ImportDesc, Module,
};
pub use op::{
    BinaryOp, BlockType, BranchTable, Comparison, ControlOp, Conversion, LoadOp, MemArg, MemoryOp,
    NumericOp, Op, ParametricOp, PlainOp, ReferenceOp, Sign, StoreOp, TableOp, UnaryOp, VariableOp,
    Width,
};
pub use outcome::{Exhaustion, Extern, Trap, Val};
pub use plain::plain_op;
pub use short_op::{ShortOp, lend, lent, shorten};
pub use stack::Stack;
pub use text::Name;
pub use types::{
    ExternType, FuncType, GlobalType, Limits, MAX_PAGES, Mutability, OperandType, RefType,
    TableType, ValType, are_same_types,
};
