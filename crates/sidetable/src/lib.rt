//! Flat code without marks, in packed operations with side tables.
#![tactic(auto)]

mod copies;
mod counts;
mod flat_module;
mod flattening;
mod instructions;
mod labels;
mod laws;
mod module_types;
mod operand_heights;
mod operations;
mod packing;
mod side_tables;

pub use flat_module::{FlatModule, PackedFunction, flatten};
pub use laws::{
    annotations_change_nothing, bodies_are_flattened, each_form_leaves_its_operations,
    no_height_is_over_the_greatest, operations_are_as_many_as_the_size,
};
pub use operations::{
    BinaryInstruction, Entry, LoadInstruction, OtherInstruction, PackedOp, StoreInstruction,
    TransferInstruction, UnaryInstruction,
};
pub use side_tables::{BranchRange, IndexPair, SideTables};
