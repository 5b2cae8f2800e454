//! The effects of the instructions on tables, memories and segments on the state of the store. Each is proved equal to its case
//! of the definitions. An access that reaches past the end traps before anything is written.
#![tactic(auto)]

mod bulk;
mod growth;
mod loads;
mod memories;
mod stores;
mod tables;

pub use loads::{read_8, read_16, read_32, read_64};
pub use memories::{
    data_drop, mem_copy, mem_copy_cost, mem_fill, mem_fill_cost, mem_grow, mem_grow_cost, mem_init,
    mem_init_cost, mem_load, mem_size, mem_store,
};
pub use stores::{write_8, write_16, write_32, write_64};
pub use tables::{
    elem_drop, table_copy, table_copy_cost, table_fill, table_fill_cost, table_get, table_grow,
    table_grow_cost, table_init, table_init_cost, table_set, table_size,
};
