//! The effects of instructions: numeric instructions, loads and stores over cells, and instructions on tables, memories and
//! segments over the state. Each is proved equal to its case of the definitions.
#![tactic(auto)]

mod accesses;
mod memories;
mod numeric;
mod payment;
mod segments;
mod tables;

pub use accesses::{load_cell, load_i32, store_cell};
pub use memories::{copy_memory, fill_memory, grow_memory, init_memory};
pub use numeric::{compute_binary, compute_unary, low};
pub use payment::{Fault, Paid};
pub use segments::{drop_data, drop_elements};
pub use tables::{
    copy_table, fill_table, get_entry, grow_table, init_table, measure_table, set_entry,
};
