//! Cells: values without their types, of 64 bits each.
#![tactic(auto)]

mod cells;
mod laws;

pub use cells::{cell_of, value_of, values_of, write_cells};
pub use laws::{cells_are_values, first_values_are_zero};
