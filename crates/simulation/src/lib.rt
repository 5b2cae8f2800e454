//! How flat code over cells represents configurations of the reduction. Definitions and laws. No code here runs.
#![tactic(auto)]

mod laws;

pub use laws::{
    bulk_instructions_are_steps, callees_are_entered, callees_are_found, callers_go_on,
    cells_are_values, code_ends, control_operations_are_steps, ends_typed, frames_come_and_go,
    functions_are_entered, hosts_are_called, memories_are_steps, numbers_are_steps,
    references_are_steps, simple_instructions_are_steps, steps_are_lifted,
    store_instructions_are_steps, tables_are_steps, variables_are_steps,
};
