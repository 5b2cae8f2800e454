//! Progress and preservation: in a valid store, a typed configuration can take a step and stays typed. Definitions and laws. No
//! code here runs.
#![tactic(auto)]

mod laws;

pub use laws::{
    a_call_of_a_function_that_adds_is_typed, a_module_of_bytes_can_be_linked,
    allocation_keeps_stores_valid, commands_go_well, contexts_have_the_types_of_their_modules,
    costs_are_spent, links_never_go_wrong, the_inside_is_typed, typed_configurations_stay_good,
    typed_runs_never_get_stuck, typed_runs_never_go_wrong, what_is_typed_stays_typed,
};
