//! Definitions of the numbers, modules and runs of WebAssembly, in specs/, and laws of them, in proofs/. No code here runs. A
//! function here has an empty body, and its contract is a law of the definitions.
#![tactic(auto)]

mod embedding;
mod execution;
mod numerics;
mod scripts;
mod soundness;
mod storage;
mod structure;
mod validation;

pub use embedding::{fresh_embeddings_are_empty, host_functions_are_defined_in_order};
pub use execution::{
    adding_one_and_two_costs_three, control_keeps_its_order, hosts_answer_calls,
    memories_change_in_runs, runs_agree, steps_lead_to_runs, tables_change_in_runs,
    tail_calls_replace_their_frame,
};
pub use numerics::{
    counts_are_of_digits_and_bits, integers_stand_for_signed_numbers, logic_goes_bit_by_bit,
    results_have_their_width, rotations_move_each_bit,
};
pub use scripts::scripts_ask_and_count;
pub use soundness::first_values_have_their_types;
pub use storage::{bytes_are_read_and_written, bytes_represent_numbers};
pub use structure::writing_is_read;
pub use validation::{
    function_types_compare_by_structure, operands_after_unreachable, operands_below_stay,
    typing_carries_over, typing_composes,
};
