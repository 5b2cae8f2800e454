//! What hosts of plug-ins require of an engine. Replies are a function of the commands, and fuel is only a bound. What a call
//! cannot reach, it can neither change nor read. Definitions and laws. No code here runs.
#![tactic(auto)]

mod laws;
mod rows;

pub use laws::{
    calls_are_isolated, fuel_is_only_a_bound, laws_of_the_engine, links_are_apart,
    replies_are_a_function_of_the_commands, what_can_be_reached_is_the_least_closed_region,
    what_is_outside_of_reach_stays,
};
pub use rows::{
    a_host_function_may_answer_in_one_way, a_host_function_of_two_instances_is_shared,
    a_memory_of_two_instances_is_shared, a_refusal_of_bytes_is_free, a_table_entry_leads_out,
    two_instances_are_apart,
};
