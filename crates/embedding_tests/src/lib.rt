//! Tests of the embedding: commands and their replies, setups, and the types of exports. Also tests of scripts and their
//! reports, and of orders and answers in messages.
#![tactic(auto)]

#[cfg(test)]
mod borrowed_memories;
#[cfg(test)]
mod commands;
#[cfg(test)]
mod constant_expressions;
#[cfg(test)]
mod engines;
#[cfg(test)]
mod explanations;
#[cfg(test)]
mod exports;
#[cfg(test)]
mod hosts;
#[cfg(test)]
mod invalid_modules;
pub mod kinds;
#[cfg(test)]
mod lasting;
#[cfg(test)]
mod lists;
#[cfg(test)]
mod malformed_modules;
#[cfg(test)]
mod module_interfaces;
#[cfg(test)]
mod order_answers;
#[cfg(test)]
mod order_endings;
#[cfg(test)]
mod order_reading;
#[cfg(test)]
mod places;
#[cfg(test)]
mod script_modules;
#[cfg(test)]
mod script_reading;
#[cfg(test)]
mod script_running;
#[cfg(test)]
mod script_tail_calls;
#[cfg(test)]
mod setups;
#[cfg(test)]
mod sharing;
#[cfg(test)]
mod tail_calls;
#[cfg(test)]
mod wanting;
