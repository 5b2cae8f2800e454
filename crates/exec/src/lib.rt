//! Calls from outside. Each is a bounded run of the reduction, by the loop over cells.
#![tactic(auto)]

mod addresses;
mod call;
mod calls;
mod hosts;
mod instructions;
mod invocation;
mod memories;
mod operands;
mod outcome;
mod outside;
mod tables;

pub use hosts::have_hosts;
pub use outcome::Outcome;
pub use outside::invoke;
