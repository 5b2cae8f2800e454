//! The contents of a module, as text.
#![tactic(auto)]

mod modules;
mod types;

pub use modules::write_module;
