//! The decoder: reads modules in the binary format.
#![tactic(auto)]

mod bodies;
mod errors;
mod expressions;
mod function_bodies;
mod instructions;
mod laws;
mod limits;
mod modules;
mod reader;
mod sections;
mod types;
mod values;

pub use bodies::BodyReader;
pub use errors::DecodeError;
pub use laws::bytes_spell_one_module;
pub use modules::{Outline, decode, decode_outline};
