//! Shared code of the test crates: modules from text, and bytes from hexadecimal numbers.
#![tactic(auto)]

mod assembling;
mod bodies;
mod error;
mod fields;
mod function_types;
mod header;
mod hexadecimal;
mod instructions;
mod numbers;
mod quoted;
mod reader;
mod section;
mod sections;
mod segments;
mod writer;

pub use assembling::assemble;
pub use error::AssembleError;
pub use hexadecimal::bytes_of;
