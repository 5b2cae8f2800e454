//! The validator: checks modules in one pass over their flat operations.
#![tactic(auto)]

mod constants;
mod context;
mod control_frames;
mod data_segments;
mod elements;
mod entries;
mod errors;
mod exports;
mod functions;
mod globals;
mod imports;
mod instructions;
mod local_types;
mod memories;
mod modules;
mod operand_stack;
mod operands;
mod operations;
mod start;
mod tables;
mod types;
mod valid_module;
mod visitor;

pub use errors::{Place, ValidateError};
pub use modules::{validate, validate_with};
pub use valid_module::ValidModule;
pub use visitor::Visitor;
