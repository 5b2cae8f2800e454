//! The subcommands of the program, which run a script, call a function, or check a module.
#![tactic(auto)]

mod args;
mod calls;
mod faults;
mod inputs;
mod performing;
mod script_files;
mod spectest;

pub use args::{ArgsFault, read_args};
pub use faults::Fault;
pub use inputs::{Files, ReadFault, System};
pub use performing::{CallEnd, End, perform};
pub use spectest::SPECTEST;
