//! The loop over flat code and cells. Its turns are steps of the reduction.
#![tactic(auto)]

mod ahead;
mod callees;
mod frames;
mod interpreter_loop;
mod landing;
mod laws;
mod machine;
mod others;
mod payment;
mod reading;
mod transfers;

pub use ahead::run;
pub use laws::{operands_fit, operations_execute};
pub use machine::{CallKind, Frame, Position, Stop, Surroundings};
