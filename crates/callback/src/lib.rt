//! Host functions that a client executes at the other end of two descriptors.
#![tactic(auto)]

mod asking;
mod callback;
mod ranges;
mod requests;

pub use callback::{Callback, NO_ANSWER};
