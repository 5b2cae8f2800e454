//! The fuel that a run may still spend, and the bound on its open frames.
#![tactic(auto)]

mod meter;

pub use meter::Meter;
