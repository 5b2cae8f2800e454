//! Reads the integers of the binary format, which are encoded with seven bits per byte (LEB128).
#![tactic(auto)]

mod laws;
mod signed;
mod unsigned;
mod width;

pub use laws::spellings_are_prefix_free;
pub use signed::{read_s32, read_s33, read_s64};
pub use unsigned::read_u32;
