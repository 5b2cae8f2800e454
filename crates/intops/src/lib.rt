//! The integer operators of WebAssembly (Execution, Numerics, Integer Operations), each proved equal to its formula.
#![tactic(auto)]

mod binary;
mod bits;
mod comparison;
mod conversion;
mod division;
mod signed;
mod unary;

pub use binary::{binary_32, binary_64};
pub use comparison::{compare_32, compare_64, eqz_32, eqz_64};
pub use conversion::{extend_low_signed, extend_signed, extend_unsigned, wrap};
pub use unary::{unary_32, unary_64};
