ghost use Rattle.std.specs.Prelude.{◌≡◌};
ghost use Rattle.meaning.specs.execution.Numerics.{extended, unary_operator};

use crate::signed::{integer_32, integer_64, signed_8, signed_16};
use core_types::UnaryOp;

// Returns the low 8 bits, read as signed, in 32 bits.
fn extended_8_to_32(a: u32) -> u32
    ensures { result ≡ extended 8 32 a }
{
    integer_32(signed_8((a % 0x100) as u8) as i32)
}

// Returns the low 16 bits, read as signed, in 32 bits.
fn extended_16_to_32(a: u32) -> u32
    ensures { result ≡ extended 16 32 a }
{
    integer_32(signed_16((a % 0x1_0000) as u16) as i32)
}

// Returns the low 8 bits, read as signed, in 64 bits.
fn extended_8_to_64(a: u64) -> u64
    ensures { result ≡ extended 8 64 a }
{
    integer_64(signed_8((a % 0x100) as u8) as i64)
}

// Returns the low 16 bits, read as signed, in 64 bits.
fn extended_16_to_64(a: u64) -> u64
    ensures { result ≡ extended 16 64 a }
{
    integer_64(signed_16((a % 0x1_0000) as u16) as i64)
}

/// Returns the result of an operator on a 32-bit integer (Execution, Numerics, Integer Operations, iclz to iextendM_s).
#[tactic(auto, using(crate::proofs::Counts::leading_is, crate::proofs::Counts::trailing_is, crate::proofs::Counts::ones_are))]
pub fn unary_32(op: UnaryOp, a: u32) -> u32
    ensures { result ≡ unary_operator 32 op a }
{
    match op {
        UnaryOp::Clz => a.leading_zeros(),
        UnaryOp::Ctz => a.trailing_zeros(),
        UnaryOp::Popcnt => a.count_ones(),
        UnaryOp::Extend8S => extended_8_to_32(a),
        UnaryOp::Extend16S => extended_16_to_32(a),
    }
}

/// Returns the result of an operator on a 64-bit integer (Execution, Numerics, Integer Operations, iclz to iextendM_s).
#[tactic(auto, using(crate::proofs::Counts::leading_is, crate::proofs::Counts::trailing_is, crate::proofs::Counts::ones_are))]
pub fn unary_64(op: UnaryOp, a: u64) -> u64
    ensures { result ≡ unary_operator 64 op a }
{
    match op {
        UnaryOp::Clz => a.leading_zeros() as u64,
        UnaryOp::Ctz => a.trailing_zeros() as u64,
        UnaryOp::Popcnt => a.count_ones() as u64,
        UnaryOp::Extend8S => extended_8_to_64(a),
        UnaryOp::Extend16S => extended_16_to_64(a),
    }
}
