ghost use Rattle.std.specs.Prelude.{◌≡◌};
ghost use Rattle.meaning.specs.execution.Numerics.{binary_operator};

use crate::bits::{
    rotate_left_32, rotate_left_64, rotate_right_32, rotate_right_64, shift_left_32, shift_left_64,
    shift_right_signed_32, shift_right_signed_64, shift_right_unsigned_32, shift_right_unsigned_64,
};
use crate::division::{
    quotient_signed_32, quotient_signed_64, quotient_unsigned_32, quotient_unsigned_64,
    remainder_signed_32, remainder_signed_64, remainder_unsigned_32, remainder_unsigned_64,
};
use core_types::{BinaryOp, Trap};

/// Returns the result of an operator on two 32-bit integers, or its trap. It traps for a division or a remainder by zero, or for
/// a signed quotient that does not fit in 32 bits (Execution, Numerics, Integer Operations, iadd to irotr).
pub fn binary_32(op: BinaryOp, a: u32, b: u32) -> Result<u32, Trap>
    ensures { result ≡ binary_operator 32 op a b }
{
    match op {
        BinaryOp::Add => Ok(a.wrapping_add(b)),
        BinaryOp::Sub => Ok(a.wrapping_sub(b)),
        BinaryOp::Mul => Ok(a.wrapping_mul(b)),
        BinaryOp::DivS => quotient_signed_32(a, b),
        BinaryOp::DivU => quotient_unsigned_32(a, b),
        BinaryOp::RemS => remainder_signed_32(a, b),
        BinaryOp::RemU => remainder_unsigned_32(a, b),
        BinaryOp::And => Ok(a & b),
        BinaryOp::Or => Ok(a | b),
        BinaryOp::Xor => Ok(a ^ b),
        BinaryOp::Shl => Ok(shift_left_32(a, b)),
        BinaryOp::ShrS => Ok(shift_right_signed_32(a, b)),
        BinaryOp::ShrU => Ok(shift_right_unsigned_32(a, b)),
        BinaryOp::Rotl => Ok(rotate_left_32(a, b)),
        BinaryOp::Rotr => Ok(rotate_right_32(a, b)),
    }
}

/// Returns the result of an operator on two 64-bit integers, or its trap. It traps for a division or a remainder by zero, or for
/// a signed quotient that does not fit in 64 bits (Execution, Numerics, Integer Operations, iadd to irotr).
pub fn binary_64(op: BinaryOp, a: u64, b: u64) -> Result<u64, Trap>
    ensures { result ≡ binary_operator 64 op a b }
{
    match op {
        BinaryOp::Add => Ok(a.wrapping_add(b)),
        BinaryOp::Sub => Ok(a.wrapping_sub(b)),
        BinaryOp::Mul => Ok(a.wrapping_mul(b)),
        BinaryOp::DivS => quotient_signed_64(a, b),
        BinaryOp::DivU => quotient_unsigned_64(a, b),
        BinaryOp::RemS => remainder_signed_64(a, b),
        BinaryOp::RemU => remainder_unsigned_64(a, b),
        BinaryOp::And => Ok(a & b),
        BinaryOp::Or => Ok(a | b),
        BinaryOp::Xor => Ok(a ^ b),
        BinaryOp::Shl => Ok(shift_left_64(a, b)),
        BinaryOp::ShrS => Ok(shift_right_signed_64(a, b)),
        BinaryOp::ShrU => Ok(shift_right_unsigned_64(a, b)),
        BinaryOp::Rotl => Ok(rotate_left_64(a, b)),
        BinaryOp::Rotr => Ok(rotate_right_64(a, b)),
    }
}
