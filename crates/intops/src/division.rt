ghost use Rattle.std.specs.Prelude.{◌≡◌};
ghost use Rattle.meaning.specs.execution.Numerics.{quotient_signed, quotient_unsigned, remainder_signed, remainder_unsigned};

use crate::signed::{integer_32, integer_64, signed_32, signed_64};
use core_types::Trap;

// Returns the quotient of two 32-bit integers.
pub fn quotient_unsigned_32(a: u32, b: u32) -> Result<u32, Trap>
    ensures { result ≡ quotient_unsigned a b }
{
    if b == 0 {
        Err(Trap::DivideByZero)
    } else {
        Ok(a / b)
    }
}

// Returns the quotient of two 64-bit integers.
pub fn quotient_unsigned_64(a: u64, b: u64) -> Result<u64, Trap>
    ensures { result ≡ quotient_unsigned a b }
{
    if b == 0 {
        Err(Trap::DivideByZero)
    } else {
        Ok(a / b)
    }
}

// Returns the remainder of two 32-bit integers.
#[tactic(auto, using(crate::proofs::Quotients::remainder_is))]
pub fn remainder_unsigned_32(a: u32, b: u32) -> Result<u32, Trap>
    ensures { result ≡ remainder_unsigned a b }
{
    if b == 0 {
        Err(Trap::DivideByZero)
    } else {
        Ok(a % b)
    }
}

// Returns the remainder of two 64-bit integers.
#[tactic(auto, using(crate::proofs::Quotients::remainder_is))]
pub fn remainder_unsigned_64(a: u64, b: u64) -> Result<u64, Trap>
    ensures { result ≡ remainder_unsigned a b }
{
    if b == 0 {
        Err(Trap::DivideByZero)
    } else {
        Ok(a % b)
    }
}

// Returns the quotient of two 32-bit integers, read as signed.
pub fn quotient_signed_32(a: u32, b: u32) -> Result<u32, Trap>
    ensures { result ≡ quotient_signed 32 a b }
{
    if b == 0 {
        return Err(Trap::DivideByZero);
    }
    match signed_32(a).checked_div(signed_32(b)) {
        Some(quotient) => Ok(integer_32(quotient)),
        None => Err(Trap::IntegerOverflow),
    }
}

// Returns the quotient of two 64-bit integers, read as signed.
pub fn quotient_signed_64(a: u64, b: u64) -> Result<u64, Trap>
    ensures { result ≡ quotient_signed 64 a b }
{
    if b == 0 {
        return Err(Trap::DivideByZero);
    }
    match signed_64(a).checked_div(signed_64(b)) {
        Some(quotient) => Ok(integer_64(quotient)),
        None => Err(Trap::IntegerOverflow),
    }
}

// Returns the remainder of two 32-bit integers, read as signed.
pub fn remainder_signed_32(a: u32, b: u32) -> Result<u32, Trap>
    ensures { result ≡ remainder_signed 32 a b }
{
    if b == 0 {
        Err(Trap::DivideByZero)
    } else {
        Ok(integer_32(signed_32(a).wrapping_rem(signed_32(b))))
    }
}

// Returns the remainder of two 64-bit integers, read as signed.
pub fn remainder_signed_64(a: u64, b: u64) -> Result<u64, Trap>
    ensures { result ≡ remainder_signed 64 a b }
{
    if b == 0 {
        Err(Trap::DivideByZero)
    } else {
        Ok(integer_64(signed_64(a).wrapping_rem(signed_64(b))))
    }
}
