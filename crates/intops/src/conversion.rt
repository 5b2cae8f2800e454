ghost use Rattle.std.specs.Prelude.{◌≡◌};
ghost use Rattle.core_types.specs.declared.op.Conversion.TheVariants.{I32WrapI64, I64ExtendI32S, I64ExtendI32U, I64Extend32S};
ghost use Rattle.meaning.specs.execution.Numerics.{conversion_operator};

use crate::signed::{integer_64, signed_32};

/// Returns the low 32 bits (Execution, Numerics, Conversions, wrap).
pub fn wrap(a: u64) -> u32
    ensures { result ≡ conversion_operator I32WrapI64 a }
{
    (a % 0x1_0000_0000) as u32
}

/// Returns the same signed number in 64 bits (Execution, Numerics, Conversions, extend_s).
pub fn extend_signed(a: u32) -> u64
    ensures { result ≡ conversion_operator I64ExtendI32S a }
{
    integer_64(signed_32(a) as i64)
}

/// Returns the same number in 64 bits (Execution, Numerics, Conversions, extend_u).
pub fn extend_unsigned(a: u32) -> u64
    ensures { result ≡ conversion_operator I64ExtendI32U a }
{
    a as u64
}

/// Returns the low 32 bits, read as signed, in 64 bits (Execution, Numerics, Integer Operations, iextendM_s).
pub fn extend_low_signed(a: u64) -> u64
    ensures { result ≡ conversion_operator I64Extend32S a }
{
    extend_signed(wrap(a))
}
