ghost use Rattle.std.specs.Prelude.{◌≡◌};
ghost use Rattle.meaning.specs.execution.Numerics.{comparison_operator, eqz_operator, truth};

use crate::signed::{signed_32, signed_64};
use core_types::Comparison;

// Returns 1 for true and 0 for false.
fn number_of(holds: bool) -> u32
    ensures { result ≡ truth holds }
{
    if holds { 1 } else { 0 }
}

/// Returns 1 if two 32-bit integers satisfy a comparison, and otherwise 0 (Execution, Numerics, Integer Operations, ieq to
/// ige_s).
pub fn compare_32(op: Comparison, a: u32, b: u32) -> u32
    ensures { result ≡ comparison_operator 32 op a b }
{
    number_of(match op {
        Comparison::Eq => a == b,
        Comparison::Ne => a != b,
        Comparison::LtS => signed_32(a) < signed_32(b),
        Comparison::LtU => a < b,
        Comparison::GtS => signed_32(a) > signed_32(b),
        Comparison::GtU => a > b,
        Comparison::LeS => signed_32(a) <= signed_32(b),
        Comparison::LeU => a <= b,
        Comparison::GeS => signed_32(a) >= signed_32(b),
        Comparison::GeU => a >= b,
    })
}

/// Returns 1 if two 64-bit integers satisfy a comparison, and otherwise 0 (Execution, Numerics, Integer Operations, ieq to
/// ige_s).
pub fn compare_64(op: Comparison, a: u64, b: u64) -> u32
    ensures { result ≡ comparison_operator 64 op a b }
{
    number_of(match op {
        Comparison::Eq => a == b,
        Comparison::Ne => a != b,
        Comparison::LtS => signed_64(a) < signed_64(b),
        Comparison::LtU => a < b,
        Comparison::GtS => signed_64(a) > signed_64(b),
        Comparison::GtU => a > b,
        Comparison::LeS => signed_64(a) <= signed_64(b),
        Comparison::LeU => a <= b,
        Comparison::GeS => signed_64(a) >= signed_64(b),
        Comparison::GeU => a >= b,
    })
}

/// Returns 1 if a 32-bit integer is zero, and otherwise 0 (Execution, Numerics, Integer Operations, ieqz).
pub fn eqz_32(a: u32) -> u32
    ensures { result ≡ eqz_operator a }
{
    number_of(a == 0)
}

/// Returns 1 if a 64-bit integer is zero, and otherwise 0 (Execution, Numerics, Integer Operations, ieqz).
pub fn eqz_64(a: u64) -> u32
    ensures { result ≡ eqz_operator a }
{
    number_of(a == 0)
}
