ghost use Rattle.std.specs.Prelude.{◌≡◌, ◌*◌, ◌/◌, ◌%◌, ◌^◌, pos};
ghost use Rattle.std.specs.Int.{int_div_euclid};
ghost use Rattle.meaning.specs.execution.Numerics.{integer, rotated_left, rotated_right, signed};

use crate::signed::{integer_32, integer_64, signed_32, signed_64};

// Returns the bits of a 32-bit integer, moved up. Those above the highest place are lost.
pub fn shift_left_32(a: u32, k: u32) -> u32
    ensures { result ≡ (a * 2 ^ (k % 32)) % 2 ^ 32 }
{
    a << (k % 32)
}

// Returns the bits of a 64-bit integer, moved up. Those above the highest place are lost.
pub fn shift_left_64(a: u64, k: u64) -> u64
    ensures { result ≡ (a * 2 ^ (k % 64)) % 2 ^ 64 }
{
    a << (k % 64)
}

// Returns the bits of a 32-bit integer, moved down, with zeros above them.
pub fn shift_right_unsigned_32(a: u32, k: u32) -> u32
    ensures { result ≡ a / 2 ^ (k % 32) }
{
    a >> (k % 32)
}

// Returns the bits of a 64-bit integer, moved down, with zeros above them.
pub fn shift_right_unsigned_64(a: u64, k: u64) -> u64
    ensures { result ≡ a / 2 ^ (k % 64) }
{
    a >> (k % 64)
}

// Returns the bits of a 32-bit integer, moved down, with its highest bit above them.
#[tactic(auto, using(crate::proofs::Shifts::shifted_is))]
pub fn shift_right_signed_32(a: u32, k: u32) -> u32
    ensures { result ≡ integer 32 (int_div_euclid (signed 32 a) (pos (2 ^ (k % 32)))) }
{
    integer_32(signed_32(a) >> (k % 32))
}

// Returns the bits of a 64-bit integer, moved down, with its highest bit above them.
#[tactic(auto, using(crate::proofs::Shifts::shifted_is))]
pub fn shift_right_signed_64(a: u64, k: u64) -> u64
    ensures { result ≡ integer 64 (int_div_euclid (signed 64 a) (pos (2 ^ (k % 64)))) }
{
    integer_64(signed_64(a) >> (k % 64))
}

// Returns the bits of a 32-bit integer, rotated up.
#[tactic(auto, using(crate::proofs::Rotations::left_32_is))]
pub fn rotate_left_32(a: u32, k: u32) -> u32
    ensures { result ≡ rotated_left 32 a (k % 32) }
{
    a.rotate_left(k)
}

// Returns the bits of a 64-bit integer, rotated up.
#[tactic(auto, using(crate::proofs::Rotations::left_64_is))]
pub fn rotate_left_64(a: u64, k: u64) -> u64
    ensures { result ≡ rotated_left 64 a (k % 64) }
{
    a.rotate_left((k % 64) as u32)
}

// Returns the bits of a 32-bit integer, rotated down.
#[tactic(auto, using(crate::proofs::Rotations::right_32_is))]
pub fn rotate_right_32(a: u32, k: u32) -> u32
    ensures { result ≡ rotated_right 32 a (k % 32) }
{
    a.rotate_right(k)
}

// Returns the bits of a 64-bit integer, rotated down.
#[tactic(auto, using(crate::proofs::Rotations::right_64_is))]
pub fn rotate_right_64(a: u64, k: u64) -> u64
    ensures { result ≡ rotated_right 64 a (k % 64) }
{
    a.rotate_right((k % 64) as u32)
}
