ghost use Rattle.std.specs.Prelude.{◌≡◌};
ghost use Rattle.meaning.specs.execution.Numerics.{integer, signed};

// Returns the signed number that an 8-bit integer represents.
#[tactic(auto, using(crate::proofs::Casts::signed_8_is))]
pub fn signed_8(a: u8) -> i8
    ensures { result ≡ signed 8 a }
{
    a.cast_signed()
}

// Returns the signed number that a 16-bit integer represents.
#[tactic(auto, using(crate::proofs::Casts::signed_16_is))]
pub fn signed_16(a: u16) -> i16
    ensures { result ≡ signed 16 a }
{
    a.cast_signed()
}

// Returns the signed number that a 32-bit integer represents.
#[tactic(auto, using(crate::proofs::Casts::signed_32_is))]
pub fn signed_32(a: u32) -> i32
    ensures { result ≡ signed 32 a }
{
    a.cast_signed()
}

// Returns the signed number that a 64-bit integer represents.
#[tactic(auto, using(crate::proofs::Casts::signed_64_is))]
pub fn signed_64(a: u64) -> i64
    ensures { result ≡ signed 64 a }
{
    a.cast_signed()
}

// Returns the 32-bit integer that represents a signed number.
#[tactic(auto, using(crate::proofs::Casts::integer_32_is))]
pub fn integer_32(z: i32) -> u32
    ensures { result ≡ integer 32 z }
{
    z.cast_unsigned()
}

// Returns the 64-bit integer that represents a signed number.
#[tactic(auto, using(crate::proofs::Casts::integer_64_is))]
pub fn integer_64(z: i64) -> u64
    ensures { result ≡ integer 64 z }
{
    z.cast_unsigned()
}
