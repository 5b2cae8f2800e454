ghost use Rattle.std.specs.Prelude.{◌≡◌, ℕ, ◌+◌, ◌-◌, ◌^◌, ◌<◌, ◌≤◌, ◌*◌, ◌<ℤ◌, ℤ, pos, ◌+ℤ◌, ◌*ℤ◌, length, drop, slice_index, IfNone, IfSome};
ghost use Rattle.std.proofs.Common.{rules};
ghost use Rattle.leb.specs.Ranges.{IsInRange};
ghost use Rattle.meaning.specs.binary.Values.{EndsSigned, SpellsSigned};
ghost use Rattle.meaning.specs.binary.Conventions.{NoFront, Reads};

use crate::width::{Five, Four, More, One};

// Returns the signed integer that a last byte represents, if there are enough bits for each.
#[inline(always)]
fn value_of_last(byte: u8) -> i32
    requires last { byte < 2 ^ 7 }
    ensures range { IsInRange 7 result }
    ensures found { EndsSigned 7 byte result }
{
    i32::from((byte + 0x40) % 0x80) - 0x40
}

// Returns the `bits`-bit signed integer that a last byte represents.
#[inline(always)]
fn last_value(bits: u32, byte: u8) -> Option<i64>
    requires some_bits { 0 < bits }
    requires at_most { bits ≤ 7 }
    requires last { byte < 2 ^ 7 }
    ensures range { IfSome result (IsInRange bits) }
    ensures found { IfSome result (EndsSigned bits byte) }
    ensures none { IfNone result ((z : ℤ) → EndsSigned bits byte z → ⊥) }
{
    let value = i64::from(value_of_last(byte));
    let half = 1 << (bits - 1);
    (-half <= value && value < half).then_some(value)
}

// Reads the signed integer whose encoding is the one byte at `at`, and returns it with the offset after the byte.
#[inline(always)]
fn read_last(bytes: &[u8], at: usize, bits: u32) -> Option<(i64, usize)>
    requires some_bits { 0 < bits }
    requires at_most { bits ≤ 7 }
    requires within { at ≤ length bytes.now }
    ensures within { IfSome result (λ f. (at < f.1) × (f.1 ≤ length bytes.now)) }
    ensures range { IfSome result (λ f. IsInRange bits f.0) }
    ensures found { IfSome result
        (λ f. Reads (SpellsSigned bits) (drop at bytes.now) f.0 (drop f.1 bytes.now)) }
    ensures none { IfNone result (NoFront (SpellsSigned bits) (drop at bytes.now)) }
{
    if at >= bytes.len() {
        return None;
    }
    if bytes[at] >= 0x80 {
        return None;
    }
    let value = last_value(bits, bytes[at])?;
    Some((value, at + 1))
}

// Returns the number of a byte that is not the last, followed by the rest, which represents `high`.
#[inline(always)]
fn joined_value(byte: u8, high: i64) -> i64
    requires not_last { 2 ^ 7 ≤ byte }
    requires rest { IsInRange (64 - 7) high }
    ensures { result +ℤ pos (2 ^ 7) ≡ (pos (2 ^ 7) *ℤ high) +ℤ pos byte }
{
    high * 0x80 + i64::from(byte - 0x80)
}

// Signed integers of some number of bits.
trait Signed {
    ghost bits: { ℕ };

    // Reads the integer whose encoding begins at `at`, and returns it with the offset after the encoding.
    fn read(bytes: &[u8], at: usize) -> Option<(i64, usize)>
        requires at_most { bits ≤ 64 }
        requires within { at ≤ length bytes.now }
        ensures within { IfSome result (λ f. (at < f.1) × (f.1 ≤ length bytes.now)) }
        ensures range { IfSome result (λ f. IsInRange bits f.0) }
        ensures found { IfSome result
            (λ f. Reads (SpellsSigned bits) (drop at bytes.now) f.0 (drop f.1 bytes.now)) }
        ensures none { IfNone result (NoFront (SpellsSigned bits) (drop at bytes.now)) };

    ghost some_bits: { 0 < bits };
}

impl Signed for One {
    ghost bits = { 1 };

    #[inline(always)]
    fn read(bytes: &[u8], at: usize) -> Option<(i64, usize)> {
        read_last(bytes, at, 1)
    }

    ghost some_bits = { Prim.search rules };
}

impl Signed for Four {
    ghost bits = { 4 };

    #[inline(always)]
    fn read(bytes: &[u8], at: usize) -> Option<(i64, usize)> {
        read_last(bytes, at, 4)
    }

    ghost some_bits = { Prim.search rules };
}

impl Signed for Five {
    ghost bits = { 5 };

    #[inline(always)]
    fn read(bytes: &[u8], at: usize) -> Option<(i64, usize)> {
        read_last(bytes, at, 5)
    }

    ghost some_bits = { Prim.search rules };
}

impl<R: Signed> Signed for More<R> {
    ghost bits = { R.bits + 7 };

    #[inline(always)]
    fn read(bytes: &[u8], at: usize) -> Option<(i64, usize)> {
        if at >= bytes.len() {
            return None;
        }
        if bytes[at] < 0x80 {
            return Some((i64::from(value_of_last(bytes[at])), at + 1));
        }
        read_more::<R>(bytes, at)
    }

    ghost some_bits = { Prim.search rules };
}

// Reads the integer whose encoding begins at `at`, with a byte that is not the last.
#[inline(always)]
fn read_more<R: Signed>(bytes: &[u8], at: usize) -> Option<(i64, usize)>
    requires at_most { R.bits + 7 ≤ 64 }
    requires within { at < length bytes.now }
    requires more { 2 ^ 7 ≤ slice_index bytes.now at }
    ensures within { IfSome result (λ f. (at < f.1) × (f.1 ≤ length bytes.now)) }
    ensures range { IfSome result (λ f. IsInRange (R.bits + 7) f.0) }
    ensures found { IfSome result
        (λ f. Reads (SpellsSigned (R.bits + 7)) (drop at bytes.now) f.0 (drop f.1 bytes.now)) }
    ensures none { IfNone result (NoFront (SpellsSigned (R.bits + 7)) (drop at bytes.now)) }
{
    let (high, end) = R::read(bytes, at + 1)?;
    Some((joined_value(bytes[at], high), end))
}

// Reads the signed 32-bit integer whose encoding begins at `at`, with a byte that is not the last. Returns it with the offset after the
// encoding, which is 0 if no encoding begins there. Unlike an `Option`, the pair is returned in registers.
#[cold]
#[inline(never)]
fn read_long_s32(bytes: &[u8], at: usize) -> (i32, usize)
    requires within { at < length bytes.now }
    requires more { 2 ^ 7 ≤ slice_index bytes.now at }
    ensures within { result.1 ≤ length bytes.now }
    ensures found { 0 < result.1 → (at < result.1)
        × Reads (SpellsSigned 32) (drop at bytes.now) result.0 (drop result.1 bytes.now) }
    ensures none { result.1 ≡ 0 → NoFront (SpellsSigned 32) (drop at bytes.now) }
{
    match read_more::<More<More<More<Four>>>>(bytes, at) {
        Some((value, end)) => (value as i32, end),
        None => (0, 0),
    }
}

// Reads the signed 32-bit integer whose encoding begins at `at`, if it has more than one byte or is missing.
#[inline(always)]
fn read_other_s32(bytes: &[u8], at: usize) -> Option<(i32, usize)>
    requires within { at ≤ length bytes.now }
    requires more { at < length bytes.now → 2 ^ 7 ≤ slice_index bytes.now at }
    ensures within { IfSome result (λ f. (at < f.1) × (f.1 ≤ length bytes.now)) }
    ensures found { IfSome result
        (λ f. Reads (SpellsSigned 32) (drop at bytes.now) f.0 (drop f.1 bytes.now)) }
    ensures none { IfNone result (NoFront (SpellsSigned 32) (drop at bytes.now)) }
{
    if at >= bytes.len() {
        return None;
    }
    let (value, end) = read_long_s32(bytes, at);
    if end == 0 {
        return None;
    }
    Some((value, end))
}

/// Reads the signed 32-bit integer whose encoding begins at `at`, and returns it with the offset after the encoding.
///
/// `at` must be at most the number of bytes. Returns `None` if no encoding begins there: the bytes end too early, it would take
/// more than five, or those encode a number beyond 32 bits (Binary Format, Values, Integers).
#[inline(always)]
pub fn read_s32(bytes: &[u8], at: usize) -> Option<(i32, usize)>
    requires { at ≤ length bytes.now }
    ensures within { IfSome result (λ f. (at < f.1) × (f.1 ≤ length bytes.now)) }
    ensures found { IfSome result
        (λ f. Reads (SpellsSigned 32) (drop at bytes.now) f.0 (drop f.1 bytes.now)) }
    ensures none { IfNone result (NoFront (SpellsSigned 32) (drop at bytes.now)) }
{
    if at < bytes.len() && bytes[at] < 0x80 {
        return Some((value_of_last(bytes[at]), at + 1));
    }
    read_other_s32(bytes, at)
}

/// Reads the signed 33-bit integer whose encoding begins at `at`, and returns it with the offset after the encoding.
///
/// `at` must be at most the number of bytes. Returns `None` if no encoding begins there: the bytes end too early, it would take
/// more than five, or those encode a number beyond 33 bits (Binary Format, Values, Integers).
pub fn read_s33(bytes: &[u8], at: usize) -> Option<(i64, usize)>
    requires { at ≤ length bytes.now }
    ensures within { IfSome result (λ f. (at < f.1) × (f.1 ≤ length bytes.now)) }
    ensures found { IfSome result
        (λ f. Reads (SpellsSigned 33) (drop at bytes.now) f.0 (drop f.1 bytes.now)) }
    ensures range { IfSome result (λ f. f.0 <ℤ pos (2 ^ 32)) }
    ensures none { IfNone result (NoFront (SpellsSigned 33) (drop at bytes.now)) }
{
    More::<More<More<More<Five>>>>::read(bytes, at)
}

/// Reads the signed 64-bit integer whose encoding begins at `at`, and returns it with the offset after the encoding.
///
/// `at` must be at most the number of bytes. Returns `None` if no encoding begins there: the bytes end too early, it would take
/// more than ten, or those encode a number beyond 64 bits (Binary Format, Values, Integers).
pub fn read_s64(bytes: &[u8], at: usize) -> Option<(i64, usize)>
    requires { at ≤ length bytes.now }
    ensures within { IfSome result (λ f. (at < f.1) × (f.1 ≤ length bytes.now)) }
    ensures found { IfSome result
        (λ f. Reads (SpellsSigned 64) (drop at bytes.now) f.0 (drop f.1 bytes.now)) }
    ensures none { IfNone result (NoFront (SpellsSigned 64) (drop at bytes.now)) }
{
    More::<More<More<More<More<More<More<More<More<One>>>>>>>>>::read(bytes, at)
}
