ghost use Rattle.std.specs.Prelude.{◌≡◌, ℕ, ◌^◌, ◌<◌, ◌≤◌, ◌+◌, length, drop, slice_index, IfNone, IfSome};
ghost use Rattle.std.proofs.Common.{rules};
ghost use Rattle.meaning.specs.binary.Values.{SpellsUnsigned};
ghost use Rattle.meaning.specs.binary.Conventions.{NoFront, Reads};

use crate::width::{Four, More};

// Unsigned integers of some number of bits.
trait Unsigned {
    ghost bits: { ℕ };

    // Reads the integer whose encoding begins at `at`, and returns it with the offset after the encoding.
    fn read(bytes: &[u8], at: usize) -> Option<(u32, usize)>
        requires at_most { bits ≤ 32 }
        requires within { at ≤ length bytes.now }
        ensures within { IfSome result (λ f. (at < f.1) × (f.1 ≤ length bytes.now)) }
        ensures range { IfSome result (λ f. f.0 < 2 ^ bits) }
        ensures found { IfSome result
            (λ f. Reads (SpellsUnsigned bits) (drop at bytes.now) f.0 (drop f.1 bytes.now)) }
        ensures none { IfNone result (NoFront (SpellsUnsigned bits) (drop at bytes.now)) };

    ghost some_bits: { 0 < bits };
}

impl Unsigned for Four {
    ghost bits = { 4 };

    #[inline(always)]
    fn read(bytes: &[u8], at: usize) -> Option<(u32, usize)> {
        if at >= bytes.len() {
            return None;
        }
        if bytes[at] >= 0x10 {
            return None;
        }
        Some((u32::from(bytes[at]), at + 1))
    }

    ghost some_bits = { Prim.search rules };
}

impl<R: Unsigned> Unsigned for More<R> {
    ghost bits = { R.bits + 7 };

    #[inline(always)]
    fn read(bytes: &[u8], at: usize) -> Option<(u32, usize)> {
        if at >= bytes.len() {
            return None;
        }
        if bytes[at] < 0x80 {
            return Some((u32::from(bytes[at]), at + 1));
        }
        read_more::<R>(bytes, at)
    }

    ghost some_bits = { Prim.search rules };
}

// Reads the integer whose encoding begins at `at`, with a byte that is not the last.
#[inline(always)]
fn read_more<R: Unsigned>(bytes: &[u8], at: usize) -> Option<(u32, usize)>
    requires at_most { R.bits + 7 ≤ 32 }
    requires within { at < length bytes.now }
    requires more { 2 ^ 7 ≤ slice_index bytes.now at }
    ensures within { IfSome result (λ f. (at < f.1) × (f.1 ≤ length bytes.now)) }
    ensures range { IfSome result (λ f. f.0 < 2 ^ (R.bits + 7)) }
    ensures found { IfSome result
        (λ f. Reads (SpellsUnsigned (R.bits + 7)) (drop at bytes.now) f.0 (drop f.1 bytes.now)) }
    ensures none { IfNone result (NoFront (SpellsUnsigned (R.bits + 7)) (drop at bytes.now)) }
{
    let (high, end) = R::read(bytes, at + 1)?;
    Some((high * 0x80 + u32::from(bytes[at] - 0x80), end))
}

// Reads the unsigned 32-bit integer whose encoding begins at `at`, with a byte that is not the last. Returns it with the offset after the
// encoding, which is 0 if no encoding begins there. Unlike an `Option`, the pair is returned in registers.
#[cold]
#[inline(never)]
fn read_long_u32(bytes: &[u8], at: usize) -> (u32, usize)
    requires within { at < length bytes.now }
    requires more { 2 ^ 7 ≤ slice_index bytes.now at }
    ensures within { result.1 ≤ length bytes.now }
    ensures found { 0 < result.1 → (at < result.1)
        × Reads (SpellsUnsigned 32) (drop at bytes.now) result.0 (drop result.1 bytes.now) }
    ensures none { result.1 ≡ 0 → NoFront (SpellsUnsigned 32) (drop at bytes.now) }
{
    match read_more::<More<More<More<Four>>>>(bytes, at) {
        Some((value, end)) => (value, end),
        None => (0, 0),
    }
}

// Reads the unsigned 32-bit integer whose encoding begins at `at`, if it has more than one byte or is missing.
#[inline(always)]
fn read_other_u32(bytes: &[u8], at: usize) -> Option<(u32, usize)>
    requires within { at ≤ length bytes.now }
    requires more { at < length bytes.now → 2 ^ 7 ≤ slice_index bytes.now at }
    ensures within { IfSome result (λ f. (at < f.1) × (f.1 ≤ length bytes.now)) }
    ensures found { IfSome result
        (λ f. Reads (SpellsUnsigned 32) (drop at bytes.now) f.0 (drop f.1 bytes.now)) }
    ensures none { IfNone result (NoFront (SpellsUnsigned 32) (drop at bytes.now)) }
{
    if at >= bytes.len() {
        return None;
    }
    let (value, end) = read_long_u32(bytes, at);
    if end == 0 {
        return None;
    }
    Some((value, end))
}

/// Reads the unsigned 32-bit integer whose encoding begins at `at`, and returns it with the offset after the encoding.
///
/// `at` must be at most the number of bytes. Returns `None` if no encoding begins there: the bytes end too early, it would take
/// more than five, or those encode a number beyond 32 bits (Binary Format, Values, Integers).
#[inline(always)]
pub fn read_u32(bytes: &[u8], at: usize) -> Option<(u32, usize)>
    requires { at ≤ length bytes.now }
    ensures within { IfSome result (λ f. (at < f.1) × (f.1 ≤ length bytes.now)) }
    ensures found { IfSome result
        (λ f. Reads (SpellsUnsigned 32) (drop at bytes.now) f.0 (drop f.1 bytes.now)) }
    ensures none { IfNone result (NoFront (SpellsUnsigned 32) (drop at bytes.now)) }
{
    if at < bytes.len() && bytes[at] < 0x80 {
        return Some((u32::from(bytes[at]), at + 1));
    }
    read_other_u32(bytes, at)
}
