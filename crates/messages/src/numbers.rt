ghost use Rattle.std.specs.Prelude.{◌≡◌, ◌≢◌, ◌<◌, ◌^◌, ◌++◌, ℕ, List, IsUtf8, length, OnOk, IfSome, IsNone};
ghost use Rattle.messages.specs.Numbers.{number_bytes, text_bytes};

use std::alloc::AllocError;

/// Appends a number.
pub fn push_number(out: &mut Vec<u8>, number: u64) -> Result<(), AllocError>
    ensures { OnOk result (out.new.items ≡ out.old.items ++ number_bytes number) }
{
    out.extend_from_slice(&number.to_le_bytes())
}

/// Appends the length of a text, and then the text.
pub fn push_text(out: &mut Vec<u8>, text: &str) -> Result<(), AllocError>
    ensures { OnOk result (out.new.items ≡ out.old.items ++ text_bytes text.now) }
{
    push_number(out, text.len() as u64)?;
    out.extend_from_slice(text.as_bytes())
}

// Returns the number that eight bytes encode.
fn read_number(bytes: &[u8; 8]) -> u64
    ensures { number_bytes result ≡ bytes.now }
{
    u64::from_le_bytes(*bytes)
}

/// Splits bytes into the number at their start and the bytes after it. Returns none if there are fewer than eight bytes.
pub fn split_number(bytes: &[u8]) -> Option<(u64, &[u8])>
    ensures found { IfSome result (λ r. number_bytes r.0 ++ r.1.now ≡ bytes.now) }
    ensures fits { IfSome result (λ r. r.0 < 2 ^ 64) }
    ensures none { IsNone result → length bytes.now < 8 }
{
    let (front, behind) = bytes.split_first_chunk::<8>()?;
    Some((read_number(front), behind))
}

/// Splits bytes into the text at their start and the bytes after it. Returns none if they do not begin with a text.
pub fn split_text(bytes: &[u8]) -> Option<(&str, &[u8])>
    ensures found { IfSome result (λ r. text_bytes r.0.now ++ r.1.now ≡ bytes.now) }
    ensures fits { IfSome result (λ r. length r.0.now < 2 ^ 64) }
    ensures none { IsNone result → (text rest : List ℕ) → IsUtf8 text → length text < 2 ^ 64 →
        text_bytes text ++ rest ≢ bytes.now }
{
    let (count, behind) = split_number(bytes)?;
    if count > behind.len() as u64 {
        return None;
    }
    let (text, behind) = behind.split_at(count as usize);
    match str::from_utf8(text) {
        Ok(text) => Some((text, behind)),
        Err(_) => None,
    }
}
