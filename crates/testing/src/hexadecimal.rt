//! Bytes as a text of hexadecimal numbers.

ghost use Rattle.std.specs.Prelude.{◌<◌, IfSome};

use std::alloc::{AllocError, Global};

/// Returns the value of a hexadecimal digit of either case.
pub fn digit(code: u8) -> Option<u8>
    ensures { IfSome result (λ value. value < 16) }
{
    match code {
        b'0'..=b'9' => Some(code - b'0'),
        b'A'..=b'F' => Some(code - b'A' + 10),
        b'a'..=b'f' => Some(code - b'a' + 10),
        _ => None,
    }
}

/// Returns the bytes of a text of two-digit hexadecimal numbers. Blanks are skipped, and any other code counts as the digit 0.
pub fn bytes_of(alloc: Global, text: &str) -> Result<Vec<u8>, AllocError> {
    let mut bytes = Vec::new(alloc);
    let mut high = None;
    for code in text.as_bytes() {
        if *code == b' ' {
            continue;
        }
        let value = digit(*code).unwrap_or(0);
        match high {
            None => high = Some(value),
            Some(first) => {
                bytes.push(first % 16 * 16 + value)?;
                high = None;
            }
        }
    }
    Ok(bytes)
}
