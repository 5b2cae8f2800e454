// Returns the number of these digits. They are hexadecimal after `0x`, and decimal otherwise.
fn magnitude(digits: &str) -> Option<u64> {
    match digits.strip_prefix("0x") {
        Some(hexadecimal) => u64::from_str_radix(hexadecimal, 16).ok(),
        None => digits.parse().ok(),
    }
}

/// Returns the number of a word, below the 32nd power of 2.
pub fn unsigned(word: &str) -> Option<u64> {
    match magnitude(word) {
        Some(number) if number <= u64::from(u32::MAX) => Some(number),
        _ => None,
    }
}

/// Returns the integer of a word, signed or unsigned, as the 64 bits of a signed one. The integer has as many bits as twice
/// `half` has values.
pub fn integer(word: &str, half: u64) -> Option<u64> {
    let (digits, is_negative) = match word.strip_prefix('-') {
        Some(digits) => (digits, true),
        None => (word, false),
    };
    match magnitude(digits) {
        Some(number) if is_negative && number <= half => Some(number.wrapping_neg()),
        Some(number) if !is_negative && number < half => Some(number),
        Some(number) if !is_negative && number - half < half => {
            Some((number - half).wrapping_sub(half))
        }
        _ => None,
    }
}
