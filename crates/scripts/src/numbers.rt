ghost use Rattle.std.specs.Prelude.{◌≡◌, ◌^◌};
ghost use Rattle.std.specs.Char.{is_ascii_digit};
ghost use Rattle.std.specs.List.{list_all};
ghost use Rattle.scripts.specs.Reading.{is_number, number_below};

fn has_only_digits(text: &str) -> bool
    ensures { result ≡ list_all is_ascii_digit text.now }
{
    text.bytes().all(|byte| byte.is_ascii_digit())
}

// Returns whether a text is one or more digits.
fn is_digits(text: &str) -> bool
    ensures { result ≡ is_number text.now }
{
    !text.is_empty() && has_only_digits(text)
}

// Returns the number that a text of digits encodes, if it fits in 64 bits.
pub fn long_number(text: &str) -> Option<u64>
    ensures { result ≡ number_below (2 ^ 64) text.now }
{
    if !is_digits(text) {
        return None;
    }
    text.parse::<u64>().ok()
}

// Returns the number that a text of digits encodes, if it fits in 32 bits.
pub fn short_number(text: &str) -> Option<u32>
    ensures { result ≡ number_below (2 ^ 32) text.now }
{
    if !is_digits(text) {
        return None;
    }
    text.parse::<u32>().ok()
}
