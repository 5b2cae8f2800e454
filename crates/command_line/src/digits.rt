//! Numbers in decimal digits.

ghost use Rattle.std.specs.Prelude.{◌<◌, ◌^◌, SomeIff};
ghost use Rattle.std.specs.Str.Parse.{IsNumeral, digits_value};

/// Returns the number that a text of one or more ASCII digits represents, if it fits in a u64.
pub fn number(text: &str) -> Option<u64>
    ensures { SomeIff result (IsNumeral 10 text.now × (digits_value 10 text.now < 2 ^ 64))
        (digits_value 10 text.now) }
{
    if text.starts_with('+') {
        return None;
    }
    text.parse::<u64>().ok()
}

/// Returns the number that a text of one or more ASCII digits represents, if it fits in a u32.
pub fn short_number(text: &str) -> Option<u32>
    ensures { SomeIff result (IsNumeral 10 text.now × (digits_value 10 text.now < 2 ^ 32))
        (digits_value 10 text.now) }
{
    u32::try_from(number(text)?).ok()
}
