ghost use Rattle.std.specs.Prelude.{ℕ};
ghost use Rattle.meaning.specs.binary.Values.{SpellsSigned, SpellsUnsigned};
ghost use Rattle.meaning.specs.binary.Conventions.{IsPrefixFree};

/// Law: no encoding of an integer begins another one, and each encodes one integer.
///
/// This is a law of the definitions (Binary Format, Values, Integers), which readers above can use. The function does nothing.
pub fn spellings_are_prefix_free()
    ensures unsigned { (bits : ℕ) → IsPrefixFree (SpellsUnsigned bits) }
    ensures signed { (bits : ℕ) → IsPrefixFree (SpellsSigned bits) }
{}
