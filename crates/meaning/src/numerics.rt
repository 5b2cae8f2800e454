//! Laws of the integer operators.

ghost use Rattle.std.specs.Prelude.{◌≡◌, ℕ, suc, ◌+◌, ◌-◌, ◌*◌, ◌%◌, ◌^◌, ◌<◌, ◌≤◌, min, max, pos, neg_ℤ, ◌≤ℤ◌, ◌<ℤ◌, IfOk};
ghost use Rattle.std.specs.Int.{bit_at};
ghost use Rattle.core_types.specs.declared.op.BinaryOp.{BinaryOp};
ghost use Rattle.core_types.specs.declared.op.BinaryOp.TheVariants.{And, Or, Rotl, Rotr, Xor};
ghost use Rattle.core_types.specs.declared.op.Comparison.{Comparison};
ghost use Rattle.core_types.specs.declared.op.Conversion.{Conversion};
ghost use Rattle.core_types.specs.declared.op.Conversion.TheVariants.{I32WrapI64};
ghost use Rattle.core_types.specs.declared.op.UnaryOp.{UnaryOp};
ghost use Rattle.meaning.specs.execution.Numerics.{binary_operator, comparison_operator, conversion_operator, digits, eqz_operator, integer, signed, sum_of_bits, twos, unary_operator};

/// Law: an integer represents one signed number, between the least and the greatest of its width.
pub fn integers_stand_for_signed_numbers()
    ensures back { (bits a : ℕ) → a < 2 ^ bits → integer bits (signed bits a) ≡ a }
    ensures least { (bits a : ℕ) → 0 < bits → a < 2 ^ bits → neg_ℤ (pos (2 ^ (bits - 1))) ≤ℤ signed
        bits a }
    ensures greatest { (bits a : ℕ) → 0 < bits → a < 2 ^ bits → signed bits a <ℤ pos (2 ^ (bits -
        1)) }
{}

/// Law: the meaning of the counts. A number is below 2 to the count of its binary digits, and below no lesser power of 2. It is
/// an odd number times the power of 2 that is counted in it. The sum of its bits has the bit of each place.
pub fn counts_are_of_digits_and_bits()
    ensures digits_suffice { (k a : ℕ) → a < 2 ^ k → a < 2 ^ digits k a }
    ensures no_fewer { (k a j : ℕ) → a < 2 ^ j → digits k a ≤ j }
    ensures twos_divide { (k a : ℕ) → 0 < a → a < 2 ^ k
        → (m : ℕ) × (a ≡ (2 * m + 1) * 2 ^ twos k a) }
    ensures twos_of_zero { (k : ℕ) → twos k 0 ≡ k }
    ensures no_bits { (a : ℕ) → sum_of_bits 0 a ≡ 0 }
    ensures one_more_bit { (k a : ℕ) → sum_of_bits (suc k) a ≡ sum_of_bits k a + bit_at a k }
{}

/// Law: `and`, `or` and `xor` work bit by bit, each on the two bits of one place.
pub fn logic_goes_bit_by_bit()
    ensures conjunction { (bits a b i : ℕ) → IfOk (binary_operator bits And a b) (λ n. bit_at n i ≡
        min (bit_at a i) (bit_at b i)) }
    ensures disjunction { (bits a b i : ℕ) → IfOk (binary_operator bits Or a b) (λ n. bit_at n i ≡
        max (bit_at a i) (bit_at b i)) }
    ensures exclusion { (bits a b i : ℕ) → IfOk (binary_operator bits Xor a b) (λ n. bit_at n i ≡
        (bit_at a i + bit_at b i) % 2) }
{}

/// Law: a rotation moves each bit by a number of places, upward or downward, around the ends.
pub fn rotations_move_each_bit()
    ensures left { (bits a b i : ℕ) → a < 2 ^ bits → i < bits → IfOk (binary_operator bits Rotl a b)
        (λ n. bit_at n ((i + b) % bits) ≡ bit_at a i) }
    ensures right { (bits a b i : ℕ) → a < 2 ^ bits → i < bits → IfOk (binary_operator bits Rotr a
        b) (λ n. bit_at n i ≡ bit_at a ((i + b) % bits)) }
{}

/// Law: an operator on integers of a width returns one of the width, or a trap. A test or a comparison returns 0 or 1. A
/// conversion returns an integer of the width that it leads to.
pub fn results_have_their_width()
    ensures binary { (bits : ℕ) (op : BinaryOp) (a b : ℕ) → 0 < bits → a < 2 ^ bits → b < 2 ^ bits
        → IfOk (binary_operator bits op a b) (λ n. n < 2 ^ bits) }
    ensures unary { (bits : ℕ) (op : UnaryOp) (a : ℕ) → unary_operator bits op a < 2 ^ bits }
    ensures eqz { (a : ℕ) → eqz_operator a ≤ 1 }
    ensures comparison { (bits : ℕ) (op : Comparison) (a b : ℕ) → comparison_operator bits op a b ≤
        1 }
    ensures wrap { (a : ℕ) → conversion_operator I32WrapI64 a < 2 ^ 32 }
    ensures conversion { (op : Conversion) (a : ℕ) → a < 2 ^ 64
        → conversion_operator op a < 2 ^ 64 }
{}
