//! Laws and worked rows of bytes.

ghost use Rattle.std.specs.Prelude.{◌≡◌, ◌∷◌, [], ℕ, ◌+◌, ◌^◌, ◌<◌, ◌≤◌, List, length, Ok, Err};
ghost use Rattle.core_types.specs.declared.op.LoadOp.TheVariants as load;
ghost use Rattle.core_types.specs.declared.op.Sign.TheVariants.{Signed, Unsigned};
ghost use Rattle.core_types.specs.declared.op.Width.TheVariants.{W32, W64};
ghost use Rattle.core_types.specs.declared.outcome.Trap.TheVariants.{MemoryBounds};
ghost use Rattle.core_types.specs.declared.outcome.Val.TheVariants.{I32, I64};
ghost use Rattle.meaning.specs.execution.Storage.{bytes_of_number, number_of_bytes, overwrite};
ghost use Rattle.meaning.specs.execution.Memories.{copy_bytes, fill_bytes, load_from};

/// Law: the bytes of a number represent it, and writing bytes within others keeps their number.
pub fn bytes_represent_numbers()
    ensures back { (count n : ℕ) → n < 256 ^ count → number_of_bytes (bytes_of_number count n) ≡ n }
    ensures count { (count n : ℕ) → length (bytes_of_number count n) ≡ count }
    ensures kept { (bytes new : List ℕ) (offset : ℕ) → offset + length new ≤ length bytes
        → length (overwrite bytes offset new) ≡ length bytes }
{}

/// Worked rows of bytes:
/// - loads of few bytes as signed and as unsigned numbers
/// - an access past the end
/// - a copy over itself
/// - a fill with the low byte of a value
/// - a fill of nothing at the end and past it
pub fn bytes_are_read_and_written()
    ensures signed { load_from (load.Bits8 W32 Signed) (128 ∷ 255 ∷ []) 0 ≡ Ok (I32 4294967168) }
    ensures unsigned { load_from (load.Bits16 W32 Unsigned) (128 ∷ 255 ∷ []) 0 ≡ Ok (I32 65408) }
    ensures long { load_from (load.Bits16 W64 Signed) (128 ∷ 255 ∷ []) 0 ≡ Ok (I64
        18446744073709551488) }
    ensures past { load_from (load.Bits16 W32 Unsigned) (128 ∷ 255 ∷ []) 1 ≡ Err MemoryBounds }
    ensures copy { copy_bytes (1 ∷ 2 ∷ 3 ∷ 4 ∷ []) (1 ∷ 2 ∷ 3 ∷ 4 ∷ []) 1 0 3 ≡ Ok (1 ∷ 1 ∷ 2 ∷ 3 ∷
        []) }
    ensures fill { fill_bytes (0 ∷ 0 ∷ []) 0 263 1 ≡ Ok (7 ∷ 0 ∷ []) }
    ensures nothing_at_end { fill_bytes (0 ∷ 0 ∷ []) 2 1 0 ≡ Ok (0 ∷ 0 ∷ []) }
    ensures nothing_past_end { fill_bytes (0 ∷ 0 ∷ []) 3 1 0 ≡ Err MemoryBounds }
{}
