//! Laws of cells.

ghost use Rattle.std.specs.Prelude.{◌≡◌, ℕ};
ghost use Rattle.core_types.specs.declared.outcome.Val.{Val};
ghost use Rattle.core_types.specs.declared.types.ValType.{ValType};
ghost use Rattle.meaning.specs.execution.Values.{default_of, type_of};
ghost use Rattle.cells.specs.Cells.{cell_of, value_of};

/// Law: the cell of a value, read at its type, is the value. A value read at a type has that type, and its cell is the one that
/// was read.
pub fn cells_are_values()
    ensures value { (v : Val) → value_of (type_of v) (cell_of v) ≡ v }
    ensures ty { (t : ValType) (n : ℕ) → type_of (value_of t n) ≡ t }
    ensures cell { (t : ValType) (n : ℕ) → cell_of (value_of t n) ≡ n }
{}

/// Law: the cell of each type's first value is 0.
pub fn first_values_are_zero()
    ensures { (t : ValType) → cell_of (default_of t) ≡ 0 }
{}
