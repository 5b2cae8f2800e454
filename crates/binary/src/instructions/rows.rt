//! Rows of opcodes that are next to each other.

ghost use Rattle.std.specs.Prelude.{◌≡◌, ◌≤◌};
ghost use Rattle.core_types.specs.reading.Instructions.{in_row};

// The operation of an opcode, in a row of opcodes from the first on.
pub fn op_of<T: Copy>(row: &[Option<T>], first: u8, code: u8) -> Option<T>
    requires { first ≤ code }
    ensures { result ≡ in_row first row.now code }
{
    match row.get((code - first) as usize) {
        Some(op) => *op,
        None => None,
    }
}
