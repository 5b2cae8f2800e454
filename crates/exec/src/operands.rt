ghost use Rattle.std.specs.Prelude.{◌≡◌, ◌<◌, ◌≤◌, ◌^◌, length};
ghost use Rattle.exec.specs.Instructions.{operand_of};

use crate::call::Call;
use effects::low;

/// Returns an operand, counted from the topmost one.
pub fn operand(call: &Call, depth: usize) -> u64
    requires low { depth ≤ call.now.position.top }
    requires inside { call.now.position.top < length call.now.cells.items }
    ensures { result ≡ operand_of call.now depth }
{
    if depth == 0 {
        call.position.operand
    } else {
        call.cells[call.position.top - depth]
    }
}

/// Returns an operand that is a 32-bit integer.
pub fn integer(call: &Call, depth: usize) -> u32
    requires low { depth ≤ call.now.position.top }
    requires inside { call.now.position.top < length call.now.cells.items }
    requires cell { operand_of call.now depth < 2 ^ 32 }
    ensures { result ≡ operand_of call.now depth }
{
    low(operand(call, depth))
}
