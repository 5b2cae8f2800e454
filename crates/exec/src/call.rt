ghost use Rattle.std.specs.Prelude.{◌≡◌, ◌+◌, ◌<◌, ◌^◌};
ghost use Rattle.interpreter.specs.Calling.{frame_waiting};

use core_types::Stack;
use interpreter::{Frame, Position};

/// How many bytes of a quota a cell counts.
pub const CELL_BYTES: u64 = 8;

/// How many bytes of a quota a frame that may be open counts.
pub const FRAME_BYTES: u64 = 32;

/// A call that runs or has stopped: its cells, the waiting frames, the innermost first, and its position.
#[derive(Drop)]
pub struct Call {
    pub cells: Vec<u64>,
    pub callers: Stack<Frame>,
    pub position: Position,
}

/// Returns the innermost frame, after the operation at the position.
pub fn frame_behind(position: Position) -> Frame
    requires { position.place + 1 < 2 ^ 32 }
    ensures { result ≡ frame_waiting position }
{
    Frame {
        base: position.base,
        place: position.place as u32 + 1,
        instance: position.instance,
    }
}
