/// How a server ended.
#[derive(Clone, Copy, PartialEq, Eq, Debug)]
pub enum Ending {
    /// A client told it to end.
    Told,
    /// Its input ended before a message began.
    InputOver,
    /// Its input ended within a message.
    CutShort,
    /// A write failed.
    NotWritten,
    /// An allocation failed at the start or for a reply.
    OutOfMemory,
}

impl Ending {
    ghost use Rattle.std.specs.Prelude.{◌<◌};

    /// Returns the exit status of a program for this ending.
    pub fn status(self) -> u8
        ensures { result < 5 }
    {
        match self {
            Ending::Told => 0,
            Ending::InputOver => 1,
            Ending::CutShort => 2,
            Ending::NotWritten => 3,
            Ending::OutOfMemory => 4,
        }
    }
}
