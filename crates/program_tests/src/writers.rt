//! Writers that fail after a number of writes, and print functions with such writers.

ghost use Rattle.std.specs.Prelude.{◌≡◌, IfOk, length};

use embed::HostDef;
use program::{Print, Printed, define_prints};
use std::alloc::{AllocError, Global};
use std::io::{self, Write};

/// A writer whose calls of `write` fail after this number of them. `flushes` states whether it can be flushed.
#[derive(Clone, Copy, Drop)]
pub struct Failing {
    pub writes: u32,
    pub flushes: bool,
}

impl Write for Failing {
    fn write(&mut self, buf: &[u8]) -> io::Result<usize> {
        if self.writes == 0 {
            return Err(io::Error::from(io::ErrorKind::Other));
        }
        self.writes -= 1;
        Ok(buf.len())
    }

    fn flush(&mut self) -> io::Result<()> {
        if self.flushes {
            Ok(())
        } else {
            Err(io::Error::from(io::ErrorKind::Other))
        }
    }
}

/// Returns the definitions of the three print functions, each with such a writer. Fails if an allocation fails.
pub fn prints_to(alloc: Global, writer: Failing) -> Result<Vec<HostDef>, AllocError>
    ensures { IfOk result (λ hosts. length hosts.items ≡ 3) }
{
    let nothing = Box::new(alloc, Print::new(alloc, Printed::Nothing, writer)?)?;
    let short = Box::new(alloc, Print::new(alloc, Printed::I32, writer)?)?;
    let long = Box::new(alloc, Print::new(alloc, Printed::I64, writer)?)?;
    define_prints(alloc, nothing, short, long)
}
