//! A writer that remembers whether it has failed.

ghost use Rattle.std.specs.Prelude.{◌≡◌, [], IfSome, false};

use std::fmt::Display;
use std::io::Write;

/// A writer that lines are printed to, and whether it has failed. Nothing is written after a failure.
#[derive(Drop)]
pub struct Output<W> {
    writer: W,
    has_failed: bool,
}

impl<W: Write> Output<W> {
    ghost use Rattle.program.specs.Outputs.{Prints};

    /// Creates an output to a writer, which has not failed.
    pub fn new(writer: W) -> Output<W>
        ensures { result ≡ record { writer = writer; has_failed = false } }
    {
        Output {
            writer,
            has_failed: false,
        }
    }

    /// Returns the writer.
    pub fn writer(&self) -> &W
        ensures { result.now ≡ self.now.writer }
    {
        &self.writer
    }

    /// Returns whether the writer has failed.
    pub fn has_failed(&self) -> bool
        ensures { result ≡ self.now.has_failed }
    {
        self.has_failed
    }

    /// Writes a text, unless the writer has failed. `write!` and `writeln!` call this.
    pub fn write_fmt<D: Display + Drop>(&mut self, text: D)
        ensures { IfSome (D.output text) (Prints W.contents self.old self.new) }
    {
        if self.has_failed {
            return;
        }
        self.has_failed = self.writer.write_fmt(text).is_err();
    }

    /// Flushes the writer, unless it has failed.
    pub fn flush(&mut self)
        ensures { Prints W.contents self.old self.new [] }
    {
        if self.has_failed {
            return;
        }
        self.has_failed = self.writer.flush().is_err();
    }
}
