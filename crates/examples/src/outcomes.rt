//! How calls end, as lines.

use embed::{Outcome, Refusal};
use std::io::{self, Write};

/// Prints the end of a line: how a call ended.
pub fn print_outcome<W: Write>(out: &mut W, outcome: &Result<Outcome, Refusal>) -> io::Result<()> {
    match outcome {
        Ok(Outcome::Values(values)) => writeln!(out, "{values:?}"),
        Ok(Outcome::Trap(trap)) => writeln!(out, "{trap}"),
        Ok(Outcome::Exhausted(what)) => writeln!(out, "out of {what}"),
        Err(refusal) => writeln!(out, "{refusal}"),
    }
}
