//! Runs of the program, with files and writers in memory.

use crate::files::{OneModule, TextModule};
use crate::writers::{Failing, prints_to};
use program::{Output, run};
use std::alloc::{AllocError, Global};
use subcommands::Files;

/// The text that a run prints to one of its writers, and its exit status. It prints nothing to the other writer.
#[derive(Clone, Copy)]
pub enum Ending<'a> {
    Out(&'a str, u8),
    Err(&'a str, u8),
}

/// The arguments of a run with blanks between them, and how the run ends. The empty argument is written as `''`.
pub struct Row {
    pub words: &'static str,
    pub ending: Ending<'static>,
}

/// Returns the arguments of a row, as the program gets them. Fails if an allocation fails.
pub fn words_of(alloc: Global, text: &str) -> Result<Vec<String>, AllocError> {
    let mut words = Vec::new(alloc);
    for word in text.split_whitespace() {
        let word = if word == "''" { "" } else { word };
        words.push(String::from_str(alloc, word)?)?;
    }
    Ok(words)
}

// What a run printed, and its exit status.
#[derive(Drop)]
struct Printed {
    out: Output<Vec<u8>>,
    err: Output<Vec<u8>>,
    status: u8,
}

// A writer for print functions whose lines are not read.
const UNREAD: Failing = Failing {
    writes: u32::MAX,
    flushes: true,
};

fn run_in_memory<F: Files>(
    alloc: Global,
    words: &[String],
    files: &mut F,
) -> Result<Printed, AllocError> {
    let mut out = Output::new(Vec::new(alloc));
    let mut err = Output::new(Vec::new(alloc));
    let hosts = prints_to(alloc, UNREAD)?;
    let status = run(alloc, words, files, hosts, &mut out, &mut err);
    Ok(Printed { out, err, status })
}

fn is_printed(got: &Printed, out: &str, err: &str, status: u8) -> bool {
    got.out.writer().as_slice() == out.as_bytes()
        && got.err.writer().as_slice() == err.as_bytes()
        && got.status == status
}

/// Returns whether a run with these arguments and files ends like this.
pub fn ends_so<F: Files>(
    alloc: Global,
    words: &[String],
    files: &mut F,
    ending: Ending<'_>,
) -> bool {
    let Ok(got) = run_in_memory(alloc, words, files) else {
        return false;
    };
    match ending {
        Ending::Out(text, status) => is_printed(&got, text, "", status),
        Ending::Err(text, status) => is_printed(&got, "", text, status),
    }
}

/// Returns whether a run with these arguments and files prints a text that begins like this, and ends with status 0.
pub fn begins_so<F: Files>(alloc: Global, words: &[String], files: &mut F, text: &str) -> bool {
    let Ok(got) = run_in_memory(alloc, words, files) else {
        return false;
    };
    got.out.writer().as_slice().starts_with(text.as_bytes())
        && got.err.writer().is_empty()
        && got.status == 0
}

/// Returns whether a run with these arguments and a module with these sections ends like this. The sections are in hexadecimal.
/// Fails if an allocation fails.
pub fn ends_so_on(
    alloc: Global,
    words: &str,
    sections: &str,
    ending: Ending<'_>,
) -> Result<bool, AllocError> {
    let words = words_of(alloc, words)?;
    let mut module = OneModule { alloc, sections };
    Ok(ends_so(alloc, words.as_slice(), &mut module, ending))
}

/// Returns whether a run with these arguments and a module in the text format ends like this.
pub fn ends_so_on_text(
    alloc: Global,
    words: &str,
    text: &str,
    ending: Ending<'_>,
) -> Result<bool, AllocError> {
    let words = words_of(alloc, words)?;
    let mut module = TextModule { alloc, text };
    Ok(ends_so(alloc, words.as_slice(), &mut module, ending))
}
