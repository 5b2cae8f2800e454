//! Prints what a WebAssembly module contains, or why it is refused.
#![tactic(auto)]

use clap::error::ErrorKind;
use clap::{Arg, Command, Error};
use module_info::{Verdict, describe};
use std::alloc::{AllocError, Global};
use std::io::Read;
use std::process::ExitCode;
use std::{env, fs, io};

const VERSION: &str = "0.1.0";

const OUT_OF_MEMORY: u8 = 6;

// The program's arguments: one file. `clap` adds `--help` and `--version`.
fn command<'a>(alloc: Global) -> Result<Command<'a>, AllocError> {
    let file = Arg::new(alloc, "FILE")
        .required(true)
        .help("A module in the binary format, or - for standard input");
    Command::new(alloc, "wasminfo")
        .version(VERSION)
        .about("Prints what a WebAssembly module contains, or why it is refused")
        .arg(file)
}

// Prints help, the version, or what is wrong with the arguments. Returns the exit status.
fn print_help_or_fault(rt: &HostRuntime, error: &Error) -> io::Result<u8> {
    error.print(rt)?;
    Ok(match error.kind() {
        ErrorKind::DisplayHelp | ErrorKind::DisplayVersion => 0,
        ErrorKind::OutOfMemory => OUT_OF_MEMORY,
        _ => 2,
    })
}

// Reads the file at a path, or standard input if the path is `-`.
fn read_bytes(rt: &HostRuntime, path: &str) -> io::Result<Vec<u8>> {
    if path != "-" {
        return fs::read(rt, path);
    }
    let mut bytes = Vec::new(rt.alloc());
    rt.stdin().read_to_end(&mut bytes)?;
    Ok(bytes)
}

// Returns whether bytes look like a module in the text format.
fn looks_like_text(bytes: &[u8]) -> bool {
    matches!(
        bytes.iter().find(|byte| !byte.is_ascii_whitespace()),
        Some(b'(' | b';')
    )
}

// Prints what a module contains. Returns the exit status.
fn describe_module(rt: &HostRuntime, bytes: &[u8]) -> io::Result<u8> {
    match describe(rt.alloc(), &mut rt.stdout(), bytes)? {
        Verdict::Valid => Ok(0),
        Verdict::Refused => {
            if looks_like_text(bytes) {
                eprintln!(rt;
                    "not a binary module: it looks like text; wat2wasm (wabt) makes one"
                )?;
            }
            Ok(5)
        }
        Verdict::OutOfMemory => {
            eprintln!(rt; "out of memory")?;
            Ok(OUT_OF_MEMORY)
        }
    }
}

// Reads the file at a path, and prints what it contains. Returns the exit status.
fn describe_file(rt: &HostRuntime, path: &str) -> io::Result<u8> {
    match read_bytes(rt, path) {
        Ok(bytes) => describe_module(rt, bytes.as_slice()),
        Err(error) => {
            eprintln!(rt; "cannot read {path}: {error}")?;
            Ok(3)
        }
    }
}

// Does what the program's arguments ask for. Returns the exit status.
fn run(rt: &HostRuntime) -> io::Result<u8> {
    let words: Vec<String> = env::args(rt)?.collect(rt.alloc())?;
    match command(rt.alloc())?.try_get_matches_from(words.as_slice()) {
        Ok(matches) => match matches.get_str("FILE") {
            Some(path) => describe_file(rt, path),
            None => Ok(2),
        },
        Err(error) => print_help_or_fault(rt, &error),
    }
}

fn main(rt: HostRuntime) -> ExitCode {
    match run(&rt) {
        Ok(status) => ExitCode::from(status),
        Err(_) => ExitCode::from(1),
    }
}
