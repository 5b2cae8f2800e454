//! Serves an embedding over standard input and output.
#![tactic(auto)]

use clap::error::ErrorKind;
use clap::{Arg, Command, Error, value_parser};
use serve::{Ending, serve};
use std::alloc::{AllocError, Global};
use std::io::Read;
use std::process::ExitCode;
use std::{env, io};

const VERSION: &str = "0.1.0";

// The descriptors of standard output and input.
const OUTPUT: i32 = 1;

const INPUT: i32 = 0;

// The statuses if memory runs out before the conversation, if standard output fails, and if the arguments are not accepted.
const OUT_OF_MEMORY: u8 = 4;

const NOT_WRITTEN: u8 = 3;

const BAD_ARGUMENTS: u8 = 5;

// What the program's arguments request: to serve with a quota of that many bytes, or to end with a status.
enum Request {
    Serve(u64),
    End(u8),
}

// The program's arguments. `clap` adds `--help` and `--version`.
fn command<'a>(alloc: Global) -> Result<Command<'a>, AllocError> {
    let quota = Arg::new(alloc, "quota")
        .long("quota")
        .value_name("BYTES")
        .value_parser(value_parser!(u64))
        .help("The most bytes that modules, instances and a call may hold together");
    Command::new(alloc, "wasmserve")
        .version(VERSION)
        .about("Serves an embedding over standard input and output")
        .arg(quota)
}

// Prints help, the version, or what is wrong with the arguments. Returns the exit status.
fn print_help_or_fault(rt: &HostRuntime, error: &Error) -> io::Result<u8> {
    let status = match error.kind() {
        ErrorKind::OutOfMemory => return Ok(OUT_OF_MEMORY),
        ErrorKind::DisplayHelp | ErrorKind::DisplayVersion => 0,
        _ => BAD_ARGUMENTS,
    };
    error.print(rt)?;
    Ok(status)
}

// Reads the program's arguments.
fn read_arguments(rt: &HostRuntime) -> io::Result<Request> {
    let words: Vec<String> = env::args(rt)?.collect(rt.alloc())?;
    match command(rt.alloc())?.try_get_matches_from(words.as_slice()) {
        Ok(matches) => Ok(Request::Serve(matches.get_one::<u64>("quota").unwrap_or(u64::MAX))),
        Err(error) => Ok(Request::End(print_help_or_fault(rt, &error)?)),
    }
}

// Returns whether standard input is non-blocking and has no bytes now. The server treats that as the end of its input.
fn would_block(rt: &HostRuntime) -> bool {
    let mut byte = [0u8; 1];
    match rt.stdin().read(&mut byte) {
        Ok(_) => false,
        Err(error) => error.kind() == io::ErrorKind::WouldBlock,
    }
}

// Serves with a quota until the conversation ends. Returns the exit status.
fn serve_client(rt: &HostRuntime, quota: u64) -> u8 {
    let ending = serve(rt.alloc(), OUTPUT, INPUT, quota);
    if matches!(ending, Ending::InputOver | Ending::CutShort) && would_block(rt) {
        let _ = eprintln!(rt; "wasmserve: standard input is non-blocking, and a read would block");
    }
    ending.status()
}

fn main(rt: HostRuntime) -> ExitCode {
    match read_arguments(&rt) {
        Ok(Request::Serve(quota)) => ExitCode::from(serve_client(&rt, quota)),
        Ok(Request::End(status)) => ExitCode::from(status),
        Err(error) if error.kind() == io::ErrorKind::OutOfMemory => ExitCode::from(OUT_OF_MEMORY),
        Err(_) => ExitCode::from(NOT_WRITTEN),
    }
}
