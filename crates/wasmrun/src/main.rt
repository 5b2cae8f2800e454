//! Checks WebAssembly modules, calls their exported functions, and runs scripts, from the command line.
#![tactic(auto)]

use program::{Output, Print, Printed, define_prints, refuse_words, run};
use std::alloc::AllocError;
use std::env;
use std::io::{self, Stdout};
use std::process::ExitCode;
use subcommands::System;

// Creates the print function of this kind, which prints to standard output.
fn new_print(rt: &HostRuntime, printed: Printed) -> Result<Box<Print<Stdout>>, AllocError> {
    let print = Print::new(rt.alloc(), printed, rt.stdout())?;
    Ok(Box::new(rt.alloc(), print)?)
}

// Runs the program with these arguments and the three print functions. Returns the exit status.
fn run_with_prints(rt: &HostRuntime, words: &[String]) -> io::Result<u8> {
    let alloc = rt.alloc();
    let nothing = new_print(rt, Printed::Nothing)?;
    let short = new_print(rt, Printed::I32)?;
    let long = new_print(rt, Printed::I64)?;
    let hosts = define_prints(alloc, nothing, short, long)?;
    let mut files = System::new(rt);
    Ok(run(
        alloc,
        words,
        &mut files,
        hosts,
        &mut Output::new(rt.stdout()),
        &mut Output::new(rt.stderr()),
    ))
}

// Runs the program with the arguments after its name. Returns the exit status.
fn run_words(rt: &HostRuntime) -> io::Result<u8> {
    let words: Vec<String> = env::args(rt)?.skip(1).collect(rt.alloc())?;
    run_with_prints(rt, words.as_slice())
}

fn main(rt: HostRuntime) -> ExitCode {
    let status = match run_words(&rt) {
        Ok(status) => status,
        Err(error) => refuse_words(&error, &mut Output::new(rt.stderr())),
    };
    ExitCode::from(status)
}
