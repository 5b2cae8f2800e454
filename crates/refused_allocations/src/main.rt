//! Makes each call that allocates while an allocation is refused. Judges the answer of that call and the answers of the calls
//! after it.
//!
//! The allocation is refused from outside, by its number among all allocations of the program. To let one build serve for all
//! of these, the program's arguments state how many unused allocations it makes before the first call. What the program itself
//! needs is allocated before those.
#![tactic(auto)]

mod attempts;
mod calls;
mod conversations;
mod embeddings;
mod hosts;
mod linking;
mod list;
mod machine;
mod modules;
mod numbered;
mod padding;
mod scenarios;
mod script_runs;
mod seen;
mod steps;
mod stores;
mod texts;
mod verdicts;

use padding::allocate_in_vain;
use scenarios::{SCENARIOS, Scenario, run_scenario, scenario_of};
use std::alloc::Global;
use std::env;
use std::io::{self, Write};
use std::process::ExitCode;
use verdicts::Verdict;

// The exit status if an answer is wrong.
const WRONG: u8 = 1;

// The exit status if the arguments do not have their form.
const USAGE: u8 = 2;

// Writes the verdict on a scenario.
fn write_verdict(out: &mut dyn Write, name: &str, verdict: Verdict) -> io::Result<()> {
    let (what, place) = match verdict {
        Verdict::Unready(made) => return writeln!(out, "{name}: {made} before the first call"),
        Verdict::Ample => ("as with ample memory", ""),
        Verdict::Wanting(place) => ("want of memory, ", place),
        Verdict::Wrong(place) => ("WRONG, ", place),
    };
    writeln!(out, "{name}: {what}{place}")
}

// Returns the exit status for the verdict on a scenario.
fn status_of(verdict: Verdict) -> u8 {
    match verdict {
        Verdict::Wrong(_) => WRONG,
        _ => 0,
    }
}

// Runs a scenario, with these numbers of unused allocations before its first call and after its last one. Returns the exit
// status.
fn run_one(
    alloc: Global,
    out: &mut dyn Write,
    scenario: Scenario,
    before: usize,
    behind: usize,
) -> io::Result<u8> {
    let verdict = run_scenario(alloc, scenario, before);
    if let Some(made) = allocate_in_vain(alloc, behind) {
        writeln!(out, "{}: {made} behind the last call", scenario.name())?;
    }
    write_verdict(out, scenario.name(), verdict)?;
    Ok(status_of(verdict))
}

// Runs all scenarios in a row. Returns the highest exit status.
fn run_all(alloc: Global, out: &mut dyn Write) -> io::Result<u8> {
    let mut highest = 0;
    for scenario in &SCENARIOS {
        highest = highest.max(run_one(alloc, out, *scenario, 0, 0)?);
    }
    Ok(highest)
}

// Performs the request of the arguments: `all`, or the name of a scenario and the numbers of unused allocations before and
// after it. Returns the exit status.
fn run_words(rt: &HostRuntime) -> io::Result<u8> {
    let alloc = rt.alloc();
    let words: Vec<String> = env::args(rt)?.skip(1).collect(alloc)?;
    match words.as_slice() {
        [all] if all.as_str() == "all" => run_all(alloc, &mut rt.stdout()),
        [name, before, behind] => {
            let (Some(scenario), Ok(before), Ok(behind)) = (
                scenario_of(name.as_str()),
                before.as_str().parse::<u32>(),
                behind.as_str().parse::<u32>(),
            ) else {
                return Ok(USAGE);
            };
            run_one(
                alloc,
                &mut rt.stdout(),
                scenario,
                before as usize,
                behind as usize,
            )
        }
        _ => Ok(USAGE),
    }
}

fn main(rt: HostRuntime) -> ExitCode {
    match run_words(&rt) {
        Ok(status) => ExitCode::from(status),
        Err(_) => ExitCode::from(USAGE),
    }
}
