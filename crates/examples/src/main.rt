//! Two hosts: one that sells fuel for calls, and one of two plug-ins that share nothing.
#![tactic(auto)]

mod fault;
mod metering;
mod outcomes;
mod strangers;
mod two_plugins;

use fault::Fault;
use metering::run_contract;
use std::fs;
use two_plugins::run_plugins;

// Runs the host that sells fuel, with the contract in the file.
fn sell_fuel(rt: &HostRuntime) -> Result<(), Fault> {
    let contract = fs::read(rt, "contract.wasm")?;
    run_contract(rt.alloc(), contract.as_slice(), &mut rt.stdout())
}

// Runs the host of two plug-ins, with those in the files.
fn keep_apart(rt: &HostRuntime) -> Result<(), Fault> {
    let writer = fs::read(rt, "writer.wasm")?;
    let reader = fs::read(rt, "reader.wasm")?;
    run_plugins(
        rt.alloc(),
        writer.as_slice(),
        reader.as_slice(),
        &mut rt.stdout(),
    )
}

fn main(rt: HostRuntime) -> Result<(), Fault> {
    sell_fuel(&rt)?;
    keep_apart(&rt)
}
