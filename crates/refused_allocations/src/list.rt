//! Gives the list to an embedding, and judges each reply.

ghost use Rattle.std.specs.Prelude.{◌<◌, ◌^◌, length};

use crate::embeddings::{load_of, usual_config};
use crate::hosts::boxed_counter;
use crate::machine::{Left, Machine};
use crate::padding::pad;
use crate::seen::{REFUSED, Seen, seen_in};
use crate::steps::{Kind, STEPS, Step};
use crate::verdicts::Verdict;
use core_types::Val;
use embed::{Command, Config, Embedding, HostDef};
use scripts::{Script, read_script, run_script};
use std::alloc::{AllocError, Global};
use std::mem;
use testing::assemble;

// The script: a module, a call of its function, and its global.
const SCRIPT: &str =
    "{\"commands\":[{\"type\":\"module\",\"line\":1,\"filename\":\"passer.wasm\"},{\"type\":\"assert_return\",\"line\":2,\"action\":{\"type\":\"invoke\",\"field\":\"bump\",\"args\":[]},\"expected\":[]},{\"type\":\"assert_return\",\"line\":3,\"action\":{\"type\":\"get\",\"field\":\"g\"},\"expected\":[{\"type\":\"i32\",\"value\":\"8\"}]}]}";

// The most machines that may represent the embedding.
const MOST: usize = 400;

// What is known about an embedding: the machines that it may be. There is one until a step runs out of memory.
#[derive(Drop)]
struct Judge {
    machines: Vec<Machine>,
    // The machines after the next step, and what may be left if it runs out of memory.
    next: Vec<Machine>,
    left: Vec<Left>,
    // The step that ran out of memory.
    place: Option<&'static str>,
}

impl Judge {
    // Creates a judge for a fresh embedding. It allocates nothing after that.
    fn new(alloc: Global) -> Result<Judge, AllocError> {
        let mut machines = Vec::new(alloc);
        let mut next = Vec::new(alloc);
        let mut left = Vec::new(alloc);
        machines.try_reserve(MOST)?;
        next.try_reserve(MOST)?;
        left.try_reserve(MOST)?;
        machines.push(Machine::new())?;
        Ok(Judge {
            machines,
            next,
            left,
            place: None,
        })
    }

    // Keeps the machines that have this reply to a step and this fuel left, with ample memory.
    fn follow(&mut self, step: Step, seen: Seen, fuel: u64) {
        for before in &self.machines {
            let mut machine = *before;
            if machine.take(step, &mut self.left) == seen && machine.fuel() == fuel {
                let _ = self.next.push(machine);
            }
        }
    }

    // Keeps the machines that may be left if memory ran out with this reply, and that have this fuel left.
    fn follow_want(&mut self, seen: Seen, fuel: u64) {
        for it in &self.left {
            if it.seen == seen && it.machine.fuel() == fuel {
                let _ = self.next.push(it.machine);
            }
        }
    }

    // Returns whether the reply to a step and the fuel left are right.
    fn is_right(&mut self, name: &'static str, step: Step, seen: Seen, fuel: u64) -> bool {
        self.follow(step, seen, fuel);
        if self.next.is_empty() && self.place.is_none() {
            self.place = Some(name);
            self.follow_want(seen, fuel);
        }
        self.left.clear();
        mem::swap(&mut self.machines, &mut self.next);
        self.next.clear();
        !self.machines.is_empty()
    }
}

// Everything that the list needs.
#[derive(Drop)]
struct Stock {
    commands: Vec<Option<Command>>,
    script: Script,
    files: Vec<(String, Vec<u8>)>,
}

// Returns the command of a step, or none for the script.
fn command_of(alloc: Global, step: Step) -> Option<Command> {
    Some(match step {
        Step::Load(kind) => load_of(alloc, kind.text())?,
        Step::Link(number) => Command::Link(number),
        Step::Register(number, name) => {
            Command::Register(number, String::from_str(alloc, name.text()).ok()?)
        }
        Step::Call(number, function, argument) => {
            let mut args = Vec::new(alloc);
            if let Some(value) = argument {
                args.push(Val::I32(value)).ok()?;
            }
            Command::Call(number, String::from_str(alloc, function.name()).ok()?, args)
        }
        Step::GetGlobal(number) => Command::GetGlobal(number, String::from_str(alloc, "g").ok()?),
        Step::SetFuel(fuel) => Command::SetFuel(fuel),
        Step::Script => return None,
    })
}

// Creates everything that the list needs. Returns none if that fails.
fn new_stock(alloc: Global) -> Option<Stock> {
    let mut commands = Vec::new(alloc);
    for (_, step) in &STEPS {
        commands.push(command_of(alloc, *step)).ok()?;
    }
    let script = read_script(alloc, SCRIPT.as_bytes()).ok()?;
    let mut files = Vec::new(alloc);
    let name = String::from_str(alloc, "passer.wasm").ok()?;
    files
        .push((name, assemble(alloc, Kind::Passer.text()).ok()?))
        .ok()?;
    Some(Stock {
        commands,
        script,
        files,
    })
}

// Returns what is seen of the answer of an embedding to a command, or to the script.
fn perform(alloc: Global, at: &mut Embedding, stock: &Stock, command: &Option<Command>) -> Seen {
    if let Some(command) = command {
        return seen_in(&at.apply(command));
    }
    match run_script(alloc, &stock.script, &stock.files, at) {
        Ok(report) => Seen::Counted(report.passed, report.failed),
        Err(fault) if fault.number() == 13 => REFUSED,
        Err(_) => Seen::Others,
    }
}

// Gives the list to an embedding, and judges each reply.
fn give_list(alloc: Global, at: &mut Embedding, stock: &Stock, judge: &mut Judge) -> Verdict {
    for (command, (name, step)) in stock.commands.iter().zip(&STEPS) {
        let seen = perform(alloc, at, stock, command);
        if !judge.is_right(name, *step, seen, at.fuel_left()) {
            return Verdict::Wrong(name);
        }
    }
    match judge.place {
        None => Verdict::Ample,
        Some(place) => Verdict::Wanting(place),
    }
}

// Gives the list to an embedding, after `before` unused allocations.
fn give_padded_list(alloc: Global, before: usize, at: &mut Embedding, stock: &Stock) -> Verdict {
    let Ok(mut judge) = Judge::new(alloc) else {
        return Verdict::Unready(0);
    };
    match pad(alloc, before) {
        Ok(()) => give_list(alloc, at, stock, &mut judge),
        Err(verdict) => verdict,
    }
}

// Gives the list to a fresh embedding with this setup and these host functions.
fn give_list_with(
    alloc: Global,
    before: usize,
    stock: &Stock,
    config: Config,
    hosts: Vec<HostDef>,
) -> Verdict
    requires { length hosts.items < 2 ^ 32 }
{
    match Embedding::new(alloc, config, hosts) {
        Ok(mut at) => give_padded_list(alloc, before, &mut at, stock),
        Err(_) => Verdict::Unready(0),
    }
}

// Gives the list to a fresh embedding with a host function. Returns none if an allocation for the host function fails.
fn give_list_with_counter(alloc: Global, before: usize, stock: &Stock) -> Option<Verdict> {
    let config = usual_config()?;
    let counter = HostDef::new(alloc, "host", "count", boxed_counter(alloc).ok()?).ok()?;
    let mut hosts = Vec::new(alloc);
    hosts.push(counter).ok()?;
    if hosts.len() > 1 {
        return None;
    }
    Some(give_list_with(alloc, before, stock, config, hosts))
}

/// Gives the list to a fresh embedding with a host function, with `before` unused allocations before the first command. Returns
/// the verdict.
pub fn judge_list(alloc: Global, before: usize) -> Verdict {
    match new_stock(alloc) {
        Some(stock) => {
            give_list_with_counter(alloc, before, &stock).unwrap_or(Verdict::Unready(0))
        }
        None => Verdict::Unready(0),
    }
}
