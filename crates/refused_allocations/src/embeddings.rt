//! Commands to an embedding, one at a time.

use crate::attempts::Attempt;
use crate::hosts::boxed_counter;
use crate::padding::pad;
use crate::seen::{REFUSED, Seen, seen_in};
use crate::texts::{OBJECTS, WHOLE};
use crate::verdicts::{Answer, Verdict};
use core_types::ExternType;
use embed::{Command, Config, Embedding, HostDef, InstanceNumber, NewFault, Refusal};
use std::alloc::{AllocError, Global};
use testing::assemble;

/// The initial fuel.
pub const FUEL: u64 = 100_000;

/// Returns the setup of the embeddings.
pub fn usual_config() -> Option<Config> {
    Config::new(FUEL, 100, 10, 10)
}

/// Creates an embedding without host functions. Returns none if that fails.
pub fn fresh_embedding(alloc: Global) -> Option<Embedding> {
    Embedding::new(alloc, usual_config()?, Vec::new(alloc)).ok()
}

/// Returns the command that loads the module of a text.
pub fn load_of(alloc: Global, text: &str) -> Option<Command> {
    Some(Command::Load(assemble(alloc, text).ok()?))
}

/// Creates an embedding in which the module of a text is loaded and linked once. Returns none if that fails.
pub fn embedding_with(alloc: Global, text: &str) -> Option<Embedding> {
    let load = load_of(alloc, text)?;
    let mut at = fresh_embedding(alloc)?;
    let loaded = seen_in(&at.apply(&load));
    let linked = seen_in(&at.apply(&Command::Link(0)));
    (loaded == Seen::Loaded(0) && linked == Seen::Linked(0)).then_some(at)
}

/// A command, and what is seen of its reply if memory does not run out.
#[derive(Drop)]
pub struct Asking {
    at: Embedding,
    command: Command,
    wanted: Seen,
}

impl Attempt for Asking {
    fn attempt(&mut self) -> Answer {
        let seen = seen_in(&self.at.apply(&self.command));
        if seen == self.wanted {
            return Answer::Ample;
        }
        if seen == REFUSED {
            return Answer::Wanting;
        }
        Answer::Wrong
    }
}

/// Prepares the load of a module. Returns none if that fails.
pub fn prepare_load(alloc: Global) -> Option<Asking> {
    let command = load_of(alloc, WHOLE)?;
    Some(Asking {
        at: fresh_embedding(alloc)?,
        command,
        wanted: Seen::Loaded(0),
    })
}

/// Prepares the registration of an instance. Returns none if that fails.
pub fn prepare_register(alloc: Global) -> Option<Asking> {
    let command = Command::Register(0, String::from_str(alloc, "m").ok()?);
    Some(Asking {
        at: embedding_with(alloc, OBJECTS)?,
        command,
        wanted: Seen::Done,
    })
}

/// Prepares the read of a global. Returns none if that fails.
pub fn prepare_global(alloc: Global) -> Option<Asking> {
    let command = Command::GetGlobal(0, String::from_str(alloc, "g").ok()?);
    Some(Asking {
        at: embedding_with(alloc, OBJECTS)?,
        command,
        wanted: Seen::Number(7),
    })
}

/// A query for the type of an export.
#[derive(Drop)]
pub struct TypeOfExport {
    at: Embedding,
}

/// Prepares the query. Returns none if that fails.
pub fn prepare_export_type(alloc: Global) -> Option<TypeOfExport> {
    let at = embedding_with(alloc, OBJECTS)?;
    Some(TypeOfExport { at })
}

impl Attempt for TypeOfExport {
    fn attempt(&mut self) -> Answer {
        match self.at.export_type(InstanceNumber(0), "f") {
            Ok(Some(ExternType::Func(ty))) if ty.params.len() == 2 && ty.results.len() == 1 => {
                Answer::Ample
            }
            Ok(_) => Answer::Wrong,
            Err(_) => Answer::Wanting,
        }
    }
}

// Returns whether these are the two exports, each with its own type.
fn are_both(found: &embed::Exports) -> bool {
    found.types.len() == 2 && found.exports.len() == 2 && found.exports[1].name.as_str() == "g"
}

/// A query for the exports of an instance.
#[derive(Drop)]
pub struct Exports {
    at: Embedding,
}

/// Prepares the query. Returns none if that fails.
pub fn prepare_exports(alloc: Global) -> Option<Exports> {
    let at = embedding_with(alloc, OBJECTS)?;
    Some(Exports { at })
}

impl Attempt for Exports {
    fn attempt(&mut self) -> Answer {
        match self.at.exports(InstanceNumber(0)) {
            Ok(found) => Answer::with_memory(are_both(&found)),
            Err(_) => Answer::Wanting,
        }
    }
}

/// A query for an export of an instance by its name.
#[derive(Drop)]
pub struct NamedExport {
    at: Embedding,
}

/// Prepares the query. Returns none if that fails.
pub fn prepare_named_export(alloc: Global) -> Option<NamedExport> {
    let at = embedding_with(alloc, OBJECTS)?;
    Some(NamedExport { at })
}

impl Attempt for NamedExport {
    fn attempt(&mut self) -> Answer {
        match self.at.export_named(InstanceNumber(0), "g") {
            Ok(found) => Answer::with_memory(found.types.len() == 1 && found.exports.len() == 1),
            Err(Refusal::OutOfMemory) => Answer::Wanting,
            Err(_) => Answer::Wrong,
        }
    }
}

// Creates an embedding with these host functions. Returns the verdict on that.
fn create(alloc: Global, hosts: Vec<HostDef>) -> Answer {
    let Some(config) = usual_config() else {
        return Answer::Wrong;
    };
    if hosts.len() != 2 {
        return Answer::Wrong;
    }
    match Embedding::new(alloc, config, hosts) {
        Ok(at) => Answer::with_memory(at.fuel_left() == FUEL),
        Err(NewFault::OutOfMemory) => Answer::Wanting,
        Err(_) => Answer::Wrong,
    }
}

// Creates an embedding, and another one if memory ran out.
fn create_either(alloc: Global, first: Vec<HostDef>, second: Vec<HostDef>) -> Verdict {
    match create(alloc, first) {
        Answer::Ample => Verdict::Ample,
        Answer::Wrong => Verdict::Wrong("Embedding::new"),
        Answer::Wanting => match create(alloc, second) {
            Answer::Ample => Verdict::Wanting("Embedding::new"),
            _ => Verdict::Wrong("Embedding::new"),
        },
    }
}

// Creates an embedding with two of four host functions, after `before` unused allocations, and one with the other two if memory
// ran out.
fn create_padded(
    alloc: Global,
    before: usize,
    mut hosts: Vec<HostDef>,
) -> Result<Verdict, AllocError> {
    if hosts.len() != 4 {
        return Ok(Verdict::Unready(0));
    }
    let others = hosts.split_off(2)?;
    Ok(match pad(alloc, before) {
        Ok(()) => create_either(alloc, hosts, others),
        Err(verdict) => verdict,
    })
}

// Creates the host functions and the embeddings. Fails if an allocation for the host functions fails.
fn create_twice(alloc: Global, before: usize) -> Result<Verdict, AllocError> {
    let mut hosts = Vec::new(alloc);
    for name in &["first", "second", "first", "second"] {
        hosts.push(HostDef::new(alloc, "host", name, boxed_counter(alloc)?)?)?;
    }
    create_padded(alloc, before, hosts)
}

/// Creates an embedding with two host functions, after `before` unused allocations. Returns the verdict.
pub fn judge_created(alloc: Global, before: usize) -> Verdict {
    create_twice(alloc, before).unwrap_or(Verdict::Unready(0))
}
