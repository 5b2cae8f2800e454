//! Reading and running a script.

use crate::attempts::Attempt;
use crate::embeddings::fresh_embedding;
use crate::texts::COUNTER;
use crate::verdicts::Answer;
use embed::Embedding;
use scripts::{Report, Script, ScriptFault, read_script, run_script};
use std::alloc::Global;
use testing::assemble;

// A script: a module that counts, a call and a read of it, a registration, a command that fails, and a malformed module.
const SCRIPT: &str =
    "{\"commands\":[{\"type\":\"module\",\"line\":1,\"filename\":\"counter.wasm\",\"name\":\"$m\"},{\"type\":\"action\",\"line\":2,\"action\":{\"type\":\"invoke\",\"field\":\"bump\",\"args\":[]}},{\"type\":\"assert_return\",\"line\":3,\"action\":{\"type\":\"get\",\"module\":\"$m\",\"field\":\"g\"},\"expected\":[{\"type\":\"i32\",\"value\":\"8\"}]},{\"type\":\"register\",\"line\":4,\"as\":\"m\"},{\"type\":\"assert_trap\",\"line\":5,\"action\":{\"type\":\"invoke\",\"field\":\"bump\",\"args\":[]},\"text\":\"unreachable\"},{\"type\":\"assert_malformed\",\"line\":6,\"filename\":\"empty.wasm\",\"text\":\"\"}]}";

// Returns whether a script names the files that it needs.
fn is_whole(script: &Script) -> bool {
    matches!(
        script.filenames(),
        [first, second] if first.as_str() == "counter.wasm" && second.as_str() == "empty.wasm"
    )
}

// Returns whether all commands passed except the one that fails.
fn is_right(report: &Report) -> bool {
    report.passed == 5
        && report.failed == 1
        && report.skipped == 0
        && report.failures.as_slice() == [5].as_slice()
}

/// The reading of a script.
#[derive(Drop)]
pub struct Reading {
    alloc: Global,
}

impl Reading {
    /// Prepares everything that the call needs. Returns none if that fails.
    pub fn prepare(alloc: Global) -> Option<Reading> {
        Some(Reading { alloc })
    }
}

impl Attempt for Reading {
    fn attempt(&mut self) -> Answer {
        match read_script(self.alloc, SCRIPT.as_bytes()) {
            Ok(script) => Answer::with_memory(is_whole(&script)),
            Err(ScriptFault::OutOfMemory) => Answer::Wanting,
            Err(_) => Answer::Wrong,
        }
    }
}

// Returns a file with this name.
fn file(alloc: Global, name: &str, bytes: Vec<u8>) -> Option<(String, Vec<u8>)> {
    Some((String::from_str(alloc, name).ok()?, bytes))
}

// Returns the files that the script names.
fn files(alloc: Global) -> Option<Vec<(String, Vec<u8>)>> {
    let counter = file(alloc, "counter.wasm", assemble(alloc, COUNTER).ok()?)?;
    let empty = file(alloc, "empty.wasm", Vec::new(alloc))?;
    vec![in alloc; counter, empty].ok()
}

/// The run of a script.
#[derive(Drop)]
pub struct Running {
    alloc: Global,
    script: Script,
    files: Vec<(String, Vec<u8>)>,
    embedding: Embedding,
}

impl Running {
    /// Prepares everything that the call needs. Returns none if that fails.
    pub fn prepare(alloc: Global) -> Option<Running> {
        let script = read_script(alloc, SCRIPT.as_bytes()).ok()?;
        let files = files(alloc)?;
        Some(Running {
            alloc,
            script,
            files,
            embedding: fresh_embedding(alloc)?,
        })
    }
}

impl Attempt for Running {
    fn attempt(&mut self) -> Answer {
        match run_script(self.alloc, &self.script, &self.files, &mut self.embedding) {
            Ok(report) => Answer::with_memory(is_right(&report)),
            Err(ScriptFault::OutOfMemory) => Answer::Wanting,
            Err(_) => Answer::Wrong,
        }
    }
}
