//! Runs whose output fails.

use crate::files::FewFiles;
use crate::runs::words_of;
use crate::writers::{Failing, prints_to};
use core_types::Trap;
use embed::{Command, Config, Embedding, Reply};
use program::{Output, run};
use std::alloc::{AllocError, Global};
use testing::assemble;

// Returns a writer whose calls of `write` fail after this number of them, and which cannot be flushed.
fn failing(writes: u32) -> Failing {
    Failing {
        writes,
        flushes: false,
    }
}

// Returns whether a run whose output fails returns 1, and prints nothing to the other output.
fn fails_silently(alloc: Global, words: &str, writes: u32) -> Result<bool, AllocError> {
    let words = words_of(alloc, words)?;
    let mut err = Output::new(Vec::new(alloc));
    let hosts = prints_to(alloc, failing(writes))?;
    let status = run(
        alloc,
        words.as_slice(),
        &mut FewFiles { alloc },
        hosts,
        &mut Output::new(failing(writes)),
        &mut err,
    );
    Ok(status == 1 && err.writer().is_empty())
}

// Returns whether a run whose outputs both fail returns 2.
fn faults_unheard(alloc: Global, words: &str, writes: u32) -> Result<bool, AllocError> {
    let words = words_of(alloc, words)?;
    let hosts = prints_to(alloc, failing(writes))?;
    let status = run(
        alloc,
        words.as_slice(),
        &mut FewFiles { alloc },
        hosts,
        &mut Output::new(failing(writes)),
        &mut Output::new(failing(writes)),
    );
    Ok(status == 2)
}

// Returns whether a failing output determines the status of a call, a check and a script, but not the status of a fault.
fn agrees(alloc: Global, writes: u32) -> Result<bool, AllocError> {
    Ok(
        fails_silently(alloc, "call m1.wasm add 1 2", writes)?
            && fails_silently(alloc, "check m1.wasm", writes)?
            && fails_silently(alloc, "script empty.json", writes)?
            && faults_unheard(alloc, "call m1.wasm sub 1 2", writes)?,
    )
}

// Returns whether a call of a print function ends with this text and this status. The writers of the print functions fail after
// this number of calls of `write`.
fn prints_so(alloc: Global, writes: u32, end: &str, wanted: u8) -> Result<bool, AllocError> {
    let words = words_of(alloc, "call q.wasm p 5")?;
    let mut out = Output::new(Vec::new(alloc));
    let mut err = Output::new(Vec::new(alloc));
    let lasting = Failing {
        writes,
        flushes: true,
    };
    let hosts = prints_to(alloc, lasting)?;
    let status = run(
        alloc,
        words.as_slice(),
        &mut FewFiles { alloc },
        hosts,
        &mut out,
        &mut err,
    );
    Ok(status == wanted && out.writer().as_slice() == end.as_bytes() && err.writer().is_empty())
}

// Returns whether a call of a print function gives no results if its line is written, and traps if the write fails.
fn prints_are_heard(alloc: Global) -> Result<bool, AllocError> {
    Ok(
        prints_so(alloc, 9, "fuel left 1000000000\n", 0)?
            && prints_so(alloc, 0, "trap: host trap\nfuel left 1000000000\n", 1)?,
    )
}

// Returns an embedding with print functions whose writers fail after this number of calls of `write`.
fn embedding_with_prints(alloc: Global, writes: u32) -> Option<Embedding> {
    let config = Config::new(100, 1_024, 1_024, 1_000_000)?;
    let lasting = Failing {
        writes,
        flushes: true,
    };
    match prints_to(alloc, lasting) {
        Ok(hosts) => Embedding::new(alloc, config, hosts).ok(),
        Err(_) => None,
    }
}

// Returns whether a module that exports a print function is loaded and linked.
fn links_a_print(alloc: Global, at: &mut Embedding) -> bool {
    match assemble(
        alloc,
        "(import \"host\" \"print\" (func)) (export \"p\" (func 0))",
    ) {
        Ok(bytes) => {
            matches!(at.apply(&Command::Load(bytes)), Reply::Loaded(0))
                && matches!(at.apply(&Command::Link(0)), Reply::Linked(0))
        }
        Err(_) => false,
    }
}

// Returns whether a call of the print function traps with this code, or returns no values if there is none.
fn calls_it(alloc: Global, at: &mut Embedding, code: Option<u32>) -> bool {
    match String::from_str(alloc, "p") {
        Ok(name) => match at.apply(&Command::Call(0, name, Vec::new(alloc))) {
            Reply::Values(values) => values.is_empty() && code.is_none(),
            Reply::Trap(Trap::Host(found)) => code == Some(found),
            _ => false,
        },
        Err(_) => false,
    }
}

fn prints_end_with(alloc: Global, writes: u32, code: Option<u32>) -> bool {
    match embedding_with_prints(alloc, writes) {
        Some(mut at) => links_a_print(alloc, &mut at) && calls_it(alloc, &mut at, code),
        None => false,
    }
}

#[test]
fn failing_prints_trap_with_the_code_1(rt: HostRuntime) {
    for (writes, code) in [(9, None), (0, Some(1))] {
        assert!(rt;
            prints_end_with(rt.alloc(), writes, code),
            "{writes} writes"
        );
    }
}

#[test]
fn failing_prints_trap(rt: HostRuntime) {
    assert!(rt; prints_are_heard(rt.alloc()) == Ok(true));
}

#[test]
fn failing_output_decides_where_nothing_did(rt: HostRuntime) {
    for writes in [0, 1, 2, 3, 4, 1000] {
        assert!(rt; agrees(rt.alloc(), writes) == Ok(true), "{writes} writes");
    }
}
