//! Arguments that the program does not read.

use crate::files::FewFiles;
use crate::runs::{Ending, ends_so, words_of};
use std::alloc::{AllocError, Global};

// Returns whether the program prints that the arguments are a usage fault.
fn is_usage(alloc: Global, words: &[String]) -> bool {
    ends_so(
        alloc,
        words,
        &mut FewFiles { alloc },
        Ending::Err("usage\n", 2),
    )
}

fn is_no_form(alloc: Global, text: &str) -> Result<bool, AllocError> {
    let words = words_of(alloc, text)?;
    Ok(is_usage(alloc, words.as_slice()))
}

#[rattlefmt::skip]
static OTHER_WORDS: [&str; 45] = [
    "",
    "frob",
    "''",
    "script",
    "script empty.json empty.json",
    "script empty.json --fuel x",
    "script empty.json --fuel 3 --fuel 3",
    "script missing.json --depth 0",
    "script --help",
    "--fuel 3 script empty.json",
    "call",
    "call m1.wasm",
    "call m1.wasm add 1 2 --fuel 3 --fuel 3",
    "call --fuel 3 m1.wasm add 1 2 --fuel=3",
    "call m1.wasm add 1 2 --fuel",
    "call m1.wasm add 1 2 --fuel -1",
    "call m1.wasm add 1 2 --fuel=-1",
    "call m1.wasm add 1 2 --fuel 1x",
    "call m1.wasm add 1 2 --fuel +3",
    "call m1.wasm add 1 2 --fuel ''",
    "call m1.wasm add 1 2 --fuel=",
    "call m1.wasm add 1 2 --fuel 18446744073709551616",
    "call missing.wasm add 1 2 --fuel x",
    "call m1.wasm add 1 2 --depth",
    "call m1.wasm add 1 2 --depth 0",
    "call m1.wasm add 1 2 --depth 3 --depth 3",
    "call --depth=3 m1.wasm add --depth=3 1 2",
    "call missing.wasm add 1 2 --depth x",
    "--depth 3 call m1.wasm add 1 2",
    "call m1.wasm add -1 2",
    "call --help",
    "--fuel 3 call m1.wasm add 1 2",
    "--help",
    "--version",
    "help",
    "check",
    "check m1.wasm add",
    "check missing.wasm missing.wasm",
    "check m1.wasm --fuel 3",
    "check --fuel 3 m1.wasm",
    "check m1.wasm --fuel=3",
    "check m1.wasm --depth 3",
    "check --help",
    "check -x",
    "--fuel 3 check m1.wasm",
];

#[test]
fn other_words_are_usage_faults(rt: HostRuntime) {
    for text in &OTHER_WORDS {
        assert!(rt; is_no_form(rt.alloc(), text) == Ok(true), "{text:?}");
    }
}

// Returns whether a text is refused as a depth, both after `--depth` and within the same argument.
fn is_no_depth(alloc: Global, depth: &str) -> Result<bool, AllocError> {
    let mut split = words_of(alloc, "call calling.wasm f --depth")?;
    split.push(String::from_str(alloc, depth)?)?;
    let mut joined = words_of(alloc, "call calling.wasm f")?;
    joined.push(format!(in alloc; "--depth={depth}")?)?;
    Ok(is_usage(alloc, split.as_slice()) && is_usage(alloc, joined.as_slice()))
}

#[rattlefmt::skip]
static OTHER_DEPTHS: [&str; 12] = [
    "0", "00", "65536", "4294967297", "18446744073709551616", "-1", "+3", "1.0", "", "1x", " 1", "0x1",
];

#[test]
fn other_depths_are_usage_faults(rt: HostRuntime) {
    for depth in &OTHER_DEPTHS {
        assert!(rt; is_no_depth(rt.alloc(), depth) == Ok(true), "{depth:?}");
    }
}
