//! Calls and checks of files, and the lines that they print.

use crate::files::agrees;
use crate::runs::{Ending, Row};

#[rattlefmt::skip]
static CALLS: [Row; 12] = [
    Row { words: "call m1.wasm add 1 2", ending: Ending::Out("i32 3\nfuel left 999999997\n", 0) },
    Row { words: "call subtracting.wasm add 1 2", ending: Ending::Out("i32 4294967295\nfuel left 999999997\n", 0) },
    Row { words: "call m1.wasm add 1 2 --depth 1", ending: Ending::Out("i32 3\nfuel left 999999997\n", 0) },
    Row { words: "call --depth=3 m1.wasm --fuel 3 add 1 2", ending: Ending::Out("i32 3\nfuel left 0\n", 0) },
    Row { words: "call m1.wasm add 007 00", ending: Ending::Out("i32 7\nfuel left 999999997\n", 0) },
    Row { words: "call m1.wasm add 4294967295 1 --fuel 3", ending: Ending::Out("i32 0\nfuel left 0\n", 0) },
    Row { words: "call m1.wasm add 1 2 --fuel 2", ending: Ending::Out("exhausted: fuel\nfuel left 0\n", 6) },
    Row { words: "call --fuel 3 m1.wasm add 1 2", ending: Ending::Out("i32 3\nfuel left 0\n", 0) },
    Row { words: "call m1.wasm --fuel=4 add 1 2", ending: Ending::Out("i32 3\nfuel left 1\n", 0) },
    Row { words: "call m1.wasm add --fuel 5 1 2", ending: Ending::Out("i32 3\nfuel left 2\n", 0) },
    Row { words: "call m1.wasm add 1 --fuel 6 2", ending: Ending::Out("i32 3\nfuel left 3\n", 0) },
    Row {
        words: "call m1.wasm add 1 2 --fuel 18446744073709551615",
        ending: Ending::Out("i32 3\nfuel left 18446744073709551612\n", 0),
    },
];

#[test]
fn calls_end_with_their_lines(rt: HostRuntime) {
    for row in &CALLS {
        assert!(rt; agrees(rt.alloc(), row) == Ok(true), "{}", row.words);
    }
}

#[rattlefmt::skip]
static FAULTS: [Row; 18] = [
    Row { words: "call m1.wasm sub 1 2", ending: Ending::Err("refused 9 UnknownExport\n", 2) },
    Row { words: "call m1.wasm sub x", ending: Ending::Err("refused 9 UnknownExport\n", 2) },
    Row { words: "call m1.wasm '' 1 2", ending: Ending::Err("refused 9 UnknownExport\n", 2) },
    Row { words: "call m1.wasm add", ending: Ending::Err("bad arguments\n", 2) },
    Row { words: "call m1.wasm add 1", ending: Ending::Err("bad arguments\n", 2) },
    Row { words: "call m1.wasm add 1 2 3", ending: Ending::Err("bad arguments\n", 2) },
    Row { words: "call m1.wasm add 1 x", ending: Ending::Err("bad arguments\n", 2) },
    Row { words: "call m1.wasm add 1 4294967296", ending: Ending::Err("bad arguments\n", 2) },
    Row { words: "call m1.wasm add 1 ''", ending: Ending::Err("bad arguments\n", 2) },
    Row { words: "call m1.wasm add 1 null", ending: Ending::Err("bad arguments\n", 2) },
    Row { words: "call missing.wasm add 1 2", ending: Ending::Err("cannot read missing.wasm\n", 3) },
    Row { words: "call short.wasm add 1 2", ending: Ending::Err("refused 1 Malformed\n", 5) },
    Row { words: "call short.wasm sub x", ending: Ending::Err("refused 1 Malformed\n", 5) },
    Row { words: "call floating.wasm add 1 2", ending: Ending::Err("refused 2 Unsupported\n", 5) },
    Row { words: "call table.wasm add 1 2", ending: Ending::Err("refused 9 UnknownExport\n", 2) },
    Row { words: "call memory.wasm add 1 2", ending: Ending::Err("refused 9 UnknownExport\n", 2) },
    Row { words: "call empty_body.wasm add 1 2", ending: Ending::Err("refused 4 Invalid\n", 5) },
    Row { words: "call huge.wasm add 1 2", ending: Ending::Err("refused 13 OutOfMemory\n", 6) },
];

#[test]
fn faults_end_with_their_lines(rt: HostRuntime) {
    for row in &FAULTS {
        assert!(rt; agrees(rt.alloc(), row) == Ok(true), "{}", row.words);
    }
}

#[rattlefmt::skip]
static CHECKS: [Row; 10] = [
    Row { words: "check m1.wasm", ending: Ending::Out("valid\n", 0) },
    Row { words: "check subtracting.wasm", ending: Ending::Out("valid\n", 0) },
    Row { words: "check memory.wasm", ending: Ending::Out("valid\n", 0) },
    Row { words: "check table.wasm", ending: Ending::Out("valid\n", 0) },
    Row { words: "check empty_body.wasm", ending: Ending::Err("refused 4 Invalid\n", 5) },
    Row { words: "check floating.wasm", ending: Ending::Err("refused 2 Unsupported\n", 5) },
    Row { words: "check short.wasm", ending: Ending::Err("refused 1 Malformed\n", 5) },
    Row { words: "check huge.wasm", ending: Ending::Err("refused 13 OutOfMemory\n", 6) },
    Row { words: "check missing.wasm", ending: Ending::Err("cannot read missing.wasm\n", 3) },
    Row { words: "check ''", ending: Ending::Err("cannot read \n", 3) },
];

#[test]
fn checks_end_with_their_lines(rt: HostRuntime) {
    for row in &CHECKS {
        assert!(rt; agrees(rt.alloc(), row) == Ok(true), "{}", row.words);
    }
}
