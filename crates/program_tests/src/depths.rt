//! Calls that open frames up to the depth bound, calls that open none, and calls that trap.

use crate::files::agrees;
use crate::runs::{Ending, Row};

#[rattlefmt::skip]
static WITHIN: [Row; 4] = [
    Row { words: "call calling.wasm f --depth=002 --fuel 2", ending: Ending::Out("i32 7\nfuel left 0\n", 0) },
    Row { words: "call calling.wasm f --fuel=0 --depth 1", ending: Ending::Out("exhausted: fuel\nfuel left 0\n", 6) },
    Row { words: "call calling.wasm f --depth 2", ending: Ending::Out("i32 7\nfuel left 999999998\n", 0) },
    Row { words: "call calling_itself.wasm f --fuel 9", ending: Ending::Out("exhausted: fuel\nfuel left 0\n", 6) },
];

#[test]
fn opens_frames_within_the_depth(rt: HostRuntime) {
    for row in &WITHIN {
        assert!(rt; agrees(rt.alloc(), row) == Ok(true), "{}", row.words);
    }
}

#[rattlefmt::skip]
static PAST: [Row; 4] = [
    Row { words: "call calling.wasm f --depth 1", ending: Ending::Out("exhausted: depth\nfuel left 1000000000\n", 6) },
    Row { words: "call calling_itself.wasm f", ending: Ending::Out("exhausted: depth\nfuel left 999998977\n", 6) },
    Row {
        words: "call calling_itself.wasm f --depth 1024",
        ending: Ending::Out("exhausted: depth\nfuel left 999998977\n", 6),
    },
    Row {
        words: "call calling_itself.wasm f --depth 65535",
        ending: Ending::Out("exhausted: depth\nfuel left 999934466\n", 6),
    },
];

#[test]
fn opens_no_frame_past_the_depth(rt: HostRuntime) {
    for row in &PAST {
        assert!(rt; agrees(rt.alloc(), row) == Ok(true), "{}", row.words);
    }
}

// Each call costs 6 units of fuel, and the last one 3.
#[rattlefmt::skip]
static LAST: [Row; 4] = [
    Row {
        words: "call down.wasm down 100000 --depth 1 --fuel 1000000",
        ending: Ending::Out("i32 9\nfuel left 399997\n", 0),
    },
    Row {
        words: "call down.wasm down 100000 --depth 1 --fuel 600002",
        ending: Ending::Out("exhausted: fuel\nfuel left 0\n", 6),
    },
    Row { words: "call down.wasm down 0 --depth 1 --fuel 3", ending: Ending::Out("i32 9\nfuel left 0\n", 0) },
    Row { words: "call down.wasm down 1 --depth 1 --fuel 8", ending: Ending::Out("exhausted: fuel\nfuel left 0\n", 6) },
];

#[test]
fn tail_calls_open_no_frame(rt: HostRuntime) {
    for row in &LAST {
        assert!(rt; agrees(rt.alloc(), row) == Ok(true), "{}", row.words);
    }
}

#[rattlefmt::skip]
static TRAPS: [Row; 3] = [
    Row { words: "call unreachable.wasm f --fuel 9", ending: Ending::Out("trap: unreachable\nfuel left 8\n", 1) },
    Row {
        words: "call dividing_by_zero.wasm f --fuel 9",
        ending: Ending::Out("trap: integer divide by zero\nfuel left 6\n", 1),
    },
    Row { words: "call overflowing.wasm f --fuel 9", ending: Ending::Out("trap: integer overflow\nfuel left 6\n", 1) },
];

#[test]
fn prints_traps(rt: HostRuntime) {
    for row in &TRAPS {
        assert!(rt; agrees(rt.alloc(), row) == Ok(true), "{}", row.words);
    }
}
