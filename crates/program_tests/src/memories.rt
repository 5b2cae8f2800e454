//! Calls of modules with memories, data segments and globals: what their links do and cost.

use crate::runs::Ending::{self, Err, Out};
use crate::runs::ends_so_on_text;
use std::alloc::{AllocError, Global};

// A name, the arguments of a run, how it ends, and the module.
struct Row {
    name: &'static str,
    words: &'static str,
    ending: Ending<'static>,
    text: &'static str,
}

#[rattlefmt::skip]
static SEGMENTS: [Row; 12] = [
    Row { name: "an active segment, which costs memory.init and data.drop", words: "call module.wasm f --fuel 100", ending: Out("i32 9\nfuel left 96\n", 0),
        text: r#"(memory 1) (data (offset i32.const 0) "\07\09") (func (export "f") (result i32) i32.const 1 i32.load8_u)"# },
    Row { name: "two active segments, the second over the first", words: "call module.wasm f --fuel 100", ending: Out("i32 67307521\nfuel left 94\n", 0),
        text: r#"(memory 1) (data (offset i32.const 0) "\01\02\03\04") (data (offset i32.const 1) "\08")
            (func (export "f") (result i32) i32.const 0 i32.load)"# },
    Row { name: "an active segment of 64 bytes", words: "call module.wasm f --fuel 100", ending: Out("i32 5\nfuel left 95\n", 0),
        text: r#"(memory 1) (data (offset i32.const 0) "---------------------------------------------------------------\05")
            (func (export "f") (result i32) i32.const 63 i32.load8_u)"# },
    Row { name: "an active segment up to the end", words: "call module.wasm f --fuel 100", ending: Out("i32 2\nfuel left 96\n", 0),
        text: r#"(memory 1) (data (offset i32.const 65534) "\01\02") (func (export "f") (result i32) i32.const 65535 i32.load8_u)"# },
    Row { name: "an active segment past the end", words: "call module.wasm f --fuel 100", ending: Out("trap: out of bounds memory access\nfuel left 99\n", 1),
        text: r#"(memory 1) (data (offset i32.const 65535) "\01\02") (func (export "f") (result i32) i32.const 0 i32.load8_u)"# },
    Row { name: "a second active segment past the end", words: "call module.wasm f --fuel 100", ending: Out("trap: out of bounds memory access\nfuel left 97\n", 1),
        text: r#"(memory 1) (data (offset i32.const 0) "\01") (data (offset i32.const -1) "\02")
            (func (export "f") (result i32) i32.const 0 i32.load8_u)"# },
    Row { name: "an empty active segment past the end", words: "call module.wasm f --fuel 100", ending: Out("trap: out of bounds memory access\nfuel left 99\n", 1),
        text: r#"(memory 0) (data (offset i32.const 1) "") (func (export "f") (result i32) i32.const 0 i32.load8_u)"# },
    Row { name: "an active segment without fuel for it", words: "call module.wasm f --fuel 0", ending: Out("exhausted: fuel\nfuel left 0\n", 6),
        text: r#"(memory 1) (data (offset i32.const 0) "\01") (func (export "f") (result i32) i32.const 0 i32.load8_u)"# },
    Row { name: "an active segment without fuel to drop it", words: "call module.wasm f --fuel 1", ending: Out("exhausted: fuel\nfuel left 0\n", 6),
        text: r#"(memory 1) (data (offset i32.const 0) "\01") (func (export "f") (result i32) i32.const 0 i32.load8_u)"# },
    Row { name: "an active segment, which is dropped at the link", words: "call module.wasm f --fuel 100", ending: Out("trap: out of bounds memory access\nfuel left 94\n", 1),
        text: r#"(memory 1) (data (offset i32.const 8) "\01") (data "")
            (func (export "f") (result i32) i32.const 0 i32.const 0 i32.const 1 memory.init 0 i32.const 0 i32.load8_u)"# },
    Row { name: "nothing of an active segment, which is dropped at the link", words: "call module.wasm f --fuel 100", ending: Out("i32 1\nfuel left 92\n", 0),
        text: r#"(memory 1) (data (offset i32.const 8) "\01") (data "")
            (func (export "f") (result i32) i32.const 0 i32.const 0 i32.const 0 memory.init 0 i32.const 8 i32.load8_u)"# },
    Row { name: "a passive segment, which costs nothing at the link", words: "call module.wasm f --fuel 100", ending: Out("i32 9\nfuel left 93\n", 0),
        text: r#"(memory 1) (data "\07\09")
            (func (export "f") (result i32) i32.const 0 i32.const 1 i32.const 1 memory.init 0 data.drop 0 i32.const 0 i32.load8_u)"# },
];

#[rattlefmt::skip]
static MEMORIES_AND_GLOBALS: [Row; 10] = [
    Row { name: "a global that is set", words: "call module.wasm f --fuel 100", ending: Out("i32 11\nfuel left 95\n", 0),
        text: r#"(global (mut i32) i32.const 5)
            (func (export "f") (result i32) global.get 0 i32.const 6 global.set 0 global.get 0 i32.add)"# },
    Row { name: "an i64 global", words: "call module.wasm f --fuel 100", ending: Out("i64 18446744073709551615\nfuel left 99\n", 0),
        text: r#"(global i32 i32.const 5) (global i64 i64.const -1) (func (export "f") (result i64) global.get 1)"# },
    Row { name: "globals of references", words: "call module.wasm f --fuel 100", ending: Out("funcref 3\nfuncref null\nexternref null\nfuel left 97\n", 0),
        text: r#"(global funcref ref.func 0) (global funcref ref.null func) (global externref ref.null extern)
            (func (export "f") (result funcref funcref externref) global.get 0 global.get 1 global.get 2)"# },
    Row { name: "a memory of 1024 pages", words: "call module.wasm f --fuel 100", ending: Out("i32 1024\nfuel left 99\n", 0),
        text: r#"(memory 1024) (func (export "f") (result i32) memory.size)"# },
    Row { name: "a memory of 1025 pages", words: "call module.wasm f --fuel 100", ending: Err("refused 3 Limit\n", 5),
        text: r#"(memory 1025) (func (export "f") (result i32) memory.size)"# },
    Row { name: "a memory of 1025 pages at most", words: "call module.wasm f --fuel 100", ending: Out("i32 0\nfuel left 99\n", 0),
        text: r#"(memory 0 1025) (func (export "f") (result i32) memory.size)"# },
    Row { name: "memory.fill and i32.load8_u", words: "call module.wasm f --fuel 100", ending: Out("i32 7\nfuel left 94\n", 0),
        text: r#"(memory 1) (func (export "f") (result i32) i32.const 0 i32.const 263 i32.const 1 memory.fill i32.const 0 i32.load8_u)"# },
    Row { name: "memory.grow past the bound on pages", words: "call module.wasm f --fuel 100", ending: Out("i32 4294967295\nfuel left 98\n", 0),
        text: r#"(memory 1) (func (export "f") (result i32) i32.const 1024 memory.grow)"# },
    Row { name: "global.get of no global", words: "call module.wasm f --fuel 100", ending: Err("refused 4 Invalid\n", 5),
        text: r#"(func (export "f") (result i32) global.get 0)"# },
    Row { name: "memory.size of no memory", words: "call module.wasm f --fuel 100", ending: Err("refused 4 Invalid\n", 5),
        text: r#"(func (export "f") (result i32) memory.size)"# },
];

fn agrees(alloc: Global, row: &Row) -> Result<bool, AllocError> {
    ends_so_on_text(alloc, row.words, row.text, row.ending)
}

#[test]
fn links_data_segments(rt: HostRuntime) {
    for row in &SEGMENTS {
        assert!(rt; agrees(rt.alloc(), row) == Ok(true), "{}", row.name);
    }
}

#[test]
fn links_memories_and_globals(rt: HostRuntime) {
    for row in &MEMORIES_AND_GLOBALS {
        assert!(rt; agrees(rt.alloc(), row) == Ok(true), "{}", row.name);
    }
}
