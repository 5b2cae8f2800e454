//! Calls of modules with tables, element segments, start functions and imports: what their links do and cost.

use crate::runs::Ending::{self, Err, Out};
use crate::runs::ends_so_on_text;
use std::alloc::{AllocError, Global};

// A name, the arguments of a run, how it ends, and the module.
struct Row {
    name: &'static str,
    words: &'static str,
    ending: Ending<'static>,
    text: &'static str,
}

#[rattlefmt::skip]
static LINKS: [Row; 9] = [
    Row { name: "an active segment of indices, which costs table.init and elem.drop", words: "call module.wasm f --fuel 100", ending: Out("i32 11\nfuel left 95\n", 0),
        text: "(type (func (result i32))) (table 2 funcref) (elem (offset i32.const 0) func 1 2) \
            (func (export \"f\") (result i32) i32.const 1 call_indirect (type 0)) (func (result i32) i32.const 10) \
            (func (result i32) i32.const 11)" },
    Row { name: "an active segment of expressions", words: "call module.wasm f --fuel 100", ending: Out("funcref 4\nfuncref null\nfuel left 94\n", 0),
        text: "(table 2 funcref) (elem (offset i32.const 0) funcref (item ref.func 1) (item ref.null func)) \
            (func (export \"f\") (result funcref funcref) i32.const 0 table.get i32.const 1 table.get) (func)" },
    Row { name: "an active segment in the second table", words: "call module.wasm f --fuel 100", ending: Out("funcref 3\nfuncref null\nfuel left 94\n", 0),
        text: "(table 1 funcref) (table 3 funcref) (elem (table 1) (offset i32.const 2) func 0) \
            (func (export \"f\") (result funcref funcref) i32.const 2 table.get 1 i32.const 1 table.get 1)" },
    Row { name: "an active segment of external nulls", words: "call module.wasm f --fuel 100", ending: Out("externref null\nfuel left 96\n", 0),
        text: "(table 1 externref) (elem (table 0) (offset i32.const 0) externref (item ref.null extern)) \
            (func (export \"f\") (result externref) i32.const 0 table.get)" },
    Row { name: "two active segments, the second over the first", words: "call module.wasm f --fuel 100", ending: Out("funcref 3\nfuncref 4\nfuel left 92\n", 0),
        text: "(table 2 funcref) (elem (offset i32.const 0) func 0 0) (elem (offset i32.const 1) func 1) \
            (func (export \"f\") (result funcref funcref) i32.const 0 table.get i32.const 1 table.get) (func)" },
    Row { name: "an active segment of 8 references", words: "call module.wasm f --fuel 100", ending: Out("i32 8\nfuel left 96\n", 0),
        text: "(table 8 funcref) (elem (offset i32.const 0) func 0 0 0 0 0 0 0 0) (func (export \"f\") (result i32) table.size)" },
    Row { name: "a passive segment of indices, which costs nothing at the link", words: "call module.wasm f --fuel 100", ending: Out("funcref 3\nfuel left 94\n", 0),
        text: "(table 2 funcref) (elem func 0) (func (export \"f\") (result funcref) i32.const 1 i32.const 0 i32.const 1 table.init 0 i32.const 1 table.get)" },
    Row { name: "a passive segment of expressions", words: "call module.wasm f --fuel 100", ending: Out("externref null\nfuel left 94\n", 0),
        text: "(table 2 externref) (elem externref (item ref.null extern)) \
            (func (export \"f\") (result externref) i32.const 1 i32.const 0 i32.const 1 table.init 0 i32.const 1 table.get)" },
    Row { name: "an element segment before a data segment", words: "call module.wasm f --fuel 2", ending: Out("exhausted: fuel\nfuel left 0\n", 6),
        text: "(table 1 funcref) (memory 1) (data (offset i32.const 65536) \"a\") (elem (offset i32.const 0) func 0) (func (export \"f\"))" },
];

#[rattlefmt::skip]
static ENDS: [Row; 12] = [
    Row { name: "table.init of an active segment after the link", words: "call module.wasm f --fuel 100", ending: Out("trap: out of bounds table access\nfuel left 94\n", 1),
        text: "(table 2 funcref) (elem (offset i32.const 0) func 0) (func (export \"f\") i32.const 0 i32.const 0 i32.const 1 table.init 0)" },
    Row { name: "table.init of a declarative segment of indices after the link", words: "call module.wasm f --fuel 100", ending: Out("trap: out of bounds table access\nfuel left 95\n", 1),
        text: "(table 2 funcref) (elem declare func 0) (func (export \"f\") i32.const 0 i32.const 0 i32.const 1 table.init 0)" },
    Row { name: "table.init of a declarative segment of expressions after the link", words: "call module.wasm f --fuel 100", ending: Out("trap: out of bounds table access\nfuel left 95\n", 1),
        text: "(table 2 funcref) (elem declare funcref (item ref.func 0)) (func (export \"f\") i32.const 0 i32.const 0 i32.const 1 table.init 0)" },
    Row { name: "nothing of an active segment after the link", words: "call module.wasm f --fuel 100", ending: Out("fuel left 94\n", 0),
        text: "(table 2 funcref) (elem (offset i32.const 0) func 0) (func (export \"f\") i32.const 0 i32.const 0 i32.const 0 table.init 0)" },
    Row { name: "an active segment past the end", words: "call module.wasm f --fuel 100", ending: Out("trap: out of bounds table access\nfuel left 99\n", 1),
        text: "(table 2 funcref) (elem (offset i32.const 1) func 0 0) (func (export \"f\"))" },
    Row { name: "a second active segment past the end", words: "call module.wasm f --fuel 100", ending: Out("trap: out of bounds table access\nfuel left 97\n", 1),
        text: "(table 2 funcref) (elem (offset i32.const 1) func 0) (elem (offset i32.const -1) func 0) (func (export \"f\"))" },
    Row { name: "an active segment without fuel for it", words: "call module.wasm f --fuel 0", ending: Out("exhausted: fuel\nfuel left 0\n", 6),
        text: "(table 2 funcref) (elem (offset i32.const 1) func 0) (func (export \"f\"))" },
    Row { name: "an active segment without fuel to drop it", words: "call module.wasm f --fuel 1", ending: Out("exhausted: fuel\nfuel left 0\n", 6),
        text: "(table 2 funcref) (elem (offset i32.const 1) func 0) (func (export \"f\"))" },
    Row { name: "a table of 1,000,000 entries", words: "call module.wasm f --fuel 100", ending: Out("i32 1000000\nfuel left 99\n", 0),
        text: "(table 1000000 externref) (func (export \"f\") (result i32) table.size)" },
    Row { name: "a table of 1,000,001 entries", words: "call module.wasm f --fuel 100", ending: Err("refused 3 Limit\n", 5),
        text: "(table 1000001 externref) (func (export \"f\") (result i32) table.size)" },
    Row { name: "a start function", words: "call module.wasm f --fuel 100", ending: Out("fuel left 100\n", 0),
        text: "(func (export \"f\")) (start 0)" },
    Row { name: "an import", words: "call module.wasm f --fuel 100", ending: Err("refused 6 UnknownImport\n", 5),
        text: "(import \"m\" \"g\" (func)) (func (export \"f\"))" },
];

#[rattlefmt::skip]
static STARTS: [Row; 9] = [
    Row { name: "a start function that traps", words: "call module.wasm f --fuel 10", ending: Out("trap: unreachable\nfuel left 9\n", 1),
        text: "(func (export \"f\")) (func unreachable) (start 1)" },
    Row { name: "a start function that traps, in a module without the export", words: "call module.wasm g --fuel 10", ending: Out("trap: unreachable\nfuel left 9\n", 1),
        text: "(func (export \"f\")) (func unreachable) (start 1)" },
    Row { name: "a start function that sets a global before the call", words: "call module.wasm f --fuel 10", ending: Out("i32 8\nfuel left 7\n", 0),
        text: "(global (mut i32) i32.const 7) (func (export \"f\") (result i32) global.get 0) (func i32.const 8 global.set 0) (start 1)" },
    Row { name: "a start function without fuel for its end", words: "call module.wasm f --fuel 1", ending: Out("exhausted: fuel\nfuel left 0\n", 6),
        text: "(global (mut i32) i32.const 7) (func (export \"f\") (result i32) global.get 0) (func i32.const 8 global.set 0) (start 1)" },
    Row { name: "a start function that leaves no fuel for the call", words: "call module.wasm f --fuel 2", ending: Out("exhausted: fuel\nfuel left 0\n", 6),
        text: "(global (mut i32) i32.const 7) (func (export \"f\") (result i32) global.get 0) (func i32.const 8 global.set 0) (start 1)" },
    Row { name: "a start function past the bound on frames", words: "call module.wasm f --fuel 10 --depth 1", ending: Out("exhausted: depth\nfuel left 10\n", 6),
        text: "(func (export \"f\")) (func call 0) (start 1)" },
    Row { name: "a start function after the element segments", words: "call module.wasm f --fuel 100", ending: Out("i32 0\nfuel left 93\n", 0),
        text: "(table 1 funcref) (global (mut i32) i32.const 7) (elem (offset i32.const 0) func 0) \
            (func (export \"f\") (result i32) global.get 0) (func i32.const 0 table.get ref.is_null global.set 0) (start 1)" },
    Row { name: "a start function after a segment that traps", words: "call module.wasm f --fuel 10", ending: Out("trap: out of bounds table access\nfuel left 9\n", 1),
        text: "(table 1 funcref) (elem (offset i32.const 1) func 0) (func (export \"f\")) (func unreachable) (start 1)" },
    Row { name: "an import of a module with a start function", words: "call module.wasm f --fuel 10", ending: Err("refused 6 UnknownImport\n", 5),
        text: "(import \"m\" \"g\" (func)) (func (export \"f\")) (func unreachable) (start 2)" },
];

fn agrees(alloc: Global, row: &Row) -> Result<bool, AllocError> {
    ends_so_on_text(alloc, row.words, row.text, row.ending)
}

#[test]
fn links_tables(rt: HostRuntime) {
    for row in &LINKS {
        assert!(rt; agrees(rt.alloc(), row) == Ok(true), "{}", row.name);
    }
}

#[test]
fn drops_element_segments(rt: HostRuntime) {
    for row in &ENDS {
        assert!(rt; agrees(rt.alloc(), row) == Ok(true), "{}", row.name);
    }
}

#[test]
fn calls_start_functions(rt: HostRuntime) {
    for row in &STARTS {
        assert!(rt; agrees(rt.alloc(), row) == Ok(true), "{}", row.name);
    }
}
