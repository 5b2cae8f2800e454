//! The lines for the contents of a module.

use module_info::{Verdict, describe};
use std::alloc::{AllocError, Global};
use testing::{assemble, bytes_of};

// A name, a module in the text format, and the lines after the first one, which states the number of bytes.
struct Row {
    name: &'static str,
    module: &'static str,
    lines: &'static str,
}

#[rattlefmt::skip]
static ROWS: [Row; 8] = [
    Row { name: "nothing", module: "", lines: "functions 0, operations 0\nglobals 0\nelement segments 0\ndata segments 0, bytes 0\n" },
    Row {
        name: "imports of each kind",
        module: "(import \"m\" \"f\" (func (param i32 i64 funcref externref) (result i32 i64))) (import \"m\" \"t\" (table 1 2 funcref)) \
            (import \"\" \"e\" (table 0 externref)) (import \"m\" \"mem\" (memory 1 65536)) (import \"m\" \"c\" (global i64)) \
            (import \"m\" \"v\" (global (mut externref)))",
        lines: "import \"m\" \"f\" (func (param i32 i64 funcref externref) (result i32 i64))\nimport \"m\" \"t\" \
            (table 1 2 funcref)\nimport \"\" \"e\" (table 0 externref)\nimport \"m\" \"mem\" (memory 1 65536)\nimport \"m\" \"c\" \
            (global i64)\nimport \"m\" \"v\" (global (mut externref))\nfunctions 0, operations 0\nglobals 0\nelement segments 0\ndata \
            segments 0, bytes 0\n",
    },
    Row {
        name: "exports of each kind",
        module: "(func (param i32) (result i64) i64.const 1) (table 3 externref) (memory 2) (global (mut i32) i32.const 5) \
            (export \"f\" (func 0)) (export \"t\" (table 0)) (export \"mem\" (memory 0)) (export \"g\" (global 0))",
        lines: "export \"f\" (func (param i32) (result i64))\nexport \"t\" (table 3 externref)\nexport \"mem\" (memory 2)\nexport \"g\" \
            (global (mut i32))\n(table 3 externref)\n(memory 2)\nfunctions 1, operations 1\nglobals 1\nelement segments 0\ndata segments \
            0, bytes 0\n",
    },
    Row {
        name: "exports of what is imported and of what is behind it",
        module: "(import \"m\" \"f\" (func (result i32))) (import \"m\" \"g\" (global i32)) (func (result i64) i64.const 1) \
            (global (mut i64) i64.const 5) (export \"f\" (func 0)) (export \"own\" (func 1)) (export \"g\" (global 0)) \
            (export \"h\" (global 1))",
        lines: "import \"m\" \"f\" (func (result i32))\nimport \"m\" \"g\" (global i32)\nexport \"f\" (func (result i32))\nexport \"own\" \
            (func (result i64))\nexport \"g\" (global i32)\nexport \"h\" \
            (global (mut i64))\nfunctions 1, operations 1\nglobals 1\nelement segments 0\ndata segments 0, bytes 0\n",
    },
    Row {
        name: "tables and a memory of its own",
        module: "(table 1 funcref) (table 2 5 externref) (memory 1 3)",
        lines: "(table 1 funcref)\n(table 2 5 externref)\n(memory 1 3)\nfunctions 0, operations 0\nglobals 0\nelement segments 0\ndata segments 0, bytes 0\n",
    },
    Row {
        name: "a start function",
        module: "(import \"m\" \"f\" (func)) (func) (start 1)",
        lines: "import \"m\" \"f\" (func)\nfunctions 1, operations 0\nglobals 0\nelement segments 0\ndata segments 0, bytes 0\nstart function 1\n",
    },
    Row {
        name: "operations of two functions",
        module: "(func nop nop) (func (result i32) block i32.const 1 drop end i32.const 2)",
        lines: "functions 2, operations 7\nglobals 0\nelement segments 0\ndata segments 0, bytes 0\n",
    },
    Row {
        name: "segments",
        module: "(func) (table 1 funcref) (memory 1) (elem (offset i32.const 0) func 0) (elem func 0) (data \"abc\") (data (offset i32.const 0) \"de\")",
        lines: "(table 1 funcref)\n(memory 1)\nfunctions 1, operations 0\nglobals 0\nelement segments 2\ndata segments 2, bytes 5\n",
    },
];

// A name of three bytes in hexadecimal, and how it is shown: on one line, and without control codes for a terminal.
static NAMES: [(&str, &str); 5] = [
    ("61 0A 62", "\"a\\nb\""),
    ("22 5C 61", "\"\\\"\\\\a\""),
    ("1B 5B 6D", "\"\\u{1b}[m\""),
    ("E2 80 AE", "\"\\u{202e}\""),
    ("E2 82 AC", "\"€\""),
];

// Returns whether these bytes encode a valid module that is described by these lines, after a line that states the number of
// bytes.
fn has_lines(alloc: Global, bytes: &[u8], lines: &str) -> Result<bool, AllocError> {
    let mut out = Vec::new(alloc);
    let verdict = describe(alloc, &mut out, bytes);
    let wanted = format!(in alloc; "valid, {} bytes\n{lines}", bytes.len())?;
    Ok(matches!(verdict, Ok(Verdict::Valid)) && out.as_slice() == wanted.as_bytes())
}

// Returns whether the module of a row is described by its lines.
fn is_described(alloc: Global, row: &Row) -> bool {
    match assemble(alloc, row.module) {
        Ok(bytes) => has_lines(alloc, bytes.as_slice(), row.lines) == Ok(true),
        Err(_) => false,
    }
}

#[test]
fn modules_are_described(rt: HostRuntime) {
    for row in &ROWS {
        assert!(rt; is_described(rt.alloc(), row), "{}", row.name);
    }
}

// Returns whether the name of an export is shown like this.
fn is_shown(alloc: Global, name: &str, shown: &str) -> Result<bool, AllocError> {
    let module = format!(in alloc;
        "0061736D01000000 010401600000 03020100 07070103 {name} 0000 0A040102000B"
    )?;
    let lines = format!(in alloc;
        "export {shown} (func)\nfunctions 1, operations 0\nglobals 0\nelement segments 0\ndata segments 0, bytes 0\n"
    )?;
    has_lines(
        alloc,
        bytes_of(alloc, module.as_str())?.as_slice(),
        lines.as_str(),
    )
}

#[test]
fn names_are_escaped(rt: HostRuntime) {
    for (name, shown) in &NAMES {
        assert!(rt; is_shown(rt.alloc(), name, shown) == Ok(true), "{name}");
    }
}
