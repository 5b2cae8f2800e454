//! Calls of modules whose instructions are run, and of modules that are refused.

use crate::runs::{Ending, ends_so_on_text};
use std::alloc::{AllocError, Global};

// A name, a module, and what a call of its function `f` with 100 units of fuel prints.
struct Run {
    name: &'static str,
    text: &'static str,
    out: &'static str,
}

#[rattlefmt::skip]
static RUN: [Run; 32] = [
    Run {
        name: "i32.eqz",
        text: r#"(func (export "f") (result i32) i32.const 0 i32.eqz)"#,
        out: "i32 1\nfuel left 98\n",
    },
    Run {
        name: "i64.lt_u",
        text: r#"(func (export "f") (result i32) i64.const 1 i64.const 2 i64.lt_u)"#,
        out: "i32 1\nfuel left 97\n",
    },
    Run {
        name: "i32.clz",
        text: r#"(func (export "f") (result i32) i32.const 1 i32.clz)"#,
        out: "i32 31\nfuel left 98\n",
    },
    Run {
        name: "i32.extend8_s",
        text: r#"(func (export "f") (result i32) i32.const 128 i32.extend8_s)"#,
        out: "i32 4294967168\nfuel left 98\n",
    },
    Run {
        name: "i32.sub",
        text: r#"(func (export "f") (result i32) i32.const 7 i32.const 2 i32.sub)"#,
        out: "i32 5\nfuel left 97\n",
    },
    Run {
        name: "i64.mul_and_i32.wrap_i64",
        text: r#"(func (export "f") (result i32) i64.const 3 i64.const 4 i64.mul i32.wrap_i64)"#,
        out: "i32 12\nfuel left 96\n",
    },
    Run {
        name: "i64.extend_i32_u_and_i64.eqz",
        text: r#"(func (export "f") (result i32) i32.const 0 i64.extend_i32_u i64.eqz)"#,
        out: "i32 1\nfuel left 97\n",
    },
    Run {
        name: "drop",
        text: r#"(func (export "f") (result i32) i32.const 7 i32.const 8 drop)"#,
        out: "i32 7\nfuel left 97\n",
    },
    Run {
        name: "select",
        text: r#"(func (export "f") (result i32) i32.const 7 i32.const 8 i32.const 0 select)"#,
        out: "i32 8\nfuel left 96\n",
    },
    Run {
        name: "select_with_types",
        text: r#"(func (export "f") (result i32) i32.const 7 i32.const 8 i32.const 1 select (result i32))"#,
        out: "i32 7\nfuel left 96\n",
    },
    Run {
        name: "local.set_and_local.get",
        text: r#"(func (export "f") (result i32) (local i32) i32.const 7 local.set 0 local.get 0)"#,
        out: "i32 7\nfuel left 97\n",
    },
    Run {
        name: "local.tee",
        text: r#"(func (export "f") (result i32) (local i32) i32.const 7 local.tee 0 local.get 0 i32.add)"#,
        out: "i32 14\nfuel left 96\n",
    },
    Run {
        name: "nop",
        text: r#"(func (export "f") (result i32) nop i32.const 7)"#,
        out: "i32 7\nfuel left 98\n",
    },
    Run {
        name: "block",
        text: r#"(func (export "f") (result i32) block (result i32) i32.const 7 end)"#,
        out: "i32 7\nfuel left 98\n",
    },
    Run {
        name: "loop",
        text: r#"(func (export "f") (result i32) loop (result i32) i32.const 7 end)"#,
        out: "i32 7\nfuel left 98\n",
    },
    Run {
        name: "if_with_else",
        text: r#"(func (export "f") (result i32) i32.const 0 if (result i32) i32.const 7 else i32.const 8 end)"#,
        out: "i32 8\nfuel left 97\n",
    },
    Run {
        name: "if_without_else",
        text: r#"(func (export "f") (result i32) i32.const 0 if nop end i32.const 7)"#,
        out: "i32 7\nfuel left 97\n",
    },
    Run {
        name: "br",
        text: r#"(func (export "f") (result i32) block (result i32) i32.const 7 br 0 end)"#,
        out: "i32 7\nfuel left 97\n",
    },
    Run {
        name: "br_if",
        text: r#"(func (export "f") (result i32) block (result i32) i32.const 7 i32.const 1 br_if 0 drop i32.const 8 end)"#,
        out: "i32 7\nfuel left 96\n",
    },
    Run {
        name: "br_table",
        text: r#"(func (export "f") (result i32) block (result i32) i32.const 7 i32.const 0 br_table 0 end)"#,
        out: "i32 7\nfuel left 96\n",
    },
    Run {
        name: "return",
        text: r#"(func (export "f") (result i32) block i32.const 7 return end i32.const 8)"#,
        out: "i32 7\nfuel left 97\n",
    },
    Run {
        name: "call",
        text: r#"(func (export "f") (result i32) call 1 i32.const 1 i32.add) (func (result i32) i32.const 7)"#,
        out: "i32 8\nfuel left 96\n",
    },
    Run {
        name: "ref.null",
        text: r#"(func (export "f") (result i32) ref.null func drop i32.const 7)"#,
        out: "i32 7\nfuel left 97\n",
    },
    Run {
        name: "ref.is_null",
        text: r#"(func (export "f") (result i32) ref.null func ref.is_null)"#,
        out: "i32 1\nfuel left 98\n",
    },
    Run {
        name: "ref.func",
        text: r#"(func (export "f") (result i32) ref.func 0 drop i32.const 7)"#,
        out: "i32 7\nfuel left 97\n",
    },
    Run {
        name: "ref.null within a block that is left",
        text: r#"(func (export "f") (result i32) block br 0 ref.null func drop end i32.const 7)"#,
        out: "i32 7\nfuel left 97\n",
    },
    Run {
        name: "ref.is_null in the second function",
        text: r#"(func (export "f") (result i32) i32.const 7) (func (result i32) ref.null func ref.is_null)"#,
        out: "i32 7\nfuel left 99\n",
    },
    Run {
        name: "a table",
        text: r#"(table 1 funcref) (func (export "f") (result i32) i32.const 7)"#,
        out: "i32 7\nfuel left 99\n",
    },
    Run {
        name: "a passive element segment",
        text: r#"(elem func 0) (func (export "f") (result i32) i32.const 7)"#,
        out: "i32 7\nfuel left 99\n",
    },
    Run {
        name: "an import of a global of the stored module",
        text: r#"(import "spectest" "global_i32" (global i32)) (func (export "f") (result i32) global.get 0)"#,
        out: "i32 666\nfuel left 99\n",
    },
    Run {
        name: "imports of the memory and the table of the stored module",
        text: r#"(import "spectest" "memory" (memory 1 2)) (import "spectest" "table" (table 10 20 funcref))
            (func (export "f") (result i32) memory.size table.size i32.add)"#,
        out: "i32 11\nfuel left 97\n",
    },
    Run {
        name: "a start function",
        text: r#"(func (export "f") (result i32) i32.const 7) (func nop) (start 1)"#,
        out: "i32 7\nfuel left 98\n",
    },
];

fn is_run(alloc: Global, run: &Run) -> Result<bool, AllocError> {
    let words = "call module.wasm f --fuel 100";
    ends_so_on_text(alloc, words, run.text, Ending::Out(run.out, 0))
}

#[test]
fn runs_each_group_of_instructions(rt: HostRuntime) {
    for run in &RUN {
        assert!(rt; is_run(rt.alloc(), run) == Ok(true), "{}", run.name);
    }
}

#[rattlefmt::skip]
static TAIL_CALLS: [Run; 3] = [
    Run {
        name: "return_call",
        text: r#"(func (export "f") (result i32) return_call 1) (func (result i32) i32.const 7)"#,
        out: "i32 7\nfuel left 98\n",
    },
    Run {
        name: "return_call_indirect",
        text: r#"(type (func (result i32))) (table 1 funcref) (elem (offset i32.const 0) func 1)
            (func (export "f") (result i32) i32.const 0 return_call_indirect (type 0)) (func (result i32) i32.const 7)"#,
        out: "i32 7\nfuel left 95\n",
    },
    Run {
        name: "return_call of a host function of the stored module",
        text: r#"(import "spectest" "print_i32" (func (param i32))) (func (export "f") i32.const 7 return_call 0)"#,
        out: "fuel left 98\n",
    },
];

#[test]
fn runs_tail_calls(rt: HostRuntime) {
    for run in &TAIL_CALLS {
        assert!(rt; is_run(rt.alloc(), run) == Ok(true), "{}", run.name);
    }
}

// A name, the arguments of a run, its module, and the line and the status with which it is refused.
struct Refused {
    name: &'static str,
    words: &'static str,
    text: &'static str,
    line: &'static str,
    status: u8,
}

const F: &str = "call module.wasm f";

#[rattlefmt::skip]
static REFUSED: [Refused; 12] = [
    Refused {
        name: "table.get of no table",
        words: F,
        text: r#"(func (export "f") (result i32) i32.const 0 table.get drop i32.const 7)"#,
        line: "refused 4 Invalid\n",
        status: 5,
    },
    Refused {
        name: "table.size of no table",
        words: F,
        text: r#"(func (export "f") (result i32) table.size)"#,
        line: "refused 4 Invalid\n",
        status: 5,
    },
    Refused {
        name: "elem.drop of no segment",
        words: F,
        text: r#"(func (export "f") (result i32) elem.drop 0 i32.const 7)"#,
        line: "refused 4 Invalid\n",
        status: 5,
    },
    Refused {
        name: "call_indirect through no table",
        words: F,
        text: r#"(type (func (result i32))) (func (export "f") (result i32) i32.const 0 call_indirect (type 0))"#,
        line: "refused 4 Invalid\n",
        status: 5,
    },
    Refused {
        name: "return_call of a function with other results",
        words: F,
        text: r#"(func (export "f") (result i32) return_call 1) (func)"#,
        line: "refused 4 Invalid\n",
        status: 5,
    },
    Refused {
        name: "an import",
        words: F,
        text: r#"(import "a" "b" (func (result i32))) (func (export "f") (result i32) i32.const 7)"#,
        line: "refused 6 UnknownImport\n",
        status: 5,
    },
    Refused {
        name: "a memory of 1025 pages",
        words: F,
        text: r#"(memory 1025) (func (export "f") (result i32) i32.const 7)"#,
        line: "refused 3 Limit\n",
        status: 5,
    },
    Refused {
        name: "an immutable global as a mutable one",
        words: F,
        text: r#"(import "spectest" "global_i32" (global (mut i32))) (func (export "f") (result i32) i32.const 7)"#,
        line: "refused 7 IncompatibleImport\n",
        status: 5,
    },
    Refused {
        name: "that, and then a missing import",
        words: F,
        text: r#"(import "spectest" "global_i32" (global (mut i32))) (import "a" "b" (func (result i32)))
            (func (export "f") (result i32) i32.const 7)"#,
        line: "refused 6 UnknownImport\n",
        status: 5,
    },
    Refused {
        name: "that, and a memory of 1025 pages",
        words: F,
        text: r#"(import "spectest" "global_i32" (global (mut i32))) (memory 1025) (func (export "f") (result i32) i32.const 7)"#,
        line: "refused 7 IncompatibleImport\n",
        status: 5,
    },
    Refused { name: "a global in the place of a function", words: F, text: r#"(global i32 i32.const 5) (export "f" (global 0))"#, line: "refused 10 WrongKind\n", status: 2 },
    Refused {
        name: "that, with a word that is no number",
        words: "call module.wasm f x",
        text: r#"(global i32 i32.const 5) (export "f" (global 0))"#,
        line: "refused 10 WrongKind\n",
        status: 2,
    },
];

fn is_refused(alloc: Global, row: &Refused) -> Result<bool, AllocError> {
    ends_so_on_text(
        alloc,
        row.words,
        row.text,
        Ending::Err(row.line, row.status),
    )
}

#[test]
fn refuses_by_the_first_cause(rt: HostRuntime) {
    for row in &REFUSED {
        assert!(rt; is_refused(rt.alloc(), row) == Ok(true), "{}", row.name);
    }
}
