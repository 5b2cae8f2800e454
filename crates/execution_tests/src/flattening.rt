//! Rows of flat code for the last function of a module. A row has the operations with their entries and the greatest height
//! above the locals, or the numbers of parameters, locals and results.

use crate::listing::list;
use crate::modules::{decoded_module, loaded_module};
use sidetable::{FlatModule, PackedFunction, PackedOp, flatten};
use std::alloc::{AllocError, Global};
use std::mem::size_of;

// The expected result for a function.
enum Expected {
    // Its operations, and its greatest height above its locals.
    Code(&'static str, u64),
    // The numbers of its parameters, its locals including these, and its results.
    Counts(u32, u32, u32),
}

use Expected::{Code, Counts};

// A row: a name, a module, and the expected result for its last function.
struct Row {
    name: &'static str,
    source: &'static str,
    expected: Expected,
}

#[rattlefmt::skip]
static ROWS: [Row; 21] = [
    Row { name: "an empty body", source: "(func)",
        expected: Code(" leave", 0) },
    Row { name: "a branch out of a block over three constants", source: "(func (result i32) block (result i32) i32.const 7 i32.const 8 i32.const 9 br 0 end)",
        expected: Code(" enter plain plain plain br(5,1,0) leave", 3) },
    Row { name: "a sum by a loop", source: "(func (param i32 i32) (result i32) loop local.get 1 local.get 0 i32.add local.set 1 local.get \
        0 i32.const 1 i32.sub local.tee 0 br_if 0 end local.get 1)",
        expected: Code(" enter plain plain plain plain plain plain plain plain br_if(0,0,0) plain leave", 2) },
    Row { name: "an if with two bodies", source: "(func (param i32) (result i32) local.get 0 if (result i32) i32.const 7 else i32.const 8 end)",
        expected: Code(" plain if(4,0,0) plain jump(5,1,0) plain leave", 1) },
    Row { name: "an if without else", source: "(func (param i32) local.get 0 if nop end nop)",
        expected: Code(" plain if(3,0,0) plain plain leave", 1) },
    Row { name: "a branch to the body", source: "(func (result i32) i32.const 5 i32.const 1 br 0)",
        expected: Code(" plain plain br(3,1,0) leave", 2) },
    Row { name: "a return from a block", source: "(func (result i32) i64.const 1 block i32.const 7 return end unreachable)",
        expected: Code(" plain enter plain return(5,1,0) plain leave", 2) },
    Row { name: "a branch out of two blocks", source: "(func (result i32) block (result i32) i64.const 1 block i32.const 7 br 1 end drop i32.const 8 end)",
        expected: Code(" enter plain enter plain br(7,1,0) plain plain leave", 2) },
    Row { name: "a loop with a parameter", source: "(func (param i32) (result i32) i32.const 5 loop (param i32) (result i32) i32.const 1 \
        i32.sub local.tee 0 local.get 0 br_if 0 end)",
        expected: Code(" plain enter plain plain plain plain br_if(1,1,0) leave", 2) },
    Row { name: "a branch above an operand", source: "(func (result i32) i32.const 1 block (result i32) i32.const 2 br 0 end i32.add)",
        expected: Code(" plain enter plain br(4,1,1) plain leave", 2) },
    Row { name: "a branch by number", source: "(func (param i32) block block local.get 0 br_table 0 1 2 end nop end)",
        expected: Code(" enter enter plain br_table(4,0,0)(5,0,0) else(5,0,0) plain leave", 1) },
    Row { name: "a branch by a default alone", source: "(func (param i32) block local.get 0 br_table 0 end)",
        expected: Code(" enter plain br_table else(3,0,0) leave", 1) },
    Row { name: "an if with a parameter", source: "(func (param i32) (result i32) i32.const 9 local.get 0 if (param i32) (result i32) \
        drop i32.const 1 else i32.const 2 i32.add end)",
        expected: Code(" plain plain if(6,1,0) plain plain jump(8,1,0) plain plain leave", 2) },
    Row { name: "bodies behind a branch", source: "(func block br 0 block br 0 br 1 end end)",
        expected: Code(" enter br(5,0,0) enter br(5,0,0) br(5,0,0) leave", 0) },
    Row { name: "a branch behind unreachable", source: "(func (result i32) block (result i32) unreachable br 0 end)",
        expected: Code(" enter plain br(3,1,0) leave", 1) },
    Row { name: "results that are not reached", source: "(func (result i32 i32) unreachable)",
        expected: Code(" plain leave", 2) },
    Row { name: "a call of three results", source: "(func (result i32 i32 i32) i32.const 1 i32.const 2 i32.const 3) (func call 0 drop drop drop)",
        expected: Code(" plain plain plain plain leave", 3) },
    Row { name: "a call of an import", source: "(import \"m\" \"f\" (func (param i64) (result i32 i32))) (func i64.const 1 call 0 drop drop)",
        expected: Code(" plain plain plain plain leave", 2) },
    Row { name: "a call through a table", source: "(type (func (param i32) (result i32 i32 i32))) (table 1 funcref) \
        (func i32.const 1 i32.const 0 call_indirect (type 0) drop drop drop)",
        expected: Code(" plain plain plain plain plain plain leave", 3) },
    Row { name: "a branch in a second function", source: "(func nop) (func (param i32) block local.get 0 br_if 0 end)",
        expected: Code(" enter plain br_if(3,0,0) leave", 1) },
    Row { name: "what a function has", source: "(func (param i32 i64) (result i32) (local i32 i64 i64) i32.const 1)",
        expected: Counts(2, 5, 1) },
];

#[rattlefmt::skip]
static TAIL_CALLS: [Row; 6] = [
    Row { name: "a tail call above an operand", source: "(func (param i32)) (func i64.const 5 i32.const 7 return_call 0)",
        expected: Code(" plain plain return_call(0) leave", 2) },
    Row { name: "operands behind a tail call", source: "(func (param i32)) (func i32.const 7 return_call 0 i64.const 1 i64.const 2 drop drop)",
        expected: Code(" plain return_call(0) plain plain plain plain leave", 1) },
    Row { name: "a body behind a tail call", source: "(func i64.const 5 return_call 0 block br 0 end)",
        expected: Code(" plain return_call(0) enter br(4,0,0) leave", 1) },
    Row { name: "tail calls from an if", source: "(func (param i32) local.get 0 if local.get 0 return_call 0 else local.get 0 return_call 0 end)",
        expected: Code(" plain if(5,0,0) plain return_call(0) jump(7,0,0) plain return_call(0) leave", 1) },
    Row { name: "a tail call of an import", source: "(import \"m\" \"f\" (func (param i64) (result i32 i32))) \
        (func (result i32 i32) i64.const 1 return_call 0)",
        expected: Code(" plain return_call(0) leave", 2) },
    Row { name: "a tail call through a table", source: "(type (func (param i32) (result i32))) (table 1 funcref) (table 1 funcref) \
        (func (type 0) local.get 0 i32.const 0 return_call_indirect 1 (type 0))",
        expected: Code(" plain plain return_call_indirect(0,1) leave", 2) },
];

// Returns whether a function has the expected flat code.
fn is_so(
    alloc: Global,
    flat: &FlatModule,
    function: &PackedFunction,
    expected: &Expected,
) -> Result<bool, AllocError> {
    match expected {
        Code(listing, greatest) => {
            let above = function.greatest.checked_sub(u64::from(function.locals));
            Ok(above == Some(*greatest) && list(alloc, flat, function)?.as_str() == *listing)
        }
        Counts(params, locals, results) => {
            Ok(
                function.params == *params
                    && function.locals == *locals
                    && function.results == *results,
            )
        }
    }
}

// Returns the flat code of a source's module.
fn flat_module_of(alloc: Global, source: &str) -> Option<FlatModule> {
    let decoded = decoded_module(alloc, source)?;
    let (_, flat) = flatten(alloc, decoded).ok()?;
    Some(flat)
}

// Returns whether the last function of a module is as expected.
fn is_last_so(alloc: Global, flat: &FlatModule, expected: &Expected) -> Result<bool, AllocError> {
    match flat.functions.last() {
        Some(last) => is_so(alloc, flat, last, expected),
        None => Ok(false),
    }
}

// Returns whether the last function of a row's module has the expected flat code.
fn is_flattened(alloc: Global, row: &Row) -> bool {
    match flat_module_of(alloc, row.source) {
        Some(flat) => is_last_so(alloc, &flat, &row.expected) == Ok(true),
        None => false,
    }
}

// The same, if the module is loaded in one reading.
fn is_loaded(alloc: Global, row: &Row) -> bool {
    match loaded_module(alloc, row.source) {
        Some(loaded) => is_last_so(alloc, loaded.flat(), &row.expected) == Ok(true),
        None => false,
    }
}

#[test]
fn functions_are_flattened(rt: HostRuntime) {
    for row in &ROWS {
        assert!(rt;
            is_flattened(rt.alloc(), row) && is_loaded(rt.alloc(), row),
            "{}",
            row.name
        );
    }
}

#[test]
fn tail_calls_are_flattened(rt: HostRuntime) {
    for row in &TAIL_CALLS {
        assert!(rt;
            is_flattened(rt.alloc(), row) && is_loaded(rt.alloc(), row),
            "{}",
            row.name
        );
    }
}

#[test]
fn operations_take_eight_bytes(rt: HostRuntime) {
    assert!(rt; size_of::<PackedOp>() == 8);
}
