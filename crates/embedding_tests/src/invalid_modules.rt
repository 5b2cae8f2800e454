//! Why modules are not valid, in the texts of `explain_module`.

use crate::explanations::{is_explained, text_is_explained};
// The text of a module, and what its explanation says after `invalid module: `. The offsets are those of another assembler.
#[rattlefmt::skip]
static BODIES: [(&str, &str); 54] = [
    ("(func (result i32) i64.const 1)", "type mismatch in function 0, operation 1 at offset 0x1a: end expects i32, found i64"),
    ("(func) (func i32.const 1 i64.const 2 i32.add drop)", "type mismatch in function 1, operation 2 at offset 0x1f: i32.add expects i32, found i64"),
    ("(func (export \"parse\") i32.add drop)", "type mismatch in function 0 (\"parse\"), operation 0 at offset 0x22: i32.add expects i32, found nothing"),
    ("(func i32.const 1)", "type mismatch in function 0, operation 1 at offset 0x19: end expects no more operands, found i32"),
    ("(func i32.const 1 i64.const 2 drop)", "type mismatch in function 0, operation 3 at offset 0x1c: end expects no more operands, found i32"),
    ("(func unreachable i32.const 1 i64.eqz drop)", "type mismatch in function 0, operation 2 at offset 0x1a: i64.eqz expects i64, found i32"),
    ("(func block i32.const 0 end)", "type mismatch in function 0, operation 2 at offset 0x1b: end expects no more operands, found i32"),
    ("(func block (result i32) end drop)", "type mismatch in function 0, operation 1 at offset 0x19: end expects i32, found nothing"),
    ("(func i32.const 0 block drop end)", "type mismatch in function 0, operation 2 at offset 0x1b: drop expects an operand, found nothing"),
    ("(func i64.const 0 if end)", "type mismatch in function 0, operation 1 at offset 0x19: if expects i32, found i64"),
    ("(func i32.const 0 if (result i32) i32.const 1 end drop)",
        "type mismatch in function 0, operation 3 at offset 0x1d: end expects an else, since the if takes other types than it gives"),
    ("(func i32.const 0 if (result i32) i32.const 1 else i64.const 1 end drop)",
        "type mismatch in function 0, operation 5 at offset 0x20: end expects i32, found i64"),
    ("(func i32.const 0 if i32.const 1 else end)", "type mismatch in function 0, operation 3 at offset 0x1d: else expects no more operands, found i32"),
    ("(func br 1)", "unknown label in function 0, operation 0 at offset 0x17: br has the index 1, and there are 1"),
    ("(func block i32.const 0 br_if 2 end)", "unknown label in function 0, operation 2 at offset 0x1b: br_if has the index 2, and there are 2"),
    ("(func block (result i32) br 0 end drop)", "type mismatch in function 0, operation 1 at offset 0x19: br expects i32, found nothing"),
    ("(func (result i32) block i32.const 0 i32.const 0 br_table 0 1 end i32.const 0)",
        "type mismatch in function 0, operation 3 at offset 0x1e: br_table expects labels of as many operands, found 1 and 0"),
    ("(func i32.const 0 br_table 0 7 0)", "unknown label in function 0, operation 1 at offset 0x19: br_table has the index 7, and there are 1"),
    ("(func (result i64) i32.const 0 return)", "type mismatch in function 0, operation 1 at offset 0x1a: return expects i64, found i32"),
    ("(func local.get 2 drop)", "unknown local in function 0, operation 0 at offset 0x17: local.get has the index 2, and there are 0"),
    ("(func (param i32) (local i64) local.get 2 drop)", "unknown local in function 0, operation 0 at offset 0x1a: local.get has the index 2, and there are 2"),
    ("(func (local i64) i32.const 0 local.set 0)", "type mismatch in function 0, operation 1 at offset 0x1b: local.set expects i64, found i32"),
    ("(func global.get 1 drop) (global i32 i32.const 0)",
        "unknown global in function 0, operation 0 at offset 0x1f: global.get has the index 1, and there are 1"),
    ("(func i32.const 0 global.set 0) (global i32 i32.const 0)",
        "immutable global in function 0, operation 1 at offset 0x21: global.set sets the immutable global 0"),
    ("(func i64.const 0 global.set 0) (global (mut i32) i32.const 0)",
        "type mismatch in function 0, operation 1 at offset 0x21: global.set expects i32, found i64"),
    ("(func call 5)", "unknown function in function 0, operation 0 at offset 0x17: call has the index 5, and there are 1"),
    ("(func call 1) (func (param i32 i64))", "type mismatch in function 0, operation 0 at offset 0x1d: call expects i64, found nothing"),
    ("(import \"m\" \"f\" (func)) (func (param i64) call 0 local.get 0 call 1 i32.eqz)",
        "type mismatch in function 1, operation 3 at offset 0x2a: i32.eqz expects i32, found nothing"),
    ("(func i32.const 0 call_indirect (type 0))", "unknown table in function 0, operation 1 at offset 0x19: call_indirect has the index 0, and there are 0"),
    ("(table 1 externref) (func i32.const 0 call_indirect (type 0))",
        "type mismatch in function 0, operation 1 at offset 0x1f: call_indirect expects a table of funcref, found externref"),
    ("(table 1 funcref) (func i32.const 0 call_indirect (type 9))",
        "unknown type in function 0, operation 1 at offset 0x1f: call_indirect has the index 9, and there are 1"),
    ("(func block (type 4) end)", "unknown type in function 0, operation 0 at offset 0x17: block has the index 4, and there are 1"),
    ("(func table.size 0 drop)", "unknown table in function 0, operation 0 at offset 0x17: table.size has the index 0, and there are 0"),
    ("(table 1 funcref) (func i32.const 0 ref.null extern table.set 0)",
        "type mismatch in function 0, operation 2 at offset 0x21: table.set expects funcref, found externref"),
    ("(table 1 funcref) (table 1 externref) (func i32.const 0 i32.const 0 i32.const 0 table.copy 0 1)",
        "type mismatch in function 0, operation 3 at offset 0x26: table.copy expects funcref, found externref"),
    ("(table 1 funcref) (func i32.const 0 i32.const 0 i32.const 0 table.init 0 3)",
        "unknown element segment in function 0, operation 3 at offset 0x23: table.init has the index 3, and there are 0"),
    ("(func elem.drop 0)", "unknown element segment in function 0, operation 0 at offset 0x17: elem.drop has the index 0, and there are 0"),
    ("(func i32.const 0 i32.load drop)", "unknown memory in function 0, operation 1 at offset 0x19: i32.load needs a memory, and there is none"),
    ("(func memory.size drop)", "unknown memory in function 0, operation 0 at offset 0x17: memory.size needs a memory, and there is none"),
    ("(memory 1) (func i32.const 0 i64.load align=16 drop)",
        "alignment too large in function 0, operation 1 at offset 0x1e: i64.load has an alignment of 2^4, and at most 2^3 is allowed"),
    ("(memory 1) (func i64.const 0 i32.load8_u drop)", "type mismatch in function 0, operation 1 at offset 0x1e: i32.load8_u expects i32, found i64"),
    ("(memory 1) (func i32.const 0 i32.const 0 i64.store16)", "type mismatch in function 0, operation 2 at offset 0x20: i64.store16 expects i64, found i32"),
    ("(memory 1) (func i32.const 0 i32.const 0 i64.const 0 memory.fill)",
        "type mismatch in function 0, operation 3 at offset 0x22: memory.fill expects i32, found i64"),
    ("(func ref.func 0 drop)",
        "undeclared reference in function 0, operation 0 at offset 0x17: ref.func names function 0, which nothing names outside of bodies"),
    ("(func ref.func 3 drop)", "unknown function in function 0, operation 0 at offset 0x17: ref.func has the index 3, and there are 1"),
    ("(func i32.const 0 ref.is_null drop)", "type mismatch in function 0, operation 1 at offset 0x19: ref.is_null expects a reference, found i32"),
    ("(func ref.null func ref.null func i32.const 0 select drop)",
        "type mismatch in function 0, operation 3 at offset 0x1d: select without a type expects i32 or i64, found funcref"),
    ("(func i32.const 0 i64.const 0 i32.const 0 select drop)", "type mismatch in function 0, operation 3 at offset 0x1d: select expects i64, found i32"),
    ("(func ref.null func ref.null extern i32.const 0 select (result externref) drop)",
        "type mismatch in function 0, operation 3 at offset 0x1d: select expects externref, found funcref"),
    ("(func i64.const 0 i32.wrap_i64 i64.extend8_s drop)", "type mismatch in function 0, operation 2 at offset 0x1a: i64.extend8_s expects i64, found i32"),
    ("(func i32.const 0 i64.extend_i32_u i32.rotl drop)", "type mismatch in function 0, operation 2 at offset 0x1a: i32.rotl expects i32, found i64"),
    ("(func return_call 1) (func (result i32) i32.const 0)",
        "type mismatch in function 0, operation 0 at offset 0x1c: return_call expects the results of its own function"),
    ("(func return_call 1) (func (param i64))", "type mismatch in function 0, operation 0 at offset 0x1c: return_call expects i64, found nothing"),
    ("(func (export \"xxxxxxxxxxxxxxxxxxxxxxxxxxxxxxxxxxxxxxxxxxxxxxxxxxxxxxxxxxxxxxxxxxxxxxxxxxxxxxxxxxxxx\") i32.eqz drop)",
        "type mismatch in function 0 (\"xxxxxxxxxxxxxxxxxxxxxxxxxxxxxxxxxxxxxxxxxxxxxxxxxxxxxxxxxxxxxxxxxxxxxxxxxxxxxxxx\"), operation 0 at offset 0x72: i32.eqz expects i32, found nothing"),
];

// The text of a module that is not valid outside of bodies, and what its explanation says after `invalid module: `.
#[rattlefmt::skip]
static PARTS: [(&str, &str); 31] = [
    ("(import \"m\" \"f\" (func (type 3)))", "import 0 (\"m\" \"f\"): type 3 is not there, and there are 0"),
    ("(import \"m\" \"t\" (table 2 1 funcref))", "import 0 (\"m\" \"t\"): minimum 2 is above the maximum 1"),
    ("(import \"m\" \"g\" (global i32)) (import \"m\" \"u\" (memory 65537))", "import 1 (\"m\" \"u\"): minimum 65537 pages, the maximum is 65536"),
    ("(import \"m\" \"u\" (memory 1 65537))", "import 0 (\"m\" \"u\"): maximum 65537 pages, the maximum is 65536"),
    ("(func) (func (type 7))", "function 1: type 7 is not there, and there are 1"),
    ("(import \"m\" \"f\" (func)) (func (type 7))", "function 1: type 7 is not there, and there are 1"),
    ("(table 1 funcref) (table 2 1 funcref)", "table 1: minimum 2 is above the maximum 1"),
    ("(memory 70000)", "memory 0: minimum 70000 pages, the maximum is 65536"),
    ("(memory 3 2)", "memory 0: minimum 3 is above the maximum 2"),
    ("(memory 1) (memory 1)", "memory 1: at most one memory is allowed"),
    ("(import \"m\" \"u\" (memory 1)) (memory 1)", "memory 1: at most one memory is allowed"),
    ("(global i32 i64.const 0)", "global 0: initializer has type i64, expected i32"),
    ("(import \"m\" \"g\" (global i32)) (global i64 global.get 0)", "global 1: initializer has type i32, expected i64"),
    ("(global i32 i32.const 0) (global i32 global.get 0)", "global 1: initializer is no constant expression of type i32"),
    ("(import \"m\" \"g\" (global (mut i32))) (global i32 global.get 0)", "global 1: initializer is no constant expression of type i32"),
    ("(global funcref ref.func 2)", "global 0: initializer is no constant expression of type funcref"),
    ("(global i32 i32.const 1 i64.const 2 i32.add)", "global 0: initializer is no constant expression of type i32"),
    ("(func) (export \"g\" (func 0)) (export \"f\" (func 1))", "export 1 (\"f\"): function 1 is not there, and there are 1"),
    ("(export \"t\" (table 0))", "export 0 (\"t\"): table 0 is not there, and there are 0"),
    ("(export \"u\" (memory 0))", "export 0 (\"u\"): memory 0 is not there, and there are 0"),
    ("(export \"g\" (global 2))", "export 0 (\"g\"): global 2 is not there, and there are 0"),
    ("(func) (export \"f\" (func 0)) (export \"g\" (func 0)) (export \"f\" (func 0))", "export 2 (\"f\"): duplicate name"),
    ("(func (param i32)) (start 0)", "start function 0 has type (i32) -> ()"),
    ("(func) (func (param i32 i64) (result i64 funcref) unreachable) (start 1)", "start function 1 has type (i32 i64) -> (i64 funcref)"),
    ("(func) (start 4)", "start: function 4 is not there, and there are 1"),
    ("(func) (elem func 1)", "element segment 0: function 1 is not there, and there are 1"),
    ("(func) (elem (offset i32.const 0) func 0)", "element segment 0: table 0 is not there, and there are 0"),
    ("(table 1 externref) (func) (elem (offset i32.const 0) func 0)", "element segment 0: references of type funcref, and table 0 has externref"),
    ("(table 1 funcref) (func) (elem (offset i64.const 0) func 0)", "element segment 0: offset has type i64, expected i32"),
    ("(data (offset i32.const 0) \"x\")", "data segment 0: memory 0 is not there, and there are 0"),
    ("(memory 1) (data \"y\") (data (offset i64.const 0) \"x\")", "data segment 1: offset has type i64, expected i32"),
];

// A module whose function is exported under a name with a line break, in hexadecimal.
const BROKEN_NAME: &str =
    "0061736D01000000 010401600000 03020100 07070103 610A62 0000 0A050103 00450B";

const BROKEN_NAME_TEXT: &str =
    "type mismatch in function 0 (\"a\\nb\"), operation 0 at offset 0x20: i32.eqz expects i32, found nothing";

#[test]
fn invalid_bodies_are_explained(rt: HostRuntime) {
    for (text, explanation) in &BODIES {
        assert!(rt; text_is_explained(rt.alloc(), text, explanation), "{text}");
    }
}

#[test]
fn invalid_parts_are_explained(rt: HostRuntime) {
    for (text, explanation) in &PARTS {
        assert!(rt; text_is_explained(rt.alloc(), text, explanation), "{text}");
    }
}

#[test]
fn names_in_explanations_are_escaped(rt: HostRuntime) {
    assert!(rt; is_explained(rt.alloc(), BROKEN_NAME, "invalid module", BROKEN_NAME_TEXT));
}
