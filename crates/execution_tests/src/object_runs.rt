//! Calls of functions that read and change tables, memories, globals and segments.

use crate::modules::store_with;
use crate::runs::calls_so;
use core_types::Val;
use hostfunc::HostTable;
use std::alloc::Global;
use store::Store;

// A call of the function at an address: its arguments and the fuel, how it ends, and the fuel left.
struct Call {
    address: u32,
    args: &'static [Val],
    fuel: u64,
    ends: &'static str,
    left: u64,
}

// Modules, calls in turn in one store of them, and the first bytes of the first module's memory at the end. All bytes after them
// are zero. If there are none, the memory is not checked.
struct Case {
    name: &'static str,
    modules: &'static [&'static str],
    bytes: Option<&'static [u8]>,
    calls: &'static [Call],
}

// Fills and growth.
#[rattlefmt::skip]
static GROWTHS: [Case; 6] = [
    Case { name: "a fill, one fuel short", modules: &["(memory 1) (func i32.const 0 i32.const 7 i32.const 128 memory.fill)"], bytes: Some(&[]), calls: &[
        Call { address: 0, args: &[], fuel: 5, ends: "exhausted fuel", left: 2 },
    ] },
    Case { name: "a fill, with fuel for it", modules: &["(memory 1) (func i32.const 0 i32.const 7 i32.const 128 memory.fill)"], bytes: Some(&[7; 128]), calls: &[
        Call { address: 0, args: &[], fuel: 6, ends: "values", left: 0 },
    ] },
    Case { name: "a fill that traps costs 1", modules: &["(memory 1) (func i32.const 65472 i32.const 7 i32.const 65 memory.fill)"], bytes: Some(&[]), calls: &[
        Call { address: 0, args: &[], fuel: 4, ends: "trap out of bounds memory access", left: 0 },
        Call { address: 0, args: &[], fuel: 3, ends: "exhausted fuel", left: 0 },
    ] },
    Case { name: "growth to the maximum", modules: &["(memory 1 5) (func (param i32) (result i32) local.get 0 memory.grow) \
        (func (result i32) memory.size)"], bytes: Some(&[]), calls: &[
        Call { address: 0, args: &[Val::I32(4294967295)], fuel: 10000, ends: "values i32 4294967295", left: 9998 },
        Call { address: 0, args: &[Val::I32(4)], fuel: 9998, ends: "values i32 1", left: 5900 },
        Call { address: 0, args: &[Val::I32(0)], fuel: 5900, ends: "values i32 5", left: 5898 },
        Call { address: 1, args: &[], fuel: 1, ends: "values i32 5", left: 0 },
    ] },
    Case { name: "growth, one fuel short", modules: &["(memory 1 5) (func (param i32) (result i32) local.get 0 memory.grow) \
        (func (result i32) memory.size)"], bytes: Some(&[]), calls: &[
        Call { address: 0, args: &[Val::I32(4)], fuel: 4097, ends: "exhausted fuel", left: 4096 },
        Call { address: 1, args: &[], fuel: 1, ends: "values i32 1", left: 0 },
        Call { address: 0, args: &[Val::I32(4)], fuel: 4098, ends: "values i32 1", left: 0 },
        Call { address: 1, args: &[], fuel: 1, ends: "values i32 5", left: 0 },
    ] },
    Case { name: "growth without a maximum", modules: &["(memory 1) (func (param i32) (result i32) local.get 0 memory.grow) \
        (func (result i32) memory.size)"], bytes: None, calls: &[
        Call { address: 0, args: &[Val::I32(1024)], fuel: 2, ends: "values i32 4294967295", left: 0 },
        Call { address: 0, args: &[Val::I32(1023)], fuel: 1047553, ends: "exhausted fuel", left: 1047552 },
        Call { address: 0, args: &[Val::I32(1023)], fuel: 1047554, ends: "values i32 1", left: 0 },
        Call { address: 1, args: &[], fuel: 1, ends: "values i32 1024", left: 0 },
    ] },
];

// Sizes and stores.
#[rattlefmt::skip]
static STORES: [Case; 6] = [
    Case { name: "the size of a memory", modules: &["(memory 2) (func (result i32) memory.size)"], bytes: Some(&[]), calls: &[
        Call { address: 0, args: &[], fuel: 1, ends: "values i32 2", left: 0 },
        Call { address: 0, args: &[], fuel: 0, ends: "exhausted fuel", left: 0 },
    ] },
    Case { name: "grown pages are there", modules: &["(memory 0) (func (param i32) i32.const 65532 local.get 0 i32.store) \
        (func (result i32) i32.const 1 memory.grow) (func (result i32) i32.const 65532 i32.load)"], bytes: None, calls: &[
        Call { address: 0, args: &[Val::I32(7)], fuel: 3, ends: "trap out of bounds memory access", left: 0 },
        Call { address: 1, args: &[], fuel: 1026, ends: "values i32 0", left: 0 },
        Call { address: 0, args: &[Val::I32(7)], fuel: 3, ends: "values", left: 0 },
        Call { address: 2, args: &[], fuel: 2, ends: "values i32 7", left: 0 },
    ] },
    Case { name: "a store past the end", modules: &["(memory 1) (func i32.const 65533 i32.const 4294967295 i32.store) \
        (func (result i32) i32.const 65532 i32.load)"], bytes: Some(&[]), calls: &[
        Call { address: 0, args: &[], fuel: 10, ends: "trap out of bounds memory access", left: 7 },
        Call { address: 0, args: &[], fuel: 2, ends: "exhausted fuel", left: 0 },
        Call { address: 1, args: &[], fuel: 2, ends: "values i32 0", left: 0 },
    ] },
    Case { name: "a store, one fuel short", modules: &["(memory 1) (func i32.const 0 i32.const 67305985 i32.store)"], bytes: Some(&[]), calls: &[
        Call { address: 0, args: &[], fuel: 2, ends: "exhausted fuel", left: 0 },
    ] },
    Case { name: "a store", modules: &["(memory 1) (func i32.const 0 i32.const 67305985 i32.store)"], bytes: Some(&[1, 2, 3, 4]), calls: &[
        Call { address: 0, args: &[], fuel: 3, ends: "values", left: 0 },
    ] },
    Case { name: "stores at immediate offsets", modules: &["(memory 1) (func i32.const 1 i64.const 578437695752307201 i64.store offset=1) \
        (func i32.const 1 i32.const 265 i32.store8 offset=0) (func i32.const 0 i64.const 65546 i64.store16 \
        offset=10)"], bytes: Some(&[0, 9, 1, 2, 3, 4, 5, 6, 7, 8, 10]), calls: &[
        Call { address: 0, args: &[], fuel: 3, ends: "values", left: 0 },
        Call { address: 1, args: &[], fuel: 3, ends: "values", left: 0 },
        Call { address: 2, args: &[], fuel: 3, ends: "values", left: 0 },
    ] },
];

// Loads and copies.
#[rattlefmt::skip]
static LOADS: [Case; 6] = [
    Case { name: "loads of 80 FF", modules: &["(memory 1) (func i32.const 0 i32.const 65408 i32.store16) \
        (func (result i32) i32.const 0 i32.load8_s) (func (result i32) i32.const 0 i32.load16_u) \
        (func (result i64) i32.const 0 i64.load16_s) (func (result i32) i32.const 1 i32.load8_u \
        offset=4294967295)"], bytes: Some(&[0x80, 0xFF]), calls: &[
        Call { address: 0, args: &[], fuel: 3, ends: "values", left: 0 },
        Call { address: 1, args: &[], fuel: 2, ends: "values i32 4294967168", left: 0 },
        Call { address: 2, args: &[], fuel: 2, ends: "values i32 65408", left: 0 },
        Call { address: 3, args: &[], fuel: 2, ends: "values i64 18446744073709551488", left: 0 },
        Call { address: 4, args: &[], fuel: 3, ends: "trap out of bounds memory access", left: 1 },
        Call { address: 4, args: &[], fuel: 1, ends: "exhausted fuel", left: 0 },
    ] },
    Case { name: "loads at the end", modules: &["(memory 1) (func (param i32) (result i32) local.get 0 i32.load)"], bytes: Some(&[]), calls: &[
        Call { address: 0, args: &[Val::I32(65532)], fuel: 2, ends: "values i32 0", left: 0 },
        Call { address: 0, args: &[Val::I32(65533)], fuel: 2, ends: "trap out of bounds memory access", left: 0 },
    ] },
    Case { name: "nothing is filled at the end", modules: &["(memory 1) \
        (func (param i32) local.get 0 i32.const 7 i32.const 0 memory.fill)"], bytes: Some(&[]), calls: &[
        Call { address: 0, args: &[Val::I32(65536)], fuel: 4, ends: "values", left: 0 },
        Call { address: 0, args: &[Val::I32(65537)], fuel: 4, ends: "trap out of bounds memory access", left: 0 },
    ] },
    Case { name: "a fill with more than a byte", modules: &["(memory 1) (func i32.const 0 i32.const 263 i32.const 1 memory.fill) \
        (func (result i32) i32.const 0 i32.load8_u)"], bytes: Some(&[7]), calls: &[
        Call { address: 0, args: &[], fuel: 4, ends: "values", left: 0 },
        Call { address: 1, args: &[], fuel: 2, ends: "values i32 7", left: 0 },
    ] },
    Case { name: "a copy over itself", modules: &["(memory 1) (func i32.const 0 i32.const 67305985 i32.store i32.const 1 i32.const 0 \
        i32.const 3 memory.copy)"], bytes: Some(&[1, 1, 2, 3]), calls: &[
        Call { address: 0, args: &[], fuel: 7, ends: "values", left: 0 },
    ] },
    Case { name: "a copy of 64 bytes", modules: &["(memory 1) (func (param i32) i32.const 0 i32.const 7 i32.store8 local.get 0 i32.const \
        0 i32.const 64 memory.copy)"], bytes: Some(&[7, 7]), calls: &[
        Call { address: 0, args: &[Val::I32(1)], fuel: 7, ends: "exhausted fuel", left: 1 },
        Call { address: 0, args: &[Val::I32(1)], fuel: 8, ends: "values", left: 0 },
        Call { address: 0, args: &[Val::I32(65473)], fuel: 7, ends: "trap out of bounds memory access", left: 0 },
    ] },
];

// Data segments and globals.
#[rattlefmt::skip]
static OBJECTS: [Case; 6] = [
    Case { name: "a segment is copied until it is dropped", modules: &["(memory 1) (data \"abc\") \
        (func (param i32) i32.const 1 i32.const 0 local.get 0 memory.init 0) (func data.drop 0)"], bytes: Some(&[0, 97, 98, 99]), calls: &[
        Call { address: 0, args: &[Val::I32(3)], fuel: 3, ends: "exhausted fuel", left: 0 },
        Call { address: 0, args: &[Val::I32(4)], fuel: 4, ends: "trap out of bounds memory access", left: 0 },
        Call { address: 0, args: &[Val::I32(3)], fuel: 4, ends: "values", left: 0 },
        Call { address: 1, args: &[], fuel: 0, ends: "exhausted fuel", left: 0 },
        Call { address: 0, args: &[Val::I32(2)], fuel: 4, ends: "values", left: 0 },
        Call { address: 1, args: &[], fuel: 1, ends: "values", left: 0 },
        Call { address: 0, args: &[Val::I32(0)], fuel: 4, ends: "values", left: 0 },
        Call { address: 0, args: &[Val::I32(1)], fuel: 9, ends: "trap out of bounds memory access", left: 5 },
        Call { address: 1, args: &[], fuel: 1, ends: "values", left: 0 },
    ] },
    Case { name: "a global is set", modules: &["(global (mut i32) i32.const 3) (func (param i32) local.get 0 global.set 0) \
        (func (result i32) global.get 0)"], bytes: None, calls: &[
        Call { address: 1, args: &[], fuel: 1, ends: "values i32 3", left: 0 },
        Call { address: 0, args: &[Val::I32(9)], fuel: 2, ends: "values", left: 0 },
        Call { address: 1, args: &[], fuel: 1, ends: "values i32 9", left: 0 },
        Call { address: 1, args: &[], fuel: 0, ends: "exhausted fuel", left: 0 },
    ] },
    Case { name: "no fuel to set a global", modules: &["(global (mut i32) i32.const 3) (func (param i32) local.get 0 global.set 0) \
        (func (result i32) global.get 0)"], bytes: None, calls: &[
        Call { address: 0, args: &[Val::I32(9)], fuel: 1, ends: "exhausted fuel", left: 0 },
        Call { address: 1, args: &[], fuel: 1, ends: "values i32 3", left: 0 },
    ] },
    Case { name: "globals by index", modules: &["(global i64 i64.const 4294967296) (global (mut i64) i64.const 1) \
        (func (result i64) global.get 0 global.get 1 i64.add global.set 1 global.get 1)"], bytes: None, calls: &[
        Call { address: 0, args: &[], fuel: 5, ends: "values i64 4294967297", left: 0 },
        Call { address: 0, args: &[], fuel: 5, ends: "values i64 8589934593", left: 0 },
    ] },
    Case { name: "an instance has objects of its own", modules: &["(memory 1) (global (mut i32) i32.const 1) (data \"a\") \
        (func (param i32) i32.const 0 local.get 0 i32.store local.get 0 global.set 0) \
        (func (result i32 i32) i32.const 0 i32.load global.get \
        0)", "(memory 1) (global (mut i32) i32.const 2) (data \"b\") (func (param i32) i32.const 0 local.get 0 i32.store local.get 0 \
        global.set 0) (func (result i32 i32) i32.const 0 i32.load global.get 0) \
        (func i32.const 0 i32.const 0 i32.const 1 memory.init 0)"], bytes: Some(&[8]), calls: &[
        Call { address: 2, args: &[Val::I32(7)], fuel: 5, ends: "values", left: 0 },
        Call { address: 1, args: &[], fuel: 3, ends: "values i32 0 i32 1", left: 0 },
        Call { address: 0, args: &[Val::I32(8)], fuel: 5, ends: "values", left: 0 },
        Call { address: 3, args: &[], fuel: 3, ends: "values i32 7 i32 7", left: 0 },
        Call { address: 4, args: &[], fuel: 4, ends: "values", left: 0 },
        Call { address: 3, args: &[], fuel: 3, ends: "values i32 98 i32 7", left: 0 },
    ] },
    Case { name: "what was done before a trap stays", modules: &["(memory 1) (global (mut i32) i32.const 1) \
        (func i32.const 0 i32.const 5 i32.store8 i32.const 6 global.set 0 i32.const 65536 i32.const 1 i32.store8) \
        (func (result i32) global.get 0)"], bytes: Some(&[5]), calls: &[
        Call { address: 0, args: &[], fuel: 8, ends: "trap out of bounds memory access", left: 0 },
        Call { address: 1, args: &[], fuel: 1, ends: "values i32 6", left: 0 },
    ] },
];

// Tables, element segments and calls through entries.
#[rattlefmt::skip]
static TABLES: [Case; 5] = [
    Case { name: "a copy within a table, over itself", modules: &["(type (func (result i32))) (table 4 funcref) (elem func 0 1 2 3) \
        (func (result i32) i32.const 10) (func (result i32) i32.const 11) (func (result i32) i32.const 12) \
        (func (result i32) i32.const 13) (func i32.const 0 i32.const 0 i32.const 4 table.init 0 i32.const 0 i32.const 1 i32.const 3 \
        table.copy) (func (param i32) (result i32) local.get 0 call_indirect (type 0))"], bytes: None, calls: &[
        Call { address: 4, args: &[], fuel: 8, ends: "values", left: 0 },
        Call { address: 5, args: &[Val::I32(0)], fuel: 3, ends: "values i32 11", left: 0 },
        Call { address: 5, args: &[Val::I32(1)], fuel: 3, ends: "values i32 12", left: 0 },
        Call { address: 5, args: &[Val::I32(2)], fuel: 3, ends: "values i32 13", left: 0 },
        Call { address: 5, args: &[Val::I32(3)], fuel: 3, ends: "values i32 13", left: 0 },
    ] },
    Case { name: "a copy upward within a table, over itself", modules: &["(type (func (result i32))) (table 4 funcref) \
        (elem func 0 1 2 3) (func (result i32) i32.const 10) (func (result i32) i32.const 11) (func (result i32) i32.const 12) \
        (func (result i32) i32.const 13) (func i32.const 0 i32.const 0 i32.const 4 table.init 0 i32.const 1 i32.const 0 i32.const 3 \
        table.copy) (func (param i32) (result i32) local.get 0 call_indirect (type 0))"], bytes: None, calls: &[
        Call { address: 4, args: &[], fuel: 8, ends: "values", left: 0 },
        Call { address: 5, args: &[Val::I32(0)], fuel: 3, ends: "values i32 10", left: 0 },
        Call { address: 5, args: &[Val::I32(1)], fuel: 3, ends: "values i32 10", left: 0 },
        Call { address: 5, args: &[Val::I32(2)], fuel: 3, ends: "values i32 11", left: 0 },
        Call { address: 5, args: &[Val::I32(3)], fuel: 3, ends: "values i32 12", left: 0 },
    ] },
    Case { name: "another type, null, and no entry", modules: &["(type (func (result i32))) (table 2 funcref) (elem declare func 0) \
        (func) (func i32.const 0 ref.func 0 table.set) (func (param i32) (result i32) local.get 0 call_indirect (type \
        0))"], bytes: None, calls: &[
        Call { address: 1, args: &[], fuel: 3, ends: "values", left: 0 },
        Call { address: 2, args: &[Val::I32(0)], fuel: 2, ends: "trap indirect call type mismatch", left: 0 },
        Call { address: 2, args: &[Val::I32(1)], fuel: 2, ends: "trap uninitialized element", left: 0 },
        Call { address: 2, args: &[Val::I32(2)], fuel: 2, ends: "trap undefined element", left: 0 },
        Call { address: 2, args: &[Val::I32(4294967295)], fuel: 2, ends: "trap undefined element", left: 0 },
    ] },
    Case { name: "an instance has tables and functions of its own", modules: &["(type (func (result i32))) (table 1 funcref) \
        (elem func 0) (func (result i32) i32.const 10) (func i32.const 0 i32.const 0 i32.const 1 table.init 0) \
        (func (result i32) i32.const 0 call_indirect (type \
        0))", "(type (func)) (type (func (result i32))) (table 1 funcref) (elem func 0) (func (result i32) i32.const 20) \
        (func i32.const 0 i32.const 0 i32.const 1 table.init 0) (func (result i32) i32.const 0 call_indirect (type 1)) \
        (func (result funcref) i32.const 0 table.get)"], bytes: None, calls: &[
        Call { address: 4, args: &[], fuel: 4, ends: "values", left: 0 },
        Call { address: 2, args: &[], fuel: 2, ends: "trap uninitialized element", left: 0 },
        Call { address: 5, args: &[], fuel: 3, ends: "values i32 20", left: 0 },
        Call { address: 1, args: &[], fuel: 4, ends: "values", left: 0 },
        Call { address: 2, args: &[], fuel: 3, ends: "values i32 10", left: 0 },
        Call { address: 6, args: &[], fuel: 2, ends: "values funcref 3", left: 0 },
    ] },
    Case { name: "references of the host", modules: &["(table 2 externref) (func (param externref) i32.const 1 local.get 0 table.set) \
        (func (param i32) (result externref) local.get 0 table.get)"], bytes: None, calls: &[
        Call { address: 0, args: &[Val::ExternRef(Some(4))], fuel: 2, ends: "exhausted fuel", left: 0 },
        Call { address: 1, args: &[Val::I32(1)], fuel: 2, ends: "values externref null", left: 0 },
        Call { address: 0, args: &[Val::ExternRef(Some(4))], fuel: 3, ends: "values", left: 0 },
        Call { address: 1, args: &[Val::I32(1)], fuel: 2, ends: "values externref 4", left: 0 },
        Call { address: 1, args: &[Val::I32(2)], fuel: 2, ends: "trap out of bounds table access", left: 0 },
    ] },
];

// Tail calls, by index and through entries.
#[rattlefmt::skip]
static TAIL_CALLS: [Case; 4] = [
    Case { name: "what was done before a trap behind a tail call stays", modules: &["(memory 1) \
        (func i32.const 0 i32.const 5 i32.store8 return_call 1) (func i32.const 1 i32.const 6 i32.store8 \
        unreachable)"], bytes: Some(&[5, 6]), calls: &[
        Call { address: 0, args: &[], fuel: 8, ends: "trap unreachable", left: 0 },
    ] },
    Case { name: "what was done before a tail call without fuel stays", modules: &["(memory 1) \
        (func i32.const 0 i32.const 5 i32.store8 return_call 1) (func i32.const 1 i32.const 6 i32.store8 \
        unreachable)"], bytes: Some(&[5]), calls: &[
        Call { address: 0, args: &[], fuel: 3, ends: "exhausted fuel", left: 0 },
    ] },
    Case { name: "a tail call through entries that are set", modules: &["(type (func (result i32))) (table 2 funcref) \
        (elem (offset i32.const 0) func 0 1) (func (result i32) i32.const 10) (func (result i32) i32.const 11) \
        (func (param i32) (result i32) local.get 0 return_call_indirect (type 0)) (func i32.const 0 ref.func 1 table.set) \
        (func i32.const 1 ref.null func table.set)"], bytes: None, calls: &[
        Call { address: 2, args: &[Val::I32(0)], fuel: 3, ends: "values i32 10", left: 0 },
        Call { address: 2, args: &[Val::I32(1)], fuel: 3, ends: "values i32 11", left: 0 },
        Call { address: 3, args: &[], fuel: 3, ends: "values", left: 0 },
        Call { address: 2, args: &[Val::I32(0)], fuel: 3, ends: "values i32 11", left: 0 },
        Call { address: 4, args: &[], fuel: 3, ends: "values", left: 0 },
        Call { address: 2, args: &[Val::I32(1)], fuel: 2, ends: "trap uninitialized element", left: 0 },
        Call { address: 2, args: &[Val::I32(2)], fuel: 2, ends: "trap undefined element", left: 0 },
    ] },
    Case { name: "an instance calls functions and through tables of its own", modules: &["(type (func (result i32))) (table 1 funcref) \
        (elem (offset i32.const 0) func 0) (func (result i32) i32.const 10) (func (result i32) return_call 0) \
        (func (result i32) i32.const 0 return_call_indirect (type \
        0))", "(type (func (result i32))) (table 1 funcref) (elem (offset i32.const 0) func 0) (func (result i32) i32.const 20) \
        (func (result i32) return_call 0) (func (result i32) i32.const 0 return_call_indirect (type 0))"], bytes: None, calls: &[
        Call { address: 1, args: &[], fuel: 2, ends: "values i32 10", left: 0 },
        Call { address: 2, args: &[], fuel: 3, ends: "values i32 10", left: 0 },
        Call { address: 4, args: &[], fuel: 2, ends: "values i32 20", left: 0 },
        Call { address: 5, args: &[], fuel: 3, ends: "values i32 20", left: 0 },
    ] },
];

// Returns whether a call ends as its row states and leaves its fuel.
fn goes_so(alloc: Global, store: &mut Store, hosts: &mut HostTable, call: &Call) -> bool {
    let Call {
        address,
        args,
        fuel,
        ends,
        left,
    } = call;
    calls_so(
        alloc,
        store,
        hosts,
        (*address, args),
        (*fuel, 2),
        (ends, *left),
    )
}

// Returns whether the first memory begins with these bytes, followed only by zeros.
fn begins_with(store: &Store, bytes: &[u8]) -> bool {
    let Some(memory) = store.state().memory(0) else {
        return false;
    };
    match memory.bytes().split_at_checked(bytes.len()) {
        Some((front, others)) => front == bytes && others.iter().all(|byte| *byte == 0),
        None => false,
    }
}

// Returns the index of the first call of a case that fails its row, or the number of calls if only the memory at the end is
// wrong.
fn first_at_fault(alloc: Global, case: &Case) -> Option<usize> {
    let mut hosts = HostTable::new(alloc);
    let Some(mut store) = store_with(alloc, case.modules) else {
        return Some(0);
    };
    let mut first = None;
    for (index, call) in case.calls.iter().enumerate() {
        if first.is_none() && !goes_so(alloc, &mut store, &mut hosts, call) {
            first = Some(index);
        }
    }
    match case.bytes {
        Some(bytes) if first.is_none() && !begins_with(&store, bytes) => Some(case.calls.len()),
        _ => first,
    }
}

#[test]
fn fills_and_grows(rt: HostRuntime) {
    for case in &GROWTHS {
        let first = first_at_fault(rt.alloc(), case);
        assert!(rt; first.is_none(), "{} {first:?}", case.name);
    }
}

#[test]
fn stores_into_memories(rt: HostRuntime) {
    for case in &STORES {
        let first = first_at_fault(rt.alloc(), case);
        assert!(rt; first.is_none(), "{} {first:?}", case.name);
    }
}

#[test]
fn loads_and_copies(rt: HostRuntime) {
    for case in &LOADS {
        let first = first_at_fault(rt.alloc(), case);
        assert!(rt; first.is_none(), "{} {first:?}", case.name);
    }
}

#[test]
fn changes_segments_and_globals(rt: HostRuntime) {
    for case in &OBJECTS {
        let first = first_at_fault(rt.alloc(), case);
        assert!(rt; first.is_none(), "{} {first:?}", case.name);
    }
}

#[test]
fn changes_tables_and_calls_through_them(rt: HostRuntime) {
    for case in &TABLES {
        let first = first_at_fault(rt.alloc(), case);
        assert!(rt; first.is_none(), "{} {first:?}", case.name);
    }
}

#[test]
fn tail_calls_by_index_and_through_entries(rt: HostRuntime) {
    for case in &TAIL_CALLS {
        let first = first_at_fault(rt.alloc(), case);
        assert!(rt; first.is_none(), "{} {first:?}", case.name);
    }
}
