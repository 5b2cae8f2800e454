//! Calls and tail calls of host functions: directly, through a table and from outside.

use crate::hosts::{Hosted, new_hosted};
use crate::modules::loaded_module;
use crate::runs::calls_so;
use core_types::{Extern, Val};
use exec::have_hosts;
use fuel::Meter;
use instantiate::instantiate;
use std::alloc::Global;

const CALLER: &str = "\
(type (func (param i32 i32) (result i32))) (import \"host\" \"difference\" (func (type 0))) (memory 1) (table 1 funcref) \
(elem (offset i32.const 0) func 0) \
(func (type 0) i32.const 100 local.get 0 local.get 1 call 0 i32.add) \
(func (type 0) i32.const 100 local.get 0 local.get 1 i32.const 0 call_indirect (type 0) i32.add) \
(func (type 0) local.get 0 local.get 1 call 0 drop i32.const 0 i32.load8_u)";

// The first function of its own has the index 4, which is also its address.
const TAIL_CALLER: &str = "\
(type (func (param i32 i32) (result i32))) (type (func (result i32))) \
(import \"host\" \"difference\" (func (type 0))) (import \"host\" \"sum\" (func (param i32) (result i32))) \
(import \"host\" \"four\" (func (result i32 i64 i32 i32))) (import \"host\" \"marker\" (func)) \
(memory 1) (table 2 funcref) (elem (offset i32.const 0) func 0 3) \
(func (type 0) local.get 0 local.get 1 return_call 0) \
(func (type 0) i32.const 100 local.get 0 local.get 1 i32.const 0 return_call_indirect (type 0)) \
(func (type 0) i32.const 100 local.get 0 local.get 1 call 4 i32.add) \
(func (type 0) i32.const 0 i32.const 0 i32.store8 local.get 0 local.get 1 call 4 drop i32.const 0 i32.load8_u) \
(func (param i32) (result i32) local.get 0 return_call 1) \
(func (result i32 i64 i32 i32) return_call 2) \
(func (result i32 i32 i64 i32 i32) i32.const 50 call 9) \
(func return_call 3) \
(func (result i32) i32.const 0 i32.const 0 i32.store8 i32.const 5 call 11 i32.const 0 i32.load8_u i32.add) \
(func (type 0) i32.const 100 local.get 0 local.get 1 call 14 i32.add) \
(func (type 0) local.get 0 local.get 1 call 4 local.get 1 return_call 0) \
(func (type 0) local.get 1 local.get 0 return_call 4) \
(func (type 0) (local i64 i64) i32.const 1 block i64.const 2 block loop i32.const 3 local.get 0 local.get 1 return_call 0 end end drop end) \
(func (result i32) i32.const 1 return_call_indirect (type 1)) \
(func call 11 call 11) \
(func (param i32) (result i32) local.get 0 call 8 drop local.get 0 return_call 8) \
(func (result i32) i32.const 1 i32.const 0 call 8 i32.add)";

// A call of the function at an address, the fuel and the depth bound, how it ends, and the fuel left.
struct Call {
    name: &'static str,
    address: u32,
    args: &'static [Val],
    bounds: (u64, u32),
    ends: &'static str,
    left: u64,
}

#[rattlefmt::skip]
static CALLS: [Call; 8] = [
    Call { name: "from outside", address: 0, args: &[Val::I32(7), Val::I32(5)], bounds: (10, 2), ends: "values i32 2", left: 10 },
    Call { name: "from outside, with a trap", address: 0, args: &[Val::I32(7), Val::I32(0)], bounds: (10, 2), ends: "trap host trap 5", left: 10 },
    Call { name: "directly", address: 4, args: &[Val::I32(7), Val::I32(5)], bounds: (10, 2), ends: "values i32 102", left: 5 },
    Call { name: "directly, with a trap", address: 4, args: &[Val::I32(7), Val::I32(0)], bounds: (10, 2), ends: "trap host trap 5", left: 6 },
    Call { name: "directly, without fuel", address: 4, args: &[Val::I32(7), Val::I32(5)], bounds: (3, 2), ends: "exhausted fuel", left: 0 },
    Call { name: "through a table", address: 5, args: &[Val::I32(7), Val::I32(5)], bounds: (10, 2), ends: "values i32 102", left: 4 },
    Call { name: "through a table, with a trap", address: 5, args: &[Val::I32(7), Val::I32(0)], bounds: (10, 2), ends: "trap host trap 5", left: 5 },
    Call { name: "what it writes is read", address: 6, args: &[Val::I32(7), Val::I32(5)], bounds: (10, 2), ends: "values i32 7", left: 4 },
];

// Tail calls, of which the first ones are the last step of a call from outside.
#[rattlefmt::skip]
static TAIL_CALLS: [Call; 12] = [
    Call { name: "directly", address: 4, args: &[Val::I32(7), Val::I32(5)], bounds: (3, 1), ends: "values i32 2", left: 0 },
    Call { name: "directly, one fuel short", address: 4, args: &[Val::I32(7), Val::I32(5)], bounds: (2, 1), ends: "exhausted fuel", left: 0 },
    Call { name: "directly, with a trap", address: 4, args: &[Val::I32(7), Val::I32(0)], bounds: (10, 1), ends: "trap host trap 5", left: 7 },
    Call { name: "through a table", address: 5, args: &[Val::I32(7), Val::I32(5)], bounds: (5, 1), ends: "values i32 2", left: 0 },
    Call { name: "through a table, one fuel short", address: 5, args: &[Val::I32(7), Val::I32(5)], bounds: (4, 1), ends: "exhausted fuel", left: 0 },
    Call { name: "through a table, with a trap", address: 5, args: &[Val::I32(7), Val::I32(0)], bounds: (10, 1), ends: "trap host trap 5", left: 5 },
    Call { name: "through a table, of another type", address: 17, args: &[], bounds: (10, 1), ends: "trap indirect call type mismatch", left: 8 },
    Call { name: "four results", address: 9, args: &[], bounds: (1, 1), ends: "values i32 1 i64 2 i32 3 i32 4", left: 0 },
    Call { name: "no result", address: 11, args: &[], bounds: (1, 1), ends: "values", left: 0 },
    Call { name: "no result, without fuel", address: 11, args: &[], bounds: (0, 1), ends: "exhausted fuel", left: 0 },
    Call { name: "behind another tail call", address: 15, args: &[Val::I32(7), Val::I32(5)], bounds: (6, 1), ends: "values i32 4294967294", left: 0 },
    Call { name: "inside of blocks", address: 16, args: &[Val::I32(7), Val::I32(5)], bounds: (9, 1), ends: "values i32 2", left: 0 },
];

// Tail calls in functions for which a caller waits.
#[rattlefmt::skip]
static TAIL_CALLS_INSIDE: [Call; 9] = [
    Call { name: "the caller adds to the result", address: 6, args: &[Val::I32(7), Val::I32(5)], bounds: (8, 2), ends: "values i32 102", left: 0 },
    Call {
        name: "the caller adds to the result, one fuel short",
        address: 6,
        args: &[Val::I32(7), Val::I32(5)],
        bounds: (7, 2),
        ends: "exhausted fuel",
        left: 0,
    },
    Call { name: "a trap", address: 6, args: &[Val::I32(7), Val::I32(0)], bounds: (10, 2), ends: "trap host trap 5", left: 3 },
    Call { name: "past the depth", address: 6, args: &[Val::I32(7), Val::I32(5)], bounds: (10, 1), ends: "exhausted depth", left: 7 },
    Call { name: "what it writes is read", address: 7, args: &[Val::I32(7), Val::I32(5)], bounds: (12, 2), ends: "values i32 7", left: 0 },
    Call { name: "four results above an operand", address: 10, args: &[], bounds: (3, 2), ends: "values i32 50 i32 1 i64 2 i32 3 i32 4", left: 0 },
    Call { name: "no result above an operand", address: 12, args: &[], bounds: (9, 2), ends: "values i32 12", left: 0 },
    Call { name: "no result, between frames without operands", address: 18, args: &[], bounds: (4, 2), ends: "values", left: 0 },
    Call {
        name: "two in a row, the second for a caller of the first",
        address: 13,
        args: &[Val::I32(7), Val::I32(2)],
        bounds: (13, 3),
        ends: "values i32 103",
        left: 0,
    },
];

// Tail calls of the function that adds up its arguments.
#[rattlefmt::skip]
static SUMS: [Call; 8] = [
    Call { name: "a sum of 3", address: 8, args: &[Val::I32(3)], bounds: (2, 1), ends: "values i32 3", left: 0 },
    Call { name: "and 4", address: 8, args: &[Val::I32(4)], bounds: (2, 1), ends: "values i32 7", left: 0 },
    Call { name: "no memory", address: 8, args: &[Val::I32(0)], bounds: (10, 1), ends: "exhausted memory", left: 9 },
    Call { name: "no memory, and a caller that waits", address: 20, args: &[], bounds: (10, 2), ends: "exhausted memory", left: 6 },
    Call { name: "no memory, and a call before", address: 19, args: &[Val::I32(0)], bounds: (10, 2), ends: "exhausted memory", left: 7 },
    Call { name: "no fuel", address: 8, args: &[Val::I32(5)], bounds: (1, 1), ends: "exhausted fuel", left: 0 },
    Call { name: "no fuel and no memory", address: 8, args: &[Val::I32(0)], bounds: (1, 1), ends: "exhausted fuel", left: 0 },
    Call { name: "and 1, twice", address: 19, args: &[Val::I32(1)], bounds: (9, 2), ends: "values i32 9", left: 0 },
];

// Links a module, which imports the first host functions.
fn link(alloc: Global, hosted: &mut Hosted, text: &str) -> bool {
    let Some(loaded) = loaded_module(alloc, text) else {
        return false;
    };
    let Hosted { store, hosts } = hosted;
    if !have_hosts(store, hosts) {
        return false;
    }
    let given = [
        Extern::Func(0),
        Extern::Func(1),
        Extern::Func(2),
        Extern::Func(3),
    ];
    let mut meter = Meter::new(100, 10);
    instantiate(alloc, store, hosts, &mut meter, &loaded, &given).is_ok()
}

// Returns whether a call ends as its row states and leaves its fuel.
fn goes_so(alloc: Global, hosted: &mut Hosted, row: &Call) -> bool {
    let call = (row.address, row.args);
    let wanted = (row.ends, row.left);
    let Hosted { store, hosts } = hosted;
    calls_so(alloc, store, hosts, call, row.bounds, wanted)
}

// Returns the first call that fails its row after a module is linked.
fn first_behind_link(
    alloc: Global,
    hosted: &mut Hosted,
    text: &str,
    calls: &[Call],
) -> Option<&'static str> {
    if !link(alloc, hosted, text) {
        return Some("no link");
    }
    let mut first = None;
    for row in calls {
        if first.is_none() && !goes_so(alloc, hosted, row) {
            first = Some(row.name);
        }
    }
    first
}

// Returns the first call that fails its row, in a store of the host functions and a module.
fn first_at_fault(alloc: Global, text: &str, calls: &[Call]) -> Option<&'static str> {
    match new_hosted(alloc) {
        Ok(mut hosted) => first_behind_link(alloc, &mut hosted, text, calls),
        Err(_) => Some("no store"),
    }
}

#[test]
fn calls_host_functions(rt: HostRuntime) {
    let first = first_at_fault(rt.alloc(), CALLER, &CALLS);
    assert!(rt; first.is_none(), "{first:?}");
}

#[test]
fn tail_calls_host_functions(rt: HostRuntime) {
    let first = first_at_fault(rt.alloc(), TAIL_CALLER, &TAIL_CALLS);
    assert!(rt; first.is_none(), "{first:?}");
}

#[test]
fn tail_calls_host_functions_for_a_caller(rt: HostRuntime) {
    let first = first_at_fault(rt.alloc(), TAIL_CALLER, &TAIL_CALLS_INSIDE);
    assert!(rt; first.is_none(), "{first:?}");
}

#[test]
fn tail_calls_a_host_function_that_keeps_a_sum(rt: HostRuntime) {
    let first = first_at_fault(rt.alloc(), TAIL_CALLER, &SUMS);
    assert!(rt; first.is_none(), "{first:?}");
}
