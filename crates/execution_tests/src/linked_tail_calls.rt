//! Tail calls of functions of other instances and of host functions.

use crate::hosts::new_measured;
use crate::links::End::{Exhausted as Lacks, Linked, Trapped, Value};
use crate::links::Step::{self, Call, Link};
use crate::links::{Row, all_end_so, all_end_so_alone};
use core_types::{Exhaustion, Extern, Trap, Val};
use std::alloc::Global;

// It calls the functions of the entries last, and its second function waits for the first.
const THROUGH_FOUR: &str =
    "(type (func (result i32))) (import \"m\" \"table\" (table 4 funcref)) (global i32 i32.const 32) \
    (func (param i32) (result i32) local.get 0 return_call_indirect (type 0)) \
    (func (param i32) (result i32) local.get 0 call 0 global.get 0 i32.add)";

// Returns 40 if a number is even, and otherwise 41. Each of two instances calls the function of the other one last.
const ASKS_WHETHER_ODD: &str =
    "(type (func (param i32) (result i32))) (table 1 funcref) (func (type 0) local.get 0 i32.eqz if i32.const 40 return end local.get 0 \
    i32.const 1 i32.sub i32.const 0 return_call_indirect (type 0))";

const ASKS_WHETHER_EVEN: &str =
    "(import \"m\" \"table\" (table 1 funcref)) (import \"m\" \"even\" (func (param i32) (result i32))) \
    (func (param i32) (result i32) local.get 0 i32.eqz if i32.const 41 return end local.get 0 i32.const 1 i32.sub return_call 0) \
    (elem (offset i32.const 0) func 1)";

const KEEPS_NUMBER: &str =
    "(global (mut i32) i32.const 0) (func i32.const 5 global.set 0) (func (result i32) global.get 0)";

// Tail calls of functions of other instances.
#[rattlefmt::skip]
static TAIL_CALLS: [Row; 6] = [
    Row { name: "a tail call of an import", steps: &[
        Link("(func (param i32 i32) (result i32) local.get 0 local.get 1 i32.sub)", &[], 0, Linked(0), 0),
        Link("(import \"m\" \"f\" (func (param i32 i32) (result i32))) \
            (func (param i32 i32) (result i32) i32.const 7 local.get 0 local.get 1 return_call 0)", &[Extern::Func(0)], 0, Linked(1), 0),
        Call(1, &[Val::I32(9), Val::I32(4)], 7, Value(5), 0),
        Call(1, &[Val::I32(9), Val::I32(4)], 6, Lacks(Exhaustion::Fuel), 0),
        Call(1, &[Val::I32(9), Val::I32(4)], 3, Lacks(Exhaustion::Fuel), 0),
    ] },
    Row { name: "a caller that waits has the globals of its instance", steps: &[
        Link("(global i32 i32.const 30) (func (result i32) global.get 0)", &[], 0, Linked(0), 0),
        Link("(import \"m\" \"f\" (func (result i32))) (global i32 i32.const 100) (func (result i32) call 2 global.get 0 i32.add) \
            (func (result i32) i32.const 8 return_call 0)", &[Extern::Func(0)], 0, Linked(1), 0),
        Call(1, &[], 6, Value(130), 0),
        Call(2, &[], 3, Value(30), 0),
    ] },
    Row { name: "a function that is called so has the memory of its instance", steps: &[
        Link("(memory 1) (data (offset i32.const 0) \"a\") (func (result i32) i32.const 0 i32.load8_u)", &[], 2, Linked(0), 0),
        Link("(import \"m\" \"f\" (func (result i32))) (memory 1) (data (offset i32.const 0) \"b\") (func (result i32) return_call 0) \
            (func (result i32) i32.const 0 i32.load8_u) (func (result i32) call 1 call 2 i32.const 10 i32.mul \
            i32.add)", &[Extern::Func(0)], 2, Linked(1), 0),
        Call(3, &[], 10, Value(1077), 0),
    ] },
    Row { name: "tail calls to and fro", steps: &[
        Link(ASKS_WHETHER_ODD, &[], 0, Linked(0), 0),
        Link(ASKS_WHETHER_EVEN, &[Extern::Table(0), Extern::Func(0)], 2, Linked(1), 0),
        Call(0, &[Val::I32(1000)], 7505, Value(40), 0),
        Call(0, &[Val::I32(1001)], 7513, Value(41), 0),
        Call(1, &[Val::I32(0)], 5, Value(41), 0),
        Call(1, &[Val::I32(1)], 12, Value(40), 0),
        Call(1, &[Val::I32(1)], 11, Lacks(Exhaustion::Fuel), 0),
    ] },
    Row { name: "through a table of a third instance", steps: &[
        Link("(table 4 funcref)", &[], 0, Linked(0), 0),
        Link("(import \"m\" \"table\" (table 4 funcref)) (global i32 i32.const 31) (func (result i32) global.get 0) (func) \
            (elem (offset i32.const 2) func 0 1)", &[Extern::Table(0)], 2, Linked(1), 0),
        Link(THROUGH_FOUR, &[Extern::Table(0)], 0, Linked(2), 0),
        Call(2, &[Val::I32(2)], 3, Value(31), 0),
        Call(3, &[Val::I32(2)], 7, Value(63), 0),
        Call(2, &[Val::I32(4)], 9, Trapped(Trap::UndefinedElement), 7),
        Call(2, &[Val::I32(0)], 9, Trapped(Trap::UninitializedElement), 7),
        Call(2, &[Val::I32(3)], 9, Trapped(Trap::IndirectType), 7),
        Call(3, &[Val::I32(3)], 9, Trapped(Trap::IndirectType), 5),
        Call(2, &[Val::I32(3)], 1, Lacks(Exhaustion::Fuel), 0),
    ] },
    Row { name: "in a function called through a table by another instance", steps: &[
        Link("(type (func (result i32))) (table 1 funcref) (func (result i32) i32.const 100 i32.const 0 call_indirect (type 0) i32.add)", &[], 0, Linked(0), 0),
        Link("(import \"m\" \"table\" (table 1 funcref)) (global i32 i32.const 3) \
            (func (result i32) i32.const 8 i32.const 9 return_call 1) \
            (func (param i32) (result i32) (local i64) local.get 0 global.get 0 i32.mul) \
            (elem (offset i32.const 0) func 0)", &[Extern::Table(0)], 2, Linked(1), 0),
        Call(0, &[], 10, Value(127), 0),
    ] },
];

// Tail calls that start functions make.
#[rattlefmt::skip]
static TAIL_CALLS_OF_STARTS: [Row; 3] = [
    Row { name: "in a start function", steps: &[
        Link(KEEPS_NUMBER, &[], 0, Linked(0), 0),
        Link("(import \"m\" \"f\" (func)) (func i32.const 9 return_call 0) (start 1)", &[Extern::Func(0)], 5, Linked(1), 1),
        Call(1, &[], 1, Value(5), 0),
    ] },
    Row { name: "in a start function, with fuel for the tail call alone", steps: &[
        Link(KEEPS_NUMBER, &[], 0, Linked(0), 0),
        Link("(import \"m\" \"f\" (func)) (func i32.const 9 return_call 0) (start 1)", &[Extern::Func(0)], 2, Lacks(Exhaustion::Fuel), 0),
        Link("(import \"m\" \"f\" (func)) (func i32.const 9 return_call 0) (start 1)", &[Extern::Func(0)], 1, Lacks(Exhaustion::Fuel), 0),
        Call(1, &[], 1, Value(0), 0),
    ] },
    Row { name: "in a start function, of one that traps", steps: &[
        Link("(func unreachable)", &[], 0, Linked(0), 0),
        Link("(import \"m\" \"f\" (func)) (func return_call 0) (start 1)", &[Extern::Func(0)], 5, Trapped(Trap::Unreachable), 3),
        Link("(table 1 funcref) (type (func)) (func i32.const 0 return_call_indirect (type 0)) (start 0)", &[], 5, Trapped(Trap::UninitializedElement), 3),
    ] },
];

// Two pages, a function that calls the first host function last, and the first byte.
const MEASURES: &str =
    "(import \"h\" \"measure\" (func (result i32))) (memory 2) (func (result i32) return_call 0) (func (result i32) i32.const 0 i32.load8_u)";

// Three pages, a call and a tail call of that function, and the first byte.
const CALLS_THAT: &str =
    "(import \"m\" \"f\" (func (result i32))) (memory 3) (func (result i32) call 0) (func (result i32) return_call 0) \
    (func (result i32) i32.const 0 i32.load8_u)";

// A tail call of a host function is passed the memory of the instance that executes it. The addresses of the host functions are
// 0 and 1.
#[rattlefmt::skip]
static TAIL_CALLS_OF_HOSTS: [Row; 7] = [
    Row { name: "the caller has another memory", steps: &[
        Link(MEASURES, &[Extern::Func(0)], 0, Linked(0), 0),
        Link(CALLS_THAT, &[Extern::Func(2)], 0, Linked(1), 0),
        Call(4, &[], 2, Value(131_072), 0),
        Call(3, &[], 2, Value(7), 0),
        Call(6, &[], 2, Value(0), 0),
    ] },
    Row { name: "two tail calls in a row", steps: &[
        Link(MEASURES, &[Extern::Func(0)], 0, Linked(0), 0),
        Link(CALLS_THAT, &[Extern::Func(2)], 0, Linked(1), 0),
        Call(5, &[], 2, Value(131_072), 0),
        Call(3, &[], 2, Value(7), 0),
        Call(6, &[], 2, Value(0), 0),
        Call(5, &[], 1, Lacks(Exhaustion::Fuel), 0),
    ] },
    Row { name: "through a table of a third instance", steps: &[
        Link("(import \"h\" \"measure\" (func (result i32))) (table 1 funcref) (memory 4) (func (result i32) i32.const 0 i32.load8_u) \
            (elem (offset i32.const 0) func 0)", &[Extern::Func(0)], 2, Linked(0), 0),
        Link("(type (func (result i32))) (import \"m\" \"table\" (table 1 funcref)) (memory 2) \
            (func (result i32) i32.const 0 return_call_indirect (type 0)) \
            (func (result i32) i32.const 0 i32.load8_u)", &[Extern::Table(0)], 0, Linked(1), 0),
        Link(CALLS_THAT, &[Extern::Func(3)], 0, Linked(2), 0),
        Call(5, &[], 3, Value(131_072), 0),
        Call(4, &[], 2, Value(7), 0),
        Call(2, &[], 2, Value(0), 0),
        Call(7, &[], 2, Value(0), 0),
        Call(6, &[], 3, Value(131_072), 0),
        Call(3, &[], 2, Value(131_072), 0),
    ] },
    Row { name: "the instance has no memory, and its caller has one", steps: &[
        Link("(import \"h\" \"measure\" (func (result i32))) (func (result i32) return_call 0)", &[Extern::Func(0)], 0, Linked(0), 0),
        Link(CALLS_THAT, &[Extern::Func(2)], 0, Linked(1), 0),
        Call(3, &[], 2, Value(0), 0),
        Call(4, &[], 2, Value(0), 0),
        Call(5, &[], 2, Value(0), 0),
    ] },
    Row { name: "the caller goes on with its own memory", steps: &[
        Link(MEASURES, &[Extern::Func(0)], 0, Linked(0), 0),
        Link("(import \"m\" \"f\" (func (result i32))) (memory 3) (func (result i32) i32.const 0 i32.const 9 i32.store8 call 0 i32.const \
            0 i32.load8_u i32.add)", &[Extern::Func(2)], 0, Linked(1), 0),
        Call(4, &[], 8, Value(131_081), 0),
        Call(3, &[], 2, Value(7), 0),
    ] },
    Row { name: "no result, and the caller goes on with its own memory", steps: &[
        Link("(import \"h\" \"marker\" (func)) (memory 2) (func return_call 0) \
            (func (result i32) i32.const 0 i32.load8_u)", &[Extern::Func(1)], 0, Linked(0), 0),
        Link("(import \"m\" \"f\" (func)) (memory 3) (func (result i32) i32.const 5 call 0 i32.const 0 i32.load8_u \
            i32.add)", &[Extern::Func(2)], 0, Linked(1), 0),
        Call(4, &[], 6, Value(5), 0),
        Call(3, &[], 2, Value(7), 0),
    ] },
    Row { name: "in a start function", steps: &[
        Link("(import \"h\" \"marker\" (func)) (memory 1) (func return_call 0) (func (result i32) i32.const 0 i32.load8_u) \
            (start 1)", &[Extern::Func(1)], 3, Linked(0), 2),
        Call(3, &[], 2, Value(7), 0),
        Link("(import \"h\" \"marker\" (func)) (memory 1) (func return_call 0) (start 1)", &[Extern::Func(1)], 0, Lacks(Exhaustion::Fuel), 0),
    ] },
];

// Returns whether all steps end as expected, in a store of the host functions.
fn all_end_so_with_hosts(alloc: Global, steps: &[Step]) -> bool {
    match new_measured(alloc) {
        Ok(hosted) => all_end_so(alloc, hosted, steps),
        Err(_) => false,
    }
}

#[test]
fn tail_calls_of_other_instances_end_as_they_should(rt: HostRuntime) {
    for row in &TAIL_CALLS {
        assert!(rt; all_end_so_alone(rt.alloc(), row.steps), "{}", row.name);
    }
}

#[test]
fn tail_calls_of_start_functions_end_as_they_should(rt: HostRuntime) {
    for row in &TAIL_CALLS_OF_STARTS {
        assert!(rt; all_end_so_alone(rt.alloc(), row.steps), "{}", row.name);
    }
}

#[test]
fn host_functions_are_lent_the_memory_of_the_last_instance(rt: HostRuntime) {
    for row in &TAIL_CALLS_OF_HOSTS {
        assert!(rt;
            all_end_so_with_hosts(rt.alloc(), row.steps),
            "{}",
            row.name
        );
    }
}
