//! Functions, types and instances by address, the flat code of functions, and the arguments that a function takes.

use crate::modules::{append, empty_store, loaded_module, store_with};
use crate::runs::calls_so;
use core_types::{Extern, ExternType, RefType, Val, ValType};
use hostfunc::HostTable;
use std::alloc::Global;
use store::{Callee, ModuleFunction, Store, accepts};

// Returns whether a function is of a module with that many operations, and has this greatest height.
fn has_flat_code(store: &Store, function: &ModuleFunction<'_>) -> bool {
    match store.code().instance(function.instance) {
        Some(instance) => {
            let flat = instance.loaded.as_ref().flat();
            flat.operations.len() == 5 && function.flat.greatest == 1
        }
        None => false,
    }
}

// Returns whether the function of a module is kept with its flat code.
fn keeps_flat_code(alloc: Global) -> bool {
    let text = "(func i32.const 0 if block end else end)";
    match store_with(alloc, &[text]) {
        Some(store) => match store.code().function(0) {
            Some(Callee::InModule(function)) => has_flat_code(&store, &function),
            _ => false,
        },
        None => false,
    }
}

#[test]
fn keeps_the_flat_code_of_functions(rt: HostRuntime) {
    assert!(rt; keeps_flat_code(rt.alloc()));
}

// Returns whether the instance at a number has the function at that address, which takes no arguments.
fn is_kept(store: &Store, address: u32) -> bool {
    let code = store.code();
    matches!(code.function(address), Some(Callee::InModule(function)) if function.instance == address)
        && code
            .instance(address)
            .map(|instance| instance.addresses.functions.as_slice())
            == Some([address].as_slice())
        && accepts(store, address, &[])
}

// Returns whether one loaded module that is appended to a store three times has its own instance and function each time.
fn keeps_modules(alloc: Global) -> bool {
    let mut store = empty_store(alloc);
    let mut all = true;
    let Some(loaded) = loaded_module(alloc, "(func (result i32) i32.const 7)") else {
        return false;
    };
    for number in 0..3u32 {
        all &= append(alloc, &mut store, &loaded) == Some(number);
    }
    for address in 0..3u32 {
        all &= is_kept(&store, address);
    }
    all && store.code().function(3).is_none() && store.code().instance(3).is_none()
}

#[test]
fn keeps_modules_by_address(rt: HostRuntime) {
    assert!(rt; keeps_modules(rt.alloc()));
}

// Modules of one function, of three and of none, with two types each: from nothing to nothing, and from nothing to an i32.
#[rattlefmt::skip]
static THREE: [&str; 3] = [
    "(type (func)) (type (func (result i32))) (func (type 1) i32.const 10)",
    "(type (func)) (type (func (result i32))) (func (type 1) i32.const 20) (func (type 1) i32.const 21) (func (type 1) i32.const 22)",
    "(type (func)) (type (func (result i32)))",
];

// An instance, an index of a function, and its address.
#[rattlefmt::skip]
static ADDRESSES: [(u32, u32, Option<u32>); 8] = [
    (0, 0, Some(0)),
    (0, 1, None),
    (1, 0, Some(1)),
    (1, 2, Some(3)),
    (1, 3, None),
    (1, u32::MAX, None),
    (2, 0, None),
    (3, 0, None),
];

// Returns whether a function has this address, in a store of the three modules.
fn is_at(alloc: Global, instance: u32, x: u32, address: Option<u32>) -> bool {
    match store_with(alloc, &THREE) {
        Some(store) => store.code().function_address(instance, x) == address,
        None => false,
    }
}

#[test]
fn looks_up_addresses(rt: HostRuntime) {
    for (instance, x, address) in &ADDRESSES {
        assert!(rt;
            is_at(rt.alloc(), *instance, *x, *address),
            "{instance} {x}"
        );
    }
}

// An address, the instance of its function, and the number that the function returns.
static FUNCTIONS: [(u32, u32, u8); 4] = [(0, 0, 10), (1, 1, 20), (2, 1, 21), (3, 1, 22)];

// Returns whether a function of the instance returns an i32, by a body of only this constant.
fn gives(callee: Callee<'_>, instance: u32, number: u8) -> bool {
    let Callee::InModule(function) = callee else {
        return false;
    };
    // the opcode, and the number in one byte
    let is_constant = function.func.body.as_bytes() == [0x41, number].as_slice();
    let results = function.ty.results.as_slice();
    function.instance == instance && results == [ValType::I32].as_slice() && is_constant
}

// Returns whether the function at an address is such a function, in a store of the three modules.
fn has_function(alloc: Global, address: u32, instance: u32, number: u8) -> bool {
    match store_with(alloc, &THREE) {
        Some(store) => match store.code().function(address) {
            Some(callee) => gives(callee, instance, number) && store.code().function(4).is_none(),
            None => false,
        },
        None => false,
    }
}

#[test]
fn looks_up_functions(rt: HostRuntime) {
    for (address, instance, number) in &FUNCTIONS {
        assert!(rt;
            has_function(rt.alloc(), *address, *instance, *number),
            "{address}"
        );
    }
}

// An instance, an index of a type, and the results of that type.
#[rattlefmt::skip]
static TYPES: [(u32, u32, Option<&[ValType]>); 6] = [
    (0, 0, Some(&[])),
    (1, 1, Some(&[ValType::I32])),
    (1, 2, None),
    (2, 1, Some(&[ValType::I32])),
    (2, 3, None),
    (3, 0, None),
];

// Returns whether the type at an index gives these results, in a store of the three modules.
fn has_type(alloc: Global, instance: u32, x: u32, results: Option<&[ValType]>) -> bool {
    match store_with(alloc, &THREE) {
        Some(store) => store
            .code()
            .type_at(instance, x)
            .map(|ty| ty.results.as_slice())
            == results,
        None => false,
    }
}

#[test]
fn looks_up_types(rt: HostRuntime) {
    for (instance, x, results) in &TYPES {
        assert!(rt;
            has_type(rt.alloc(), *instance, *x, *results),
            "{instance} {x}"
        );
    }
}

// Arguments for the function at an address, and whether it takes them.
struct Arguments {
    name: &'static str,
    address: u32,
    values: &'static [Val],
    are_taken: bool,
}

#[rattlefmt::skip]
static ARGUMENTS: [Arguments; 8] = [
    Arguments { name: "a null", address: 0, values: &[Val::I32(1), Val::I64(2), Val::FuncRef(None), Val::ExternRef(Some(9))], are_taken: true },
    Arguments { name: "a function", address: 0, values: &[Val::I32(1), Val::I64(2), Val::FuncRef(Some(0)), Val::ExternRef(Some(9))], are_taken: true },
    Arguments { name: "no function", address: 0, values: &[Val::I32(1), Val::I64(2), Val::FuncRef(Some(1)), Val::ExternRef(Some(9))], are_taken: false },
    Arguments { name: "an i64 for an i32", address: 0, values: &[Val::I64(1), Val::I64(2), Val::FuncRef(None), Val::ExternRef(Some(9))], are_taken: false },
    Arguments {
        name: "references of each other's type",
        address: 0,
        values: &[Val::I32(1), Val::I64(2), Val::ExternRef(Some(9)), Val::FuncRef(None)],
        are_taken: false,
    },
    Arguments { name: "too few", address: 0, values: &[Val::I32(1), Val::I64(2), Val::FuncRef(None)], are_taken: false },
    Arguments { name: "none", address: 0, values: &[], are_taken: false },
    Arguments {
        name: "no function to take them",
        address: 1,
        values: &[Val::I32(1), Val::I64(2), Val::FuncRef(None), Val::ExternRef(Some(9))],
        are_taken: false,
    },
];

// Returns whether a function that takes one argument of each type takes these, as the row states.
fn takes_so(alloc: Global, row: &Arguments) -> bool {
    let text = "(func (param i32 i64 funcref externref))";
    match store_with(alloc, &[text]) {
        Some(store) => accepts(&store, row.address, row.values) == row.are_taken,
        None => false,
    }
}

#[test]
fn takes_arguments(rt: HostRuntime) {
    for row in &ARGUMENTS {
        assert!(rt; takes_so(rt.alloc(), row), "{}", row.name);
    }
}

// The description of an external value: the parameters and results of a function; what a table holds, and its sizes; the sizes
// of a memory; the type of a global.
#[derive(Clone, Copy)]
enum Described {
    Func(&'static [ValType], &'static [ValType]),
    Table(RefType, u32, Option<u32>),
    Memory(u32, Option<u32>),
    Global(ValType),
    Missing,
}

#[rattlefmt::skip]
static EXTERNS: [(Extern, Described); 9] = [
    (Extern::Func(0), Described::Func(&[ValType::I32, ValType::FuncRef], &[ValType::I64])),
    (Extern::Func(1), Described::Func(&[], &[])),
    (Extern::Func(2), Described::Missing),
    (Extern::Table(0), Described::Table(RefType::ExternRef, 3, Some(5))),
    (Extern::Table(1), Described::Missing),
    (Extern::Memory(0), Described::Memory(2, None)),
    (Extern::Memory(1), Described::Missing),
    (Extern::Global(1), Described::Global(ValType::I64)),
    (Extern::Global(2), Described::Missing),
];

fn is_described(ty: &ExternType, wanted: Described) -> bool {
    match (ty, wanted) {
        (ExternType::Func(ty), Described::Func(params, results)) => {
            ty.params.as_slice() == params && ty.results.as_slice() == results
        }
        (ExternType::Table(ty), Described::Table(element, min, max)) => {
            ty.element == element && ty.limits.min == min && ty.limits.max == max
        }
        (ExternType::Memory(limits), Described::Memory(min, max)) => {
            limits.min == min && limits.max == max
        }
        (ExternType::Global(ty), Described::Global(value)) => ty.value == value,
        _ => false,
    }
}

// Returns whether a call of the function at address 1 ends. It grows a table and a memory by one.
fn can_grow(alloc: Global, store: &mut Store) -> bool {
    let mut hosts = HostTable::new(alloc);
    let call = (1, [].as_slice());
    let wanted = ("values", 969);
    calls_so(alloc, store, &mut hosts, call, (2000, 1), wanted)
}

// Returns whether an external value is as described in a store.
fn describes_in(alloc: Global, store: &Store, value: Extern, wanted: Described) -> bool {
    if !store.has_extern(value) {
        return matches!(wanted, Described::Missing);
    }
    match store.extern_type(alloc, value) {
        Ok(ty) => is_described(&ty, wanted),
        Err(_) => false,
    }
}

// Returns whether an external value is as described in a store of a module, whose table and memory were grown by one.
fn describes(alloc: Global, value: Extern, wanted: Described) -> bool {
    let text =
        "(table 2 5 externref) (memory 1) (global i32 i32.const 1) (global (mut i64) i64.const 1) \
        (func (param i32 funcref) (result i64) i64.const 0) (func ref.null extern i32.const 1 table.grow drop i32.const 1 memory.grow \
        drop)";
    match store_with(alloc, &[text]) {
        Some(mut store) => {
            can_grow(alloc, &mut store) && describes_in(alloc, &store, value, wanted)
        }
        None => false,
    }
}

#[test]
fn describes_external_values(rt: HostRuntime) {
    for (number, (value, wanted)) in EXTERNS.iter().enumerate() {
        assert!(rt; describes(rt.alloc(), *value, *wanted), "{number}");
    }
}
