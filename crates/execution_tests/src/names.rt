//! Names: host functions, registered instances, and what a name stands for.

use crate::modules::{ENTRIES, PAGES, link, loaded_module};
use core_types::Extern;
use hostfunc::HostTable;
use linker::{NameRefusal, Names};
use std::alloc::Global;
use std::rc::Rc;
use store::{LoadedModule, Store};

// A module with two functions and one object of each other kind. All of them except the first function are exported.
const TEXT: &str =
    "(func) (func) (table 1 funcref) (memory 1) (global i32 i32.const 7) (export \"run\" (func 1)) (export \"table\" (table 0)) \
    (export \"memory\" (memory 0)) (export \"global\" (global 0))";

// Links a module twice. Returns whether both links end with an instance.
fn link_twice(alloc: Global, store: &mut Store, loaded: &Rc<LoadedModule>) -> bool {
    let mut hosts = HostTable::new(alloc);
    let (first, _) = link(alloc, store, &mut hosts, loaded, &[], 0);
    let (second, _) = link(alloc, store, &mut hosts, loaded, &[], 0);
    first.is_ok() && second.is_ok()
}

// Returns a store with two instances of the module: the second has the functions 2 and 3, and objects at 1.
fn store_of_two(alloc: Global) -> Option<Store> {
    let loaded = loaded_module(alloc, TEXT)?;
    let mut store = Store::new(alloc, PAGES, ENTRIES);
    link_twice(alloc, &mut store, &loaded).then_some(store)
}

// A call of the names, and its result.
#[derive(Clone, Copy)]
enum Step {
    // The name of a module, a name and an address.
    Define(&'static str, &'static str, u32, Result<(), NameRefusal>),
    // A name and an instance.
    Register(&'static str, u32, Result<(), NameRefusal>),
    // The name of a module and a name.
    Resolve(&'static str, &'static str, Option<Extern>),
}

use Step::{Define, Register, Resolve};

// Calls in a row.
struct Row {
    name: &'static str,
    steps: &'static [Step],
}

const TAKEN: Result<(), NameRefusal> = Err(NameRefusal::NameTaken);

#[rattlefmt::skip]
static ROWS: [Row; 10] = [
    Row { name: "nothing", steps: &[Resolve("m", "f", None)] },
    Row {
        name: "a host function",
        steps: &[Define("m", "f", 7, Ok(())), Resolve("m", "f", Some(Extern::Func(7))), Resolve("m", "g", None), Resolve("n", "f", None)],
    },
    Row { name: "a host function twice", steps: &[Define("m", "f", 7, Ok(())), Define("m", "f", 8, TAKEN), Resolve("m", "f", Some(Extern::Func(7)))] },
    Row {
        name: "one name in two modules",
        steps: &[Define("m", "f", 7, Ok(())), Define("n", "f", 8, Ok(())), Resolve("m", "f", Some(Extern::Func(7))), Resolve("n", "f", Some(Extern::Func(8)))],
    },
    Row {
        name: "two names in one module",
        steps: &[Define("m", "f", 7, Ok(())), Define("m", "g", 8, Ok(())), Resolve("m", "f", Some(Extern::Func(7))), Resolve("m", "g", Some(Extern::Func(8)))],
    },
    Row {
        name: "an instance under the name of a host's module",
        steps: &[Define("m", "f", 7, Ok(())), Register("m", 0, TAKEN), Resolve("m", "f", Some(Extern::Func(7))), Resolve("m", "run", None)],
    },
    Row {
        name: "two instances under one name",
        steps: &[Register("m", 0, Ok(())), Resolve("m", "run", Some(Extern::Func(1))), Register("m", 1, Ok(())), Resolve("m", "run", Some(Extern::Func(3)))],
    },
    Row {
        name: "a host function before an export",
        steps: &[Register("m", 1, Ok(())), Define("m", "run", 7, Ok(())), Resolve("m", "run", Some(Extern::Func(7))), Resolve("m", "table", Some(Extern::Table(1)))],
    },
    Row {
        name: "an export of each kind",
        steps: &[
            Register("m", 1, Ok(())),
            Resolve("m", "run", Some(Extern::Func(3))),
            Resolve("m", "table", Some(Extern::Table(1))),
            Resolve("m", "memory", Some(Extern::Memory(1))),
            Resolve("m", "global", Some(Extern::Global(1))),
        ],
    },
    Row {
        name: "no export and no instance",
        steps: &[Register("m", 0, Ok(())), Register("n", 2, Ok(())), Resolve("m", "walk", None), Resolve("m", "", None), Resolve("n", "run", None)],
    },
];

fn kind_and_address(value: Extern) -> (u8, u32) {
    match value {
        Extern::Func(address) => (0, address),
        Extern::Table(address) => (1, address),
        Extern::Memory(address) => (2, address),
        Extern::Global(address) => (3, address),
    }
}

// Returns whether a step has its result.
fn answers(names: &mut Names, store: &Store, step: Step) -> bool {
    match step {
        Define(module, name, address, answer) => {
            names.define_host(module, name, address) == answer
        }
        Register(name, instance, answer) => names.register(name, instance) == answer,
        Resolve(module, name, answer) => {
            names.resolve(store, module, name).map(kind_and_address) == answer.map(kind_and_address)
        }
    }
}

// Returns whether all steps have their results, in a store.
fn all_answer_in(alloc: Global, store: &Store, steps: &[Step]) -> bool {
    let mut names = Names::new(alloc);
    let mut all = true;
    for step in steps {
        all &= answers(&mut names, store, *step);
    }
    all
}

// Returns whether all steps have their results, in a store of two instances.
fn all_answer(alloc: Global, steps: &[Step]) -> bool {
    match store_of_two(alloc) {
        Some(store) => all_answer_in(alloc, &store, steps),
        None => false,
    }
}

#[test]
fn names_stand_for_what_was_given(rt: HostRuntime) {
    for row in &ROWS {
        assert!(rt; all_answer(rt.alloc(), row.steps), "{}", row.name);
    }
}
