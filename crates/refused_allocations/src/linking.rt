//! Linking modules over a store, defining names, and describing exports.

use crate::attempts::Attempt;
use crate::modules::loaded_module;
use crate::texts::OBJECTS;
use crate::verdicts::Answer;
use core_types::{Exhaustion, Extern, ExternType, FuncType, ValType};
use exec::{Outcome, have_hosts};
use fuel::Meter;
use hostfunc::HostTable;
use instantiate::{LinkEnd, LinkRefusal, instantiate};
use linker::{NameRefusal, Names};
use std::alloc::Global;
use std::rc::Rc;
use store::{LoadedModule, Store};

// The most pages that a memory may have.
const PAGES: u32 = 10;

// The most entries that a table may have.
const ENTRIES: u32 = 10;

// The fuel of a link.
const FUEL: u64 = 100;

// The most frames that may be open.
const DEPTH: u32 = 10;

// Links a module without imports.
fn link(alloc: Global, store: &mut Store, loaded: &Rc<LoadedModule>) -> Result<u32, LinkEnd> {
    let mut hosts = HostTable::new(alloc);
    if !have_hosts(store, &hosts) {
        return Err(LinkEnd::Refused(LinkRefusal::Limit));
    }
    let mut meter = Meter::new(FUEL, DEPTH);
    instantiate(alloc, store, &mut hosts, &mut meter, loaded, &[])
}

/// Creates a store with an instance of the module of a text, which has no imports. Returns none if that fails.
pub fn store_of(alloc: Global, text: &str) -> Option<Store> {
    let loaded = loaded_module(alloc, text)?;
    let mut store = Store::new(alloc, PAGES, ENTRIES);
    match link(alloc, &mut store, &loaded) {
        Ok(0) => Some(store),
        _ => None,
    }
}

/// A link of a module, in a store with an instance of the same text.
#[derive(Drop)]
pub struct Instantiating {
    alloc: Global,
    store: Store,
    loaded: Rc<LoadedModule>,
}

impl Instantiating {
    /// Prepares everything that the call needs. Returns none if that fails.
    pub fn prepare(alloc: Global) -> Option<Instantiating> {
        Some(Instantiating {
            alloc,
            store: store_of(alloc, OBJECTS)?,
            loaded: loaded_module(alloc, OBJECTS)?,
        })
    }
}

impl Attempt for Instantiating {
    fn attempt(&mut self) -> Answer {
        match link(self.alloc, &mut self.store, &self.loaded) {
            Ok(1) => Answer::Ample,
            Err(LinkEnd::Refused(LinkRefusal::OutOfMemory)) => Answer::Wanting,
            Err(LinkEnd::Ended(Outcome::Exhausted(Exhaustion::Memory))) => Answer::Wanting,
            _ => Answer::Wrong,
        }
    }
}

/// A definition of a host function.
#[derive(Drop)]
pub struct Defining {
    names: Names,
    store: Store,
}

impl Defining {
    /// Prepares everything that the call needs. Returns none if that fails.
    pub fn prepare(alloc: Global) -> Option<Defining> {
        Some(Defining {
            names: Names::new(alloc),
            store: store_of(alloc, OBJECTS)?,
        })
    }
}

impl Attempt for Defining {
    fn attempt(&mut self) -> Answer {
        let answer = self.names.define_host("host", "count", 7);
        match (answer, self.names.resolve(&self.store, "host", "count")) {
            (Ok(()), Some(Extern::Func(7))) => Answer::Ample,
            (Err(NameRefusal::OutOfMemory), None) => Answer::Wanting,
            _ => Answer::Wrong,
        }
    }
}

/// A registration of an instance.
#[derive(Drop)]
pub struct Registering {
    names: Names,
    store: Store,
}

impl Registering {
    /// Prepares everything that the call needs. Returns none if that fails.
    pub fn prepare(alloc: Global) -> Option<Registering> {
        Some(Registering {
            names: Names::new(alloc),
            store: store_of(alloc, OBJECTS)?,
        })
    }
}

impl Attempt for Registering {
    fn attempt(&mut self) -> Answer {
        let answer = self.names.register("m", 0);
        match (answer, self.names.resolve(&self.store, "m", "f")) {
            (Ok(()), Some(Extern::Func(0))) => Answer::Ample,
            (Err(NameRefusal::OutOfMemory), None) => Answer::Wanting,
            _ => Answer::Wrong,
        }
    }
}

// Returns whether a type is that of the module's function.
fn is_type(ty: &FuncType) -> bool {
    ty.params.as_slice() == [ValType::I32, ValType::I64].as_slice()
        && ty.results.as_slice() == [ValType::I64].as_slice()
}

/// A query for the type of a function.
#[derive(Drop)]
pub struct Describing {
    alloc: Global,
    store: Store,
}

impl Describing {
    /// Prepares everything that the call needs. Returns none if that fails.
    pub fn prepare(alloc: Global) -> Option<Describing> {
        let store = store_of(alloc, OBJECTS)?;
        Some(Describing { alloc, store })
    }
}

impl Attempt for Describing {
    fn attempt(&mut self) -> Answer {
        if !self.store.has_extern(Extern::Func(0)) {
            return Answer::Wrong;
        }
        match self.store.extern_type(self.alloc, Extern::Func(0)) {
            Ok(ExternType::Func(ty)) if is_type(&ty) => Answer::Ample,
            Ok(_) => Answer::Wrong,
            Err(_) => Answer::Wanting,
        }
    }
}
