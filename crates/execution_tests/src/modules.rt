//! Modules from text, and stores of them.

use binary::decode;
use core_types::{Extern, Module};
use exec::have_hosts;
use fuel::Meter;
use hostfunc::HostTable;
use instantiate::{LinkEnd, LinkRefusal, instantiate};
use loading::load;
use std::alloc::Global;
use std::rc::Rc;
use store::{LoadedModule, Store};
use testing::assemble;

/// The most pages that a memory may have.
pub const PAGES: u32 = 1024;

/// The most entries that a table may have.
pub const ENTRIES: u32 = 100;

// The fuel for the link of a module without imports.
const FUEL: u64 = 1_000;

/// The most frames that may be open.
pub const DEPTH: u32 = 100;

/// Returns the decoded module of a text. Returns none if the text is not a module.
pub fn decoded_module(alloc: Global, text: &str) -> Option<Module> {
    let Ok(bytes) = assemble(alloc, text) else {
        return None;
    };
    decode(alloc, &bytes).ok()
}

/// Returns the module of a text, loaded in one reading. Returns none if the text is not a module, or an invalid one.
pub fn loaded_module(alloc: Global, text: &str) -> Option<Rc<LoadedModule>> {
    let Ok(bytes) = assemble(alloc, text) else {
        return None;
    };
    let loaded = load(alloc, &bytes).ok()??;
    Rc::new(alloc, loaded).ok()
}

/// Returns an empty store, in which a memory may have 1024 pages and a table 100 entries.
pub fn empty_store(alloc: Global) -> Store {
    Store::new(alloc, PAGES, ENTRIES)
}

/// Links a module with these external values and this fuel. Returns the number of the instance or how the link ends, and the
/// fuel left.
pub fn link(
    alloc: Global,
    store: &mut Store,
    hosts: &mut HostTable,
    loaded: &Rc<LoadedModule>,
    given: &[Extern],
    fuel: u64,
) -> (Result<u32, LinkEnd>, u64) {
    if !have_hosts(store, hosts) {
        return (Err(LinkEnd::Refused(LinkRefusal::OutOfMemory)), fuel);
    }
    let mut meter = Meter::new(fuel, DEPTH);
    let answer = instantiate(alloc, store, hosts, &mut meter, loaded, given);
    (answer, meter.left())
}

/// Links a module without imports, and returns the number of its instance. Returns none if the link does not complete.
pub fn append(alloc: Global, store: &mut Store, loaded: &Rc<LoadedModule>) -> Option<u32> {
    let mut hosts = HostTable::new(alloc);
    let (answer, _) = link(alloc, store, &mut hosts, loaded, &[], FUEL);
    answer.ok()
}

// Links the module of a text, which has no imports, and returns the number of its instance.
fn append_text(alloc: Global, store: &mut Store, text: &str) -> Option<u32> {
    append(alloc, store, &loaded_module(alloc, text)?)
}

// Returns whether the modules of all these texts can be linked, one after the other.
fn can_append_all(alloc: Global, store: &mut Store, texts: &[&str]) -> bool {
    for text in texts {
        if append_text(alloc, store, text).is_none() {
            return false;
        }
    }
    true
}

/// Returns a store with an instance of each of these modules, which have no imports.
pub fn store_with(alloc: Global, texts: &[&str]) -> Option<Store> {
    let mut store = empty_store(alloc);
    can_append_all(alloc, &mut store, texts).then_some(store)
}
