ghost use Rattle.std.specs.Prelude.{◌≡◌, ◌↔◌, [], ◌+◌, ◌<◌, ◌^◌, length, IsTrue, IfOk, OnOk, OnErr};
ghost use Rattle.meaning.specs.execution.Modules.{HasRoom, with_module};
ghost use Rattle.soundness.specs.Links.{IsAllocation};
ghost use Rattle.soundness.specs.Stores.{Extends, StoreIsValid};
ghost use Rattle.store.specs.Contents.{contents_of, host_function, lists_of, module_instance, store_of, with_function};
ghost use Rattle.store.specs.State.{AreWithin, no_objects};

use crate::instances::{Addresses, Code, Instance};
use crate::loaded_modules::LoadedModule;
use crate::state::{Objects, State};
use core_types::{FuncType, Module};
use meaning::writing_is_read;
use quota::Quota;
use std::alloc::{AllocError, Global};
use std::marker::Model;
use std::rc::Rc;

/// The store, in two parts: what a run does not change, and what it may change (Execution, Runtime Structure, Store).
#[derive(Drop)]
pub struct Store {
    pub code: Code,
    pub state: State,
}

impl Model for Store {
    ghost use Rattle.soundness.specs.Stores.{StoreIsValid};
    ghost use Rattle.store.specs.Contents.{BothParts, store_with};

    ghost Value = { BothParts };

    ghost view = { λ s. record { code = s.code; state = s.state } };

    ghost invariant = { λ s. StoreIsValid (store_with s.code s.state) };
}

// Returns whether 32-bit addresses remain for that many more objects of a kind.
fn has_addresses(used: usize, wanted: usize) -> bool
    ensures { IsTrue result ↔ (used + wanted < 2 ^ 32) }
{
    used < 1 << 32 && wanted < (1 << 32) - used
}

impl Store {
    /// Creates an empty store. A memory may have at most `pages` pages, and a table at most `entries` entries. Allocates
    /// nothing.
    pub fn new(alloc: Global, pages: u32, entries: u32) -> Store
        ensures code { result.code ≡ contents_of ([]) ([]) ([]) }
        ensures contents { result.state.contents ≡ no_objects }
        ensures bounds { result.state.bounds ≡ record { entries = entries; pages = pages } }
    {
        Store {
            code: Code::new(alloc),
            state: State::new(alloc, pages, entries),
        }
    }

    /// Returns the part that a run does not change.
    pub fn code(&self) -> &Code
        ensures { result.now ≡ self.now.code }
    {
        &self.code
    }

    /// Returns the part that a run may change. The store is valid.
    pub fn state(&self) -> &State
        ensures same { result.now ≡ self.now.state }
        ensures valid { StoreIsValid (store_of self.now) }
    {
        &self.state
    }

    /// Returns the quota of what is held. What else the store shows does not depend on it.
    pub fn quota(&self) -> Quota {
        self.state.quota()
    }

    /// Replaces the quota of what is held.
    pub fn set_quota(&mut self, quota: Quota)
        ensures { self.new ≡ self.old }
    {
        self.state.set_quota(quota);
    }

    /// Counts bytes that stay. Fails if the quota has fewer left.
    pub fn keep(&mut self, bytes: u64) -> Result<(), AllocError>
        ensures { self.new ≡ self.old }
    {
        self.state.keep(bytes)
    }

    /// Returns whether 32-bit addresses remain for the functions of a module, its objects and an instance of it.
    pub fn has_room_for(&self, wanted: &Module) -> bool
        ensures { IsTrue result ↔ HasRoom (store_of self.now) wanted.now }
    {
        has_addresses(self.code.function_count(), wanted.funcs.len())
            && has_addresses(self.code.instance_count(), 1)
            && has_addresses(self.state.table_count(), wanted.tables.len())
            && has_addresses(self.state.memory_count(), wanted.memories.len())
            && has_addresses(self.state.global_count(), wanted.globals.len())
            && has_addresses(self.state.element_count(), wanted.elements.len())
            && has_addresses(self.state.data_count(), wanted.datas.len())
    }

    /// Appends the functions of a module, these objects, and an instance that has these addresses. Returns the instance's number
    /// (Execution, Modules, Allocation). If memory runs out, the contents of the store are unchanged.
    pub fn append_module(
        &mut self,
        alloc: Global,
        loaded: Rc<LoadedModule>,
        addresses: Addresses,
        objects: Objects,
    ) -> Result<u32, AllocError>
        requires room { HasRoom (store_of self.old) loaded.value.source }
        requires within { AreWithin self.old.state.bounds objects.tables objects.memories }
        requires linkable { IsAllocation (store_of self.old) loaded.value.source
            (module_instance (lists_of addresses) loaded.value.source) objects }
        ensures number { IfOk result
            (λ number. number ≡ length (store_of self.old).instances) }
        ensures extends { Extends (store_of self.old) (store_of self.new) }
        ensures appended { OnOk result (store_of self.new ≡ with_module (store_of self.old)
            (module_instance (lists_of addresses) loaded.value.source) loaded.value.source
            objects) }
        ensures unchanged { OnErr result (store_of self.new ≡ store_of self.old) }
    {
        writing_is_read();
        let number = self.code.instance_count() as u32;
        let imported = addresses.functions.len() - loaded.as_ref().module().funcs.len();
        self.state.reserve_all(&objects)?;
        self.code.append_instance(Instance {
            loaded,
            addresses,
            imported,
        })?;
        self.state.append_all(objects);
        Ok(number)
    }

    /// Appends a host function of a type, and returns its number, the next one. If memory runs out, nothing has changed
    /// (Execution, Runtime Structure, Function Instances).
    pub fn append_host(&mut self, ty: FuncType) -> Result<u32, AllocError>
        requires functions { length (store_of self.old).functions + 1 < 2 ^ 32 }
        requires hosts { length (self.old.code.hosts) + 1 < 2 ^ 32 }
        ensures number { IfOk result (λ number. number ≡ length (self.old.code.hosts)) }
        ensures appended { OnOk result (store_of self.new ≡ with_function (store_of self.old)
            (host_function (length (self.old.code.hosts)) ty)) }
        ensures extends { Extends (store_of self.old) (store_of self.new) }
        ensures counted { OnOk result
            (length (self.new.code.hosts) ≡ length (self.old.code.hosts) + 1) }
        ensures unchanged { OnErr result (self.new ≡ self.old) }
    {
        self.code.append_host(ty)
    }
}
