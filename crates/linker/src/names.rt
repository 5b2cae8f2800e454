ghost use Rattle.std.specs.Prelude.{◌≡◌, ◌↔◌, IsSome, IsTrue, OnOk, OnErr, Err, option_map, slice_get};
ghost use Rattle.linker.specs.declared.refusals.NameRefusal.TheVariants.{NameTaken};
ghost use Rattle.meaning.specs.embedding.Names.{HasHosts, host_of, hosts_of, no_names, registered_export, resolve_name, under};
ghost use Rattle.meaning.specs.embedding.Names.{with_host, with_instance};
ghost use Rattle.store.specs.Contents.{store_of};

use crate::name_maps::{Numbers, put_number, put_under_both};
use crate::refusals::NameRefusal;
use core_types::Extern;
use indexmap::IndexMap;
use std::alloc::Global;
use std::marker::Model;
use store::Store;

/// The names by which imports are found: host functions under the name of a module and a name in it, and instances under the
/// names that they are registered under.
#[derive(Drop)]
pub struct Names {
    alloc: Global,
    hosts: IndexMap<String, Numbers>,
    registered: Numbers,
}

impl Model for Names {
    ghost use Rattle.linker.specs.Contents.{names_of};
    ghost use Rattle.meaning.specs.embedding.Names.{NamesContents};

    ghost Value = { NamesContents };

    ghost view = { λ names. names_of names.hosts names.registered };
}

impl Names {
    /// Creates an empty set of names. Allocates nothing.
    pub fn new(alloc: Global) -> Names
        ensures { result ≡ no_names }
    {
        Names {
            alloc,
            hosts: IndexMap::new(alloc),
            registered: IndexMap::new(alloc),
        }
    }

    // Returns the host function under two names, if there is one.
    fn host(&self, module_name: &str, name: &str) -> Option<u32>
        ensures { result ≡ host_of self.now module_name.now name.now }
    {
        self.hosts.get(module_name)?.get(name).copied()
    }

    /// Returns the name of the host function of an index among those that are defined under the name of a module, in the order of
    /// their definitions, or none if there are no more. Allocates nothing.
    pub fn host_name(&self, module_name: &str, index: usize) -> Option<&str>
        ensures { option_map (λ name. name.now) result ≡ option_map (λ host. host.0)
            (slice_get (hosts_of self.now module_name.now) index) }
    {
        let (name, _) = self.hosts.get(module_name)?.get_index(index)?;
        Some(name.as_str())
    }

    // Returns whether a host function is defined under this name of a module.
    fn has_hosts(&self, module_name: &str) -> bool
        ensures { IsTrue result ↔ HasHosts self.now module_name.now }
    {
        self.hosts.contains_key(module_name)
    }

    /// Defines the host function at an address under the name of a module and a name in it.
    ///
    /// # Errors
    ///
    /// Fails with `NameTaken` if a host function is defined under these two names, and with `OutOfMemory` if an allocation
    /// fails. After an error the names are unchanged.
    pub fn define_host(
        &mut self,
        module_name: &str,
        name: &str,
        func_addr: u32,
    ) -> Result<(), NameRefusal>
        ensures defined { OnOk result
            (self.new ≡ with_host self.old module_name.now name.now func_addr) }
        ensures taken { (result ≡ Err NameTaken) ↔ IsSome
            (host_of self.old module_name.now name.now) }
        ensures unchanged { OnErr result (self.new ≡ self.old) }
    {
        if self.host(module_name, name).is_some() {
            return Err(NameRefusal::NameTaken);
        }
        put_under_both(self.alloc, &mut self.hosts, module_name, name, func_addr)?;
        Ok(())
    }

    /// Registers an instance under a name, and replaces the instance that is registered under it.
    ///
    /// # Errors
    ///
    /// Fails with `NameTaken` if a host function is defined under this name of a module, and with `OutOfMemory` if an allocation
    /// fails. After an error the names are unchanged.
    pub fn register(&mut self, name: &str, instance: u32) -> Result<(), NameRefusal>
        ensures registered { OnOk result (self.new ≡ with_instance self.old name.now instance) }
        ensures taken { (result ≡ Err NameTaken) ↔ HasHosts self.old name.now }
        ensures unchanged { OnErr result (self.new ≡ self.old) }
    {
        if self.has_hosts(name) {
            return Err(NameRefusal::NameTaken);
        }
        put_number(self.alloc, &mut self.registered, name, instance)?;
        Ok(())
    }

    /// Returns the instance that is registered under a name, if there is one. Allocates nothing.
    pub fn instance(&self, name: &str) -> Option<u32>
        ensures { result ≡ under self.now.registered name.now }
    {
        self.registered.get(name).copied()
    }

    // Returns what the instance that is registered under the name of a module exports under a name.
    fn exported(&self, store: &Store, module_name: &str, name: &str) -> Option<Extern>
        ensures { result ≡ registered_export (store_of store.now) self.now module_name.now
            name.now }
    {
        let instance = self.instance(module_name)?;
        store.code().export(instance, name)
    }

    /// Returns what the name of a module and a name in it stand for. If a host function is defined under them, it is that
    /// function. Otherwise it is what the instance that is registered under the name of the module exports under the name.
    /// Returns none if there is neither. Allocates nothing.
    pub fn resolve(&self, store: &Store, module_name: &str, name: &str) -> Option<Extern>
        ensures { result ≡ resolve_name (store_of store.now) self.now module_name.now name.now }
    {
        if let Some(address) = self.host(module_name, name) {
            return Some(Extern::Func(address));
        }
        self.exported(store, module_name, name)
    }
}
