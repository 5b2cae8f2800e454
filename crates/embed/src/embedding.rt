//! An embedding, its queries that are not commands, and its operations.

mod explanations;
mod modules;
mod operations;

ghost use Rattle.std.specs.Prelude.{◌≡◌, ◌++◌, ◌∷◌, [], ◌+◌, ◌<◌, ◌≤◌, ◌^◌, OnOk, IfErr, IfOk, List, ℕ, filter_map, length, map, option_and_then, slice_get, Ok, Some};
ghost use Rattle.std.proofs.Props.{props};
ghost use Rattle.meaning.specs.embedding.Creation.{Creates};
ghost use Rattle.meaning.specs.embedding.Machine.{as_function, as_global, export_at, export_type as type_at, exports_at, named_type};
ghost use Rattle.meaning.specs.embedding.Names.{extern_of};
ghost use Rattle.meaning.specs.execution.Store.{extern_type as type_of, instance_of};
ghost use Rattle.core_types.specs.declared.outcome.Extern.TheVariants.{Func as FuncValue};
ghost use Rattle.embed.specs.Exports.{IsRefusedExport, IsRefusedList, named_export};
ghost use Rattle.interface.specs.Listings.{AreExports, NamedExport};
ghost use Rattle.soundness.specs.Embedding.{IsSound};
ghost use Rattle.hostfunc.specs.Boxes.{HaveHosts, type_of_host};
ghost use Rattle.quota.specs.Counting.{counted, left_of};
ghost use Rattle.hostfunc.specs.Tables.{hosts_in};
ghost use Rattle.store.specs.Contents.{store_of};

use crate::config::Config;
use crate::definitions::define_hosts;
use crate::host_definitions::HostDef;
use crate::new_fault::NewFault;
use crate::numbers::InstanceNumber;
use crate::refusals::Refusal;
use core_types::{Export, ExportDesc, Extern, ExternType};
use fuel::Meter;
use hostfunc::{HostFn, HostTable};
use interface::{Declaration, Exports, Listing};
use linker::Names;
use quota::Quota;
use std::alloc::{AllocError, Global};
use std::rc::Rc;
use store::{Callee, LoadedModule, Store};

/// An embedding: modules, their instances over one store, names, host functions, and the fuel left.
#[derive(Drop)]
pub struct Embedding {
    alloc: Global,
    config: Config,
    modules: Vec<Rc<LoadedModule>>,
    instances: Vec<u32>,
    names: Names,
    store: Store,
    hosts: HostTable,
    meter: Meter,
    quota: Quota,
    ghost closed: { meter.frames ≡ 0 },
    ghost bound: { meter.bound ≡ config.depth },
    ghost have_hosts: { HaveHosts (store_of store) (hosts_in hosts) } by { Prim.hlevel props },
}

impl Embedding {
    ghost use Rattle.embed.specs.Contents.{embedding_of};
    ghost use Rattle.embed.specs.Created.{created};
    ghost use Rattle.embed.specs.Definitions.{definition_of};
    ghost use Rattle.embed.specs.Replies.{found_or_refusal};

    /// Creates an embedding with these host functions, at most 2^32 - 1, before any command.
    ///
    /// # Errors
    ///
    /// The definitions are taken in order, and the first one at fault is refused:
    /// - with `HostFuncRef` if it declares a funcref among its results
    /// - otherwise with `NameTaken` if an earlier one has the same names
    ///
    /// Any of them is refused with `OutOfMemory` if an allocation fails. A refused call drops all host functions.
    pub fn new(alloc: Global, config: Config, hosts: Vec<HostDef>) -> Result<Embedding, NewFault>
        requires { length hosts.items < 2 ^ 32 }
        ensures created { Creates type_of_host config
            (map (definition_of ⟦<dyn HostFn as HostFn>⟧) hosts.items) (created result) }
        ensures sound { IfOk (created result) (λ at. IsSound type_of_host at) }
    {
        Embedding::with_quota(alloc, config, hosts, u64::MAX)
    }

    /// Like `new`, with a quota of that many bytes for what the store and a run in it hold, and for loads. What a command would
    /// hold beyond it is lack of memory.
    pub fn with_quota(
        alloc: Global,
        config: Config,
        hosts: Vec<HostDef>,
        quota: u64,
    ) -> Result<Embedding, NewFault>
        requires { length hosts.items < 2 ^ 32 }
        ensures created { Creates type_of_host config
            (map (definition_of ⟦<dyn HostFn as HostFn>⟧) hosts.items) (created result) }
        ensures sound { IfOk (created result) (λ at. IsSound type_of_host at) }
        ensures quota { IfOk result (λ embedding. embedding.quota ≡ counted quota 0 0) }
    {
        let defined = define_hosts(alloc, &config, hosts)?;
        let embedding = Embedding {
            alloc,
            modules: Vec::new(alloc),
            instances: Vec::new(alloc),
            names: defined.names,
            store: defined.store,
            hosts: defined.hosts,
            meter: Meter::new(config.fuel(), config.depth()),
            quota: Quota::new(quota),
            config,
        };
        embedding.show_sound();
        Ok(embedding)
    }

    // The invariant of the type: an embedding is sound.
    fn show_sound(&self)
        ensures { IsSound type_of_host (embedding_of self.now) }
    {
        let _ = self.store.state();
    }

    /// Returns the setup of the embedding.
    pub fn config(&self) -> &Config
        ensures { result.now ≡ (embedding_of self.now).setup }
    {
        &self.config
    }

    /// Returns the fuel left.
    pub fn fuel_left(&self) -> u64
        ensures { result ≡ (embedding_of self.now).state.fuel }
    {
        self.meter.left()
    }

    /// Returns how many more bytes of the quota may be held.
    pub fn quota_left(&self) -> u64
        ensures left { result ≡ left_of self.now.quota }
        ensures within { self.now.quota.kept + self.now.quota.borrowed ≤ self.now.quota.most }
    {
        self.quota.left()
    }

    // Returns the address of the instance of a number, if there is one.
    fn instance(&self, number: u64) -> Option<u32>
        ensures { result ≡ slice_get (embedding_of self.now).instances number }
    {
        self.instances.get(number as usize).copied()
    }

    // Returns what the instance of a number exports under a name.
    fn export(&self, number: u64, name: &str) -> Result<Extern, Refusal>
        ensures { found_or_refusal result ≡ export_at (embedding_of self.now) number name.now }
    {
        let Some(instance) = self.instance(number) else {
            return Err(Refusal::UnknownInstance);
        };
        match self.store.code().export(instance, name) {
            Some(found) => Ok(found),
            None => Err(Refusal::UnknownExport),
        }
    }

    // Returns the address of the function that the instance of a number exports under a name.
    fn exported_function(&self, number: u64, name: &str) -> Result<u32, Refusal>
        ensures { found_or_refusal result ≡ as_function
            (export_at (embedding_of self.now) number name.now) }
    {
        match self.export(number, name)? {
            Extern::Func(address) => Ok(address),
            _ => Err(Refusal::WrongKind),
        }
    }

    // Returns the address of the global that the instance of a number exports under a name.
    fn exported_global(&self, number: u64, name: &str) -> Result<u32, Refusal>
        ensures { found_or_refusal result ≡ as_global
            (export_at (embedding_of self.now) number name.now) }
    {
        match self.export(number, name)? {
            Extern::Global(address) => Ok(address),
            _ => Err(Refusal::WrongKind),
        }
    }

    /// Returns the type of what an instance exports under a name. The minimum of a table or a memory is its present size.
    /// Returns none if there is no such instance or no such export.
    ///
    /// # Errors
    ///
    /// Fails only for a function, if the allocation of its types fails.
    pub fn export_type(
        &self,
        instance: InstanceNumber,
        name: &str,
    ) -> Result<Option<ExternType>, AllocError>
        ensures ty { IfOk result (λ ty. ty ≡ type_at (embedding_of self.now) instance.0 name.now) }
        ensures function { IfErr result (λ _. (address : ℕ)
            × (export_at (embedding_of self.now) instance.0 name.now ≡ Ok (FuncValue address))) }
    {
        let Ok(found) = self.export(instance.0, name) else {
            return Ok(None);
        };
        if !self.store.has_extern(found) {
            return Ok(None);
        }
        Ok(Some(self.store.extern_type(self.alloc, found)?))
    }

    // Returns the type of what an instance at an address exports by this index, if it exists.
    fn type_of_export(
        &self,
        instance: u32,
        desc: ExportDesc,
    ) -> Result<Option<ExternType>, AllocError>
        ensures { IfOk result (λ ty. ty ≡ option_and_then (type_of (store_of self.now.store))
            (extern_of (instance_of (store_of self.now.store) (Some instance)) desc)) }
    {
        let Some(found) = self.store.code().extern_of(instance, desc) else {
            return Ok(None);
        };
        if !self.store.has_extern(found) {
            return Ok(None);
        }
        Ok(Some(self.store.extern_type(self.alloc, found)?))
    }

    // Returns where a function is declared: the one that the instance at an address exports by this index.
    fn declaration(&self, instance: u32, desc: ExportDesc) -> Option<Declaration> {
        let Extern::Func(address) = self.store.code().extern_of(instance, desc)? else {
            return None;
        };
        match self.store.code().function(address)? {
            Callee::InModule(function) => {
                Some(Declaration::InModule(function.instance, function.func.ty))
            }
            Callee::InHost(function) => Some(Declaration::InHost(function.number)),
        }
    }

    // Appends an export of the instance at an address to a list, if the export stands for something.
    fn list_export(
        &self,
        instance: u32,
        export: &Export,
        listing: &mut Listing,
    ) -> Result<(), AllocError>
        ensures { OnOk result ((all : List NamedExport) → AreExports listing.old.found all →
            AreExports listing.new.found (all ++ filter_map (named_type (store_of self.now.store)
            (instance_of (store_of self.now.store) (Some instance))) (export.now ∷ []))) }
    {
        let Some(ty) = self.type_of_export(instance, export.desc)? else {
            return Ok(());
        };
        let declaration = self.declaration(instance, export.desc);
        listing.push(export.name.as_str(), declaration, ty)
    }

    /// Returns a list of what an instance exports, in the order of its module. Functions that are declared at one place share one
    /// type in the list.
    ///
    /// # Errors
    ///
    /// Refused with `UnknownInstance`, and with `OutOfMemory` if an allocation fails.
    pub fn exports(&self, instance: InstanceNumber) -> Result<Exports, Refusal>
        ensures found { IfOk result (λ found. AreExports found
            (exports_at (embedding_of self.now) instance.0)) }
        ensures refused { IfErr result
            (λ refusal. IsRefusedList (embedding_of self.now) instance.0 refusal) }
    {
        let Some(address) = self.instance(instance.0) else {
            return Err(Refusal::UnknownInstance);
        };
        let mut listing = Listing::new(self.alloc);
        for export in self.store.code().exports(address) {
            self.list_export(address, export, &mut listing)?;
        }
        Ok(listing.finish())
    }

    /// Returns a list of the export of a name with its type. The list has the form of the list of `exports`.
    ///
    /// # Errors
    ///
    /// Refused with `UnknownInstance`, `UnknownExport` and `OutOfMemory`.
    pub fn export_named(&self, instance: InstanceNumber, name: &str) -> Result<Exports, Refusal>
        ensures found { IfOk result (λ found. AreExports found
            (named_export (embedding_of self.now) instance.0 name.now)) }
        ensures refused { IfErr result
            (λ refusal. IsRefusedExport (embedding_of self.now) instance.0 name.now refusal) }
    {
        let found = self.export(instance.0, name)?;
        let mut listing = Listing::new(self.alloc);
        if self.store.has_extern(found) {
            let ty = self.store.extern_type(self.alloc, found)?;
            listing.push(name, None, ty)?;
        }
        Ok(listing.finish())
    }
}
