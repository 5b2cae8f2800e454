//! The operations of an embedding, each as a method and as a command (Appendix, Embedding).

ghost use Rattle.std.specs.Prelude.{◌≡◌, ◌++◌, ◌∷◌, [], ◌+◌, ◌<◌, ◌≤◌, IfErr, List, OnOk, OnErr, map, slice_get, vec_len, vec_capacity, length, Some, None};
ghost use Rattle.embed.specs.Contents.{embedding_of};
ghost use Rattle.embed.specs.Replies.{call_reply, command_of, global_reply, link_reply, load_reply, register_reply, reply_of, values_reply};
ghost use Rattle.embed.specs.declared.commands.Reply.{Reply as Answer};
ghost use Rattle.meaning.specs.embedding.Commands.{Call as CallCommand, Done as DoneReply, GetGlobal as GetGlobalCommand, Link as LinkCommand, Load as LoadCommand, Register as RegisterCommand, SetFuel as SetFuelCommand};
ghost use Rattle.meaning.specs.embedding.Machine.{Applies, CallsAt, GetsAt, LinksAt, Loads, RegistersAt, SetsFuel, as_function, as_global, export_at};
ghost use Rattle.embed.specs.Causes.{IsFirstAtFault};
ghost use Rattle.embed.specs.Quotas.{CountsFor};
ghost use Rattle.embed.specs.declared.refusals.Refusal.TheVariants.{OutOfMemory as NoMemory};
ghost use Rattle.soundness.specs.Embedding.{GoesWell, IsSound, LinksSoundModule};
ghost use Rattle.soundness.specs.Headline.{AppliesWell, IsAsSaid, RunsWell};
ghost use Rattle.hostfunc.specs.Boxes.{HostStep, IfHostsKeep, OwnHostStep, type_of_host};

use crate::commands::{Command, Reply};
use crate::embedding::Embedding;
use crate::embedding::modules::module_at;
use crate::imports::resolve_imports;
use crate::link_outcome::{LinkOutcome, without_instance};
use crate::modules::load_module;
use crate::numbers::{InstanceNumber, ModuleNumber};
use crate::refusals::Refusal;
use core_types::Val;
use exec::{Outcome, invoke};
use hostfunc::HostFn;
use instantiate::{LinkEnd, bytes_of_instance, instantiate};
use meaning::writing_is_read;
use quota::Quota;
use std::alloc::AllocError;
use store::accepts;

// How many bytes of a quota a load counts for each byte of the module.
const LOAD_BYTES: u64 = 64;

// Returns the number after those of these items, which count up from 0.
fn next_number<T>(items: &[T]) -> u64
    ensures { result ≡ length items.now }
{
    items.len() as u64
}

// Appends an item. The list must have room for it.
fn append<T: Drop>(items: &mut Vec<T>, item: T)
    requires room { vec_len items.old < vec_capacity items.old }
    ensures appended { items.new.items ≡ items.old.items ++ item ∷ [] }
    ensures len { vec_len items.new ≡ vec_len items.old + 1 }
    ensures capacity { vec_capacity items.old ≤ vec_capacity items.new }
{
    let _ = items.push(item);
}

impl Embedding {
    fn load_bytes(&mut self, bytes: &[u8]) -> Result<ModuleNumber, Refusal>
        ensures loads { Loads (embedding_of self.old) bytes.now (load_reply result)
            (embedding_of self.new) }
        ensures quota { self.new.quota ≡ self.old.quota }
    {
        let loaded = load_module(self.alloc, bytes)?;
        let number = next_number(&self.modules);
        self.modules.push(loaded)?;
        Ok(ModuleNumber(number))
    }

    // Loads a module within the quota.
    fn load_counted(&mut self, bytes: &[u8]) -> Result<ModuleNumber, Refusal>
        ensures loads { Loads (embedding_of self.old) bytes.now (load_reply result)
            (embedding_of self.new) }
        ensures counted { CountsFor (load_reply result) self.old.quota self.new.quota }
    {
        let mut quota = self.quota;
        if quota
            .keep(LOAD_BYTES.saturating_mul(bytes.len() as u64))
            .is_err()
        {
            return Err(Refusal::OutOfMemory);
        }
        match self.load_bytes(bytes) {
            Ok(number) => {
                self.quota = quota;
                Ok(number)
            }
            Err(refusal) => Err(refusal),
        }
    }

    // Gives the store a quota to count by.
    fn lend_quota(&mut self, quota: Quota)
        ensures same { embedding_of self.new ≡ embedding_of self.old }
        ensures quota { self.new.quota ≡ self.old.quota }
    {
        self.store.set_quota(quota);
    }

    // Takes over the count of the store, in which a command was carried out.
    fn take_count(&mut self)
        ensures same { embedding_of self.new ≡ embedding_of self.old }
        ensures most { self.new.quota.most ≡ self.old.quota.most }
    {
        self.quota = self.quota.after(self.store.quota());
    }

    fn link_module(&mut self, number: u64) -> Result<LinkOutcome, Refusal>
        ensures quota { self.new.quota ≡ self.old.quota }
        ensures links { LinksAt (HostStep ⟦<dyn HostFn as HostFn>⟧) (embedding_of self.old)
            (slice_get (embedding_of self.old).modules number)
            (link_reply result) (embedding_of self.new) }
        ensures first_at_fault { IfErr result
            (λ refusal. IsFirstAtFault (embedding_of self.old) number refusal) }
    {
        let Some(loaded) = module_at(&self.modules, number) else {
            return Err(Refusal::UnknownModule);
        };
        let imports = loaded.as_ref().module().imports.as_slice();
        let externs = resolve_imports(self.alloc, &self.names, &self.store, imports)?;
        self.instances.try_reserve(1)?;
        match instantiate(
            self.alloc,
            &mut self.store,
            &mut self.hosts,
            &mut self.meter,
            loaded,
            &externs,
        ) {
            Ok(address) => {
                let count = next_number(&self.instances);
                append(&mut self.instances, address);
                Ok(LinkOutcome::Linked(InstanceNumber(count)))
            }
            Err(LinkEnd::Refused(refusal)) => Err(Refusal::from(refusal)),
            Err(LinkEnd::Ended(outcome)) => Ok(without_instance(&outcome)),
        }
    }

    // Links the module of a number within the quota.
    fn link_counted(&mut self, number: u64) -> Result<LinkOutcome, Refusal>
        ensures counted { CountsFor (link_reply result) self.old.quota self.new.quota }
        ensures links { LinksAt (HostStep ⟦<dyn HostFn as HostFn>⟧) (embedding_of self.old)
            (slice_get (embedding_of self.old).modules number)
            (link_reply result) (embedding_of self.new) }
        ensures first_at_fault { IfErr result
            (λ refusal. IsFirstAtFault (embedding_of self.old) number refusal) }
    {
        let Some(loaded) = module_at(&self.modules, number) else {
            return Err(Refusal::UnknownModule);
        };
        let mut quota = self.quota;
        if quota
            .keep(bytes_of_instance(loaded.as_ref().module()))
            .is_err()
        {
            return Err(Refusal::OutOfMemory);
        }
        self.lend_quota(quota);
        match self.link_module(number) {
            Ok(outcome) => {
                self.take_count();
                Ok(outcome)
            }
            Err(refusal) => Err(refusal),
        }
    }

    // Registers the instance of a number under a name.
    fn give_name(&mut self, number: u64, name: &str) -> Result<(), Refusal>
        ensures quota { self.new.quota ≡ self.old.quota }
        ensures registers { RegistersAt (embedding_of self.old) name.now
            (slice_get (embedding_of self.old).instances number)
            (register_reply result) (embedding_of self.new) }
    {
        let Some(instance) = self.instance(number) else {
            return Err(Refusal::UnknownInstance);
        };
        self.names.register(name, instance)?;
        Ok(())
    }

    // Calls the function that the instance of a number exports under a name.
    fn call_function(&mut self, number: u64, name: &str, args: &[Val]) -> Result<Outcome, Refusal>
        ensures quota { self.new.quota ≡ self.old.quota }
        ensures calls { CallsAt (HostStep ⟦<dyn HostFn as HostFn>⟧) (embedding_of self.old)
            (as_function (export_at (embedding_of self.old) number name.now)) args.now
            (call_reply result) (embedding_of self.new) }
    {
        let address = self.exported_function(number, name)?;
        if !accepts(&self.store, address, args) {
            return Err(Refusal::BadArguments);
        }
        Ok(invoke(
            self.alloc,
            &mut self.store,
            &mut self.hosts,
            &mut self.meter,
            address,
            args,
        ))
    }

    // Calls the function that the instance of a number exports under a name, within the quota.
    fn call_counted(&mut self, number: u64, name: &str, args: &[Val]) -> Result<Outcome, Refusal>
        ensures counted { CountsFor (call_reply result) self.old.quota self.new.quota }
        ensures calls { CallsAt (HostStep ⟦<dyn HostFn as HostFn>⟧) (embedding_of self.old)
            (as_function (export_at (embedding_of self.old) number name.now)) args.now
            (call_reply result) (embedding_of self.new) }
    {
        self.lend_quota(self.quota);
        match self.call_function(number, name, args) {
            Ok(outcome) => {
                self.take_count();
                Ok(outcome)
            }
            Err(refusal) => Err(refusal),
        }
    }

    // Reads the global that the instance of a number exports under a name.
    fn read_global(&self, number: u64, name: &str) -> Result<Val, Refusal>
        ensures gets { GetsAt (embedding_of self.now)
            (as_global (export_at (embedding_of self.now) number name.now)) (global_reply result)
            (embedding_of self.now) }
        ensures needs_no_memory { IfErr result (λ refusal. refusal ≡ NoMemory → ⊥) }
    {
        let address = self.exported_global(number, name)?;
        let Some(variable) = self.store.state().global(address) else {
            unreachable!()
        };
        Ok(variable.value())
    }

    // Sets the fuel left.
    fn replace_fuel(&mut self, fuel: u64)
        ensures quota { self.new.quota ≡ self.old.quota }
        ensures sets { SetsFuel (embedding_of self.old) fuel DoneReply (embedding_of self.new) }
    {
        self.meter.set(fuel);
    }

    // The module of a number, if there is one, can be linked: a loaded module is valid, and its numbers fit their types.
    fn show_linked_module(&self, number: u64)
        ensures { LinksSoundModule (embedding_of self.now) (LinkCommand number) }
    {
        if let Some(loaded) = module_at(&self.modules, number) {
            let _ = loaded.as_ref().module();
        }
    }

    /// Loads the module that the bytes encode, and returns its number.
    ///
    /// # Errors
    ///
    /// Refused with `Malformed`, `Unsupported` or `Limit` if the bytes encode no module within the limits, with `Invalid` if the
    /// module is not valid, and with `OutOfMemory`. A refused call changes nothing (Appendix, Embedding, Modules).
    pub fn load(&mut self, bytes: &[u8]) -> Result<ModuleNumber, Refusal>
        requires nothing { Unit {0} }
        ensures applied { Applies (HostStep ⟦<dyn HostFn as HostFn>⟧) (embedding_of self.old)
            (LoadCommand bytes.now) (load_reply result) (embedding_of self.new) }
        ensures goes_well { GoesWell (embedding_of self.old) (LoadCommand bytes.now)
            (load_reply result) (embedding_of self.new) }
        ensures counted { CountsFor (load_reply result) self.old.quota self.new.quota }
        ensures sound { IsSound type_of_host (embedding_of self.new) }
    {
        writing_is_read();
        self.show_sound();
        self.load_counted(bytes)
    }

    /// Links a module with what the names of its imports stand for, and returns the number of the new instance. If a segment or
    /// the start function traps or is exhausted, returns that outcome. Then the instance has no number, and what was done stays.
    ///
    /// # Errors
    ///
    /// Refused, in this order:
    /// - with `UnknownModule`
    /// - with `UnknownImport` if an import's names stand for nothing
    /// - with `IncompatibleImport` if what they stand for does not match
    /// - with `Limit` if a table, a memory or the store would be larger than it may be
    ///
    /// Refused with `OutOfMemory` if an allocation fails. The index of an import is that of the first one at fault. A refused
    /// call changes nothing (Execution, Modules, Instantiation).
    pub fn link(&mut self, number: ModuleNumber) -> Result<LinkOutcome, Refusal>
        requires nothing { Unit {0} }
        ensures applied { Applies (HostStep ⟦<dyn HostFn as HostFn>⟧) (embedding_of self.old)
            (LinkCommand number.0) (link_reply result) (embedding_of self.new) }
        ensures goes_well { GoesWell (embedding_of self.old) (LinkCommand number.0)
            (link_reply result) (embedding_of self.new) }
        ensures as_said { IsAsSaid (HostStep ⟦<dyn HostFn as HostFn>⟧) (embedding_of self.old)
            (LinkCommand number.0) (link_reply result) (embedding_of self.new) }
        ensures own { IfHostsKeep ⟦<dyn HostFn as HostFn>⟧ (embedding_of self.old).state.hosts
            (embedding_of self.new).state.hosts (AppliesWell
            (OwnHostStep ⟦<dyn HostFn as HostFn>⟧) (embedding_of self.old)
            (LinkCommand number.0) (link_reply result) (embedding_of self.new)) }
        ensures first_at_fault { IfErr result
            (λ refusal. IsFirstAtFault (embedding_of self.old) number.0 refusal) }
        ensures counted { CountsFor (link_reply result) self.old.quota self.new.quota }
        ensures sound { IsSound type_of_host (embedding_of self.new) }
    {
        writing_is_read();
        self.show_sound();
        self.show_linked_module(number.0);
        self.link_counted(number.0)
    }

    /// Registers an instance under a name, and replaces the instance that was registered under it.
    ///
    /// # Errors
    ///
    /// Refused with `UnknownInstance`, then with `NameTaken` if a host function is defined under this name of a module, and with
    /// `OutOfMemory`. A refused call changes nothing.
    pub fn register(&mut self, instance: InstanceNumber, name: &str) -> Result<(), Refusal>
        requires nothing { Unit {0} }
        ensures applied { Applies (HostStep ⟦<dyn HostFn as HostFn>⟧) (embedding_of self.old)
            (RegisterCommand instance.0 name.now) (register_reply result)
            (embedding_of self.new) }
        ensures goes_well { GoesWell (embedding_of self.old) (RegisterCommand instance.0 name.now)
            (register_reply result) (embedding_of self.new) }
        ensures counts_nothing { self.new.quota ≡ self.old.quota }
        ensures sound { IsSound type_of_host (embedding_of self.new) }
    {
        writing_is_read();
        self.show_sound();
        self.give_name(instance.0, name)
    }

    /// Calls the function that an instance exports under a name. Returns its results, or the trap or the exhaustion in which it
    /// ended.
    ///
    /// # Errors
    ///
    /// Refused with `UnknownInstance`, `UnknownExport`, and `WrongKind` if the export is not a function. Refused with
    /// `BadArguments` if the number of arguments is wrong, or if an argument has another type than its parameter or names a
    /// function that does not exist.
    ///
    /// A refused call changes nothing (Execution, Modules, Invocation).
    pub fn call(
        &mut self,
        instance: InstanceNumber,
        name: &str,
        args: &[Val],
    ) -> Result<Outcome, Refusal>
        requires nothing { Unit {0} }
        ensures applied { Applies (HostStep ⟦<dyn HostFn as HostFn>⟧) (embedding_of self.old)
            (CallCommand instance.0 name.now args.now) (call_reply result)
            (embedding_of self.new) }
        ensures goes_well { GoesWell (embedding_of self.old) (CallCommand instance.0 name.now
            args.now) (call_reply result) (embedding_of self.new) }
        ensures as_said { IsAsSaid (HostStep ⟦<dyn HostFn as HostFn>⟧) (embedding_of self.old)
            (CallCommand instance.0 name.now args.now) (call_reply result)
            (embedding_of self.new) }
        ensures own { IfHostsKeep ⟦<dyn HostFn as HostFn>⟧ (embedding_of self.old).state.hosts
            (embedding_of self.new).state.hosts (AppliesWell
            (OwnHostStep ⟦<dyn HostFn as HostFn>⟧) (embedding_of self.old)
            (CallCommand instance.0 name.now args.now) (call_reply result)
            (embedding_of self.new)) }
        ensures counted { CountsFor (call_reply result) self.old.quota self.new.quota }
        ensures sound { IsSound type_of_host (embedding_of self.new) }
    {
        writing_is_read();
        self.show_sound();
        self.call_counted(instance.0, name, args)
    }

    /// Returns the value of the global that an instance exports under a name.
    ///
    /// # Errors
    ///
    /// Refused with `UnknownInstance`, `UnknownExport`, and `WrongKind` if the export is not a global. Never refused with
    /// `OutOfMemory` (Appendix, Embedding, Globals).
    pub fn get_global(&self, instance: InstanceNumber, name: &str) -> Result<Val, Refusal>
        requires nothing { Unit {0} }
        ensures applied { Applies (HostStep ⟦<dyn HostFn as HostFn>⟧) (embedding_of self.now)
            (GetGlobalCommand instance.0 name.now) (global_reply result)
            (embedding_of self.now) }
        ensures goes_well { GoesWell (embedding_of self.now) (GetGlobalCommand instance.0 name.now)
            (global_reply result) (embedding_of self.now) }
        ensures needs_no_memory { IfErr result (λ refusal. refusal ≡ NoMemory → ⊥) }
    {
        writing_is_read();
        self.show_sound();
        self.read_global(instance.0, name)
    }

    /// Sets the fuel left.
    pub fn set_fuel(&mut self, fuel: u64)
        requires nothing { Unit {0} }
        ensures applied { Applies (HostStep ⟦<dyn HostFn as HostFn>⟧) (embedding_of self.old)
            (SetFuelCommand fuel) DoneReply (embedding_of self.new) }
        ensures goes_well { GoesWell (embedding_of self.old) (SetFuelCommand fuel) DoneReply
            (embedding_of self.new) }
        ensures counts_nothing { self.new.quota ≡ self.old.quota }
        ensures sound { IsSound type_of_host (embedding_of self.new) }
    {
        writing_is_read();
        self.show_sound();
        self.replace_fuel(fuel);
    }

    // Returns the value of a global as the list of values of a reply.
    fn values_of_global(&self, number: u64, name: &str) -> Result<Vec<Val>, Refusal>
        ensures { GetsAt (embedding_of self.now)
            (as_global (export_at (embedding_of self.now) number name.now)) (values_reply result)
            (embedding_of self.now) }
    {
        let value = self.read_global(number, name)?;
        let mut values = Vec::new(self.alloc);
        values.push(value)?;
        Ok(values)
    }

    // The module that a command links, if there is one, can be linked.
    fn show_linkable(&self, command: &Command)
        ensures { LinksSoundModule (embedding_of self.now) (command_of command.now) }
    {
        if let Command::Link(number) = command {
            self.show_linked_module(*number);
        }
    }

    // Applies a command, as the method of its name does.
    fn apply_command(&mut self, command: &Command) -> Reply
        ensures counted { CountsFor (reply_of result) self.old.quota self.new.quota }
        ensures applied { Applies (HostStep ⟦<dyn HostFn as HostFn>⟧) (embedding_of self.old)
            (command_of command.now) (reply_of result) (embedding_of self.new) }
    {
        match command {
            Command::Load(bytes) => Reply::from(self.load_counted(bytes.as_slice())),
            Command::Link(number) => Reply::from(self.link_counted(*number)),
            Command::Register(number, name) => {
                Reply::from(self.give_name(*number, name.as_str()))
            }
            Command::Call(number, name, args) => {
                Reply::from(self.call_counted(*number, name.as_str(), args.as_slice()))
            }
            Command::GetGlobal(number, name) => {
                Reply::from(self.values_of_global(*number, name.as_str()))
            }
            Command::SetFuel(fuel) => {
                self.replace_fuel(*fuel);
                Reply::Done
            }
        }
    }

    /// Applies a command, as the method of its name does, and returns the reply.
    ///
    /// A refused command changes nothing. If a link or a call ends in a trap or an exhaustion, what was done stays. Unlike
    /// `get_global`, `GetGlobal` is refused with `OutOfMemory` if the list in its reply cannot be allocated.
    ///
    /// The command goes well: values have the types of the function or the global, and the store is valid and extends the one
    /// before. No command except `SetFuel` leaves more fuel than there was. A call of an exported function with arguments of its
    /// types, and a link, are as the headline states.
    pub fn apply(&mut self, command: &Command) -> Reply
        requires nothing { Unit {0} }
        ensures applied { Applies (HostStep ⟦<dyn HostFn as HostFn>⟧) (embedding_of self.old)
            (command_of command.now)
            (reply_of result) (embedding_of self.new) }
        ensures goes_well { GoesWell (embedding_of self.old) (command_of command.now)
            (reply_of result) (embedding_of self.new) }
        ensures as_said { IsAsSaid (HostStep ⟦<dyn HostFn as HostFn>⟧) (embedding_of self.old)
            (command_of command.now) (reply_of result) (embedding_of self.new) }
        ensures own { IfHostsKeep ⟦<dyn HostFn as HostFn>⟧ (embedding_of self.old).state.hosts
            (embedding_of self.new).state.hosts (AppliesWell
            (OwnHostStep ⟦<dyn HostFn as HostFn>⟧) (embedding_of self.old)
            (command_of command.now) (reply_of result) (embedding_of self.new)) }
        ensures counted { CountsFor (reply_of result) self.old.quota self.new.quota }
        ensures sound { IsSound type_of_host (embedding_of self.new) }
    {
        writing_is_read();
        self.show_sound();
        self.show_linkable(command);
        self.apply_command(command)
    }

    /// Applies all commands, in order, and appends one reply for each.
    ///
    /// The commands, the replies and what is left are a run of the embedding machine, from a sound embedding to a sound one.
    /// Each command of the run goes well and is as the headline states. In a fresh embedding, each host function declares the
    /// type that it was defined with. If each one does, host functions in the run act by the relations of their objects alone.
    ///
    /// # Errors
    ///
    /// Fails if the replies cannot be allocated. They are allocated before the first command is applied, so then nothing has
    /// changed.
    pub fn apply_all(
        &mut self,
        commands: &[Command],
        replies: &mut Vec<Reply>,
    ) -> Result<(), AllocError>
        requires nothing { Unit {0} }
        ensures applied { OnOk result ((answers : List Answer) × (replies.new.items ≡
            replies.old.items ++ answers) ×
            RunsWell (HostStep ⟦<dyn HostFn as HostFn>⟧) (embedding_of self.old)
            (map command_of commands.now) (map reply_of answers) (embedding_of self.new) ×
            IfHostsKeep ⟦<dyn HostFn as HostFn>⟧ (embedding_of self.old).state.hosts
            (embedding_of self.new).state.hosts
            (RunsWell (OwnHostStep ⟦<dyn HostFn as HostFn>⟧) (embedding_of self.old)
            (map command_of commands.now) (map reply_of answers) (embedding_of self.new))) }
        ensures counted { self.new.quota.most ≡ self.old.quota.most }
        ensures from_sound { IsSound type_of_host (embedding_of self.old) }
        ensures sound { IsSound type_of_host (embedding_of self.new) }
        ensures unchanged { OnErr result
            ((embedding_of self.new ≡ embedding_of self.old) × (replies.new.items ≡
            replies.old.items)) }
    {
        self.show_sound();
        replies.try_reserve(commands.len())?;
        for command in commands {
            let reply = self.apply(command);
            append(replies, reply);
        }
        self.show_sound();
        Ok(())
    }
}
