ghost use Rattle.std.specs.Prelude.{◌≡◌, ◌↔◌, [], ◌∷◌, IfErr, IfOk, IsTrue};
ghost use Rattle.embed.specs.Contents.{embedding_of};
ghost use Rattle.embed.specs.Replies.{reply_of};
ghost use Rattle.meaning.specs.embedding.Commands.{Call, Ended, GetGlobal, Link, Load, Register};
ghost use Rattle.meaning.specs.execution.Runs.{WithValues};
ghost use Rattle.meaning.specs.scripts.Dialogues.{Asks, IsForMemory};
ghost use Rattle.meaning.specs.scripts.Runner.{act as acts, ask as asks_for, ask_of, load_and_link as loads_and_links};
ghost use Rattle.scripts.specs.Conversations.{TakesReply};
ghost use Rattle.scripts.specs.FileMaps.{files_kept};
ghost use Rattle.scripts.specs.Runs.{HoldsPart, instances_view};
ghost use Rattle.scripts.specs.declared.faults.ScriptFault.TheVariants.{OutOfMemory as NoMemory};
ghost use Rattle.scripts.specs.Views.{action_view, task_view};

use crate::faults::ScriptFault;
use crate::file_maps::contents;
use crate::instances::Instances;
use crate::script::{Action, Task};
use core_types::{Exhaustion, Val};
use embed::{Embedding, InstanceNumber, ModuleNumber, Refusal, Reply};
use hostfunc::HostFn;
use indexmap::IndexMap;
use std::alloc::Global;

// Returns whether a reply states that memory ran out.
fn lacks_memory(reply: &Reply) -> bool
    ensures { IsTrue result ↔ IsForMemory (reply_of reply.now) }
{
    matches!(
        reply,
        Reply::Refused(Refusal::OutOfMemory) | Reply::Exhausted(Exhaustion::Memory)
    )
}

// Returns a reply, unless it states that memory ran out.
fn take_reply(reply: Reply) -> Result<Reply, ScriptFault>
    ensures { TakesReply reply result }
{
    if lacks_memory(&reply) {
        return Err(ScriptFault::OutOfMemory);
    }
    Ok(reply)
}

// Loads a module.
fn load(embedding: &mut Embedding, bytes: &[u8]) -> Result<Reply, ScriptFault>
    ensures { HoldsPart ⟦<dyn HostFn as HostFn>⟧ reply_of (Asks (Load bytes.now))
        (embedding_of embedding.old) result
        (embedding_of embedding.new) }
{
    take_reply(Reply::from(embedding.load(bytes)))
}

// Links a module.
fn link(embedding: &mut Embedding, number: u64) -> Result<Reply, ScriptFault>
    ensures { HoldsPart ⟦<dyn HostFn as HostFn>⟧ reply_of (Asks (Link number))
        (embedding_of embedding.old) result
        (embedding_of embedding.new) }
{
    take_reply(Reply::from(embedding.link(ModuleNumber(number))))
}

// Loads a module, and links it if it could be loaded.
fn load_and_link(embedding: &mut Embedding, bytes: &[u8]) -> Result<Reply, ScriptFault>
    ensures { HoldsPart ⟦<dyn HostFn as HostFn>⟧ reply_of (loads_and_links bytes.now)
        (embedding_of embedding.old) result
        (embedding_of embedding.new) }
{
    match load(embedding, bytes)? {
        Reply::Loaded(number) => link(embedding, number),
        reply => Ok(reply),
    }
}

// Calls a function of an instance, if there is one.
fn call(
    embedding: &mut Embedding,
    instance: Option<u64>,
    field: &str,
    args: &[Val],
) -> Result<Reply, ScriptFault>
    ensures { HoldsPart ⟦<dyn HostFn as HostFn>⟧ reply_of
        (ask_of instance (λ number. Call number field.now args.now))
        (embedding_of embedding.old) result (embedding_of embedding.new) }
{
    match instance {
        Some(number) => take_reply(Reply::from(embedding.call(
            InstanceNumber(number),
            field,
            args,
        ))),
        None => Ok(Reply::Refused(Refusal::UnknownInstance)),
    }
}

// Returns the reply with a value alone.
fn reply_with(alloc: Global, value: Val) -> Result<Reply, ScriptFault>
    ensures ok { IfOk result (λ reply. reply_of reply ≡ Ended (WithValues (value ∷ []))) }
    ensures err { IfErr result (λ fault. fault ≡ NoMemory) }
{
    let mut values = Vec::new(alloc);
    values.push(value)?;
    Ok(Reply::Values(values))
}

// Reads a global of an instance, if there is one.
fn get(
    alloc: Global,
    embedding: &Embedding,
    instance: Option<u64>,
    field: &str,
) -> Result<Reply, ScriptFault>
    ensures { HoldsPart ⟦<dyn HostFn as HostFn>⟧ reply_of
        (ask_of instance (λ number. GetGlobal number field.now))
        (embedding_of embedding.now) result (embedding_of embedding.now) }
{
    match instance {
        Some(number) => match embedding.get_global(InstanceNumber(number), field) {
            Ok(value) => reply_with(alloc, value),
            Err(refusal) => take_reply(Reply::Refused(refusal)),
        },
        None => Ok(Reply::Refused(Refusal::UnknownInstance)),
    }
}

// Registers an instance, if there is one, under a name.
fn register(
    embedding: &mut Embedding,
    instance: Option<u64>,
    name: &str,
) -> Result<Reply, ScriptFault>
    ensures { HoldsPart ⟦<dyn HostFn as HostFn>⟧ reply_of
        (ask_of instance (λ number. Register number name.now))
        (embedding_of embedding.old) result (embedding_of embedding.new) }
{
    match instance {
        Some(number) => take_reply(Reply::from(embedding.register(InstanceNumber(number), name))),
        None => Ok(Reply::Refused(Refusal::UnknownInstance)),
    }
}

// Performs an action.
fn act(
    alloc: Global,
    embedding: &mut Embedding,
    instances: &Instances,
    action: &Action,
) -> Result<Reply, ScriptFault>
    ensures { HoldsPart ⟦<dyn HostFn as HostFn>⟧ reply_of
        (acts (instances_view instances.now) (action_view action.now))
        (embedding_of embedding.old) result (embedding_of embedding.new) }
{
    match action {
        Action::Invoke {
            instance,
            field,
            args,
        } => call(
            embedding,
            instances.meant(instance),
            field.as_str(),
            args.as_slice(),
        ),
        Action::Get { instance, field } => {
            get(alloc, embedding, instances.meant(instance), field.as_str())
        }
    }
}

// Sends the commands of a task, up to the reply by which it is judged.
pub fn ask_for_task(
    alloc: Global,
    files: &IndexMap<&str, &[u8]>,
    instances: &Instances,
    task: &Task,
    embedding: &mut Embedding,
) -> Result<Reply, ScriptFault>
    ensures { HoldsPart ⟦<dyn HostFn as HostFn>⟧ reply_of
        (asks_for (files_kept files.now) (instances_view instances.now)
        (task_view task.now)) (embedding_of embedding.old) result (embedding_of embedding.new) }
{
    match task {
        Task::Module { filename, .. } => {
            load_and_link(embedding, contents(files, filename.as_str()))
        }
        Task::Register { name, instance } => {
            register(embedding, instances.meant(instance), name.as_str())
        }
        Task::Perform(action) => act(alloc, embedding, instances, action),
        Task::AssertReturn(action, _) => act(alloc, embedding, instances, action),
        Task::AssertTrap(action, _) => act(alloc, embedding, instances, action),
        Task::AssertExhaustion(action) => act(alloc, embedding, instances, action),
        Task::AssertInvalid(filename) => load(embedding, contents(files, filename.as_str())),
        Task::AssertMalformed(filename) => { load(embedding, contents(files, filename.as_str())) }
        Task::AssertUnlinkable(filename) => {
            load_and_link(embedding, contents(files, filename.as_str()))
        }
        Task::AssertUninstantiable(filename, _) => {
            load_and_link(embedding, contents(files, filename.as_str()))
        }
    }
}
