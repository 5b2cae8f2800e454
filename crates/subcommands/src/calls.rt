//! A call of a function that a module exports, in an embedding.

ghost use Rattle.std.specs.Prelude.{◌≡◌, ◌<◌, ◌^◌, IfOk, OnOk, length, map};
ghost use Rattle.std.specs.List.{All};
ghost use Rattle.embed.specs.Contents.{embedding_of};
ghost use Rattle.embed.specs.Replies.{command_of, reply_of};
ghost use Rattle.exec.specs.Endings.{ending_of};
ghost use Rattle.subcommands.specs.Arguments.{AreArguments};
ghost use Rattle.subcommands.specs.Embeddings.{EndsCall, EndsExport, IsCarriedOut, IsFresh, IsReady, WithSpectest, spectest_commands as commands_for_spectest};

use crate::args::read_args;
use crate::faults::Fault;
use crate::spectest::SPECTEST;
use command_line::CallSubcommand;
use embed::{
    Command, Config, Embedding, ExternType, FuncType, HostDef, InstanceNumber, LinkOutcome,
    Outcome, Refusal, Reply, Val,
};
use hostfunc::HostFn;
use std::alloc::Global;

// The most pages that a memory may have.
const PAGES: u32 = 1_024;

// The most entries that a table may have.
const ENTRIES: u32 = 1_000_000;

/// Creates an embedding with this fuel, this bound on open frames, and these host functions, before any command. There must be
/// at most 2^32 - 1 host functions.
pub fn new_embedding<'a>(
    alloc: Global,
    fuel: u64,
    depth: u32,
    hosts: Vec<HostDef>,
) -> Result<Embedding, Fault<'a>>
    requires { length hosts.items < 2 ^ 32 }
    ensures { IfOk result (λ at. IsFresh ⟦<dyn HostFn as HostFn>⟧ fuel depth hosts.items
        (embedding_of at)) }
{
    match Config::new(fuel, depth, PAGES, ENTRIES) {
        Some(config) => Ok(Embedding::new(alloc, config, hosts)?),
        None => Err(Fault::Usage),
    }
}

// Returns the commands that load the stored module, link it and register it as `spectest`. They must be the first commands of
// the embedding.
fn spectest_commands<'a>(alloc: Global) -> Result<Vec<Command>, Fault<'a>>
    ensures { IfOk result (λ commands. map command_of commands.items ≡ commands_for_spectest) }
{
    let bytes = Vec::from_slice(alloc, SPECTEST)?;
    let name = String::from_str(alloc, "spectest")?;
    let commands = vec![in alloc;
        Command::Load(bytes),
        Command::Link(0),
        Command::Register(0, name),
    ]?;
    Ok(commands)
}

// Returns a fault if the reply shows that the command was not carried out.
fn check_reply<'a>(reply: &Reply) -> Result<(), Fault<'a>>
    ensures { OnOk result (IsCarriedOut (reply_of reply.now)) }
{
    match reply {
        Reply::Refused(refusal) => Err(Fault::Refused(*refusal)),
        Reply::Trap(_) | Reply::Exhausted(_) | Reply::Values(_) => {
            Err(Fault::Refused(Refusal::UnknownInstance))
        }
        Reply::Loaded(_) | Reply::Linked(_) | Reply::Done => Ok(()),
    }
}

// Returns a fault if the replies show that one of the commands was not carried out.
fn check_replies<'a>(replies: &[Reply]) -> Result<(), Fault<'a>>
    ensures { OnOk result (All (λ reply. IsCarriedOut (reply_of reply)) replies.now) }
{
    for reply in replies {
        check_reply(reply)?;
    }
    Ok(())
}

// Loads the stored module, links it and registers it as `spectest`, in an embedding before any other command. That spends no
// fuel.
fn add_spectest<'a>(alloc: Global, embedding: &mut Embedding) -> Result<(), Fault<'a>>
    requires nothing { Unit {0} }
    ensures { OnOk result (WithSpectest ⟦<dyn HostFn as HostFn>⟧ (embedding_of embedding.old)
        (embedding_of embedding.new)) }
{
    let commands = spectest_commands(alloc)?;
    let mut replies = Vec::new(alloc);
    embedding.apply_all(commands.as_slice(), &mut replies)?;
    check_replies(replies.as_slice())
}

/// Creates an embedding in which the stored module is registered as `spectest`. There must be at most 2^32 - 1 host functions.
pub fn embedding_with_spectest<'a>(
    alloc: Global,
    fuel: u64,
    depth: u32,
    hosts: Vec<HostDef>,
) -> Result<Embedding, Fault<'a>>
    requires { length hosts.items < 2 ^ 32 }
    ensures { IfOk result (λ at. IsReady ⟦<dyn HostFn as HostFn>⟧ fuel depth hosts.items
        (embedding_of at)) }
{
    let mut embedding = new_embedding(alloc, fuel, depth, hosts)?;
    add_spectest(alloc, &mut embedding)?;
    Ok(embedding)
}

// Returns the type of the function that an instance exports under a name.
fn function_type(
    embedding: &Embedding,
    instance: InstanceNumber,
    name: &str,
) -> Result<FuncType, Refusal> {
    match embedding.export_type(instance, name)? {
        Some(ExternType::Func(ty)) => Ok(ty),
        Some(_) => Err(Refusal::WrongKind),
        None => Err(Refusal::UnknownExport),
    }
}

// Reads the arguments of the subcommand, for the function of the instance that it names.
fn args_for<'a>(
    alloc: Global,
    subcommand: &CallSubcommand<'a>,
    embedding: &Embedding,
    instance: InstanceNumber,
) -> Result<Vec<Val>, Fault<'a>>
    ensures { IfOk result (λ values. AreArguments subcommand.now.args.items values.items) }
{
    let ty = function_type(embedding, instance, subcommand.export)?;
    Ok(read_args(alloc, ty.params.as_slice(), subcommand.args.as_slice())?)
}

// Calls the function of the instance that the subcommand names.
fn call_export<'a>(
    alloc: Global,
    subcommand: &CallSubcommand<'a>,
    embedding: &mut Embedding,
    instance: InstanceNumber,
) -> Result<Outcome, Fault<'a>>
    requires nothing { Unit {0} }
    ensures { IfOk result (λ outcome. EndsExport ⟦<dyn HostFn as HostFn>⟧
        (embedding_of embedding.old) subcommand.now instance.0 (ending_of outcome)
        (embedding_of embedding.new)) }
{
    let args = args_for(alloc, subcommand, embedding, instance)?;
    Ok(embedding.call(instance, subcommand.export, args.as_slice())?)
}

/// Loads and links the module that the bytes encode, and calls the function that the subcommand names. If the link ends in a trap or
/// an exhaustion, returns that outcome.
pub fn call<'a>(
    alloc: Global,
    subcommand: &CallSubcommand<'a>,
    embedding: &mut Embedding,
    bytes: &[u8],
) -> Result<Outcome, Fault<'a>>
    requires nothing { Unit {0} }
    ensures { IfOk result (λ outcome. EndsCall ⟦<dyn HostFn as HostFn>⟧
        (embedding_of embedding.old) subcommand.now bytes.now (ending_of outcome)
        (embedding_of embedding.new)) }
{
    let loaded = embedding.load(bytes)?;
    match embedding.link(loaded)? {
        LinkOutcome::Linked(instance) => call_export(alloc, subcommand, embedding, instance),
        LinkOutcome::Trap(trap) => Ok(Outcome::Trap(trap)),
        LinkOutcome::Exhausted(what) => Ok(Outcome::Exhausted(what)),
    }
}
