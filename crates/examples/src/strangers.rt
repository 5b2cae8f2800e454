//! Plug-ins in an embedding without host functions. No plug-in is registered, and no call is passed a reference. So no plug-in
//! can change what another replies.

ghost use Rattle.std.specs.Prelude.{IfOk};
ghost use Rattle.embed.specs.Contents.{embedding_of};
ghost use Rattle.hostfunc.specs.Boxes.{HostStep};
ghost use Rattle.meaning.specs.execution.Storage.{AreBytes};
ghost use Rattle.examples.specs.Strangers.{AreStrangers, OthersReplyTheSame};

use embed::{
    Config, Embedding, InstanceNumber, LinkOutcome, ModuleNumber, NewFault, Outcome, Refusal,
    isolated,
};
use hostfunc::HostFn;
use std::alloc::Global;

/// Creates an embedding without host functions.
pub fn new_embedding(alloc: Global, config: Config) -> Result<Embedding, NewFault>
    ensures strangers { IfOk result
        (λ at. AreStrangers ⟦<dyn HostFn as HostFn>⟧ (embedding_of at)) }
{
    Embedding::new(alloc, config, Vec::new(alloc))
}

// Each byte is below 256, by its type.
fn show_bytes(bytes: &[u8])
    ensures { AreBytes bytes.now }
{}

/// Loads a plug-in.
pub fn load_plugin(embedding: &mut Embedding, bytes: &[u8]) -> Result<ModuleNumber, Refusal>
    requires strangers { AreStrangers ⟦<dyn HostFn as HostFn>⟧ (embedding_of embedding.old) }
    ensures strangers { AreStrangers ⟦<dyn HostFn as HostFn>⟧ (embedding_of embedding.new) }
{
    show_bytes(bytes);
    embedding.load(bytes)
}

/// Links a plug-in.
pub fn link_plugin(embedding: &mut Embedding, number: ModuleNumber) -> Result<LinkOutcome, Refusal>
    requires strangers { AreStrangers ⟦<dyn HostFn as HostFn>⟧ (embedding_of embedding.old) }
    ensures strangers { AreStrangers ⟦<dyn HostFn as HostFn>⟧ (embedding_of embedding.new) }
{
    embedding.link(number)
}

/// Sets the fuel of the next call.
pub fn set_fuel(embedding: &mut Embedding, fuel: u64)
    requires strangers { AreStrangers ⟦<dyn HostFn as HostFn>⟧ (embedding_of embedding.old) }
    ensures strangers { AreStrangers ⟦<dyn HostFn as HostFn>⟧ (embedding_of embedding.new) }
{
    embedding.set_fuel(fuel);
}

/// Calls an export of a plug-in. Each other plug-in has the same possible replies to a question before and after the call.
pub fn call_plugin(
    embedding: &mut Embedding,
    plugin: InstanceNumber,
    export: &str,
) -> Result<Outcome, Refusal>
    requires strangers { AreStrangers ⟦<dyn HostFn as HostFn>⟧ (embedding_of embedding.old) }
    ensures strangers { AreStrangers ⟦<dyn HostFn as HostFn>⟧ (embedding_of embedding.new) }
    ensures same { OthersReplyTheSame ⟦<dyn HostFn as HostFn>⟧ plugin.0
        (embedding_of embedding.old) (embedding_of embedding.new) }
{
    isolated(&[]);
    embedding.call(plugin, export, &[])
}
