ghost use Rattle.std.specs.Prelude.{IfOk, IfErr};
ghost use Rattle.meaning.specs.embedding.Machine.{IsDecoded};
ghost use Rattle.meaning.specs.validation.Modules.{IsValid};
ghost use Rattle.embed.specs.Causes.{RefusesBytes};

use crate::refusals::Refusal;
use binary::decode;
use loading::load;
use std::alloc::Global;
use std::rc::Rc;
use store::LoadedModule;

// Decodes a module, and then validates and flattens it. What refuses it says where and why.
fn load_in_turn(alloc: Global, bytes: &[u8]) -> Result<Rc<LoadedModule>, Refusal>
    ensures decoded { IfOk result (λ loaded. IsDecoded bytes.now loaded.value.source) }
    ensures valid { IfOk result (λ loaded. IsValid loaded.value.source) }
    ensures refused { IfErr result (λ refusal. RefusesBytes bytes.now refusal) }
{
    let decoded = decode(alloc, bytes)?;
    let loaded = LoadedModule::new(alloc, decoded)?;
    Ok(Rc::new(alloc, loaded)?)
}

/// Returns the module that the bytes encode, if it is valid.
pub fn load_module(alloc: Global, bytes: &[u8]) -> Result<Rc<LoadedModule>, Refusal>
    ensures decoded { IfOk result (λ loaded. IsDecoded bytes.now loaded.value.source) }
    ensures valid { IfOk result (λ loaded. IsValid loaded.value.source) }
    ensures refused { IfErr result (λ refusal. RefusesBytes bytes.now refusal) }
{
    match load(alloc, bytes)? {
        Some(loaded) => Ok(Rc::new(alloc, loaded)?),
        None => load_in_turn(alloc, bytes),
    }
}
