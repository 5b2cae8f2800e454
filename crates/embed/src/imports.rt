ghost use Rattle.std.specs.Prelude.{◌≡◌, IfOk, IfErr, Some};
ghost use Rattle.meaning.specs.embedding.Machine.{resolve_imports as resolved};
ghost use Rattle.store.specs.Contents.{store_of};
ghost use Rattle.embed.specs.Causes.{IsUnresolved};

use crate::refusals::Refusal;
use core_types::{Extern, Import};
use linker::Names;
use std::alloc::Global;
use store::Store;

/// Returns what the names of imports stand for, in their order.
///
/// # Errors
///
/// Refused with `UnknownImport` and the index of the first one whose names stand for nothing, and with `OutOfMemory`.
pub fn resolve_imports(
    alloc: Global,
    names: &Names,
    store: &Store,
    imports: &[Import],
) -> Result<Vec<Extern>, Refusal>
    ensures found { IfOk result (λ externs. resolved (store_of store.now) names.now imports.now
        ≡ Some externs.items) }
    ensures refused { IfErr result (λ refusal. IsUnresolved (store_of store.now) names.now
        imports.now refusal) }
{
    let mut externs = Vec::new(alloc);
    for k in 0..imports.len() {
        let wanted = &imports[k];
        match names.resolve(store, wanted.module_name.as_str(), wanted.name.as_str()) {
            Some(found) => externs.push(found)?,
            None => return Err(Refusal::UnknownImport(k)),
        }
    }
    Ok(externs)
}
