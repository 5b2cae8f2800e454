//! Loads a module in one reading of its bytes.
#![tactic(auto)]

ghost use Rattle.std.specs.Prelude.{IfOk, IfSome};
ghost use Rattle.meaning.specs.embedding.Machine.{IsDecoded};

use binary::{DecodeError, decode_outline};
use std::alloc::{AllocError, Global};
use store::LoadedModule;
use validator::ValidateError;

/// Loads the module that the bytes encode, if it is valid: each operation is decoded, checked and flattened before the next one is
/// read.
///
/// It states nothing of bytes that it returns none for. `decode` and `LoadedModule::new` say what is wrong with them, or load them.
///
/// # Errors
///
/// `AllocError` if an allocation fails.
pub fn load(alloc: Global, bytes: &[u8]) -> Result<Option<LoadedModule>, AllocError>
    ensures { IfOk result (λ found. IfSome found (λ loaded. IsDecoded bytes.now loaded.source)) }
{
    let outline = match decode_outline(alloc, bytes) {
        Ok(outline) => outline,
        Err(DecodeError::OutOfMemory) => return Err(AllocError),
        Err(_) => return Ok(None),
    };
    let loaded = match LoadedModule::new(alloc, outline.module) {
        Ok(loaded) => loaded,
        Err(ValidateError::OutOfMemory) => return Err(AllocError),
        Err(ValidateError::Invalid(_)) => return Ok(None),
    };
    if !outline.counted && loaded.names_data() {
        return Ok(None);
    }
    Ok(Some(loaded))
}
