//! What the modules of an embedding import and export, before they are linked (Appendix, Embedding, Modules).

ghost use Rattle.std.specs.Prelude.{◌≡◌, IfErr, IfOk, MatchOption, None, Some, slice_get};
ghost use Rattle.embed.specs.Contents.{embedding_of};
ghost use Rattle.embed.specs.Exports.{IsRefusedModule, imports_in, module_exports_in};
ghost use Rattle.interface.specs.Listings.{AreExports, AreImports};

use crate::embedding::Embedding;
use crate::numbers::ModuleNumber;
use crate::refusals::Refusal;
use core_types::Module;
use interface::{Exports, Imports, exports_of, imports_of};
use std::rc::Rc;
use store::LoadedModule;

/// Returns the module of a number, if there is one.
pub fn module_at(modules: &[Rc<LoadedModule>], number: u64) -> Option<&Rc<LoadedModule>>
    ensures { MatchOption result (slice_get modules.now number ≡ None)
        (λ loaded. slice_get modules.now number ≡ Some loaded.now) }
{
    modules.get(number as usize)
}

impl Embedding {
    // Returns the module of a number, if there is one.
    fn loaded_module(&self, number: u64) -> Option<&Module>
        ensures { MatchOption result (slice_get (embedding_of self.now).modules number ≡ None)
            (λ found. slice_get (embedding_of self.now).modules number ≡ Some found.now) }
    {
        match module_at(&self.modules, number) {
            Some(shared) => Some(shared.as_ref().module()),
            None => None,
        }
    }

    /// Returns a list of what a loaded module imports, in its order. Functions of one type index share one type in the list.
    ///
    /// # Errors
    ///
    /// Refused with `UnknownModule`, and with `OutOfMemory` if an allocation fails.
    pub fn module_imports(&self, number: ModuleNumber) -> Result<Imports, Refusal>
        ensures found { IfOk result (λ found. AreImports found
            (imports_in (slice_get (embedding_of self.now).modules number.0))) }
        ensures refused { IfErr result
            (λ refusal. IsRefusedModule (embedding_of self.now) number.0 refusal) }
    {
        match self.loaded_module(number.0) {
            Some(found) => Ok(imports_of(self.alloc, found)?),
            None => Err(Refusal::UnknownModule),
        }
    }

    /// Returns a list of what a loaded module exports, in its order. Functions of one type index share one type in the list. The
    /// minimum of a table or a memory is the declared one.
    ///
    /// # Errors
    ///
    /// Refused with `UnknownModule`, and with `OutOfMemory` if an allocation fails.
    pub fn module_exports(&self, number: ModuleNumber) -> Result<Exports, Refusal>
        ensures found { IfOk result (λ found. AreExports found
            (module_exports_in (slice_get (embedding_of self.now).modules number.0))) }
        ensures refused { IfErr result
            (λ refusal. IsRefusedModule (embedding_of self.now) number.0 refusal) }
    {
        match self.loaded_module(number.0) {
            Some(found) => Ok(exports_of(self.alloc, found)?),
            None => Err(Refusal::UnknownModule),
        }
    }
}
