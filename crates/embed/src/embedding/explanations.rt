//! Why commands are refused, as texts for those who make modules. No command depends on them.

use crate::commands::Command;
use crate::embedding::Embedding;
use crate::embedding::modules::module_at;
use crate::explanations::explain_load;
use crate::numbers::{InstanceNumber, ModuleNumber};
use crate::refusals::Refusal;
use core_types::{Extern, ExternType, Module, Val};
use explanation::{
    Bounds, explain_arguments, explain_bounds, explain_export, explain_incompatible_import,
    explain_unknown_import,
};
use interface::imports_of;
use matching::matches;
use std::alloc::{AllocError, Global};

// The most names that are looked at. A text lists fewer, and says that there are others.
const MOST_NAMES: usize = 9;

// Returns whether a type may be imported as the import of this index.
fn is_wanted(
    alloc: Global,
    module: &Module,
    index: usize,
    given: &ExternType,
) -> Result<bool, AllocError> {
    let listed = imports_of(alloc, module)?;
    let Some(import) = listed.imports.as_slice().get(index) else {
        return Ok(false);
    };
    match listed.types.as_slice().get(import.ty) {
        Some(wanted) => Ok(matches(given, wanted)),
        None => Ok(false),
    }
}

impl Embedding {
    // Returns names that exist under the name of a module.
    fn names_under(&self, alloc: Global, module_name: &str) -> Result<Vec<&str>, AllocError> {
        let mut names = Vec::new(alloc);
        for k in 0..MOST_NAMES {
            let Some(name) = self.names.host_name(module_name, k) else {
                break;
            };
            names.push(name)?;
        }
        if let Some(instance) = self.names.instance(module_name) {
            for export in self.store.code().exports(instance).iter().take(MOST_NAMES) {
                names.push(export.name.as_str())?;
            }
        }
        Ok(names)
    }

    // Returns what the names of an import of a module stand for.
    fn resolved(&self, module: &Module, index: usize) -> Option<Extern> {
        let import = module.imports.as_slice().get(index)?;
        self.names.resolve(
            &self.store,
            import.module_name.as_str(),
            import.name.as_str(),
        )
    }

    // Returns the type of an external value, if it is in the store.
    fn type_of(&self, alloc: Global, value: Extern) -> Result<Option<ExternType>, AllocError> {
        if !self.store.has_extern(value) {
            return Ok(None);
        }
        Ok(Some(self.store.extern_type(alloc, value)?))
    }

    // Returns that an import of a module is unknown, if it is.
    fn reason_of_unknown_import(
        &self,
        alloc: Global,
        module: &Module,
        index: usize,
    ) -> Result<Option<String>, AllocError> {
        let Some(import) = module.imports.as_slice().get(index) else {
            return Ok(None);
        };
        if self.resolved(module, index).is_some() {
            return Ok(None);
        }
        let names = self.names_under(alloc, import.module_name.as_str())?;
        explain_unknown_import(alloc, module, index, &names)
    }

    // Returns which type an import of a module has, and which type is found for it.
    fn reason_of_incompatible_import(
        &self,
        alloc: Global,
        module: &Module,
        index: usize,
    ) -> Result<Option<String>, AllocError> {
        let Some(found) = self.resolved(module, index) else {
            return Ok(None);
        };
        match self.type_of(alloc, found)? {
            Some(ty) if !is_wanted(alloc, module, index, &ty)? => {
                explain_incompatible_import(alloc, module, index, &ty)
            }
            _ => Ok(None),
        }
    }

    // Returns why a module is not linked.
    fn reason_of_link(
        &self,
        alloc: Global,
        number: ModuleNumber,
        refusal: Refusal,
    ) -> Result<Option<String>, AllocError> {
        let Some(loaded) = module_at(&self.modules, number.0) else {
            return Ok(None);
        };
        let module = loaded.as_ref().module();
        match refusal {
            Refusal::UnknownImport(index) => self.reason_of_unknown_import(alloc, module, index),
            Refusal::IncompatibleImport(index) => {
                self.reason_of_incompatible_import(alloc, module, index)
            }
            Refusal::Limit => explain_bounds(
                alloc,
                module,
                Bounds {
                    pages: self.config.pages(),
                    entries: self.config.entries(),
                },
            ),
            _ => Ok(None),
        }
    }

    // Returns why the arguments are not those of what an instance exports under a name.
    fn reason_of_arguments(
        &self,
        alloc: Global,
        instance: InstanceNumber,
        name: &str,
        args: &[Val],
    ) -> Result<Option<String>, AllocError> {
        let Ok(found) = self.export(instance.0, name) else {
            return Ok(None);
        };
        match self.type_of(alloc, found)? {
            Some(ExternType::Func(ty)) => explain_arguments(
                alloc,
                ty.params.as_slice(),
                args,
                self.store.code().function_count(),
            ),
            _ => Ok(None),
        }
    }

    // Returns what an instance exports, and whether a name is among it.
    fn reason_of_export(
        &self,
        alloc: Global,
        instance: InstanceNumber,
        name: &str,
    ) -> Result<Option<String>, AllocError> {
        match self.instance(instance.0) {
            Some(address) => {
                Ok(Some(explain_export(alloc, self.store.code().exports(address), name)?))
            }
            None => Ok(None),
        }
    }

    /// Returns why a link had a refusal: the import at fault, with its type, and what there is in its place, or the memory or table
    /// that exceeds a bound. Another refusal, or one whose fault is not found, gets its short text.
    ///
    /// The refusal must be the one that the engine answered. Whether the link would be refused so is not checked.
    ///
    /// # Errors
    ///
    /// Fails if an allocation fails.
    pub fn explain_link(
        &self,
        alloc: Global,
        number: ModuleNumber,
        refusal: Refusal,
    ) -> Result<String, AllocError> {
        match self.reason_of_link(alloc, number, refusal)? {
            Some(text) => Ok(text),
            None => format!(in alloc; "{refusal}"),
        }
    }

    /// Returns why a call had a refusal: the argument at fault, or what the instance exports. Another refusal, or one whose fault is
    /// not found, gets its short text.
    ///
    /// The refusal must be the one that the engine answered. Whether the call would be refused so is not checked.
    ///
    /// # Errors
    ///
    /// Fails if an allocation fails.
    pub fn explain_call(
        &self,
        alloc: Global,
        instance: InstanceNumber,
        name: &str,
        args: &[Val],
        refusal: Refusal,
    ) -> Result<String, AllocError> {
        if refusal != Refusal::BadArguments {
            return self.explain_export(alloc, instance, name, refusal);
        }
        match self.reason_of_arguments(alloc, instance, name, args)? {
            Some(text) => Ok(text),
            None => format!(in alloc; "{refusal}"),
        }
    }

    /// Returns why a use of an export had a refusal: what the export is, if it exists, and what the instance exports. Another
    /// refusal, or an unknown export that exists, gets its short text.
    ///
    /// The refusal must be the one that the engine answered. Which kind the use needs is not checked.
    ///
    /// # Errors
    ///
    /// Fails if an allocation fails.
    pub fn explain_export(
        &self,
        alloc: Global,
        instance: InstanceNumber,
        name: &str,
        refusal: Refusal,
    ) -> Result<String, AllocError> {
        let is_there = self.export(instance.0, name).is_ok();
        let reason = match refusal {
            Refusal::UnknownExport if !is_there => self.reason_of_export(alloc, instance, name)?,
            Refusal::WrongKind if is_there => self.reason_of_export(alloc, instance, name)?,
            _ => None,
        };
        match reason {
            Some(text) => Ok(text),
            None => format!(in alloc; "{refusal}"),
        }
    }

    /// Returns why a command had a refusal, in words for those who make modules and those who call them. Names in the text are
    /// escaped and cut at 80 characters, and it has no line break. If no fault is found that the refusal names, the text is its
    /// short one.
    ///
    /// The refusal must be the one that the engine answered, and the embedding as it was then: a refused command changes nothing.
    ///
    /// # Errors
    ///
    /// Fails if an allocation fails.
    pub fn explain(
        &self,
        alloc: Global,
        command: &Command,
        refusal: Refusal,
    ) -> Result<String, AllocError> {
        match command {
            Command::Load(bytes) => explain_load(alloc, bytes.as_slice(), refusal),
            Command::Link(number) => self.explain_link(alloc, ModuleNumber(*number), refusal),
            Command::Call(number, name, args) => self.explain_call(
                alloc,
                InstanceNumber(*number),
                name.as_str(),
                args.as_slice(),
                refusal,
            ),
            Command::GetGlobal(number, name) => {
                self.explain_export(alloc, InstanceNumber(*number), name.as_str(), refusal)
            }
            Command::Register(..) | Command::SetFuel(_) => format!(in alloc; "{refusal}"),
        }
    }
}
