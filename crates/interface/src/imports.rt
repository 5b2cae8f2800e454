ghost use Rattle.std.specs.Prelude.{◌≡◌, ◌++◌, ◌∷◌, [], IfOk, List, OnOk};
ghost use Rattle.interface.specs.Listings.{AreImports, NamedImport, named_import};

use crate::types::{Declaration, index_of};
use core_types::{ExternType, Import};
use std::alloc::{AllocError, Global};
use std::collections::BTreeMap;

/// An import of a module: the name of a module and a name in it, and the index of its type.
#[derive(Drop)]
pub struct ImportType {
    pub module_name: String,
    pub name: String,
    /// The index of its type in the list of types.
    pub ty: usize,
}

/// What a module imports, in its order. Functions that are declared by one index of its types share one type in the list.
#[derive(Drop)]
pub struct Imports {
    pub types: Vec<ExternType>,
    pub imports: Vec<ImportType>,
}

/// A growing list of imports, with the indices of the types of functions.
#[derive(Drop)]
pub struct ImportListing {
    alloc: Global,
    pub found: Imports,
    known: BTreeMap<Declaration, usize>,
}

impl ImportListing {
    /// Creates an empty list. Allocates nothing.
    pub fn new(alloc: Global) -> ImportListing
        ensures { AreImports result.found ([]) }
    {
        ImportListing {
            alloc,
            found: Imports {
                types: Vec::new(alloc),
                imports: Vec::new(alloc),
            },
            known: BTreeMap::new(alloc),
        }
    }

    /// Appends an import with its type. Functions of one declaration share the type.
    pub fn push(
        &mut self,
        import: &Import,
        declaration: Option<Declaration>,
        ty: ExternType,
    ) -> Result<(), AllocError>
        ensures { OnOk result ((all : List NamedImport) → AreImports self.old.found all →
            AreImports self.new.found (all ++ named_import import.now ty ∷ [])) }
    {
        let module_name = String::from_str(self.alloc, import.module_name.as_str())?;
        let name = String::from_str(self.alloc, import.name.as_str())?;
        let ty = index_of(&mut self.found.types, &mut self.known, declaration, ty)?;
        self.found.imports.push(ImportType {
            module_name,
            name,
            ty,
        })?;
        Ok(())
    }

    /// Returns the list.
    pub fn finish(self) -> Imports
        ensures { result ≡ self.found }
    {
        let ImportListing {
            alloc: _,
            found,
            known: _,
        } = self;
        found
    }
}
