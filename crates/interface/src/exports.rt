ghost use Rattle.std.specs.Prelude.{◌≡◌, ◌++◌, ◌∷◌, [], List, OnOk, ℕ};
ghost use Rattle.core_types.specs.declared.types.ExternType.{ExternType as Type_of};
ghost use Rattle.interface.specs.Listings.{AreExports};

use crate::types::{Declaration, index_of};
use core_types::ExternType;
use std::alloc::{AllocError, Global};
use std::collections::BTreeMap;

/// An export: its name, and the index of its type.
#[derive(Drop)]
pub struct ExportType {
    pub name: String,
    /// The index of its type in the list of types.
    pub ty: usize,
}

/// What an instance or a module exports, in the order of the module. Functions that one instance declares by one index of its types
/// share one type in the list, and so do exports of one host function. So a long type is not listed again for each export.
#[derive(Drop)]
pub struct Exports {
    /// The types. The minimum of a table or a memory of an instance is its present size.
    pub types: Vec<ExternType>,
    pub exports: Vec<ExportType>,
}

/// A growing list of exports, with the indices of the types of functions.
#[derive(Drop)]
pub struct Listing {
    alloc: Global,
    pub found: Exports,
    known: BTreeMap<Declaration, usize>,
}

impl Listing {
    /// Creates an empty list. Allocates nothing.
    pub fn new(alloc: Global) -> Listing
        ensures { AreExports result.found ([]) }
    {
        Listing {
            alloc,
            found: Exports {
                types: Vec::new(alloc),
                exports: Vec::new(alloc),
            },
            known: BTreeMap::new(alloc),
        }
    }

    /// Appends an export with a name and a type. Functions of one declaration share the type.
    ///
    /// # Errors
    ///
    /// Fails if an allocation fails. What the list has then is unspecified.
    pub fn push(
        &mut self,
        name: &str,
        declaration: Option<Declaration>,
        ty: ExternType,
    ) -> Result<(), AllocError>
        ensures { OnOk result ((all : List (List ℕ × Type_of)) → AreExports self.old.found all →
            AreExports self.new.found (all ++ (name.now, ty) ∷ [])) }
    {
        let name = String::from_str(self.alloc, name)?;
        let ty = index_of(&mut self.found.types, &mut self.known, declaration, ty)?;
        self.found.exports.push(ExportType { name, ty })?;
        Ok(())
    }

    /// Returns the list.
    pub fn finish(self) -> Exports
        ensures { result ≡ self.found }
    {
        let Listing {
            alloc: _,
            found,
            known: _,
        } = self;
        found
    }
}
