ghost use Rattle.std.specs.Prelude.{◌≡◌, []};
ghost use Rattle.store.specs.Segments.{bytes_at};

use crate::loaded_modules::LoadedModule;
use core_types::{Module, RefType, Val, item};
use std::alloc::Global;
use std::marker::Model;
use std::rc::Rc;

/// An element segment: the type of its references, and the references. There are none after it was dropped (Execution, Element
/// Instances).
#[derive(Drop)]
pub struct ElementSegment {
    ty: RefType,
    references: Vec<Val>,
}

impl Model for ElementSegment {
    ghost use Rattle.meaning.specs.execution.Tables.{ElementInstance};

    ghost Value = { ElementInstance };

    ghost view = { λ s. record { ty = s.ty; references = s.references.items } };
}

impl ElementSegment {
    /// Creates a segment of these references.
    pub fn new(ty: RefType, references: Vec<Val>) -> ElementSegment
        ensures { result ≡ record { ty = ty; references = references.items } }
    {
        ElementSegment { ty, references }
    }

    /// Returns the references.
    pub fn references(&self) -> &[Val]
        ensures { result.now ≡ self.now.references }
    {
        &self.references
    }

    // Frees the references. Allocates nothing.
    pub(crate) fn clear(&mut self, alloc: Global)
        ensures { self.new ≡ record { ty = self.old.ty; references = [] } }
    {
        self.references = Vec::new(alloc);
    }
}

// Returns the bytes of a module's data segment, or none if there is no such segment.
fn bytes_of(read: &Module, index: u32) -> &[u8]
    ensures { result.now ≡ bytes_at read.now index }
{
    match item(read.datas.as_slice(), index) {
        Some(segment) => segment.bytes.as_slice(),
        None => &[],
    }
}

/// A data segment: the segment of an index of a shared loaded module, or nothing after it was dropped (Execution, Data
/// Instances).
#[derive(Drop)]
pub struct DataSegment {
    source: Option<Rc<LoadedModule>>,
    index: u32,
}

impl Model for DataSegment {
    ghost use Rattle.meaning.specs.execution.Store.{DataInstance};
    ghost use Rattle.store.specs.Segments.{bytes_in};

    ghost Value = { DataInstance };

    ghost view = { λ s. record { bytes = bytes_in s.source s.index } };
}

impl DataSegment {
    /// Creates the data segment of this index of a module. No bytes are copied.
    pub fn new(loaded: Rc<LoadedModule>, index: u32) -> DataSegment
        ensures { result.bytes ≡ bytes_at loaded.value.source index }
    {
        DataSegment {
            source: Some(loaded),
            index,
        }
    }

    /// Returns the bytes.
    pub fn bytes(&self) -> &[u8]
        ensures { result.now ≡ self.now.bytes }
    {
        match &self.source {
            Some(loaded) => bytes_of(loaded.as_ref().module(), self.index),
            None => &[],
        }
    }

    // Releases the module. Allocates nothing.
    pub(crate) fn clear(&mut self)
        ensures { self.new.bytes ≡ [] }
    {
        self.source = None;
    }
}
