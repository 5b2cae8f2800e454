use crate::header::Header;
use crate::section::Section;
use crate::writer::Writer;
use std::alloc::Global;

/// The types of a module's functions.
#[derive(Drop)]
pub struct FunctionTypes {
    alloc: Global,
    types: Vec<Writer>,
    has_failed: bool,
}

// Returns the index of the first type with these bytes, or the number of types if there is none.
fn index_of(types: &[Writer], ty: &[u8]) -> usize {
    for (index, other) in types.iter().enumerate() {
        if other.as_slice() == ty {
            return index;
        }
    }
    types.len()
}

impl FunctionTypes {
    /// Creates an empty list of types. Allocates nothing.
    pub fn new(alloc: Global) -> FunctionTypes {
        FunctionTypes {
            alloc,
            types: Vec::new(alloc),
            has_failed: false,
        }
    }

    // Returns the type with the parameters and results of a header.
    fn type_of(&self, header: &Header<'_>) -> Writer {
        let mut ty = Writer::new(self.alloc);
        ty.write_byte(0x60);
        ty.append_counted(&header.params);
        ty.append_counted(&header.results);
        ty
    }

    /// Adds the type with the parameters and results of a header.
    pub fn add(&mut self, header: &Header<'_>) {
        let ty = self.type_of(header);
        if self.types.push(ty).is_err() {
            self.has_failed = true;
        }
    }

    /// Returns the index in a header, or that of the first type with its parameters and results. The type is added if there is
    /// none.
    pub fn index_of(&mut self, header: &Header<'_>) -> u64 {
        if let Some(index) = header.type_index {
            return index;
        }
        let index = index_of(&self.types, self.type_of(header).as_slice());
        if index == self.types.len() {
            self.add(header);
        }
        index as u64
    }

    /// Returns the section of the types.
    pub fn section(&self) -> Section {
        let mut section = Section::new(self.alloc);
        for ty in &self.types {
            section.begin().append(ty);
        }
        if self.has_failed {
            section.begin().fail();
        }
        section
    }
}
