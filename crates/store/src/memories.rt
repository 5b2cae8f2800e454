ghost use Rattle.std.specs.Prelude.{◌≡◌, ◌+◌, ◌≤◌, OnOk, OnErr, IfOk};
ghost use Rattle.std.specs.Borrow.{sem};
ghost use Rattle.meaning.specs.execution.Memories.{grow_by, new_memory};
ghost use Rattle.meaning.specs.validation.Types.{most_pages};
ghost use Rattle.store.specs.Lending.{LendsBytes};
ghost use Rattle.store.specs.Memories.{HasPages};
ghost use Rattle.store.specs.State.{no_memory};

use core_types::Limits;
use std::alloc::{AllocError, Global};
use std::marker::Model;

// The size of a page, in bytes.
const PAGE_SIZE: usize = 65_536;

/// A memory: its limits, whose minimum is its present size in pages, and its bytes (Execution, Memory Instances).
#[derive(Drop)]
pub struct Memory {
    limits: Limits,
    bytes: Vec<u8>,
}

impl Model for Memory {
    ghost use Rattle.meaning.specs.execution.Memories.{MemoryInstance};
    ghost use Rattle.store.specs.Memories.{HasPages};

    ghost Value = { MemoryInstance };

    ghost view = { λ m. record { limits = m.limits; bytes = m.bytes.items } };

    ghost invariant = { λ m. HasPages m.limits.min m.bytes.items };
}

impl Memory {
    // Returns a memory without bytes, for a place from which another was taken. Allocates nothing.
    pub(crate) fn empty(alloc: Global) -> Memory
        ensures { result ≡ no_memory }
    {
        Memory {
            limits: Limits { min: 0, max: None },
            bytes: Vec::new(alloc),
        }
    }

    /// Creates a memory with these limits. It has the minimum number of pages, and all bytes are zero.
    pub fn new(alloc: Global, limits: Limits) -> Result<Memory, AllocError>
        requires { limits.min ≤ most_pages }
        ensures { IfOk result (λ m. m ≡ new_memory limits) }
    {
        let mut bytes = Vec::new(alloc);
        bytes.resize(PAGE_SIZE * limits.min as usize, 0)?;
        Ok(Memory { limits, bytes })
    }

    /// Returns the limits, whose minimum is the present size in pages.
    pub fn limits(&self) -> Limits
        ensures { result ≡ self.now.limits }
    {
        self.limits
    }

    /// Returns the bytes.
    pub fn bytes(&self) -> &[u8]
        ensures same { result.now ≡ self.now.bytes }
        ensures pages { HasPages (self.now.limits.min) self.now.bytes }
    {
        &self.bytes
    }

    /// Returns the bytes as a mutable slice. Their number stays.
    pub fn bytes_mut(&mut self) -> &mut [u8]
        ensures* lent { sem 𝓛 (LendsBytes self.entry result) }
        ensures same { result.now ≡ self.old.bytes }
    {
        self.bytes.as_mut_slice()
    }

    // Appends pages of zeros. If memory runs out, the memory is unchanged.
    pub(crate) fn grow(&mut self, pages: u32) -> Result<(), AllocError>
        requires { self.old.limits.min + pages ≤ most_pages }
        ensures grown { OnOk result (self.new ≡ grow_by self.old pages) }
        ensures unchanged { OnErr result (self.new ≡ self.old) }
    {
        let size = self.bytes.len() + PAGE_SIZE * pages as usize;
        self.bytes.resize(size, 0)?;
        self.limits.min += pages;
        Ok(())
    }
}
