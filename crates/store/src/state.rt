ghost use Rattle.std.specs.Prelude.{◌≡◌, ◌≢◌, ◌+◌, ◌<◌, ◌≤◌, [], length, replicate, slice_get, slice_set, option_copied, IfSome, OnOk, OnErr};
ghost use Rattle.std.specs.Borrow.{sem};
ghost use Rattle.core_types.specs.declared.types.Mutability.TheVariants.{Var};
ghost use Rattle.meaning.specs.execution.Memories.{grow_by};
ghost use Rattle.store.specs.Lending.{LendsMemory};
ghost use Rattle.meaning.specs.execution.Storage.{items_at, overwrite};
ghost use Rattle.meaning.specs.execution.Tables.{grow_entries};
ghost use Rattle.meaning.specs.execution.Values.{type_of};
ghost use Rattle.meaning.specs.validation.Types.{reference_type, most_pages};
ghost use Rattle.store.specs.State.{AreWithin, IsRoomFor, append_objects, data_of, elements_of, global_of, memory_of, no_memory, no_objects, put_data, put_elements, put_global, put_memory, put_table, table_of};
ghost use Rattle.store.specs.Tables.{with_entries};

use crate::globals::GlobalVariable;
use crate::memories::Memory;
use crate::segments::{DataSegment, ElementSegment};
use crate::tables::Table;
use core_types::Val;
use quota::Quota;
use std::alloc::{AllocError, Global};
use std::marker::Model;
use std::mem;

/// How many bytes of a quota an entry of a table counts.
pub const ENTRY_BYTES: u64 = 16;

/// How many bytes of a quota a page of a memory counts.
pub const PAGE_BYTES: u64 = 65_536;

/// Objects that a run may change, one list for each kind.
#[derive(Drop)]
pub struct Objects {
    pub tables: Vec<Table>,
    pub memories: Vec<Memory>,
    pub globals: Vec<GlobalVariable>,
    pub elements: Vec<ElementSegment>,
    pub datas: Vec<DataSegment>,
}

impl Model for Objects {
    ghost use Rattle.meaning.specs.execution.Store.{ObjectLists};

    ghost Value = { ObjectLists };

    ghost view = { λ o. record {
      tables = o.tables.items;
      memories = o.memories.items;
      globals = o.globals.items;
      elements = o.elements.items;
      datas = o.datas.items;
    } };
}

/// The part of the store that a run may change: tables, memories, globals and segments by address.
#[derive(Drop)]
pub struct State {
    alloc: Global,
    tables: Vec<Table>,
    memories: Vec<Memory>,
    globals: Vec<GlobalVariable>,
    elements: Vec<ElementSegment>,
    datas: Vec<DataSegment>,
    pages: u32,
    entries: u32,
    quota: Quota,
}

impl Model for State {
    ghost use Rattle.std.specs.Prelude.{◌-◌, vec_len, vec_capacity};
    ghost use Rattle.store.specs.State.{AreWithin, StateContents};

    ghost Value = { StateContents };

    ghost view = { λ s. record {
      contents = record {
        tables = s.tables.items;
        memories = s.memories.items;
        globals = s.globals.items;
        elements = s.elements.items;
        datas = s.datas.items;
      };
      room = record {
        tables = vec_capacity s.tables - vec_len s.tables;
        memories = vec_capacity s.memories - vec_len s.memories;
        globals = vec_capacity s.globals - vec_len s.globals;
        elements = vec_capacity s.elements - vec_len s.elements;
        datas = vec_capacity s.datas - vec_len s.datas;
      };
      bounds = record { entries = s.entries; pages = s.pages };
    } };

    ghost invariant = { λ s. AreWithin (record { entries = s.entries; pages = s.pages })
        s.tables.items s.memories.items };
}

impl State {
    /// Creates a state without objects. A memory may have at most `pages` pages, and a table at most `entries` entries. There is
    /// no quota. Allocates nothing.
    pub fn new(alloc: Global, pages: u32, entries: u32) -> State
        ensures contents { result.contents ≡ no_objects }
        ensures bounds { result.bounds ≡ record { entries = entries; pages = pages } }
    {
        State {
            alloc,
            tables: Vec::new(alloc),
            memories: Vec::new(alloc),
            globals: Vec::new(alloc),
            elements: Vec::new(alloc),
            datas: Vec::new(alloc),
            pages,
            entries,
            quota: Quota::new(u64::MAX),
        }
    }

    /// Returns the most pages that a memory may have.
    pub fn pages(&self) -> u32
        ensures { result ≡ self.now.bounds.pages }
    {
        self.pages
    }

    /// Returns the most entries that a table may have.
    pub fn entries(&self) -> u32
        ensures { result ≡ self.now.bounds.entries }
    {
        self.entries
    }

    /// Returns the quota of what is held. What else the state shows does not depend on it.
    pub fn quota(&self) -> Quota {
        self.quota
    }

    /// Replaces the quota of what is held.
    pub fn set_quota(&mut self, quota: Quota)
        ensures { self.new ≡ self.old }
    {
        self.quota = quota;
    }

    /// Counts bytes that stay. Fails if the quota has fewer left.
    pub fn keep(&mut self, bytes: u64) -> Result<(), AllocError>
        ensures { self.new ≡ self.old }
    {
        self.quota.keep(bytes)
    }

    /// Counts bytes that the running call borrows. Fails if the quota has fewer left.
    pub fn borrow(&mut self, bytes: u64) -> Result<(), AllocError>
        ensures { self.new ≡ self.old }
    {
        self.quota.borrow(bytes)
    }

    // Fails if the quota has fewer bytes left.
    fn has_left(&self, bytes: u64) -> Result<(), AllocError> {
        if bytes > self.quota.left() {
            return Err(AllocError);
        }
        Ok(())
    }

    /// Returns the number of tables.
    pub fn table_count(&self) -> usize
        ensures { result ≡ length self.now.contents.tables }
    {
        self.tables.len()
    }

    /// Returns the number of memories.
    pub fn memory_count(&self) -> usize
        ensures { result ≡ length self.now.contents.memories }
    {
        self.memories.len()
    }

    /// Returns the number of globals.
    pub fn global_count(&self) -> usize
        ensures { result ≡ length self.now.contents.globals }
    {
        self.globals.len()
    }

    /// Returns the number of element segments.
    pub fn element_count(&self) -> usize
        ensures { result ≡ length self.now.contents.elements }
    {
        self.elements.len()
    }

    /// Returns the number of data segments.
    pub fn data_count(&self) -> usize
        ensures { result ≡ length self.now.contents.datas }
    {
        self.datas.len()
    }

    /// Reserves room for these objects. The existing objects stay, even if memory runs out.
    pub fn reserve_all(&mut self, objects: &Objects) -> Result<(), AllocError>
        ensures contents { self.new.contents ≡ self.old.contents }
        ensures bounds { self.new.bounds ≡ self.old.bounds }
        ensures fits { OnOk result (IsRoomFor self.new.room objects.now) }
    {
        self.tables.try_reserve(objects.tables.len())?;
        self.memories.try_reserve(objects.memories.len())?;
        self.globals.try_reserve(objects.globals.len())?;
        self.elements.try_reserve(objects.elements.len())?;
        self.datas.try_reserve(objects.datas.len())?;
        Ok(())
    }

    /// Appends objects for which there is room. Allocates nothing.
    pub fn append_all(&mut self, mut objects: Objects)
        requires fits { IsRoomFor self.old.room objects }
        requires within { AreWithin self.old.bounds objects.tables objects.memories }
        ensures contents { self.new.contents ≡ append_objects self.old.contents objects }
        ensures bounds { self.new.bounds ≡ self.old.bounds }
    {
        let _ = self.tables.append(&mut objects.tables);
        let _ = self.memories.append(&mut objects.memories);
        let _ = self.globals.append(&mut objects.globals);
        let _ = self.elements.append(&mut objects.elements);
        let _ = self.datas.append(&mut objects.datas);
    }

    /// Returns the table at an address, if there is one.
    pub fn table(&self, address: u32) -> Option<&Table>
        ensures { option_copied result ≡ slice_get self.now.contents.tables address }
    {
        self.tables.get(address as usize)
    }

    /// Sets an entry of a table, to a value of its type.
    pub fn set_entry(&mut self, address: u32, offset: u32, value: Val)
        requires there { address < length self.old.contents.tables }
        requires within { offset < length (table_of self.old address).entries }
        requires typed { type_of value ≡ reference_type (table_of self.old address).ty.element }
        ensures { self.new ≡ put_table self.old address (with_entries (table_of self.old address)
            (slice_set (table_of self.old address).entries offset value)) }
    {
        let table = &mut self.tables[address as usize];
        table.set(offset, value);
    }

    /// Fills `count` entries of a table with a value of its type.
    pub fn fill_entries(&mut self, address: u32, offset: u32, value: Val, count: u32)
        requires there { address < length self.old.contents.tables }
        requires within { offset + count ≤ length (table_of self.old address).entries }
        requires typed { type_of value ≡ reference_type (table_of self.old address).ty.element }
        ensures { self.new ≡ put_table self.old address (with_entries (table_of self.old address)
            (overwrite (table_of self.old address).entries offset (replicate count value))) }
    {
        let table = &mut self.tables[address as usize];
        table.fill(offset, value, count);
    }

    // Copies `count` entries of a table into another one, which is taken out meanwhile.
    fn copy_between(&mut self, into: u32, source: u32, target: u32, from: u32, count: u32)
        requires apart { source ≢ into }
        requires there { into < length self.old.contents.tables }
        requires source { source < length self.old.contents.tables }
        requires read { from + count ≤ length (table_of self.old source).entries }
        requires written { target + count ≤ length (table_of self.old into).entries }
        ensures { self.new ≡ put_table self.old into (with_entries (table_of self.old into)
            (overwrite (table_of self.old into).entries target
            (items_at (table_of self.old source).entries from count))) }
    {
        let none = Table::empty(self.alloc);
        let mut table = mem::replace(&mut self.tables[into as usize], none);
        table.copy_from(self.tables[source as usize].entries(), target, from, count);
        self.tables[into as usize] = table;
    }

    /// Copies `count` entries of a table into the same or another table, as if all were read before any is written.
    pub fn copy_entries(&mut self, into: u32, source: u32, target: u32, from: u32, count: u32)
        requires there { into < length self.old.contents.tables }
        requires source { source < length self.old.contents.tables }
        requires read { from + count ≤ length (table_of self.old source).entries }
        requires written { target + count ≤ length (table_of self.old into).entries }
        ensures { self.new ≡ put_table self.old into (with_entries (table_of self.old into)
            (overwrite (table_of self.old into).entries target
            (items_at (table_of self.old source).entries from count))) }
    {
        if into == source {
            let table = &mut self.tables[into as usize];
            table.copy_within(target, from, count);
        } else {
            self.copy_between(into, source, target, from, count);
        }
    }

    /// Copies `count` references of an element segment into a table.
    pub fn init_entries(&mut self, into: u32, segment: u32, target: u32, from: u32, count: u32)
        requires there { into < length self.old.contents.tables }
        requires segment { segment < length self.old.contents.elements }
        requires read { from + count ≤ length (elements_of self.old segment).references }
        requires written { target + count ≤ length (table_of self.old into).entries }
        ensures { self.new ≡ put_table self.old into (with_entries (table_of self.old into)
            (overwrite (table_of self.old into).entries target
            (items_at (elements_of self.old segment).references from count))) }
    {
        let table = &mut self.tables[into as usize];
        let source = &self.elements[segment as usize];
        table.copy_from(source.references(), target, from, count);
    }

    /// Appends entries to a table, with a value of its type. If memory runs out, nothing has changed.
    pub fn grow_table(&mut self, address: u32, value: Val, count: u32) -> Result<(), AllocError>
        requires there { address < length self.old.contents.tables }
        requires typed { type_of value ≡ reference_type (table_of self.old address).ty.element }
        requires most { (table_of self.old address).ty.limits.min + count ≤ 4294967295 }
        requires within { (table_of self.old address).ty.limits.min + count ≤
            self.old.bounds.entries }
        requires declared { IfSome (table_of self.old address).ty.limits.max
            (λ max. (table_of self.old address).ty.limits.min + count ≤ max) }
        ensures grown { OnOk result (self.new ≡ put_table self.old address
            (grow_entries (table_of self.old address) value count)) }
        ensures unchanged { OnErr result (self.new ≡ self.old) }
    {
        let bytes = ENTRY_BYTES * count as u64;
        self.has_left(bytes)?;
        let table = &mut self.tables[address as usize];
        table.grow(value, count)?;
        let _ = self.keep(bytes);
        Ok(())
    }

    /// Returns the memory at an address, if there is one.
    pub fn memory(&self, address: u32) -> Option<&Memory>
        ensures { option_copied result ≡ slice_get self.now.contents.memories address }
    {
        self.memories.get(address as usize)
    }

    /// Takes a memory out. An empty one is in its place until it is put back. Allocates nothing.
    pub fn take_memory(&mut self, address: u32) -> Memory
        requires { address < length self.old.contents.memories }
        ensures taken { result ≡ memory_of self.old address }
        ensures left { self.new ≡ put_memory self.old address no_memory }
    {
        let none = Memory::empty(self.alloc);
        mem::replace(&mut self.memories[address as usize], none)
    }

    /// Replaces the memory at an address. Allocates nothing.
    pub fn put_memory(&mut self, address: u32, memory: Memory)
        requires there { address < length self.old.contents.memories }
        requires within { memory.limits.min ≤ self.old.bounds.pages }
        ensures { self.new ≡ put_memory self.old address memory }
    {
        self.memories[address as usize] = memory;
    }

    /// Returns the bytes of a memory as a mutable slice. Their number stays.
    pub fn memory_mut(&mut self, address: u32) -> &mut [u8]
        requires { address < length self.old.contents.memories }
        ensures* lent { sem 𝓛 (LendsMemory self.entry address result) }
        ensures same { result.now ≡ (memory_of self.old address).bytes }
    {
        let memory = &mut self.memories[address as usize];
        memory.bytes_mut()
    }

    /// Returns the bytes of a memory as a mutable slice, and the bytes of a data segment. The number of the memory's bytes
    /// stays.
    pub fn memory_and_data(&mut self, address: u32, segment: u32) -> (&mut [u8], &[u8])
        requires memory { address < length self.old.contents.memories }
        requires segment { segment < length self.old.contents.datas }
        ensures* lent { sem 𝓛 (LendsMemory self.entry address result.0) }
        ensures same { result.0.now ≡ (memory_of self.old address).bytes }
        ensures source { result.1.now ≡ (data_of self.old segment).bytes }
    {
        let memory = &mut self.memories[address as usize];
        let source = &self.datas[segment as usize];
        (memory.bytes_mut(), source.bytes())
    }

    /// Appends pages of zeros to a memory. If memory runs out, nothing has changed.
    pub fn grow_memory(&mut self, address: u32, pages: u32) -> Result<(), AllocError>
        requires there { address < length self.old.contents.memories }
        requires most { (memory_of self.old address).limits.min + pages ≤ most_pages }
        requires within { (memory_of self.old address).limits.min + pages ≤ self.old.bounds.pages }
        requires declared { IfSome (memory_of self.old address).limits.max
            (λ max. (memory_of self.old address).limits.min + pages ≤ max) }
        ensures grown { OnOk result
            (self.new ≡ put_memory self.old address (grow_by (memory_of self.old address) pages)) }
        ensures unchanged { OnErr result (self.new ≡ self.old) }
    {
        let bytes = PAGE_BYTES * pages as u64;
        self.has_left(bytes)?;
        let memory = &mut self.memories[address as usize];
        memory.grow(pages)?;
        let _ = self.keep(bytes);
        Ok(())
    }

    /// Returns the global at an address, if there is one.
    pub fn global(&self, address: u32) -> Option<&GlobalVariable>
        ensures { option_copied result ≡ slice_get self.now.contents.globals address }
    {
        self.globals.get(address as usize)
    }

    /// Sets a mutable global to a value of its type.
    pub fn set_global(&mut self, address: u32, value: Val)
        requires there { address < length self.old.contents.globals }
        requires variable { (global_of self.old address).ty.mutability ≡ Var }
        requires typed { type_of value ≡ (global_of self.old address).ty.value }
        ensures { self.new ≡ put_global self.old address value }
    {
        let variable = &mut self.globals[address as usize];
        variable.set(value);
    }

    /// Returns the element segment at an address, if there is one.
    pub fn element_segment(&self, address: u32) -> Option<&ElementSegment>
        ensures { option_copied result ≡ slice_get self.now.contents.elements address }
    {
        self.elements.get(address as usize)
    }

    /// Frees the references of an element segment. Allocates nothing.
    pub fn drop_elements(&mut self, address: u32)
        requires { address < length self.old.contents.elements }
        ensures { self.new ≡ put_elements self.old address (record {
          ty = (elements_of self.old address).ty;
          references = [];
        }) }
    {
        let segment = &mut self.elements[address as usize];
        segment.clear(self.alloc);
    }

    /// Returns the data segment at an address, if there is one.
    pub fn data_segment(&self, address: u32) -> Option<&DataSegment>
        ensures { option_copied result ≡ slice_get self.now.contents.datas address }
    {
        self.datas.get(address as usize)
    }

    /// Releases the bytes of a data segment. Allocates nothing.
    pub fn drop_data(&mut self, address: u32)
        requires { address < length self.old.contents.datas }
        ensures { self.new ≡ put_data self.old address (record { bytes = [] }) }
    {
        let segment = &mut self.datas[address as usize];
        segment.clear();
    }
}
