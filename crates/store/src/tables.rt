ghost use Rattle.std.specs.Prelude.{◌≡◌, ◌+◌, ◌<◌, ◌≤◌, length, replicate, slice_set, OnOk, OnErr, IfOk};
ghost use Rattle.meaning.specs.execution.Storage.{items_at, overwrite};
ghost use Rattle.meaning.specs.execution.Tables.{grow_entries, new_table};
ghost use Rattle.meaning.specs.execution.Values.{null_of};
ghost use Rattle.store.specs.State.{no_table};
ghost use Rattle.store.specs.Tables.{HasEntries, with_entries};

use copying::copy_within;
use core_types::{Limits, RefType, TableType, Val};
use std::alloc::{AllocError, Global};
use std::marker::Model;

/// A table: its type, whose minimum is its present size, and its entries (Execution, Table Instances).
#[derive(Drop)]
pub struct Table {
    ty: TableType,
    entries: Vec<Val>,
}

impl Model for Table {
    ghost use Rattle.meaning.specs.execution.Tables.{TableInstance};
    ghost use Rattle.store.specs.Tables.{HasEntries};

    ghost Value = { TableInstance };

    ghost view = { λ t. record { ty = t.ty; entries = t.entries.items } };

    ghost invariant = { λ t. HasEntries t.ty.limits.min t.entries.items };
}

/// Returns the null of a type (Execution, Runtime Structure, Values).
pub fn null_of(ty: RefType) -> Val
    ensures { result ≡ null_of ty }
{
    match ty {
        RefType::FuncRef => Val::FuncRef(None),
        RefType::ExternRef => Val::ExternRef(None),
    }
}

impl Table {
    // Returns a table without entries, for a place from which another was taken. Allocates nothing.
    pub(crate) fn empty(alloc: Global) -> Table
        ensures { result ≡ no_table }
    {
        let limits = Limits { min: 0, max: None };
        let ty = TableType {
            element: RefType::FuncRef,
            limits,
        };
        Table {
            ty,
            entries: Vec::new(alloc),
        }
    }

    /// Creates a table of this type. It has the minimum number of entries, and all are null.
    pub fn new(alloc: Global, ty: TableType) -> Result<Table, AllocError>
        ensures { IfOk result (λ t. t ≡ new_table ty) }
    {
        let mut entries = Vec::new(alloc);
        entries.resize(ty.limits.min as usize, null_of(ty.element))?;
        Ok(Table { ty, entries })
    }

    /// Returns the type, whose minimum is the present size.
    pub fn ty(&self) -> TableType
        ensures { result ≡ self.now.ty }
    {
        self.ty
    }

    /// Returns the entries.
    pub fn entries(&self) -> &[Val]
        ensures same { result.now ≡ self.now.entries }
        ensures size { HasEntries (self.now.ty.limits.min) self.now.entries }
    {
        &self.entries
    }

    // Sets an entry.
    pub(crate) fn set(&mut self, offset: u32, value: Val)
        requires { offset < length self.old.entries }
        ensures { self.new ≡ with_entries self.old (slice_set self.old.entries offset value) }
    {
        self.entries[offset as usize] = value;
    }

    // Fills `count` entries with a value.
    pub(crate) fn fill(&mut self, offset: u32, value: Val, count: u32)
        requires { offset + count ≤ length self.old.entries }
        ensures { self.new ≡ with_entries self.old
            (overwrite self.old.entries offset (replicate count value)) }
    {
        let from = offset as usize;
        self.entries[from..from + count as usize].fill(value);
    }

    // Copies `count` entries within the table, as if all were read before any is written.
    pub(crate) fn copy_within(&mut self, target: u32, from: u32, count: u32)
        requires source { from + count ≤ length self.old.entries }
        requires target { target + count ≤ length self.old.entries }
        ensures { self.new ≡ with_entries self.old
            (overwrite self.old.entries target (items_at self.old.entries from count)) }
    {
        copy_within(
            self.entries.as_mut_slice(),
            target as usize,
            from as usize,
            count as usize,
        );
    }

    // Copies `count` values from others into the table.
    pub(crate) fn copy_from(&mut self, source: &[Val], target: u32, from: u32, count: u32)
        requires source { from + count ≤ length source.now }
        requires target { target + count ≤ length self.old.entries }
        ensures { self.new ≡ with_entries self.old
            (overwrite self.old.entries target (items_at source.now from count)) }
    {
        let start = from as usize;
        let offset = target as usize;
        let read = &source[start..start + count as usize];
        self.entries[offset..offset + count as usize].copy_from_slice(read);
    }

    // Appends entries with a value. If memory runs out, the table is unchanged.
    pub(crate) fn grow(&mut self, value: Val, count: u32) -> Result<(), AllocError>
        requires { self.old.ty.limits.min + count ≤ 4294967295 }
        ensures grown { OnOk result (self.new ≡ grow_entries self.old value count) }
        ensures unchanged { OnErr result (self.new ≡ self.old) }
    {
        let size = self.entries.len() + count as usize;
        self.entries.resize(size, value)?;
        self.ty.limits.min += count;
        Ok(())
    }
}
