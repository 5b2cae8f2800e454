//! The bounds of an embedding that a module exceeds.

use core_types::{Limits, Module, TableType};
use index_spaces::IndexSpaces;
use std::alloc::{AllocError, Global};

/// The most pages of a memory, and the most entries of a table.
#[derive(Clone, Copy)]
pub struct Bounds {
    pub pages: u32,
    pub entries: u32,
}

// Returns the index of the first memory of these with more pages than are allowed, and their number.
fn large_memory(memories: &[Limits], pages: u32) -> Option<(usize, u32)> {
    for (index, limits) in memories.iter().enumerate() {
        if limits.min > pages {
            return Some((index, limits.min));
        }
    }
    None
}

// Returns the index of the first table of these with more entries than are allowed, and their number.
fn large_table(tables: &[TableType], entries: u32) -> Option<(usize, u32)> {
    for (index, ty) in tables.iter().enumerate() {
        if ty.limits.min > entries {
            return Some((index, ty.limits.min));
        }
    }
    None
}

// A memory or a table that is larger than an embedding allows.
#[derive(Clone, Copy)]
struct TooLarge {
    // the index, counted with those that are imported
    index: usize,
    kind: &'static str,
    found: u32,
    most: u32,
    unit: &'static str,
}

// Returns the first memory or table that is larger than an embedding allows.
fn first_too_large(module: &Module, spaces: &IndexSpaces, bounds: Bounds) -> Option<TooLarge> {
    if let Some((own, found)) = large_memory(module.memories.as_slice(), bounds.pages) {
        let imported = spaces.memories.len().saturating_sub(module.memories.len());
        return Some(TooLarge {
            index: imported.saturating_add(own),
            kind: "memory",
            found,
            most: bounds.pages,
            unit: "pages",
        });
    }
    let (own, found) = large_table(module.tables.as_slice(), bounds.entries)?;
    let imported = spaces.tables.len().saturating_sub(module.tables.len());
    Some(TooLarge {
        index: imported.saturating_add(own),
        kind: "table",
        found,
        most: bounds.entries,
        unit: "entries",
    })
}

// Returns the text of what is too large.
fn text_of(alloc: Global, large: TooLarge) -> Result<String, AllocError> {
    let (kind, index) = (large.kind, large.index);
    let (found, most, unit) = (large.found, large.most, large.unit);
    format!(in alloc; "{kind} {index} has {found} {unit}, and at most {most} are allowed")
}

/// Returns which memory or table that a module defines is larger than an embedding allows, or none if none is.
///
/// # Errors
///
/// Fails if an allocation fails.
pub fn explain_bounds(
    alloc: Global,
    module: &Module,
    bounds: Bounds,
) -> Result<Option<String>, AllocError> {
    let spaces = IndexSpaces::new(alloc, module)?;
    match first_too_large(module, &spaces, bounds) {
        Some(large) => Ok(Some(text_of(alloc, large)?)),
        None => Ok(None),
    }
}
