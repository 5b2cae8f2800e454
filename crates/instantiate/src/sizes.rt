//! How many bytes of a quota an instance counts.

use core_types::{ElementItems, ElementSegment, Limits, Module, TableType};
use store::{ENTRY_BYTES, PAGE_BYTES};

// How many bytes an object of the store counts, besides its entries or pages.
const OBJECT_BYTES: u64 = 192;

// How many bytes an instance counts, besides its objects.
const INSTANCE_BYTES: u64 = 512;

// How many bytes an import or a function counts, as an address in the instance and a function of the store.
const FUNCTION_BYTES: u64 = 48;

// Returns the product of two numbers, or the largest number if that is too large.
fn bytes_of(count: usize, each: u64) -> u64 {
    each.saturating_mul(count as u64)
}

fn bytes_of_tables(tables: &[TableType]) -> u64 {
    let mut bytes = bytes_of(tables.len(), OBJECT_BYTES);
    for k in 0..tables.len() {
        bytes = bytes.saturating_add(ENTRY_BYTES * u64::from(tables[k].limits.min));
    }
    bytes
}

fn bytes_of_memories(memories: &[Limits]) -> u64 {
    let mut bytes = bytes_of(memories.len(), OBJECT_BYTES);
    for k in 0..memories.len() {
        bytes = bytes.saturating_add(PAGE_BYTES * u64::from(memories[k].min));
    }
    bytes
}

fn references_in(items: &ElementItems) -> usize {
    match items {
        ElementItems::Functions(indices) => indices.len(),
        ElementItems::Expressions(expressions) => expressions.len(),
    }
}

fn bytes_of_elements(segments: &[ElementSegment]) -> u64 {
    let mut bytes = bytes_of(segments.len(), OBJECT_BYTES);
    for k in 0..segments.len() {
        bytes = bytes.saturating_add(bytes_of(references_in(&segments[k].items), ENTRY_BYTES));
    }
    bytes
}

/// Returns how many bytes of a quota an instance of a module counts: at least as many as its objects take.
pub fn bytes_of_instance(module: &Module) -> u64 {
    let functions = module.imports.len().saturating_add(module.funcs.len());
    INSTANCE_BYTES
        .saturating_add(bytes_of(functions, FUNCTION_BYTES))
        .saturating_add(bytes_of(module.globals.len(), OBJECT_BYTES))
        .saturating_add(bytes_of(module.datas.len(), OBJECT_BYTES))
        .saturating_add(bytes_of_tables(module.tables.as_slice()))
        .saturating_add(bytes_of_memories(module.memories.as_slice()))
        .saturating_add(bytes_of_elements(module.elements.as_slice()))
}
