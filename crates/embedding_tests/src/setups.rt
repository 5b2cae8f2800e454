//! The setups that an embedding may have.

use embed::{Config, Embedding};
use std::alloc::Global;

// The depth, the pages and the entries of a setup, and whether it is in range.
struct Row {
    name: &'static str,
    depth: u32,
    pages: u32,
    entries: u32,
    in_range: bool,
}

#[rattlefmt::skip]
static ROWS: [Row; 8] = [
    Row { name: "the least", depth: 1, pages: 0, entries: 0, in_range: true },
    Row { name: "the greatest", depth: 65_535, pages: 65_536, entries: 10_000_000, in_range: true },
    Row { name: "the usual", depth: 1_024, pages: 1_024, entries: 1_000_000, in_range: true },
    Row { name: "no depth", depth: 0, pages: 1, entries: 1, in_range: false },
    Row { name: "too deep", depth: 65_536, pages: 1, entries: 1, in_range: false },
    Row { name: "too many pages", depth: 1, pages: 65_537, entries: 1, in_range: false },
    Row { name: "too many entries", depth: 1, pages: 1, entries: 10_000_001, in_range: false },
    Row { name: "all too great", depth: u32::MAX, pages: u32::MAX, entries: u32::MAX, in_range: false },
];

// Returns whether an embedding has this setup, and the fuel of it.
fn is_set_up(alloc: Global, config: Config, row: &Row) -> bool {
    let Ok(at) = Embedding::new(alloc, config, Vec::new(alloc)) else {
        return false;
    };
    let kept = at.config();
    at.fuel_left() == 7
        && kept.fuel() == 7
        && kept.depth() == row.depth
        && kept.pages() == row.pages
        && kept.entries() == row.entries
}

// Returns whether a setup is created, and kept by an embedding, exactly if it is in range.
fn is_so(alloc: Global, row: &Row) -> bool {
    match Config::new(7, row.depth, row.pages, row.entries) {
        Some(config) => row.in_range && is_set_up(alloc, config, row),
        None => !row.in_range,
    }
}

#[test]
fn setups_are_in_range(rt: HostRuntime) {
    for row in &ROWS {
        assert!(rt; is_so(rt.alloc(), row), "{}", row.name);
    }
}
