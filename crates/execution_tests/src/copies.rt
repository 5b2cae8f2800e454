//! Copies within a memory and within a table: each small length at each small distance.

use crate::modules::store_with;
use crate::tables::is_entry;
use bulkops::{mem_copy, mem_store, table_copy, table_set};
use core_types::{StoreOp, Val, Width};
use std::alloc::Global;
use store::State;

// The greatest length and distance of a copy of bytes, and the number of bytes from there that contain each such copy.
const MOST_BYTES: u32 = 40;

const BYTES: u32 = 120;

// The same for entries.
const MOST_ENTRIES: u32 = 33;

const ENTRIES: u32 = 99;

const TEXT: &str = "(memory 1) (table 99 externref)";

// Returns the place whose number is at a place after a copy, where before it each place has its own number.
fn place_read(target: u32, from: u32, count: u32, place: u32) -> u32 {
    if place < target || place - target >= count {
        return place;
    }
    from.wrapping_add(place - target)
}

// Sets each byte to the number of its place.
fn number_bytes(state: &mut State) -> bool {
    for place in 0..BYTES {
        let is_written = state.memory_count() > 0
            && mem_store(
                state,
                0,
                StoreOp::Bits8(Width::W32),
                u64::from(place),
                u64::from(place),
            )
            .is_ok();
        if !is_written {
            return false;
        }
    }
    true
}

// Sets each entry to the number of its place.
fn number_entries(state: &mut State) -> bool {
    for place in 0..ENTRIES {
        let value = Val::ExternRef(Some(place));
        let is_written = state.table_count() > 0
            && is_entry(state, 0, value)
            && table_set(state, 0, place, value).is_ok();
        if !is_written {
            return false;
        }
    }
    true
}

// Returns whether each byte is as the copy leaves it.
fn shows_bytes(state: &State, target: u32, from: u32, count: u32) -> bool {
    let Some(memory) = state.memory(0) else {
        return false;
    };
    for place in 0..BYTES {
        let wanted = place_read(target, from, count, place);
        let is_there = match memory.bytes().get(place as usize) {
            Some(byte) => u32::from(*byte) == wanted,
            None => false,
        };
        if !is_there {
            return false;
        }
    }
    true
}

// Returns whether each entry is as the copy leaves it.
fn shows_entries(state: &State, target: u32, from: u32, count: u32) -> bool {
    let Some(table) = state.table(0) else {
        return false;
    };
    for place in 0..ENTRIES {
        let wanted = Val::ExternRef(Some(place_read(target, from, count, place)));
        let is_there = match table.entries().get(place as usize) {
            Some(entry) => *entry == wanted,
            None => false,
        };
        if !is_there {
            return false;
        }
    }
    true
}

// Returns whether bytes are copied right, after they are numbered again.
fn copies_bytes(state: &mut State, target: u32, from: u32, count: u32) -> bool {
    number_bytes(state)
        && state.memory_count() > 0
        && mem_copy(state, 0, target, from, count).is_ok()
        && shows_bytes(state, target, from, count)
}

// Returns whether entries are copied right, after they are numbered again.
fn copies_entries(state: &mut State, target: u32, from: u32, count: u32) -> bool {
    number_entries(state)
        && state.table_count() > 0
        && table_copy(state, 0, 0, target, from, count).is_ok()
        && shows_entries(state, target, from, count)
}

// Returns whether that many bytes are copied to each place.
fn copies_bytes_everywhere(state: &mut State, count: u32) -> bool {
    for target in 0..=2 * MOST_BYTES {
        if !copies_bytes(state, target, MOST_BYTES, count) {
            return false;
        }
    }
    true
}

// Returns whether that many entries are copied to each place.
fn copies_entries_everywhere(state: &mut State, count: u32) -> bool {
    for target in 0..=2 * MOST_ENTRIES {
        if !copies_entries(state, target, MOST_ENTRIES, count) {
            return false;
        }
    }
    true
}

// Returns whether a new store copies that many bytes, and that many entries if they fit.
fn takes_copies(alloc: Global, count: u32) -> bool {
    match store_with(alloc, &[TEXT]) {
        Some(store) => {
            let mut state = store.state;
            copies_bytes_everywhere(&mut state, count)
                && (count > MOST_ENTRIES || copies_entries_everywhere(&mut state, count))
        }
        None => false,
    }
}

#[test]
fn copies_whatever_overlaps(rt: HostRuntime) {
    for count in 0..=MOST_BYTES {
        assert!(rt; takes_copies(rt.alloc(), count), "{count}");
    }
}
