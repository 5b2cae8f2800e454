//! Bytes of the memory that a host function borrows.

use embed::{bytes_at, put_bytes};

// Bytes that are put from an address on, and the memory after it. None if they do not fit.
struct Row {
    name: &'static str,
    start: u32,
    bytes: &'static [u8],
    // How many bytes these are.
    count: u32,
    after: Option<&'static [u8]>,
}

#[rattlefmt::skip]
static ROWS: [Row; 8] = [
    Row { name: "at the start", start: 0, bytes: b"xy", count: 2, after: Some(b"xycdef") },
    Row { name: "at the end", start: 4, bytes: b"xy", count: 2, after: Some(b"abcdxy") },
    Row { name: "all", start: 0, bytes: b"uvwxyz", count: 6, after: Some(b"uvwxyz") },
    Row { name: "one byte past the end", start: 5, bytes: b"xy", count: 2, after: None },
    Row { name: "more than the memory has", start: 0, bytes: b"tuvwxyz", count: 7, after: None },
    Row { name: "nothing at the end", start: 6, bytes: b"", count: 0, after: Some(b"abcdef") },
    Row { name: "nothing past the end", start: 7, bytes: b"", count: 0, after: None },
    Row { name: "at the last address", start: 0xFFFF_FFFF, bytes: b"x", count: 1, after: None },
];

// Returns whether the bytes are put as they should be, and can be read there.
fn is_put(row: &Row) -> bool {
    let mut memory = *b"abcdef";
    let is_done = put_bytes(&mut memory, row.start, row.bytes);
    let found = bytes_at(&memory, row.start, row.count);
    match row.after {
        Some(after) => is_done && memory.as_slice() == after && found == Some(row.bytes),
        None => !is_done && memory.as_slice() == b"abcdef".as_slice() && found.is_none(),
    }
}

#[test]
fn bytes_are_put_and_read(rt: HostRuntime) {
    for row in &ROWS {
        assert!(rt; is_put(row), "{}", row.name);
    }
}
