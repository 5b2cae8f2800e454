//! Loads and stores over cells: what they read and write, worked out from the standard.

use core_types::Trap;
use effects::{load_cell, load_i32, store_cell};
use sidetable::{LoadInstruction as Load, StoreInstruction as Store};

const PAST: Trap = Trap::MemoryBounds;

static BYTES: [u8; 9] = [0x80, 0xFF, 0x01, 0x02, 0x03, 0x04, 0x05, 0x06, 0x87];

// A load, where it reads, and its result.
struct LoadRow {
    name: &'static str,
    op: Load,
    offset: u64,
    result: Result<u64, Trap>,
}

#[rattlefmt::skip]
static LOADS: [LoadRow; 27] = [
    LoadRow { name: "i64.load", op: Load::I64Load, offset: 0, result: Ok(0x0605_0403_0201_FF80) },
    LoadRow { name: "i64.load at the end", op: Load::I64Load, offset: 1, result: Ok(0x8706_0504_0302_01FF) },
    LoadRow { name: "i64.load past the end", op: Load::I64Load, offset: 2, result: Err(PAST) },
    LoadRow { name: "i64.load far past the end", op: Load::I64Load, offset: 0x1_FFFF_FFFE, result: Err(PAST) },
    LoadRow { name: "i32.load8_s", op: Load::I32Load8S, offset: 0, result: Ok(0xFFFF_FF80) },
    LoadRow { name: "i32.load8_s, positive", op: Load::I32Load8S, offset: 2, result: Ok(1) },
    LoadRow { name: "i32.load8_s past the end", op: Load::I32Load8S, offset: 9, result: Err(PAST) },
    LoadRow { name: "i32.load8_u", op: Load::I32Load8U, offset: 0, result: Ok(0x80) },
    LoadRow { name: "i32.load8_u, the last byte", op: Load::I32Load8U, offset: 8, result: Ok(0x87) },
    LoadRow { name: "i32.load8_u past the end", op: Load::I32Load8U, offset: 9, result: Err(PAST) },
    LoadRow { name: "i64.load8_s", op: Load::I64Load8S, offset: 8, result: Ok(0xFFFF_FFFF_FFFF_FF87) },
    LoadRow { name: "i64.load8_s past the end", op: Load::I64Load8S, offset: 9, result: Err(PAST) },
    LoadRow { name: "i64.load8_u", op: Load::I64Load8U, offset: 8, result: Ok(0x87) },
    LoadRow { name: "i64.load8_u past the end", op: Load::I64Load8U, offset: 9, result: Err(PAST) },
    LoadRow { name: "i32.load16_s", op: Load::I32Load16S, offset: 0, result: Ok(0xFFFF_FF80) },
    LoadRow { name: "i32.load16_s past the end", op: Load::I32Load16S, offset: 8, result: Err(PAST) },
    LoadRow { name: "i32.load16_u", op: Load::I32Load16U, offset: 0, result: Ok(0xFF80) },
    LoadRow { name: "i32.load16_u past the end", op: Load::I32Load16U, offset: 8, result: Err(PAST) },
    LoadRow { name: "i64.load16_s", op: Load::I64Load16S, offset: 7, result: Ok(0xFFFF_FFFF_FFFF_8706) },
    LoadRow { name: "i64.load16_s past the end", op: Load::I64Load16S, offset: 8, result: Err(PAST) },
    LoadRow { name: "i64.load16_u", op: Load::I64Load16U, offset: 7, result: Ok(0x8706) },
    LoadRow { name: "i64.load16_u past the end", op: Load::I64Load16U, offset: 8, result: Err(PAST) },
    LoadRow { name: "i64.load32_s", op: Load::I64Load32S, offset: 5, result: Ok(0xFFFF_FFFF_8706_0504) },
    LoadRow { name: "i64.load32_s, positive", op: Load::I64Load32S, offset: 4, result: Ok(0x0605_0403) },
    LoadRow { name: "i64.load32_s past the end", op: Load::I64Load32S, offset: 6, result: Err(PAST) },
    LoadRow { name: "i64.load32_u", op: Load::I64Load32U, offset: 5, result: Ok(0x8706_0504) },
    LoadRow { name: "i64.load32_u past the end", op: Load::I64Load32U, offset: 6, result: Err(PAST) },
];

fn loads(row: &LoadRow) -> bool {
    row.offset < 0x2_0000_0000 && load_cell(row.op, &BYTES, row.offset) == row.result
}

#[test]
fn loads_give_cells(rt: HostRuntime) {
    for row in &LOADS {
        assert!(rt; loads(row), "{}", row.name);
    }
}

// An offset, and the result of i32.load there.
struct FrequentRow {
    name: &'static str,
    offset: u64,
    result: Result<u64, Trap>,
}

#[rattlefmt::skip]
static FREQUENT: [FrequentRow; 4] = [
    FrequentRow { name: "at the start", offset: 0, result: Ok(0x0201_FF80) },
    FrequentRow { name: "the last four bytes", offset: 5, result: Ok(0x8706_0504) },
    FrequentRow { name: "the last byte", offset: 8, result: Err(PAST) },
    FrequentRow { name: "past the end", offset: 9, result: Err(PAST) },
];

fn loads_frequent(row: &FrequentRow) -> bool {
    row.offset < 0x2_0000_0000 && load_i32(&BYTES, row.offset) == row.result
}

#[test]
fn frequent_loads_give_cells(rt: HostRuntime) {
    for row in &FREQUENT {
        assert!(rt; loads_frequent(row), "{}", row.name);
    }
}

// A store into nine zeros, its result, and the bytes after it.
struct StoreRow {
    name: &'static str,
    op: Store,
    offset: u64,
    result: Result<(), Trap>,
    after: [u8; 9],
}

// The cell that each row stores.
const CELL: u64 = 0x8182_8384_8586_8788;

#[rattlefmt::skip]
static STORES: [StoreRow; 14] = [
    StoreRow { name: "i64.store", op: Store::I64Store, offset: 1, result: Ok(()), after: [0, 0x88, 0x87, 0x86, 0x85, 0x84, 0x83, 0x82, 0x81] },
    StoreRow { name: "i64.store past the end", op: Store::I64Store, offset: 2, result: Err(PAST), after: [0, 0, 0, 0, 0, 0, 0, 0, 0] },
    StoreRow { name: "i32.store", op: Store::I32Store, offset: 5, result: Ok(()), after: [0, 0, 0, 0, 0, 0x88, 0x87, 0x86, 0x85] },
    StoreRow { name: "i32.store past the end", op: Store::I32Store, offset: 6, result: Err(PAST), after: [0, 0, 0, 0, 0, 0, 0, 0, 0] },
    StoreRow { name: "i64.store32", op: Store::I64Store32, offset: 0, result: Ok(()), after: [0x88, 0x87, 0x86, 0x85, 0, 0, 0, 0, 0] },
    StoreRow { name: "i64.store32 past the end", op: Store::I64Store32, offset: 0x1_FFFF_FFFE, result: Err(PAST), after: [0, 0, 0, 0, 0, 0, 0, 0, 0] },
    StoreRow { name: "i32.store16", op: Store::I32Store16, offset: 7, result: Ok(()), after: [0, 0, 0, 0, 0, 0, 0, 0x88, 0x87] },
    StoreRow { name: "i32.store16 past the end", op: Store::I32Store16, offset: 8, result: Err(PAST), after: [0, 0, 0, 0, 0, 0, 0, 0, 0] },
    StoreRow { name: "i64.store16", op: Store::I64Store16, offset: 0, result: Ok(()), after: [0x88, 0x87, 0, 0, 0, 0, 0, 0, 0] },
    StoreRow { name: "i64.store16 past the end", op: Store::I64Store16, offset: 8, result: Err(PAST), after: [0, 0, 0, 0, 0, 0, 0, 0, 0] },
    StoreRow { name: "i64.store8", op: Store::I64Store8, offset: 8, result: Ok(()), after: [0, 0, 0, 0, 0, 0, 0, 0, 0x88] },
    StoreRow { name: "i64.store8 past the end", op: Store::I64Store8, offset: 9, result: Err(PAST), after: [0, 0, 0, 0, 0, 0, 0, 0, 0] },
    StoreRow { name: "i32.store8", op: Store::I32Store8, offset: 8, result: Ok(()), after: [0, 0, 0, 0, 0, 0, 0, 0, 0x88] },
    StoreRow { name: "i32.store8 past the end", op: Store::I32Store8, offset: 9, result: Err(PAST), after: [0, 0, 0, 0, 0, 0, 0, 0, 0] },
];

fn stores(row: &StoreRow) -> bool {
    if row.offset >= 0x2_0000_0000 {
        return false;
    }
    let mut bytes = [0; 9];
    let result = store_cell(row.op, &mut bytes, row.offset, CELL);
    result == row.result && bytes == row.after
}

#[test]
fn stores_write_cells(rt: HostRuntime) {
    for row in &STORES {
        assert!(rt; stores(row), "{}", row.name);
    }
}
