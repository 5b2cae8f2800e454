//! The effects of `bulkops` on the memory and the data segments of a store, and their costs.

use crate::modules::store_with;
use Step::{Bytes, Copy, Drop, Fill, Grow, Init, Load, Size, Write};
use bulkops::{
    data_drop, mem_copy, mem_copy_cost, mem_fill, mem_fill_cost, mem_grow, mem_grow_cost, mem_init,
    mem_init_cost, mem_load, mem_size, mem_store,
};
use core_types::{LoadOp, Sign, StoreOp, Trap, Val, Width};
use std::alloc::Global;
use store::State;

// A call on the first memory and the first data segment of a store, its cost if that is checked, and its result.
#[derive(Clone, Copy)]
enum Step {
    // At this offset.
    Load(LoadOp, u64, Result<Val, Trap>),
    // A number, at this offset.
    Write(StoreOp, u64, u64, Result<(), Trap>),
    // An offset, a value and a count.
    Fill(u32, u32, u32, u64, Result<(), Trap>),
    // A target, where it is copied from, and a count.
    Copy(u32, u32, u32, u64, Result<(), Trap>),
    Init(u32, u32, u32, u64, Result<(), Trap>),
    // By this many pages.
    Grow(u32, u64, u32),
    Size(u32),
    // Of the data segment.
    Drop,
    // From an offset on.
    Bytes(usize, &'static [u8]),
}

// A name, a module with a memory and a data segment, and steps.
struct Case {
    name: &'static str,
    text: &'static str,
    steps: &'static [Step],
}

// The trap of an access that reaches past the end.
const PAST: Trap = Trap::MemoryBounds;

const BYTE_S: LoadOp = LoadOp::Bits8(Width::W32, Sign::Signed);

const BYTE_U: LoadOp = LoadOp::Bits8(Width::W32, Sign::Unsigned);

const LONG_BYTE_S: LoadOp = LoadOp::Bits8(Width::W64, Sign::Signed);

const LONG_BYTE_U: LoadOp = LoadOp::Bits8(Width::W64, Sign::Unsigned);

const HALF_S: LoadOp = LoadOp::Bits16(Width::W32, Sign::Signed);

const HALF_U: LoadOp = LoadOp::Bits16(Width::W32, Sign::Unsigned);

const LONG_HALF_S: LoadOp = LoadOp::Bits16(Width::W64, Sign::Signed);

const LONG_HALF_U: LoadOp = LoadOp::Bits16(Width::W64, Sign::Unsigned);

const LOW_S: LoadOp = LoadOp::Bits32(Sign::Signed);

const LOW_U: LoadOp = LoadOp::Bits32(Sign::Unsigned);

const I32: LoadOp = LoadOp::Whole(Width::W32);

const I64: LoadOp = LoadOp::Whole(Width::W64);

const STORE_BYTE: StoreOp = StoreOp::Bits8(Width::W32);

const STORE_LONG_BYTE: StoreOp = StoreOp::Bits8(Width::W64);

const STORE_HALF: StoreOp = StoreOp::Bits16(Width::W32);

const STORE_LONG_HALF: StoreOp = StoreOp::Bits16(Width::W64);

const STORE_LOW: StoreOp = StoreOp::Bits32;

const STORE_I32: StoreOp = StoreOp::Whole(Width::W32);

const STORE_I64: StoreOp = StoreOp::Whole(Width::W64);

#[rattlefmt::skip]
static CASES: [Case; 10] = [
    Case { name: "loads of one and two bytes", text: "(memory 1) (data)", steps: &[
        Write(STORE_HALF, 0, 0xFF80, Ok(())), Bytes(0, &[0x80, 0xFF, 0]),
        Load(BYTE_S, 0, Ok(Val::I32(4294967168))), Load(BYTE_U, 0, Ok(Val::I32(128))),
        Load(LONG_BYTE_S, 0, Ok(Val::I64(18446744073709551488))), Load(LONG_BYTE_U, 1, Ok(Val::I64(255))),
        Load(HALF_S, 0, Ok(Val::I32(4294967168))), Load(HALF_U, 0, Ok(Val::I32(65408))),
        Load(LONG_HALF_S, 0, Ok(Val::I64(18446744073709551488))), Load(LONG_HALF_U, 0, Ok(Val::I64(65408))),
    ] },
    Case { name: "loads of four and eight bytes", text: "(memory 1) (data)", steps: &[
        Write(STORE_I32, 4, 0x8000_0001, Ok(())), Bytes(3, &[0, 1, 0, 0, 0x80, 0]), Load(I32, 4, Ok(Val::I32(2147483649))),
        Load(LOW_S, 4, Ok(Val::I64(18446744071562067969))), Load(LOW_U, 4, Ok(Val::I64(2147483649))),
        Write(STORE_I64, 9, 0x0123_4567_89AB_CDEF, Ok(())), Bytes(9, &[0xEF, 0xCD, 0xAB, 0x89, 0x67, 0x45, 0x23, 0x01, 0]),
        Load(I64, 9, Ok(Val::I64(0x0123_4567_89AB_CDEF))),
    ] },
    Case { name: "stores of low bytes", text: "(memory 1) (data)", steps: &[
        Write(STORE_BYTE, 0, 0x1FE, Ok(())), Bytes(0, &[0xFE, 0]), Write(STORE_LONG_BYTE, 1, 0x234, Ok(())), Bytes(0, &[0xFE, 0x34, 0]),
        Write(STORE_LONG_HALF, 2, 0x12345, Ok(())), Bytes(2, &[0x45, 0x23, 0]),
        Write(STORE_LOW, 4, 0x1_0000_0002, Ok(())), Bytes(4, &[2, 0, 0, 0, 0]),
    ] },
    Case { name: "accesses at the end", text: "(memory 1) (data)", steps: &[
        Load(I32, 65532, Ok(Val::I32(0))), Load(I32, 65533, Err(PAST)), Load(BYTE_U, 65535, Ok(Val::I32(0))), Load(BYTE_U, 65536, Err(PAST)),
        Load(HALF_U, 65534, Ok(Val::I32(0))), Load(HALF_U, 65535, Err(PAST)), Load(I64, 65528, Ok(Val::I64(0))), Load(I64, 65529, Err(PAST)),
        Load(BYTE_U, 4294967296, Err(PAST)), Write(STORE_I32, 65533, 0x0101_0101, Err(PAST)), Bytes(65532, &[0, 0, 0, 0]),
        Write(STORE_I32, 65532, 0x0101_0101, Ok(())), Bytes(65531, &[0, 1, 1, 1, 1]), Write(STORE_BYTE, 65536, 1, Err(PAST)),
        Write(STORE_I64, 65529, 7, Err(PAST)), Write(STORE_HALF, 65535, 7, Err(PAST)), Bytes(65531, &[0, 1, 1, 1, 1]),
    ] },
    Case { name: "fills", text: "(memory 1) (data)", steps: &[
        Fill(65536, 1, 0, 1, Ok(())), Fill(65537, 1, 0, 1, Err(PAST)), Fill(0, 263, 1, 1, Ok(())), Load(BYTE_U, 0, Ok(Val::I32(7))),
        Fill(1, 7, 63, 1, Ok(())), Fill(1, 5, 64, 2, Ok(())), Bytes(0, &[7, 5]), Bytes(64, &[5, 0]), Fill(0, 7, 128, 3, Ok(())),
        Bytes(127, &[7, 0]), Fill(65535, 5, 2, 1, Err(PAST)), Bytes(65534, &[0, 0]), Fill(4294967295, 5, 4294967295, 1, Err(PAST)),
    ] },
    Case { name: "copies", text: "(memory 1) (data)", steps: &[
        Write(STORE_I32, 0, 0x0403_0201, Ok(())), Copy(1, 0, 3, 1, Ok(())), Bytes(0, &[1, 1, 2, 3, 0]),
        Write(STORE_I32, 0, 0x0403_0201, Ok(())), Copy(0, 1, 3, 1, Ok(())), Bytes(0, &[2, 3, 4, 4, 0]),
        Copy(65533, 0, 4, 1, Err(PAST)), Bytes(65532, &[0, 0, 0, 0]), Copy(0, 65533, 4, 1, Err(PAST)), Bytes(0, &[2, 3, 4, 4]),
        Copy(65536, 0, 0, 1, Ok(())), Copy(0, 65536, 0, 1, Ok(())), Copy(65537, 0, 0, 1, Err(PAST)), Copy(0, 65537, 0, 1, Err(PAST)),
        Copy(100, 0, 64, 2, Ok(())), Bytes(99, &[0, 2, 3, 4, 4, 0]), Copy(65532, 0, 4, 1, Ok(())), Bytes(65531, &[0, 2, 3, 4, 4]),
    ] },
    Case { name: "data segments", text: "(memory 1) (data \"\\09\\08\\07\")", steps: &[
        Init(0, 0, 3, 1, Ok(())), Bytes(0, &[9, 8, 7, 0]), Init(8, 1, 2, 1, Ok(())), Bytes(7, &[0, 8, 7, 0]), Init(0, 3, 0, 1, Ok(())),
        Init(0, 2, 2, 1, Err(PAST)), Init(65534, 0, 3, 1, Err(PAST)), Bytes(65534, &[0, 0]), Init(65536, 0, 0, 1, Ok(())),
        Init(65537, 0, 0, 1, Err(PAST)), Drop, Init(0, 0, 0, 1, Ok(())), Init(0, 0, 1, 1, Err(PAST)), Bytes(0, &[9, 8, 7, 0]),
    ] },
    Case { name: "a growth up to the bound on pages", text: "(memory 1) (data)", steps: &[
        Size(1), Grow(1024, 1, 4294967295), Size(1), Grow(1023, 1047553, 1), Size(1024), Grow(1, 1, 4294967295), Grow(0, 1, 1024),
        Load(BYTE_U, 67108863, Ok(Val::I32(0))), Load(BYTE_U, 67108864, Err(PAST)),
    ] },
    Case { name: "a growth up to the maximum", text: "(memory 1 5) (data)", steps: &[
        Fill(65535, 7, 1, 1, Ok(())), Grow(4294967295, 1, 4294967295), Grow(5, 1, 4294967295), Grow(4, 4097, 1), Grow(0, 1, 5),
        Size(5), Bytes(65535, &[7, 0]), Load(BYTE_U, 327679, Ok(Val::I32(0))), Load(BYTE_U, 327680, Err(PAST)), Grow(1, 1, 4294967295),
    ] },
    Case { name: "a memory without pages", text: "(memory 0) (data)", steps: &[
        Size(0), Load(BYTE_U, 0, Err(PAST)), Fill(0, 1, 0, 1, Ok(())), Fill(0, 1, 1, 1, Err(PAST)), Grow(1, 1025, 0), Size(1),
        Load(BYTE_U, 0, Ok(Val::I32(0))),
    ] },
];

// Returns whether these are the bytes of the memory from an offset on.
fn shows(state: &State, offset: usize, bytes: &[u8]) -> bool {
    match state
        .memory(0)
        .and_then(|memory| memory.bytes().get(offset..))
    {
        Some(from) => from.starts_with(bytes),
        None => false,
    }
}

// Returns whether a bulk instruction has this cost and this result.
fn writes(state: &mut State, step: Step) -> bool {
    if state.memory_count() == 0 || state.data_count() == 0 {
        return false;
    }
    match step {
        Fill(offset, value, count, cost, answer) => {
            mem_fill_cost(state, 0, offset, count) == cost
                && mem_fill(state, 0, offset, value, count) == answer
        }
        Copy(target, from, count, cost, answer) => {
            mem_copy_cost(state, 0, target, from, count) == cost
                && mem_copy(state, 0, target, from, count) == answer
        }
        Init(target, from, count, cost, answer) => {
            mem_init_cost(state, 0, 0, target, from, count) == cost
                && mem_init(state, 0, 0, target, from, count) == answer
        }
        _ => false,
    }
}

// Returns whether a store has the result of a step.
fn takes(state: &mut State, step: Step) -> bool {
    if state.memory_count() == 0 || state.data_count() == 0 {
        return false;
    }
    match step {
        Load(op, offset, value) => offset < 1 << 33 && mem_load(state, 0, op, offset) == value,
        Write(op, offset, n, answer) => {
            offset < 1 << 33 && mem_store(state, 0, op, offset, n) == answer
        }
        Grow(pages, cost, size) => {
            mem_grow_cost(state, 0, pages) == cost && mem_grow(state, 0, pages) == Ok(size)
        }
        Size(pages) => mem_size(state, 0) == pages,
        Drop => {
            data_drop(state, 0);
            true
        }
        Bytes(offset, bytes) => shows(state, offset, bytes),
        Fill(..) | Copy(..) | Init(..) => writes(state, step),
    }
}

// Returns the number of steps with the right result, up to the first one with a wrong result.
fn count_taken(state: &mut State, steps: &[Step]) -> usize {
    for (index, step) in steps.iter().enumerate() {
        if !takes(state, *step) {
            return index;
        }
    }
    steps.len()
}

// Returns the number of steps of a case with the right result, in a new store.
fn count_steps(alloc: Global, case: &Case) -> usize {
    match store_with(alloc, &[case.text]) {
        Some(store) => {
            let mut state = store.state;
            count_taken(&mut state, case.steps)
        }
        None => 0,
    }
}

#[test]
fn changes_memories(rt: HostRuntime) {
    for case in &CASES {
        let count = count_steps(rt.alloc(), case);
        assert!(rt; count == case.steps.len(), "{} {count}", case.name);
    }
}
