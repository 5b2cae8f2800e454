//! Each instruction of the format by its bytes.

use crate::decoding::{join, with_header};
use crate::mnemonics::print_operation;
use binary::{BodyReader, decode};
use core_types::{Module, lent};
use std::alloc::{AllocError, Global};
use testing::bytes_of;

// A type from nothing to nothing, a function of it, and a data count of one.
static FRONT: [u8; 13] = [
    0x01, 0x04, 0x01, 0x60, 0x00, 0x00, 0x03, 0x02, 0x01, 0x00, 0x0C, 0x01, 0x01,
];

// The end of a body, and a passive data segment without bytes.
static BACK: [u8; 6] = [0x0B, 0x0B, 0x03, 0x01, 0x01, 0x00];

// Each row has the bytes of an instruction, with its end if it has a body, and its text.
pub const ROWS: &str = "\
00 = unreachable
01 = nop
02 40 0b = block
03 7f 0b = loop (result i32)
04 05 0b = if (type 5)
02 7e 0b = block (result i64)
02 70 0b = block (result funcref)
02 6f 0b = block (result externref)
02 80 01 0b = block (type 128)
0c 02 = br 2
0d 03 = br_if 3
0e 02 01 02 03 = br_table 1 2 3
0f = return
10 04 = call 4
11 05 06 = call_indirect 6 (type 5)
12 04 = return_call 4
13 05 06 = return_call_indirect 6 (type 5)
1a = drop
1b = select
1c 01 7e = select (result i64)
20 07 = local.get 7
21 07 = local.set 7
22 07 = local.tee 7
23 07 = global.get 7
24 07 = global.set 7
25 08 = table.get 8
26 09 = table.set 9
28 01 02 = i32.load offset=2 align=2
29 01 02 = i64.load offset=2 align=2
2c 01 02 = i32.load8_s offset=2 align=2
2d 01 02 = i32.load8_u offset=2 align=2
2e 01 02 = i32.load16_s offset=2 align=2
2f 01 02 = i32.load16_u offset=2 align=2
30 01 02 = i64.load8_s offset=2 align=2
31 01 02 = i64.load8_u offset=2 align=2
32 01 02 = i64.load16_s offset=2 align=2
33 01 02 = i64.load16_u offset=2 align=2
34 01 02 = i64.load32_s offset=2 align=2
35 01 02 = i64.load32_u offset=2 align=2
36 01 02 = i32.store offset=2 align=2
37 01 02 = i64.store offset=2 align=2
3a 01 02 = i32.store8 offset=2 align=2
3b 01 02 = i32.store16 offset=2 align=2
3c 01 02 = i64.store8 offset=2 align=2
3d 01 02 = i64.store16 offset=2 align=2
3e 01 02 = i64.store32 offset=2 align=2
3f 00 = memory.size
40 00 = memory.grow
41 7f = i32.const 4294967295
42 7f = i64.const 18446744073709551615
45 = i32.eqz
46 = i32.eq
47 = i32.ne
48 = i32.lt_s
49 = i32.lt_u
4a = i32.gt_s
4b = i32.gt_u
4c = i32.le_s
4d = i32.le_u
4e = i32.ge_s
4f = i32.ge_u
50 = i64.eqz
51 = i64.eq
52 = i64.ne
53 = i64.lt_s
54 = i64.lt_u
55 = i64.gt_s
56 = i64.gt_u
57 = i64.le_s
58 = i64.le_u
59 = i64.ge_s
5a = i64.ge_u
67 = i32.clz
68 = i32.ctz
69 = i32.popcnt
6a = i32.add
6b = i32.sub
6c = i32.mul
6d = i32.div_s
6e = i32.div_u
6f = i32.rem_s
70 = i32.rem_u
71 = i32.and
72 = i32.or
73 = i32.xor
74 = i32.shl
75 = i32.shr_s
76 = i32.shr_u
77 = i32.rotl
78 = i32.rotr
79 = i64.clz
7a = i64.ctz
7b = i64.popcnt
7c = i64.add
7d = i64.sub
7e = i64.mul
7f = i64.div_s
80 = i64.div_u
81 = i64.rem_s
82 = i64.rem_u
83 = i64.and
84 = i64.or
85 = i64.xor
86 = i64.shl
87 = i64.shr_s
88 = i64.shr_u
89 = i64.rotl
8a = i64.rotr
a7 = i32.wrap_i64
ac = i64.extend_i32_s
ad = i64.extend_i32_u
c0 = i32.extend8_s
c1 = i32.extend16_s
c2 = i64.extend8_s
c3 = i64.extend16_s
c4 = i64.extend32_s
d0 70 = ref.null func
d0 6f = ref.null extern
d1 = ref.is_null
d2 03 = ref.func 3
fc 08 00 00 = memory.init 0
fc 09 00 = data.drop 0
fc 0a 00 00 = memory.copy
fc 0b 00 = memory.fill
fc 8b 00 00 = memory.fill
fc 0c 01 00 = table.init 0 1
fc 0d 02 = elem.drop 2
fc 0e 01 00 = table.copy 1 0
fc 0f 03 = table.grow 3
fc 10 04 = table.size 4
fc 11 05 = table.fill 5";

// Returns a module with one function, whose body these bytes encode.
fn module_around(alloc: Global, body: &[u8]) -> Result<Vec<u8>, AllocError> {
    let size = body.len().min(100) as u8;
    let code = [0x0A, size + 4, 0x01, size + 2, 0x00];
    let sections = join(alloc, &[&FRONT, &code, body, &BACK])?;
    with_header(alloc, &sections)
}

// Returns the text of the first operation of a module.
fn first_operation(alloc: Global, decoded: &Module) -> Result<String, AllocError> {
    let mut text = String::new(alloc);
    if let Some(func) = decoded.funcs.as_slice().first() {
        let mut reader = BodyReader::new(alloc, &func.body);
        if reader.opcode().is_some() {
            if let Ok(op) = reader.any() {
                print_operation(&mut text, lent(&op))?;
            }
        }
    }
    Ok(text)
}

// Returns whether the first operation of a module has this text.
fn begins_so(alloc: Global, decoded: &Module, text: &str) -> Result<bool, AllocError> {
    Ok(first_operation(alloc, decoded)?.as_str() == text)
}

// Returns whether bytes are decoded to a module whose first operation has this text.
fn decodes_so(alloc: Global, bytes: &[u8], text: &str) -> Result<bool, AllocError> {
    match decode(alloc, bytes) {
        Ok(decoded) => begins_so(alloc, &decoded, text),
        Err(_) => Ok(false),
    }
}

// Returns whether the bytes of a row are decoded to an operation of its text.
fn agrees(alloc: Global, row: &str) -> Result<bool, AllocError> {
    let (codes, text) = row.split_once(" = ").unwrap_or((row, ""));
    let body = bytes_of(alloc, codes)?;
    let bytes = module_around(alloc, &body)?;
    decodes_so(alloc, &bytes, text)
}

#[test]
fn decodes_each_instruction(rt: HostRuntime) {
    assert!(rt; ROWS.lines().count() == 131);
    for row in ROWS.lines() {
        assert!(rt; agrees(rt.alloc(), row) == Ok(true), "{row}");
    }
}
