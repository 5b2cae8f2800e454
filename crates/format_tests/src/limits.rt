//! Modules at the limits: their bytes, the parameters and results of a type, and the locals of a function.

use crate::decoding::{Answer, Row, agrees, answer_to, answers_so, join};
use binary::decode;
use core_types::Module;
use std::alloc::{AllocError, Global};
use testing::bytes_of;

#[rattlefmt::skip]
static LOCALS: [Row; 10] = [
    Row { name: "50,000 locals", sections: "010401600000 03020100 0A08010601D086037F0B", answer: Answer::Decoded },
    Row { name: "50,001 locals", sections: "010401600000 03020100 0A08010601D186037F0B", answer: Answer::Limit },
    Row { name: "2 ^ 32 - 1 locals", sections: "010401600000 03020100 0A0A010801FFFFFFFF0F7F0B", answer: Answer::Limit },
    Row { name: "2 ^ 32 locals", sections: "010401600000 03020100 0A0C010A02FFFFFFFF0F7F017F0B", answer: Answer::Malformed },
    Row { name: "49,999 locals and a parameter", sections: "01050160017F00 03020100 0A08010601CF86037F0B", answer: Answer::Decoded },
    Row { name: "50,000 locals and a parameter", sections: "01050160017F00 03020100 0A08010601D086037F0B", answer: Answer::Limit },
    Row { name: "a type index without a type", sections: "010401600000 03020101 0A040102000B", answer: Answer::Decoded },
    Row { name: "50,000 locals and a type index without a type", sections: "03020100 0A08010601D086037F0B", answer: Answer::Decoded },
    Row { name: "50,001 locals and a type index without a type", sections: "03020100 0A08010601D186037F0B", answer: Answer::Limit },
    Row { name: "no locals in two groups", sections: "010401600000 03020100 0A08010602007F007E0B", answer: Answer::Decoded },
];

#[test]
fn answers_locals(rt: HostRuntime) {
    for row in &LOCALS {
        assert!(rt; agrees(rt.alloc(), row) == Ok(true), "{}", row.name);
    }
}

// A type with a long list of i32: what it is, the bytes before the list, the length of the list, the bytes after it, and the
// result.
struct LongType {
    name: &'static str,
    front: &'static str,
    count: usize,
    behind: &'static str,
    answer: Answer,
}

#[rattlefmt::skip]
static LONG_TYPES: [LongType; 4] = [
    LongType { name: "1,000 parameters", front: "01ED070160E807", count: 1000, behind: "00", answer: Answer::Decoded },
    LongType { name: "1,001 parameters", front: "01EE070160E907", count: 1001, behind: "00", answer: Answer::Limit },
    LongType { name: "1,000 results", front: "01ED07016000E807", count: 1000, behind: "", answer: Answer::Decoded },
    LongType { name: "1,001 results", front: "01EE07016000E907", count: 1001, behind: "", answer: Answer::Limit },
];

fn answers_type(alloc: Global, row: &LongType) -> Result<bool, AllocError> {
    let front = bytes_of(alloc, row.front)?;
    let list = vec![in alloc; 0x7F; row.count]?;
    let behind = bytes_of(alloc, row.behind)?;
    let sections = join(alloc, &[&front, &list, &behind])?;
    answers_so(alloc, &sections, row.answer)
}

#[test]
fn answers_long_types(rt: HostRuntime) {
    for row in &LONG_TYPES {
        assert!(rt; answers_type(rt.alloc(), row) == Ok(true), "{}", row.name);
    }
}

// A module that is one custom section: its size in bytes, the bytes up to the end of the section's empty name, and the result.
#[rattlefmt::skip]
static SIZES: [(usize, &str, Answer); 2] = [
    (67_108_864, "0061736D 01000000 00 F3FFFF1F 00", Answer::Decoded),
    (67_108_865, "0061736D 01000000 00 F4FFFF1F 00", Answer::Limit),
];

fn answers_size(
    alloc: Global,
    (size, front, answer): (usize, &str, Answer),
) -> Result<bool, AllocError> {
    let mut bytes = bytes_of(alloc, front)?;
    bytes.resize(size, 0x00)?;
    Ok(answer_to(alloc, &bytes) == answer)
}

#[test]
fn answers_sizes(rt: HostRuntime) {
    for row in SIZES {
        assert!(rt;
            answers_size(rt.alloc(), row) == Ok(true),
            "{} bytes",
            row.0
        );
    }
}

// Returns the sections of a module with 100,000 functions, each with one group of 50,000 locals.
fn many_groups(alloc: Global) -> Result<Vec<u8>, AllocError> {
    let mut bytes = bytes_of(alloc, "0061736D 01000000 010401600000 03A38D06A08D06")?;
    bytes.extend_from_slice(&vec![in alloc; 0x00; 100_000]?)?;
    bytes.extend_from_slice(&[0x0A, 0xE3, 0xDC, 0x2A, 0xA0, 0x8D, 0x06])?;
    for _ in 0..100_000 {
        bytes.extend_from_slice(&[0x06, 0x01, 0xD0, 0x86, 0x03, 0x7F, 0x0B])?;
    }
    Ok(bytes)
}

// Returns the number of functions of a module, and the number of locals of the last one.
fn functions_and_locals(decoded: &Module) -> Option<(usize, u32)> {
    let last = decoded.funcs.as_slice().last()?;
    Some((decoded.funcs.len(), last.locals.len()))
}

// Returns whether bytes are decoded to a module with that many functions and locals.
fn has_locals(alloc: Global, bytes: &[u8], wanted: (usize, u32)) -> bool {
    match decode(alloc, bytes) {
        Ok(decoded) => functions_and_locals(&decoded) == Some(wanted),
        Err(_) => false,
    }
}

// Returns whether the module of many groups is decoded with all its functions and locals.
fn keeps_groups(alloc: Global) -> Result<bool, AllocError> {
    let bytes = many_groups(alloc)?;
    Ok(has_locals(alloc, &bytes, (100_000, 50_000)))
}

#[test]
fn keeps_groups_of_locals(rt: HostRuntime) {
    assert!(rt; keeps_groups(rt.alloc()) == Ok(true));
}
