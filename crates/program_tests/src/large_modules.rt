//! Large modules, which are created here. They nest deeply, or have very many of something.

use crate::runs::{Ending, ends_so, words_of};
use Large::{Exports, ExportsOfOneName, Functions, Lists, Nests, Sum};
use std::alloc::{AllocError, Global};
use subcommands::{Files, ReadFault};

// What a module has many of. Bytes are those of the body of function 0, without its last `end`. The number before them is the
// index of its type.
#[derive(Clone, Copy)]
enum Large {
    // The first bytes `count` times, the second ones once, and the third ones `count` times.
    Nests(u8, &'static [u8], &'static [u8], &'static [u8]),
    // The first bytes, the count, that many items, and the last bytes.
    Lists(u8, &'static [u8], &'static [u8], &'static [u8]),
    // Functions with an empty body.
    Functions,
    // Exports of function 0, with different names.
    Exports,
    // The same, except that the last two have the same name.
    ExportsOfOneName,
    // Terms of the sum that is the initial value of a global. Function 0 returns the global.
    Sum,
}

// The types of the modules: with no results, with one, and with a thousand. Function 1 has the last type, and the body
// `unreachable`.
const NONE: u8 = 0;

const ONE: u8 = 1;

const THOUSAND: u8 = 2;

// A name, what a module has many of, how many, the arguments of a run with it, and how the run ends.
struct Row {
    name: &'static str,
    large: Large,
    count: u32,
    words: &'static str,
    ending: Ending<'static>,
}

const MILLION: u32 = 1_000_000;

const VALID: Ending<'static> = Ending::Out("valid\n", 0);

const INVALID: Ending<'static> = Ending::Err("refused 4 Invalid\n", 5);

const LIMIT: Ending<'static> = Ending::Err("refused 3 Limit\n", 5);

#[rattlefmt::skip]
static ROWS: [Row; 18] = [
    Row { name: "nested blocks", large: Nests(NONE, &[0x02, 0x40], &[], &[0x0B]), count: MILLION, words: "check m", ending: VALID },
    Row {
        name: "a call of nested blocks",
        large: Nests(NONE, &[0x02, 0x40], &[], &[0x0B]),
        count: MILLION,
        words: "call m f",
        ending: Ending::Out("fuel left 999000000\n", 0),
    },
    Row { name: "nested loops", large: Nests(NONE, &[0x03, 0x40], &[], &[0x0B]), count: MILLION, words: "check m", ending: VALID },
    Row {
        name: "a call of nested loops",
        large: Nests(NONE, &[0x03, 0x40], &[], &[0x0B]),
        count: MILLION,
        words: "call m f",
        ending: Ending::Out("fuel left 999000000\n", 0),
    },
    Row { name: "nested ifs", large: Nests(NONE, &[0x41, 0x01, 0x04, 0x40], &[], &[0x05, 0x0B]), count: MILLION, words: "check m", ending: VALID },
    Row {
        name: "a call of nested ifs",
        large: Nests(NONE, &[0x41, 0x01, 0x04, 0x40], &[], &[0x05, 0x0B]),
        count: MILLION,
        words: "call m f",
        ending: Ending::Out("fuel left 998000000\n", 0),
    },
    Row { name: "nested blocks with a result", large: Nests(ONE, &[0x02, 0x7F], &[0x41, 0x07], &[0x0B]), count: MILLION, words: "check m", ending: VALID },
    Row {
        name: "a call of nested blocks with a result",
        large: Nests(ONE, &[0x02, 0x7F], &[0x41, 0x07], &[0x0B]),
        count: MILLION,
        words: "call m f",
        ending: Ending::Out("i32 7\nfuel left 998999999\n", 0),
    },
    Row { name: "labels", large: Lists(NONE, &[0x00, 0x41, 0x00, 0x0E], &[0x00], &[0x00]), count: MILLION, words: "check m", ending: VALID },
    Row { name: "functions", large: Functions, count: MILLION, words: "check m", ending: VALID },
    Row { name: "exports", large: Exports, count: MILLION, words: "check m", ending: VALID },
    Row { name: "exports of one name", large: ExportsOfOneName, count: MILLION, words: "check m", ending: INVALID },
    Row { name: "terms of a constant expression", large: Sum, count: MILLION, words: "call m f", ending: Ending::Out("i32 1000000\nfuel left 999999999\n", 0) },
    Row { name: "groups of no locals", large: Lists(NONE, &[], &[0x00, 0x7F], &[]), count: MILLION, words: "check m", ending: VALID },
    Row { name: "groups of one local", large: Lists(NONE, &[], &[0x01, 0x7F], &[]), count: MILLION, words: "check m", ending: LIMIT },
    Row { name: "calls of a function of a thousand results", large: Nests(NONE, &[0x10, 0x01], &[0x00], &[]), count: MILLION, words: "check m", ending: VALID },
    Row {
        name: "labels with a thousand results",
        large: Lists(THOUSAND, &[0x00, 0x10, 0x01, 0x41, 0x00, 0x0E], &[0x00], &[0x00]),
        count: 50_000,
        words: "check m",
        ending: VALID,
    },
    Row { name: "the same after unreachable", large: Lists(THOUSAND, &[0x00, 0x00, 0x0E], &[0x00], &[0x00]), count: 50_000, words: "check m", ending: VALID },
];

// Returns the encoding of a number in five bytes.
fn spell(number: u32) -> [u8; 5] {
    [
        (number % 128) as u8 | 0x80,
        (number / 128 % 128) as u8 | 0x80,
        (number / 16_384 % 128) as u8 | 0x80,
        (number / 2_097_152 % 128) as u8 | 0x80,
        (number / 268_435_456) as u8,
    ]
}

// Appends bytes `count` times.
fn push_often(into: &mut Vec<u8>, bytes: &[u8], count: u32) -> Result<(), AllocError> {
    for _ in 0..count {
        into.extend_from_slice(bytes)?;
    }
    Ok(())
}

// Appends the number of bytes, followed by the bytes.
fn push_sized(into: &mut Vec<u8>, bytes: &[u8]) -> Result<(), AllocError> {
    let size = (bytes.len() % 4_294_967_296) as u32;
    into.extend_from_slice(&spell(size))?;
    into.extend_from_slice(bytes)?;
    Ok(())
}

// Appends a section.
fn push_section(into: &mut Vec<u8>, number: u8, content: &[u8]) -> Result<(), AllocError> {
    into.push(number)?;
    push_sized(into, content)
}

// Returns the content of a section with three types: no results, an i32, and a thousand of them.
fn types(alloc: Global) -> Result<Vec<u8>, AllocError> {
    let mut content = Vec::from_slice(
        alloc,
        &[
            0x03, 0x60, 0x00, 0x00, 0x60, 0x00, 0x01, 0x7F, 0x60, 0x00, 0xE8, 0x07,
        ],
    )?;
    push_often(&mut content, &[0x7F], 1000)?;
    Ok(content)
}

// Returns the content of the section with the types of the functions.
fn functions(alloc: Global, large: Large, count: u32) -> Result<Vec<u8>, AllocError> {
    match large {
        Nests(ty, ..) | Lists(ty, ..) => Vec::from_slice(alloc, &[0x02, ty, THOUSAND]),
        Functions => {
            let mut content = Vec::from_slice(alloc, &spell(count))?;
            push_often(&mut content, &[NONE], count)?;
            Ok(content)
        }
        Exports | ExportsOfOneName => Vec::from_slice(alloc, &[0x02, NONE, THOUSAND]),
        Sum => Vec::from_slice(alloc, &[0x02, ONE, THOUSAND]),
    }
}

// Returns the content of the section with the globals: one i32, whose initial value is a sum of `count` ones.
fn globals(alloc: Global, count: u32) -> Result<Vec<u8>, AllocError> {
    let mut content = Vec::from_slice(alloc, &[0x01, 0x7F, 0x00])?;
    push_often(&mut content, &[0x41, 0x01], count)?;
    push_often(&mut content, &[0x6A], count.saturating_sub(1))?;
    content.push(0x0B)?;
    Ok(content)
}

// Returns the last seven digits of a number.
fn digits(number: u32) -> [u8; 7] {
    let mut text = [b'0'; 7];
    let mut rest = number;
    for k in 0..7 {
        text[6 - k] = b'0' + (rest % 10) as u8;
        rest /= 10;
    }
    text
}

// Returns the content of a section with `count` exports of function 0. Their names are their numbers, up to a greatest one.
fn numbered_exports(alloc: Global, count: u32, greatest: u32) -> Result<Vec<u8>, AllocError> {
    let mut content = Vec::from_slice(alloc, &spell(count))?;
    for k in 0..count {
        let number = if k < greatest { k } else { greatest };
        content.push(0x07)?;
        content.extend_from_slice(&digits(number))?;
        content.extend_from_slice(&[0x00, 0x00])?;
    }
    Ok(content)
}

// Returns the content of the section with the exports: one of function 0 that is named f, or the many that the module has.
fn exports(alloc: Global, large: Large, count: u32) -> Result<Vec<u8>, AllocError> {
    match large {
        Exports => numbered_exports(alloc, count, count),
        ExportsOfOneName => numbered_exports(alloc, count, count.saturating_sub(2)),
        _ => Vec::from_slice(alloc, &[0x01, 0x01, b'f', 0x00, 0x00]),
    }
}

// Returns the body of function 0.
fn body(alloc: Global, large: Large, count: u32) -> Result<Vec<u8>, AllocError> {
    let mut bytes = Vec::new(alloc);
    match large {
        Nests(_, front, middle, back) => {
            bytes.push(0x00)?;
            push_often(&mut bytes, front, count)?;
            bytes.extend_from_slice(middle)?;
            push_often(&mut bytes, back, count)?;
        }
        Lists(_, before, item, behind) => {
            bytes.extend_from_slice(before)?;
            bytes.extend_from_slice(&spell(count))?;
            push_often(&mut bytes, item, count)?;
            bytes.extend_from_slice(behind)?;
        }
        Sum => bytes.extend_from_slice(&[0x00, 0x23, 0x00])?,
        _ => bytes.push(0x00)?,
    }
    bytes.push(0x0B)?;
    Ok(bytes)
}

// Returns the content of the section with the bodies of the functions.
fn code(alloc: Global, large: Large, count: u32) -> Result<Vec<u8>, AllocError> {
    let mut content = Vec::new(alloc);
    if matches!(large, Functions) {
        content.extend_from_slice(&spell(count))?;
        push_often(&mut content, &[0x02, 0x00, 0x0B], count)?;
        return Ok(content);
    }
    content.push(0x02)?;
    push_sized(&mut content, body(alloc, large, count)?.as_slice())?;
    content.extend_from_slice(&[0x03, 0x00, 0x00, 0x0B])?;
    Ok(content)
}

// Returns the bytes of a module.
fn module(alloc: Global, large: Large, count: u32) -> Result<Vec<u8>, AllocError> {
    let mut bytes = Vec::from_slice(alloc, b"\0asm\x01\0\0\0")?;
    push_section(&mut bytes, 1, types(alloc)?.as_slice())?;
    push_section(&mut bytes, 3, functions(alloc, large, count)?.as_slice())?;
    if matches!(large, Sum) {
        push_section(&mut bytes, 6, globals(alloc, count)?.as_slice())?;
    }
    push_section(&mut bytes, 7, exports(alloc, large, count)?.as_slice())?;
    push_section(&mut bytes, 10, code(alloc, large, count)?.as_slice())?;
    Ok(bytes)
}

// A large module at each path.
#[derive(Drop)]
struct LargeModule {
    alloc: Global,
    large: Large,
    count: u32,
}

impl Files for LargeModule {
    fn read(&mut self, _path: &str) -> Result<Vec<u8>, ReadFault> {
        module(self.alloc, self.large, self.count).map_err(|_| ReadFault::Memory)
    }
}

// Returns whether the run of a row ends as the row states.
fn agrees(alloc: Global, row: &Row) -> Result<bool, AllocError> {
    let words = words_of(alloc, row.words)?;
    let mut files = LargeModule {
        alloc,
        large: row.large,
        count: row.count,
    };
    Ok(ends_so(alloc, words.as_slice(), &mut files, row.ending))
}

#[test]
fn large_modules_end_with_an_answer(rt: HostRuntime) {
    for row in &ROWS {
        assert!(rt; agrees(rt.alloc(), row) == Ok(true), "{}", row.name);
    }
}
