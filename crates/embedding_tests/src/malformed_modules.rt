//! Why bytes are malformed, not supported, or exceed a limit, in the texts of `explain_module`.

use crate::explanations::is_explained;
use std::alloc::{AllocError, Global};

// A body of one instruction in hexadecimal, and the feature for which it is refused.
#[rattlefmt::skip]
static INSTRUCTIONS: [(&str, &str); 16] = [
    ("43 00000000", "f32.const (floating point)"),
    ("2A 02 00", "f32.load (floating point)"),
    ("39 02 00", "f64.store (floating point)"),
    ("5B", "f32.eq (floating point)"),
    ("66", "f64.ge (floating point)"),
    ("8B", "f32.abs (floating point)"),
    ("92", "f32.add (floating point)"),
    ("A6", "f64.copysign (floating point)"),
    ("A8", "i32.trunc_f32_s (floating point)"),
    ("BF", "f64.reinterpret_i64 (floating point)"),
    ("FC 07", "i64.trunc_sat_f64_u (floating point)"),
    ("FC 12", "opcode 0xfc 18 (not in WebAssembly 2.0)"),
    ("FD 0C", "opcode 0xfd (vectors)"),
    ("FE 00", "opcode 0xfe (threads)"),
    ("06 40", "opcode 0x6 (not in WebAssembly 2.0)"),
    ("FF", "opcode 0xff (not in WebAssembly 2.0)"),
];

// Bytes in hexadecimal with a type or an instruction that is not supported, and what their explanation says. Two functions follow six
// imports, two of which are functions, and a custom section.
#[rattlefmt::skip]
static FEATURES: [(&str, &str); 9] = [
    ("0061736D01000000 010401600000 022B06 016D01660000 016D017401700001 016D0175016F010102 016D016D020001 016D0167037E00 0001680000 \
        00020161 0303020000 0A0D02 02000B 080043000000001A0B", "f32.const (floating point) in function 3, at offset 0x4c"),
    ("0061736D01000000 010401600000 022B06 016D01660000 016D017401700001 016D0175016F010102 016D016D020001 016D0167037E00 0001680000 \
        00020161 0303020000 0A0D02 080043000000001A0B 02000B", "f32.const (floating point) in function 2, at offset 0x49"),
    ("0061736D01000000 010401600000 03020100 060901 7F0043000000000B 0A040102000B", "f32.const (floating point) in global 0, at offset 0x17"),
    ("0061736D01000000 010401600000 03020100 0A0601 04 01017D 0B", "f32 (floating point) in function 0, at offset 0x18"),
    ("0061736D01000000 010401600000 03020100 0A0801 0600 027C 0B 1A 0B", "f64 (floating point) in function 0, at offset 0x18"),
    ("0061736D01000000 0109 02600000 60017F017D", "f32 (floating point) in type 1, at offset 0x12"),
    ("0061736D01000000 0105 0160017C 00", "f64 (floating point) in type 0, at offset 0xd"),
    ("0061736D01000000 0105 016000 017B", "v128 (vectors) in type 0, at offset 0xe"),
    ("0061736D01000000 0208 01 0161 0162 037D 00", "f32 (floating point) in import 0, at offset 0x10"),
];

// Bytes in hexadecimal that encode no module, and what their explanation says.
#[rattlefmt::skip]
static MALFORMED: [(&str, &str); 51] = [
    ("0061736D01000000 01020161", "expected a function type (0x60), found 0x61 in type 0, at offset 0xb"),
    ("0061736D01000000 010101", "unexpected end in type 0, at offset 0xb"),
    ("", "the magic number is not 00 61 73 6d, at offset 0x0"),
    ("00617A6D01000000", "the magic number is not 00 61 73 6d, at offset 0x2"),
    ("0061736D 02000000", "the version is not 1, at offset 0x4"),
    ("0061736D 010000", "the version is not 1, at offset 0x7"),
    ("0061736D01000000 0D0100", "unknown section 13, at offset 0x8"),
    ("0061736D01000000 010401600000 0100", "section 1 comes too late, or twice, at offset 0xe"),
    ("0061736D01000000 030100 010100", "section 1 comes too late, or twice, at offset 0xb"),
    ("0061736D01000000 0A0100 0C0100", "section 12 comes too late, or twice, at offset 0xb"),
    ("0061736D01000000 010501600000", "section 1 goes past the end of the file, at offset 0xa"),
    ("0061736D01000000 01FFFFFFFFFF00", "LEB128 number too long in section 1, at offset 0x9"),
    ("0061736D01000000 01FFFFFFFF1F", "LEB128 number too large in section 1, at offset 0x9"),
    ("0061736D01000000 0180", "unexpected end in section 1, at offset 0x9"),
    ("0061736D01000000 0107 01600000 000000", "section 1 ends 3 bytes too early, at offset 0xe"),
    ("0061736D01000000 0104 015F0000", "expected a function type (0x60), found 0x5f in type 0, at offset 0xb"),
    ("0061736D01000000 0108 02600000 6001400000", "expected a value type, found 0x40 in type 1, at offset 0x10"),
    ("0061736D01000000 0102 0260", "unexpected end in type 0, at offset 0xc"),
    ("0061736D01000000 0003 0261FF", "invalid UTF-8 in the name of a custom section, at offset 0xb"),
    ("0061736D01000000 0002 0361", "a custom section goes past the end of the section, at offset 0xb"),
    ("0061736D01000000 0213 03 0161 0162 037F00 0163 0164 037F00 01FF 0165", "invalid UTF-8 in the name of import 2, at offset 0x1a"),
    ("0061736D01000000 0207 01 0161 0162 04 00", "expected a kind of import (0x0 to 0x3), found 0x4 in import 0, at offset 0xf"),
    ("0061736D01000000 0208 01 0161 0162 037F02", "expected a mutability (0x0 or 0x1), found 0x2 in import 0, at offset 0x11"),
    ("0061736D01000000 0209 01 0161 0162 0202 0000", "expected the flag of limits (0x0 or 0x1), found 0x2 in import 0, at offset 0x10"),
    ("0061736D01000000 0209 01 0161 0162 017F 0000", "expected a reference type, found 0x7f in import 0, at offset 0x10"),
    ("0061736D01000000 010401600000 0207 01 0161 0162 0000 0303 020080", "unexpected end in function 2, at offset 0x1b"),
    ("0061736D01000000 0404 01 7E 0000", "expected a reference type, found 0x7e in table 0, at offset 0xb"),
    ("0061736D01000000 0504 01 01 02 80", "unexpected end in memory 0, at offset 0xd"),
    ("0061736D01000000 0208 01 0161 0162 037F00 0606 01 7F00 4180 80", "unexpected end in global 1, at offset 0x18"),
    ("0061736D01000000 060A 01 7F00 41FFFFFFFF10 0B", "LEB128 number too large in global 0, at offset 0xe"),
    ("0061736D01000000 0705 01 0161 04 00", "expected a kind of export (0x0 to 0x3), found 0x4 in export 0, at offset 0xd"),
    ("0061736D01000000 0802 00 00", "section 8 ends one byte too early, at offset 0xb"),
    ("0061736D01000000 0902 01 08", "expected a form from 0 to 7, found 8 in element segment 0, at offset 0xb"),
    ("0061736D01000000 0904 01 01 01 00", "expected the element kind 0x0, found 0x1 in element segment 0, at offset 0xc"),
    ("0061736D01000000 0904 01 05 7F 00", "expected a reference type, found 0x7f in element segment 0, at offset 0xc"),
    ("0061736D01000000 0B02 01 03", "expected a form from 0 to 2, found 3 in data segment 0, at offset 0xb"),
    ("0061736D01000000 0B04 01 01 05 61", "data segment 0 goes past the end of the section, at offset 0xd"),
    ("0061736D01000000 010401600000 03020100", "functions, and no code section, at offset 0x12"),
    ("0061736D01000000 010401600000 03020100 0B0100", "functions, and no code section, at offset 0x12"),
    ("0061736D01000000 010401600000 03020100 0A07 02 02000B 02000B", "the number of bodies is 2, that of functions 1, at offset 0x14"),
    ("0061736D01000000 010401600000 03020100 0A04 01 05000B", "function 0 goes past the end of the section, at offset 0x16"),
    ("0061736D01000000 010401600000 03020100 0A06 01 04000B 0101", "function 0 ends 2 bytes too early, at offset 0x18"),
    ("0061736D01000000 010401600000 03020100 0A06 01 0400 0101 01", "unexpected end in function 0, at offset 0x1a"),
    ("0061736D01000000 010401600000 03020100 0A06 01 0400 05 0B 0B", "else without if in function 0, at offset 0x17"),
    ("0061736D01000000 010401600000 03020100 0A0B 01 0900 4100 0440 05 05 0B 0B", "else without if in function 0, at offset 0x1c"),
    ("0061736D01000000 010401600000 03020100 0A08 01 0600 3F01 1A 0B 0B", "expected the byte 0x0, found 0x1 in function 0, at offset 0x18"),
    ("0061736D01000000 010401600000 03020100 0A0C 01 0A02 FFFFFFFF0F7F 017E 0B", "more than 4294967295 locals in function 0, at offset 0x1d"),
    ("0061736D01000000 010401600000 03020100 0A07 01 0501 0140 01 0B", "expected a value type, found 0x40 in function 0, at offset 0x18"),
    ("0061736D01000000 010401600000 03020100 0A09 01 0700 02FF7F 0B 0B 0B", "LEB128 number too large in function 0, at offset 0x18"),
    ("0061736D01000000 0C0101", "the data count is 1, the number of data segments 0, at offset 0xb"),
    ("0061736D01000000 010401600000 03020100 0A07 01 0500 FC0900 0B 0B0301 0100", "memory.init and data.drop need a data count section, at offset 0x20"),
];

// What a module has that exceeds a limit, and what its explanation says: the front of a module, and how often a byte is in it before the rest.
#[rattlefmt::skip]
static LIMITS: [LimitRow; 4] = [
    LimitRow { front: "0061736D01000000 01EE07 0160E907", repeated: "7F", times: 1001, rest: "00",
        explanation: "type 0 has 1001 parameters, and at most 1000 are allowed" },
    LimitRow { front: "0061736D01000000 01F107 02600000 6000E907", repeated: "7E", times: 1001, rest: "",
        explanation: "type 1 has 1001 results, and at most 1000 are allowed" },
    LimitRow { front: "0061736D01000000 010401600000 03020100 0A08010601 D18603", repeated: "7F", times: 1, rest: "0B",
        explanation: "function 0 has 50001 locals with its parameters, and at most 50000 are allowed" },
    LimitRow { front: "0061736D01000000 010501 60017F00 020701016D01660000 030201000A08010601 D08603", repeated: "7F", times: 1, rest: "0B",
        explanation: "function 1 has 50001 locals with its parameters, and at most 50000 are allowed" },
];

struct LimitRow {
    front: &'static str,
    repeated: &'static str,
    times: usize,
    rest: &'static str,
    explanation: &'static str,
}

// Returns the bytes of a row in hexadecimal.
fn limit_module(alloc: Global, row: &LimitRow) -> Result<String, AllocError> {
    let mut text = String::from_str(alloc, row.front)?;
    for _ in 0..row.times {
        text.push_str(row.repeated)?;
    }
    text.push_str(row.rest)?;
    Ok(text)
}

fn limit_is_explained(alloc: Global, row: &LimitRow) -> bool {
    match limit_module(alloc, row) {
        Ok(text) => is_explained(
            alloc,
            text.as_str(),
            "module exceeds a limit",
            row.explanation,
        ),
        Err(_) => false,
    }
}

const BODY: &str = "0061736D01000000 010401600000 03020100 0A07010500";

// Returns whether a body of an instruction is refused for this feature.
fn is_unsupported(alloc: Global, instruction: &str, feature: &str) -> Result<bool, AllocError> {
    let bytes = format!(in alloc; "{BODY} {instruction} 0B0B0B0B0B")?;
    let explanation = format!(in alloc; "{feature} in function 0, at offset 0x17")?;
    Ok(is_explained(
        alloc,
        bytes.as_str(),
        "unsupported feature",
        explanation.as_str(),
    ))
}

#[test]
fn unsupported_instructions_are_named(rt: HostRuntime) {
    for (instruction, feature) in &INSTRUCTIONS {
        assert!(rt;
            is_unsupported(rt.alloc(), instruction, feature) == Ok(true),
            "{instruction}"
        );
    }
}

#[test]
fn unsupported_features_are_named(rt: HostRuntime) {
    for (bytes, explanation) in &FEATURES {
        assert!(rt;
            is_explained(rt.alloc(), bytes, "unsupported feature", explanation),
            "{bytes}"
        );
    }
}

#[test]
fn malformed_bytes_are_explained(rt: HostRuntime) {
    for (bytes, explanation) in &MALFORMED {
        assert!(rt;
            is_explained(rt.alloc(), bytes, "malformed module", explanation),
            "{bytes}"
        );
    }
}

#[test]
fn exceeded_limits_are_explained(rt: HostRuntime) {
    for row in &LIMITS {
        assert!(rt; limit_is_explained(rt.alloc(), row), "{}", row.explanation);
    }
}
