//! The lines that state why bytes are refused.

use module_info::{Verdict, describe};
use std::alloc::Global;
use testing::bytes_of;

// Bytes in hexadecimal that are refused, and the line for them.
#[rattlefmt::skip]
static LINES: [(&str, &str); 11] = [
    ("", "malformed module: the magic number is not 00 61 73 6d, at offset 0x0\n"),
    ("0061736D01000000 01020161", "malformed module: expected a function type (0x60), found 0x61 in type 0, at offset 0xb\n"),
    ("0061736D01000000 0107 01600000 000000", "malformed module: section 1 ends 3 bytes too early, at offset 0xe\n"),
    ("0061736D01000000 010401600000 03020100", "malformed module: functions, and no code section, at offset 0x12\n"),
    ("0061736D01000000 010401600000 03020100 0A0601 0401017D0B", "unsupported feature: f32 (floating point) in function 0, at offset 0x18\n"),
    ("0061736D01000000 010401600000 03020100 0A05010300FF0B", "unsupported feature: opcode 0xff (not in WebAssembly 2.0) in function 0, at offset 0x17\n"),
    ("0061736D01000000 010401600000 03020100 07070103 610A62 0000 0A050103 00450B",
        "invalid module: type mismatch in function 0 (\"a\\nb\"), operation 0 at offset 0x20: i32.eqz expects i32, found nothing\n"),
    ("0061736D01000000 010401600000 03020100 0A060104000C010B",
        "invalid module: unknown label in function 0, operation 0 at offset 0x17: br has the index 1, and there are 1\n"),
    ("0061736D01000000 0606017F0042000B", "invalid module: global 0: initializer has type i64, expected i32\n"),
    ("0061736D01000000 050501 00F0A204", "invalid module: memory 0: minimum 70000 pages, the maximum is 65536\n"),
    ("0061736D01000000 010401600000 03020100 0A08010601 D186037F0B",
        "module exceeds a limit: function 0 has 50001 locals with its parameters, and at most 50000 are allowed\n"),
];

// Returns whether these bytes are refused with this line.
fn has_line(alloc: Global, bytes: &[u8], line: &str) -> bool {
    let mut out = Vec::new(alloc);
    let verdict = describe(alloc, &mut out, bytes);
    matches!(verdict, Ok(Verdict::Refused)) && out.as_slice() == line.as_bytes()
}

// Returns whether the bytes of a text in hexadecimal are refused with this line.
fn bytes_have_line(alloc: Global, hexadecimal: &str, line: &str) -> bool {
    match bytes_of(alloc, hexadecimal) {
        Ok(bytes) => has_line(alloc, bytes.as_slice(), line),
        Err(_) => false,
    }
}

#[test]
fn refusals_have_lines(rt: HostRuntime) {
    for (bytes, line) in &LINES {
        assert!(rt; bytes_have_line(rt.alloc(), bytes, line), "{line}");
    }
}
