//! Encodings of integers and what they represent, alone and within other bytes.

ghost use Rattle.std.specs.Prelude.{◌≤◌, IfOk, length, vec_len};

use leb::{read_s32, read_s33, read_s64, read_u32};
use std::alloc::{AllocError, Global};
use testing::bytes_of;

// The form of an integer in the format.
#[derive(Clone, Copy)]
enum Form {
    U32,
    S32,
    S33,
    S64,
}

// A form, bytes, and the integer that they encode, if they encode one.
struct Row {
    form: Form,
    bytes: &'static str,
    value: Option<i64>,
}

#[rattlefmt::skip]
static ROWS: [Row; 15] = [
    Row { form: Form::U32, bytes: "07", value: Some(7) },
    Row { form: Form::U32, bytes: "8700", value: Some(7) },
    Row { form: Form::U32, bytes: "E58E26", value: Some(624485) },
    Row { form: Form::U32, bytes: "FFFFFFFF0F", value: Some(4294967295) },
    Row { form: Form::U32, bytes: "8780808010", value: None },
    Row { form: Form::U32, bytes: "878080808000", value: None },
    Row { form: Form::S32, bytes: "7F", value: Some(-1) },
    Row { form: Form::S32, bytes: "FFFFFFFF7F", value: Some(-1) },
    Row { form: Form::S32, bytes: "C000", value: Some(64) },
    Row { form: Form::S32, bytes: "8080808078", value: Some(-2147483648) },
    Row { form: Form::S32, bytes: "FFFFFFFF07", value: Some(2147483647) },
    Row { form: Form::S32, bytes: "FFFFFFFF0F", value: None },
    Row { form: Form::S33, bytes: "FFFFFFFF0F", value: Some(4294967295) },
    Row { form: Form::S33, bytes: "FFFFFFFF1F", value: None },
    Row { form: Form::S64, bytes: "8080808080808080807F", value: Some(-9223372036854775808) },
];

// Returns the integer of this form at an offset, and the offset after it.
fn read(form: Form, bytes: &[u8], at: usize) -> Option<(i64, usize)>
    requires { at ≤ length bytes.now }
{
    match form {
        Form::U32 => read_u32(bytes, at).map(|(value, end)| (i64::from(value), end)),
        Form::S32 => read_s32(bytes, at).map(|(value, end)| (i64::from(value), end)),
        Form::S33 => read_s33(bytes, at),
        Form::S64 => read_s64(bytes, at),
    }
}

// Returns the bytes with two others before them and one after them.
fn surround(alloc: Global, bytes: &[u8]) -> Result<Vec<u8>, AllocError>
    ensures { IfOk result (λ v. 2 ≤ vec_len v) }
{
    let mut all = Vec::from_slice(alloc, &[0x80, 0x80])?;
    all.extend_from_slice(bytes)?;
    all.push(0x00)?;
    Ok(all)
}

// Returns whether the bytes of a row are read as its value, at the start and within other bytes.
fn agrees(alloc: Global, row: &Row) -> Result<bool, AllocError> {
    let bytes = bytes_of(alloc, row.bytes)?;
    let inside = surround(alloc, &bytes)?;
    let size = bytes.len();
    let alone = read(row.form, &bytes, 0) == row.value.map(|value| (value, size));
    Ok(alone && read(row.form, &inside, 2) == row.value.map(|value| (value, size + 2)))
}

#[test]
fn reads_spellings(rt: HostRuntime) {
    for row in &ROWS {
        assert!(rt; agrees(rt.alloc(), row) == Ok(true), "{}", row.bytes);
    }
}
