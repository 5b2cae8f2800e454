//! Texts as values of their types.

use core_types::{Val, ValType};
use std::alloc::Global;
use subcommands::{ArgsFault, read_args};

// A type, a text, and the value of the type that the text represents, if it represents one.
struct Row {
    ty: ValType,
    word: &'static str,
    value: Option<Val>,
}

#[rattlefmt::skip]
static WORDS: [Row; 14] = [
    Row { ty: ValType::I32, word: "4294967295", value: Some(Val::I32(4294967295)) },
    Row { ty: ValType::I32, word: "4294967296", value: None },
    Row { ty: ValType::I32, word: "+1", value: None },
    Row { ty: ValType::I32, word: "null", value: None },
    Row { ty: ValType::I64, word: "18446744073709551615", value: Some(Val::I64(18446744073709551615)) },
    Row { ty: ValType::I64, word: "0000000000000000000000000012", value: Some(Val::I64(12)) },
    Row { ty: ValType::I64, word: "18446744073709551616", value: None },
    Row { ty: ValType::I64, word: "", value: None },
    Row { ty: ValType::FuncRef, word: "null", value: Some(Val::FuncRef(None)) },
    Row { ty: ValType::FuncRef, word: "0", value: None },
    Row { ty: ValType::ExternRef, word: "null", value: Some(Val::ExternRef(None)) },
    Row { ty: ValType::ExternRef, word: "0", value: Some(Val::ExternRef(Some(0))) },
    Row { ty: ValType::ExternRef, word: "4294967296", value: None },
    Row { ty: ValType::ExternRef, word: "Null", value: None },
];

fn is_only(values: &[Val], wanted: Option<Val>) -> bool {
    match (values, wanted) {
        ([value], Some(wanted)) => *value == wanted,
        _ => false,
    }
}

fn agrees(alloc: Global, row: &Row) -> bool {
    match read_args(alloc, &[row.ty], &[row.word]) {
        Ok(values) => is_only(values.as_slice(), row.value),
        Err(ArgsFault::Unreadable) => row.value.is_none(),
        Err(ArgsFault::Memory) => false,
    }
}

#[test]
fn words_are_values_of_their_types(rt: HostRuntime) {
    for row in &WORDS {
        assert!(rt; agrees(rt.alloc(), row), "{:?}", row.word);
    }
}
