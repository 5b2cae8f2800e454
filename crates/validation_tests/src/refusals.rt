//! The places of invalid modules, the texts of refusals, and the valid module that is borrowed.

use crate::answers::{Refusal, load, refusal_of};
use std::alloc::{AllocError, Global};
use testing::assemble;
use validator::{Place, ValidateError};

// A name, a module in the text format, and where the module is invalid, if it is.
struct Row {
    name: &'static str,
    source: &'static str,
    place: Option<Place>,
}

// Each module has one function, whose body is `i32.const 7`.
#[rattlefmt::skip]
static PLACES: [Row; 4] = [
    Row { name: "an i32", source: "(func (result i32) i32.const 7)", place: None },
    Row { name: "no result", source: "(func i32.const 7)", place: Some(Place::Func(0)) },
    Row { name: "an i64", source: "(func (result i64) i32.const 7)", place: Some(Place::Func(0)) },
    Row {
        name: "a start with a result",
        source: "(func (result i32) i32.const 7) (start 0)",
        place: Some(Place::Section(8)),
    },
];

fn agrees(alloc: Global, row: &Row) -> bool {
    refusal_of(alloc, row.source) == row.place.map(Refusal::Invalid)
}

#[test]
fn names_the_place(rt: HostRuntime) {
    for row in &PLACES {
        assert!(rt; agrees(rt.alloc(), row), "{}", row.name);
    }
}

// Returns the number of functions of the valid module that these bytes encode, if they encode one.
fn function_count_of(alloc: Global, bytes: &[u8]) -> Option<usize> {
    match load(alloc, bytes) {
        Ok(valid) => Some(valid.module().funcs.len()),
        Err(_) => None,
    }
}

// Returns the number of functions of the valid module of a text, if there is one.
fn function_count(alloc: Global, text: &str) -> Option<usize> {
    let bytes = assemble(alloc, text).ok()?;
    function_count_of(alloc, &bytes)
}

#[test]
fn lends_a_valid_module(rt: HostRuntime) {
    let count = function_count(rt.alloc(), "(func (result i32) i32.const 7)");
    assert!(rt; count == Some(1));
}

// An error and its text.
struct Told {
    error: ValidateError,
    text: &'static str,
}

#[rattlefmt::skip]
static REFUSALS: [Told; 3] = [
    Told { error: ValidateError::Invalid(Place::Func(3)), text: "invalid module: function 3" },
    Told { error: ValidateError::Invalid(Place::Section(7)), text: "invalid module: section 7" },
    Told { error: ValidateError::OutOfMemory, text: "out of memory" },
];

fn is_told(alloc: Global, row: &Told) -> Result<bool, AllocError> {
    Ok(format!(in alloc; "{}", row.error)?.as_str() == row.text)
}

#[test]
fn prints_refusals(rt: HostRuntime) {
    for row in &REFUSALS {
        assert!(rt; is_told(rt.alloc(), row) == Ok(true), "{}", row.text);
    }
}
