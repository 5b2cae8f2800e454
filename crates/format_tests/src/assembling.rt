//! The assembler against the decoder: the text of an operation or an item gives the bytes that are decoded to it.

use crate::decoding::join;
use crate::operations::ROWS;
use crate::sections::{ITEMS, Item, section_of};
use std::alloc::{AllocError, Global};
use testing::{assemble, bytes_of};

// Returns whether a text is assembled to a module that ends with these bytes.
fn ends_with(alloc: Global, text: &str, bytes: &[u8]) -> bool {
    match assemble(alloc, text) {
        Ok(assembled) => assembled.ends_with(bytes),
        Err(_) => false,
    }
}

// Returns a function of one instruction, which has an end if its bytes have one.
fn function_of(alloc: Global, codes: &str, instruction: &str) -> Result<String, AllocError> {
    let mut text = String::from_str(alloc, "(func ")?;
    text.push_str(instruction)?;
    text.push_str(if codes.ends_with(" 0b") { " end)" } else { ")" })?;
    Ok(text)
}

// Returns the body of one instruction.
fn body_of(alloc: Global, codes: &str) -> Result<Vec<u8>, AllocError> {
    let instruction = bytes_of(alloc, codes)?;
    join(alloc, &[&instruction, &[0x0B]])
}

// Returns whether the text of an instruction gives its bytes.
fn gives_bytes(alloc: Global, codes: &str, text: &str) -> Result<bool, AllocError> {
    let body = body_of(alloc, codes)?;
    Ok(ends_with(alloc, text, &body))
}

// Returns whether the text of a row gives its bytes. A row whose number is not encoded in the shortest form does not.
fn gives_operation(alloc: Global, row: &str) -> Result<bool, AllocError> {
    let (codes, instruction) = row.split_once(" = ").unwrap_or((row, ""));
    let text = function_of(alloc, codes, instruction)?;
    Ok(gives_bytes(alloc, codes, text.as_str())? != codes.starts_with("fc 8b"))
}

#[test]
fn assembles_each_instruction(rt: HostRuntime) {
    for row in ROWS.lines() {
        assert!(rt; gives_operation(rt.alloc(), row) == Ok(true), "{row}");
    }
}

// Returns whether the text of an item gives its section.
fn gives_section(alloc: Global, item: &Item) -> Result<bool, AllocError> {
    let section = section_of(alloc, item)?;
    Ok(ends_with(alloc, item.text, &section))
}

#[test]
fn assembles_items(rt: HostRuntime) {
    for item in &ITEMS {
        assert!(rt;
            gives_section(rt.alloc(), item) == Ok(true),
            "{}",
            item.text
        );
    }
}
