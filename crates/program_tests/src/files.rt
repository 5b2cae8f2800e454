//! Files in memory, and paths of the file system that cannot be read.

use crate::runs::{Row, ends_so, words_of};
use std::alloc::{AllocError, Global};
use subcommands::{Files, ReadFault, System};
use testing::{assemble, bytes_of};

// What is at a path: a module in the text format, bytes in hexadecimal, or bytes for which an allocation fails.
#[derive(Clone, Copy)]
enum Content {
    Module(&'static str),
    Bytes(&'static str),
    NoMemory,
}

use Content::{Bytes, Module, NoMemory};

// A file in memory.
struct File {
    path: &'static str,
    content: Content,
}

#[rattlefmt::skip]
static FILES: [File; 16] = [
    // {"commands":[]}
    File { path: "empty.json", content: Bytes("7B22636F6D6D616E6473223A5B5D7D") },
    File { path: "m1.wasm", content: Module(r#"(func (export "add") (param i32 i32) (result i32) local.get 0 local.get 1 i32.add)"#) },
    File { path: "q.wasm", content: Module(r#"(import "spectest" "print_i32" (func (param i32))) (export "p" (func 0))"#) },
    File { path: "subtracting.wasm", content: Module(r#"(func (export "add") (param i32 i32) (result i32) local.get 0 local.get 1 i32.sub)"#) },
    // As in `m1.wasm`, with f32.add in place of i32.add.
    File { path: "floating.wasm", content: Bytes("0061736D01000000 010701 60027F7F017F 03020100 07070103 616464 0000 0A09010700 20002001 92 0B") },
    // The body leaves no result.
    File { path: "empty_body.wasm", content: Module(r#"(func (export "add") (param i32 i32) (result i32))"#) },
    File { path: "memory.wasm", content: Module("(memory 1)") },
    File { path: "table.wasm", content: Module("(table 1 funcref)") },
    // The start of a module.
    File { path: "short.wasm", content: Bytes("0061736D010000") },
    File { path: "huge.wasm", content: NoMemory },
    File { path: "calling.wasm", content: Module(r#"(func (export "f") (result i32) call 1) (func (result i32) i32.const 7)"#) },
    File { path: "calling_itself.wasm", content: Module(r#"(func (export "f") (result i32) call 0)"#) },
    File {
        path: "down.wasm",
        content: Module(r#"(func (export "down") (param i32) (result i32)
            local.get 0 if local.get 0 i32.const 1 i32.sub return_call 0 end i32.const 9)"#),
    },
    File { path: "unreachable.wasm", content: Module(r#"(func (export "f") (result i32) unreachable)"#) },
    File { path: "dividing_by_zero.wasm", content: Module(r#"(func (export "f") (result i32) i32.const 1 i32.const 0 i32.div_s)"#) },
    File { path: "overflowing.wasm", content: Module(r#"(func (export "f") (result i32) i32.const 2147483648 i32.const 4294967295 i32.div_s)"#) },
];

fn file_at(path: &str) -> Option<&'static File> {
    for file in &FILES {
        if file.path == path {
            return Some(file);
        }
    }
    None
}

fn bytes_in(alloc: Global, content: Content) -> Option<Vec<u8>> {
    match content {
        Module(text) => assemble(alloc, text).ok(),
        Bytes(text) => bytes_of(alloc, text).ok(),
        NoMemory => None,
    }
}

/// The files of the table.
#[derive(Drop)]
pub struct FewFiles {
    pub alloc: Global,
}

impl Files for FewFiles {
    fn read(&mut self, path: &str) -> Result<Vec<u8>, ReadFault> {
        match file_at(path) {
            Some(file) => bytes_in(self.alloc, file.content).ok_or(ReadFault::Memory),
            None => Err(ReadFault::Failed),
        }
    }
}

/// Returns whether the run of a row, with the files of the table, ends as the row states. Fails if an allocation fails.
pub fn agrees(alloc: Global, row: &Row) -> Result<bool, AllocError> {
    let words = words_of(alloc, row.words)?;
    Ok(ends_so(alloc, words.as_slice(), &mut FewFiles { alloc }, row.ending))
}

// Returns the bytes of a module with these sections, which are in hexadecimal.
fn module_of(alloc: Global, sections: &str) -> Result<Vec<u8>, AllocError> {
    let text = format!(in alloc; "0061736D01000000 {sections}")?;
    bytes_of(alloc, text.as_str())
}

/// A module with these sections at each path. The sections are in hexadecimal.
#[derive(Drop)]
pub struct OneModule<'a> {
    pub alloc: Global,
    pub sections: &'a str,
}

impl Files for OneModule<'_> {
    fn read(&mut self, _path: &str) -> Result<Vec<u8>, ReadFault> {
        match module_of(self.alloc, self.sections) {
            Ok(bytes) => Ok(bytes),
            Err(_) => Err(ReadFault::Memory),
        }
    }
}

/// A module in the text format at each path.
#[derive(Drop)]
pub struct TextModule<'a> {
    pub alloc: Global,
    pub text: &'a str,
}

impl Files for TextModule<'_> {
    fn read(&mut self, _path: &str) -> Result<Vec<u8>, ReadFault> {
        match assemble(self.alloc, self.text) {
            Ok(bytes) => Ok(bytes),
            Err(_) => Err(ReadFault::Failed),
        }
    }
}

fn fails<F: Files>(files: &mut F, path: &str) -> bool {
    match files.read(path) {
        Err(ReadFault::Failed) => true,
        Ok(_) | Err(ReadFault::Memory) => false,
    }
}

#[test]
fn unreadable_paths_fail(rt: HostRuntime) {
    for path in ["no/such/file", ".", "", "m1\0.wasm"] {
        assert!(rt; fails(&mut System::new(&rt), path), "{path:?}");
    }
}
