//! What a module imports and exports, before it is linked.

use crate::commands::Answer::Number;
use crate::commands::Step::{self, Load};
use crate::commands::{fresh_embedding, steps_hold};
use crate::exports::{Type, are_exports, is_type};
use core_types::ValType;
use embed::{Embedding, Imports, ModuleNumber, Refusal};
use std::alloc::Global;

// Imports of each kind, two of them of one type, and exports of imports and of the module's own definitions. Nothing that it imports
// exists.
const TEXT: &str =
    "(type (func (param i32) (result i64))) (import \"env\" \"f\" (func (type 0))) (import \"env\" \"t\" (table 3 9 funcref)) \
    (import \"env\" \"m\" (memory 1 5)) (import \"\" \"g\" (global i64)) (import \"other\" \"f\" (func (type 0))) (func) \
    (table 2 7 funcref) (global (mut i32) i32.const 7) (export \"imported\" (func 1)) (export \"own\" (func 2)) \
    (export \"table\" (table 1)) (export \"memory\" (memory 0)) (export \"global\" (global 0)) (export \"counter\" (global 1))";

#[rattlefmt::skip]
static IMPORTS: [(&str, &str, Type); 5] = [
    ("env", "f", Type::Function(ValType::I32, ValType::I64)),
    ("env", "t", Type::Table(3, 9)),
    ("env", "m", Type::Memory(1, 5)),
    ("", "g", Type::Global(ValType::I64, false)),
    ("other", "f", Type::Function(ValType::I32, ValType::I64)),
];

#[rattlefmt::skip]
static EXPORTS: [(&str, Type); 6] = [
    ("imported", Type::Function(ValType::I32, ValType::I64)),
    ("own", Type::Action),
    ("table", Type::Table(2, 7)),
    ("memory", Type::Memory(1, 5)),
    ("global", Type::Global(ValType::I64, false)),
    ("counter", Type::Global(ValType::I32, true)),
];

static LOADED: [Step; 1] = [Load(TEXT, Number(0))];

fn embedding_with_module(alloc: Global) -> Option<Embedding> {
    let mut at = fresh_embedding(alloc)?;
    steps_hold(alloc, &mut at, &LOADED).then_some(at)
}

// Returns whether these are the imports, and the two functions share their type.
fn are_imports(found: &Imports) -> bool {
    found.types.len() == 4
        && found.imports.len() == IMPORTS.len()
        && found.imports.iter().zip(&IMPORTS).all(|(import, (module_name, name, ty))| {
            import.module_name.as_str() == *module_name
                && import.name.as_str() == *name
                && is_type(found.types.get(import.ty), *ty)
        })
}

fn has_imports(at: &Embedding) -> bool {
    match at.module_imports(ModuleNumber(0)) {
        Ok(found) => are_imports(&found),
        Err(_) => false,
    }
}

// Returns whether the module has its imports, and an unknown module is refused.
fn imports_are_so(alloc: Global) -> bool {
    match embedding_with_module(alloc) {
        Some(at) => {
            has_imports(&at)
                && matches!(
                    at.module_imports(ModuleNumber(1)),
                    Err(Refusal::UnknownModule)
                )
        }
        None => false,
    }
}

fn has_exports(at: &Embedding) -> bool {
    match at.module_exports(ModuleNumber(0)) {
        Ok(found) => are_exports(&found, &EXPORTS),
        Err(_) => false,
    }
}

// Returns whether the module has its exports, and an unknown module is refused.
fn exports_are_so(alloc: Global) -> bool {
    match embedding_with_module(alloc) {
        Some(at) => {
            has_exports(&at)
                && matches!(
                    at.module_exports(ModuleNumber(1)),
                    Err(Refusal::UnknownModule)
                )
        }
        None => false,
    }
}

#[test]
fn imports_of_a_module_have_their_types(rt: HostRuntime) {
    assert!(rt; imports_are_so(rt.alloc()));
}

#[test]
fn exports_of_a_module_have_their_types(rt: HostRuntime) {
    assert!(rt; exports_are_so(rt.alloc()));
}
