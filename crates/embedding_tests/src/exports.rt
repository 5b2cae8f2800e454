//! The types of what an instance exports.

use crate::commands::Answer::{Number, Values};
use crate::commands::Step::{self, Call, Link, Load};
use crate::commands::{fresh_embedding, steps_hold};
use core_types::{ExternType, Mutability, ValType};
use embed::{Embedding, Exports, InstanceNumber, Refusal};
use std::alloc::{AllocError, Global};

// An export of each kind, and a function that grows the memory by two pages.
const TEXT: &str =
    "(func (param i32) (result i64) i64.const 1) (func i32.const 2 memory.grow drop) (table 3 9 funcref) (memory 1 5) \
    (global (mut i64) i64.const 7) (export \"function\" (func 0)) (export \"grow\" (func 1)) (export \"table\" (table 0)) \
    (export \"memory\" (memory 0)) (export \"global\" (global 0)) (export \"again\" (func 0))";

// The type of an export.
#[derive(Clone, Copy)]
pub enum Type {
    Nothing,
    // A function without parameters and results.
    Action,
    // The first parameter, and the first result.
    Function(ValType, ValType),
    // The minimum and the maximum.
    Table(u32, u32),
    Memory(u32, u32),
    // The type, and whether it is mutable.
    Global(ValType, bool),
}

struct Row {
    instance: u64,
    name: &'static str,
    ty: Type,
}

#[rattlefmt::skip]
static ROWS: [Row; 6] = [
    Row { instance: 0, name: "function", ty: Type::Function(ValType::I32, ValType::I64) },
    Row { instance: 0, name: "table", ty: Type::Table(3, 9) },
    Row { instance: 0, name: "memory", ty: Type::Memory(3, 5) },
    Row { instance: 0, name: "global", ty: Type::Global(ValType::I64, true) },
    Row { instance: 0, name: "missing", ty: Type::Nothing },
    Row { instance: 1, name: "function", ty: Type::Nothing },
];

// What the instance exports, in order.
#[rattlefmt::skip]
static EXPORTS: [(&str, Type); 6] = [
    ("function", Type::Function(ValType::I32, ValType::I64)),
    ("grow", Type::Action),
    ("table", Type::Table(3, 9)),
    ("memory", Type::Memory(3, 5)),
    ("global", Type::Global(ValType::I64, true)),
    ("again", Type::Function(ValType::I32, ValType::I64)),
];

pub fn is_type(found: Option<&ExternType>, wanted: Type) -> bool {
    match (found, wanted) {
        (None, Type::Nothing) => true,
        (Some(ExternType::Func(ty)), Type::Action) => ty.params.is_empty() && ty.results.is_empty(),
        (Some(ExternType::Func(ty)), Type::Function(param, result_type)) => {
            ty.params.as_slice() == [param].as_slice()
                && ty.results.as_slice() == [result_type].as_slice()
        }
        (Some(ExternType::Table(ty)), Type::Table(min, max)) => {
            ty.limits.min == min && ty.limits.max == Some(max)
        }
        (Some(ExternType::Memory(limits)), Type::Memory(min, max)) => {
            limits.min == min && limits.max == Some(max)
        }
        (Some(ExternType::Global(ty)), Type::Global(value, is_var)) => {
            ty.value == value && matches!(ty.mutability, Mutability::Var) == is_var
        }
        _ => false,
    }
}

// An instance of the module, whose memory is grown.
static GROWN: [Step; 3] = [
    Load(TEXT, Number(0)),
    Link(0, Number(0)),
    Call(0, "grow", &[], Values(&[])),
];

fn embedding_with_instance(alloc: Global) -> Option<Embedding> {
    let mut at = fresh_embedding(alloc)?;
    steps_hold(alloc, &mut at, &GROWN).then_some(at)
}

fn rows() -> &'static [Row] {
    &ROWS
}

// Returns whether a result is the type of a row.
fn is_right(answer: Result<Option<ExternType>, AllocError>, row: &Row) -> bool {
    match answer {
        Ok(found) => is_type(found.as_ref(), row.ty),
        Err(_) => false,
    }
}

// Returns whether an export has its type.
fn is_so(at: &Embedding, row: &Row) -> bool {
    is_right(at.export_type(InstanceNumber(row.instance), row.name), row)
}

// Returns whether all exports have their types.
fn all_are_so(alloc: Global) -> bool {
    let Some(at) = embedding_with_instance(alloc) else {
        return false;
    };
    let mut all = true;
    for row in rows() {
        all &= is_so(&at, row);
    }
    all
}

#[test]
fn exports_have_their_types(rt: HostRuntime) {
    assert!(rt; all_are_so(rt.alloc()));
}

#[test]
fn call_always_out_of_memory(rt: HostRuntime) {
    for row in rows() {
        assert!(rt; !is_right(Err(AllocError), row), "{}", row.name);
    }
}

pub fn are_exports(found: &Exports, wanted: &[(&str, Type)]) -> bool {
    found.exports.len() == wanted.len()
        && found.exports.iter().zip(wanted).all(|(export, (name, ty))| export.name.as_str() == *name
            && is_type(found.types.get(export.ty), *ty))
}

fn has_exports(at: &Embedding, instance: u64, wanted: &[(&str, Type)]) -> bool {
    match at.exports(InstanceNumber(instance)) {
        Ok(found) => are_exports(&found, wanted),
        Err(_) => false,
    }
}

// Returns whether the instance has its exports, and an unknown instance is refused.
fn exports_are_so(alloc: Global) -> bool {
    match embedding_with_instance(alloc) {
        Some(at) => {
            has_exports(&at, 0, &EXPORTS)
                && matches!(at.exports(InstanceNumber(1)), Err(Refusal::UnknownInstance))
        }
        None => false,
    }
}

// Returns whether this many types are listed for the exports of the instance.
fn has_types(at: &Embedding, count: usize) -> bool {
    match at.exports(InstanceNumber(0)) {
        Ok(found) => found.types.len() == count,
        Err(_) => false,
    }
}

// Returns whether two exports of one function share their type.
fn types_are_shared(alloc: Global) -> bool {
    match embedding_with_instance(alloc) {
        Some(at) => has_types(&at, 5),
        None => false,
    }
}

// Returns whether a result is the export of a row, or that there is none.
fn is_named(answer: Result<Exports, Refusal>, row: &Row) -> bool {
    match answer {
        Ok(found) => are_exports(&found, &[(row.name, row.ty)]),
        Err(Refusal::UnknownInstance) => row.instance == 1,
        Err(Refusal::UnknownExport) => row.instance == 0 && matches!(row.ty, Type::Nothing),
        Err(_) => false,
    }
}

// Returns whether each export is found by its name.
fn all_are_named(alloc: Global) -> bool {
    let Some(at) = embedding_with_instance(alloc) else {
        return false;
    };
    let mut all = true;
    for row in rows() {
        all &= is_named(at.export_named(InstanceNumber(row.instance), row.name), row);
    }
    all
}

#[test]
fn exports_are_named(rt: HostRuntime) {
    assert!(rt; all_are_named(rt.alloc()));
}

#[test]
fn functions_share_their_type(rt: HostRuntime) {
    assert!(rt; types_are_shared(rt.alloc()));
}

#[test]
fn exports_are_in_order(rt: HostRuntime) {
    assert!(rt; exports_are_so(rt.alloc()));
}
