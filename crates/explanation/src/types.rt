//! Types, and lists of one and of two.

use core_types::{BlockType, FuncType, RefType, ValType, Width, item};

/// What an instruction takes and gives.
#[derive(Clone, Copy)]
pub struct Signature<'a> {
    pub takes: &'a [ValType],
    pub gives: &'a [ValType],
}

static I32_ONCE: [ValType; 1] = [ValType::I32];

static I64_ONCE: [ValType; 1] = [ValType::I64];

static FUNC_REF_ONCE: [ValType; 1] = [ValType::FuncRef];

static EXTERN_REF_ONCE: [ValType; 1] = [ValType::ExternRef];

static I64_TWICE: [ValType; 2] = [ValType::I64, ValType::I64];

static I32_AND_I32: [ValType; 2] = [ValType::I32, ValType::I32];

static I32_AND_I64: [ValType; 2] = [ValType::I32, ValType::I64];

static I32_AND_FUNC_REF: [ValType; 2] = [ValType::I32, ValType::FuncRef];

static I32_AND_EXTERN_REF: [ValType; 2] = [ValType::I32, ValType::ExternRef];

static FUNC_REF_AND_I32: [ValType; 2] = [ValType::FuncRef, ValType::I32];

static EXTERN_REF_AND_I32: [ValType; 2] = [ValType::ExternRef, ValType::I32];

static I32_THRICE: [ValType; 3] = [ValType::I32, ValType::I32, ValType::I32];

static FUNC_REF_BETWEEN: [ValType; 3] = [ValType::I32, ValType::FuncRef, ValType::I32];

static EXTERN_REF_BETWEEN: [ValType; 3] = [ValType::I32, ValType::ExternRef, ValType::I32];

/// Returns a list of one type.
pub fn once(ty: ValType) -> &'static [ValType] {
    match ty {
        ValType::I32 => &I32_ONCE,
        ValType::I64 => &I64_ONCE,
        ValType::FuncRef => &FUNC_REF_ONCE,
        ValType::ExternRef => &EXTERN_REF_ONCE,
    }
}

/// Returns a list of an integer type, twice.
pub fn twice(width: Width) -> &'static [ValType] {
    match width {
        Width::W32 => &I32_AND_I32,
        Width::W64 => &I64_TWICE,
    }
}

/// Returns a list of three i32.
pub fn three_numbers() -> &'static [ValType] {
    &I32_THRICE
}

/// Returns a list of an i32 and a type.
pub fn over_i32(ty: ValType) -> &'static [ValType] {
    match ty {
        ValType::I32 => &I32_AND_I32,
        ValType::I64 => &I32_AND_I64,
        ValType::FuncRef => &I32_AND_FUNC_REF,
        ValType::ExternRef => &I32_AND_EXTERN_REF,
    }
}

/// Returns a list of a reference type and an i32.
pub fn under_i32(ty: RefType) -> &'static [ValType] {
    match ty {
        RefType::FuncRef => &FUNC_REF_AND_I32,
        RefType::ExternRef => &EXTERN_REF_AND_I32,
    }
}

/// Returns a list of an i32, a reference type, and an i32.
pub fn between_numbers(ty: RefType) -> &'static [ValType] {
    match ty {
        RefType::FuncRef => &FUNC_REF_BETWEEN,
        RefType::ExternRef => &EXTERN_REF_BETWEEN,
    }
}

/// Returns a signature.
pub fn takes_gives(takes: &'static [ValType], gives: &'static [ValType]) -> Signature<'static> {
    Signature { takes, gives }
}

pub fn integer_type(width: Width) -> ValType {
    match width {
        Width::W32 => ValType::I32,
        Width::W64 => ValType::I64,
    }
}

/// Returns the value type of references of a type.
pub fn reference_type(ty: RefType) -> ValType {
    match ty {
        RefType::FuncRef => ValType::FuncRef,
        RefType::ExternRef => ValType::ExternRef,
    }
}

/// Returns the name of a type in the text format.
pub fn name_of(ty: ValType) -> &'static str {
    match ty {
        ValType::I32 => "i32",
        ValType::I64 => "i64",
        ValType::FuncRef => "funcref",
        ValType::ExternRef => "externref",
    }
}

/// Returns the signature of a function type.
pub fn signature_of(ty: &FuncType) -> Signature<'_> {
    Signature {
        takes: ty.params.as_slice(),
        gives: ty.results.as_slice(),
    }
}

/// Returns the signature of a block, if its type exists.
pub fn signature_of_block<'a>(types: &'a [FuncType], block: BlockType) -> Option<Signature<'a>> {
    match block {
        BlockType::Empty => Some(Signature {
            takes: &[],
            gives: &[],
        }),
        BlockType::Value(ty) => Some(Signature {
            takes: &[],
            gives: once(ty),
        }),
        BlockType::Index(index) => Some(signature_of(item(types, index)?)),
    }
}
