ghost use Rattle.std.specs.Prelude.{[], IsTrue, option_map, ◌++◌, ◌↔◌, ◌∷◌, ◌≡◌};
ghost use Rattle.core_types.specs.declared.types.ValType.TheVariants.{I32};
ghost use Rattle.meaning.specs.validation.Instructions.{integer_type as type_of_width};
ghost use Rattle.meaning.specs.validation.Types.{AreOrdered, block_type, function_type as type_of, reference_type as type_of_reference};
ghost use Rattle.validator.specs.InstructionTypes.{lent_func_type, lent_type};

use core_types::{BlockType, FuncType, Limits, RefType, ValType, Width, item};

/// The type of an instruction: the operands that it takes, whether an i32 is above them, and its results.
#[derive(Clone, Copy)]
pub struct InstructionType<'a> {
    pub operands: &'a [ValType],
    pub i32_on_top: bool,
    pub results: &'a [ValType],
}

/// A function type whose lists are borrowed.
#[derive(Clone, Copy)]
pub struct LentFuncType<'a> {
    pub params: &'a [ValType],
    pub results: &'a [ValType],
}

static I32_ONCE: [ValType; 1] = [ValType::I32];

static I64_ONCE: [ValType; 1] = [ValType::I64];

static FUNC_REF_ONCE: [ValType; 1] = [ValType::FuncRef];

static EXTERN_REF_ONCE: [ValType; 1] = [ValType::ExternRef];

static I32_TWICE: [ValType; 2] = [ValType::I32, ValType::I32];

static I64_TWICE: [ValType; 2] = [ValType::I64, ValType::I64];

static FUNC_REF_TWICE: [ValType; 2] = [ValType::FuncRef, ValType::FuncRef];

static EXTERN_REF_TWICE: [ValType; 2] = [ValType::ExternRef, ValType::ExternRef];

static I32_AND_I64: [ValType; 2] = [ValType::I32, ValType::I64];

static I32_AND_FUNC_REF: [ValType; 2] = [ValType::I32, ValType::FuncRef];

static I32_AND_EXTERN_REF: [ValType; 2] = [ValType::I32, ValType::ExternRef];

// Returns one operand of the type.
pub fn once(ty: ValType) -> &'static [ValType]
    ensures { result.now ≡ ty ∷ [] }
{
    match ty {
        ValType::I32 => &I32_ONCE,
        ValType::I64 => &I64_ONCE,
        ValType::FuncRef => &FUNC_REF_ONCE,
        ValType::ExternRef => &EXTERN_REF_ONCE,
    }
}

// Returns two operands of the type.
pub fn twice(ty: ValType) -> &'static [ValType]
    ensures { result.now ≡ ty ∷ ty ∷ [] }
{
    match ty {
        ValType::I32 => &I32_TWICE,
        ValType::I64 => &I64_TWICE,
        ValType::FuncRef => &FUNC_REF_TWICE,
        ValType::ExternRef => &EXTERN_REF_TWICE,
    }
}

// Returns an i32, and an operand of the type above it.
pub fn over_i32(ty: ValType) -> &'static [ValType]
    ensures { result.now ≡ I32 ∷ ty ∷ [] }
{
    match ty {
        ValType::I32 => &I32_TWICE,
        ValType::I64 => &I32_AND_I64,
        ValType::FuncRef => &I32_AND_FUNC_REF,
        ValType::ExternRef => &I32_AND_EXTERN_REF,
    }
}

pub fn integer_type(width: Width) -> ValType
    ensures { result ≡ type_of_width width }
{
    match width {
        Width::W32 => ValType::I32,
        Width::W64 => ValType::I64,
    }
}

// Returns the value type of references of a type.
pub fn reference_type(ty: RefType) -> ValType
    ensures { result ≡ type_of_reference ty }
{
    match ty {
        RefType::FuncRef => ValType::FuncRef,
        RefType::ExternRef => ValType::ExternRef,
    }
}

// Returns the type of an instruction that takes and gives these.
pub fn takes_gives<'a>(operands: &'a [ValType], results: &'a [ValType]) -> InstructionType<'a>
    ensures { lent_type result ≡ type_of operands.now results.now }
{
    InstructionType {
        operands,
        i32_on_top: false,
        results,
    }
}

// Like `takes_gives`, with an i32 above the operands.
pub fn takes_i32_gives<'a>(operands: &'a [ValType], results: &'a [ValType]) -> InstructionType<'a>
    ensures { lent_type result ≡ type_of (operands.now ++ I32 ∷ []) results.now }
{
    InstructionType {
        operands,
        i32_on_top: true,
        results,
    }
}

// Returns a function type, borrowed.
pub fn lend<'a>(ty: &'a FuncType) -> LentFuncType<'a>
    ensures { lent_func_type result ≡ ty.now }
{
    LentFuncType {
        params: ty.params.as_slice(),
        results: ty.results.as_slice(),
    }
}

// Returns the type of a block (Validation, Block Types).
pub fn type_of_block<'a>(types: &'a [FuncType], block: BlockType) -> Option<LentFuncType<'a>>
    ensures { option_map lent_func_type result ≡ block_type types.now block }
{
    match block {
        BlockType::Empty => Some(LentFuncType {
            params: &[],
            results: &[],
        }),
        BlockType::Value(ty) => Some(LentFuncType {
            params: &[],
            results: once(ty),
        }),
        BlockType::Index(index) => match item(types, index) {
            Some(ty) => Some(lend(ty)),
            None => None,
        },
    }
}

// Returns whether the maximum, if there is one, is at least the minimum (Validation, Limits).
pub fn are_ordered(limits: Limits) -> bool
    ensures { IsTrue result ↔ AreOrdered limits }
{
    match limits.max {
        Some(max) => limits.min <= max,
        None => true,
    }
}

// Returns whether two lists are equal. Each pair of types is compared, so that the loop compares several at once.
pub fn are_equal(first: &[ValType], second: &[ValType]) -> bool
    ensures { IsTrue result ↔ (first.now ≡ second.now) }
{
    if first.len() != second.len() {
        return false;
    }
    let mut equal = true;
    for i in 0..first.len() {
        equal &= first[i] == second[i];
    }
    equal
}
