pub mod references;

ghost use Rattle.std.specs.Prelude.{IsTrue, option_map, slice_get, ◌<◌, ◌↔◌, ◌≡◌};
ghost use Rattle.validator.specs.Contexts.{IsMarked, function_types, segment_type_at, table_element_at};
ghost use Rattle.validator.specs.InstructionTypes.{lent_func_type};

use crate::local_types::LocalTypes;
use crate::types::{LentFuncType, lend};
use core_types::{ElementSegment, FuncType, GlobalType, Limits, RefType, ValType, item};
use index_spaces::IndexSpaces;

/// What the body of a function is typed in (Validation, Conventions, Contexts).
#[derive(Drop)]
pub struct BodyContext<'a> {
    pub types: &'a [FuncType],
    /// The element segments, for their types.
    pub elements: &'a [ElementSegment],
    /// The number of data segments.
    pub datas: usize,
    pub spaces: &'a IndexSpaces,
    /// For each function, whether `ref.func` may name it.
    pub declared: &'a [bool],
    /// The types of the locals, parameters first.
    pub locals: LocalTypes<'a>,
    pub results: &'a [ValType],
}

#[inline(always)]
pub fn local_type(context: &BodyContext<'_>, index: u32) -> Option<ValType>
    ensures { result ≡ slice_get context.now.locals index }
{
    context.locals.get(index)
}

pub fn global_type(context: &BodyContext<'_>, index: u32) -> Option<GlobalType>
    ensures { result ≡ slice_get context.now.spaces.now.globals.items index }
{
    item(&context.spaces.globals, index).copied()
}

pub fn table_element(context: &BodyContext<'_>, index: u32) -> Option<RefType>
    ensures { result ≡ table_element_at context.now index }
{
    match item(&context.spaces.tables, index) {
        Some(table) => Some(table.element),
        None => None,
    }
}

// Returns the type of the references of an element segment.
pub fn segment_type(context: &BodyContext<'_>, index: u32) -> Option<RefType>
    ensures { result ≡ segment_type_at context.now index }
{
    match item(context.elements, index) {
        Some(segment) => Some(segment.ty),
        None => None,
    }
}

pub fn has_data(context: &BodyContext<'_>, index: u32) -> bool
    ensures { IsTrue result ↔ (index < context.now.datas) }
{
    (index as usize) < context.datas
}

pub fn memory_type(context: &BodyContext<'_>) -> Option<Limits>
    ensures { result ≡ slice_get context.now.spaces.now.memories.items 0 }
{
    item(&context.spaces.memories, 0).copied()
}

// Returns whether `ref.func` may name a function.
pub fn is_declared(context: &BodyContext<'_>, index: u32) -> bool
    ensures { IsTrue result ↔ IsMarked context.now index }
{
    match item(context.declared, index) {
        Some(declared) => *declared,
        None => false,
    }
}

pub fn function_type<'a>(context: &BodyContext<'a>, index: u32) -> Option<LentFuncType<'a>>
    ensures { option_map lent_func_type result ≡ slice_get (function_types context.now) index }
{
    let type_index = item(&context.spaces.functions, index)?;
    match item(context.types, *type_index) {
        Some(ty) => Some(lend(ty)),
        None => Some(LentFuncType {
            params: &[],
            results: &[],
        }),
    }
}
