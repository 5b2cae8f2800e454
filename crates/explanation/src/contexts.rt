//! What a body may name.

use crate::faults::{Fault, Kind};
use crate::types::{Signature, signature_of};
use core_types::{
    ElementItems, ElementSegment, Export, ExportDesc, Expression, Func, FuncType,
    Global as ModuleGlobal, GlobalType, Module, PlainOp, RefType, ReferenceOp, ValType, item,
    plain_op,
};
use index_spaces::IndexSpaces;
use std::alloc::{AllocError, Global};

/// What a body may name.
#[derive(Clone, Copy)]
pub struct Context<'a> {
    pub module: &'a Module,
    pub spaces: &'a IndexSpaces,
    pub func: &'a Func,
    pub ty: &'a FuncType,
    /// For each function, whether it is named outside of bodies and the start.
    pub named: &'a [bool],
}

// Returns the item of an index, or the fault that there is none.
fn find<T>(kind: Kind, items: &[T], index: u32) -> Result<&T, Fault> {
    match item(items, index) {
        Some(found) => Ok(found),
        None => Err(Fault::Unknown(kind, index, items.len())),
    }
}

pub fn find_type<'a>(context: Context<'a>, index: u32) -> Result<Signature<'a>, Fault> {
    let ty = find(Kind::Type, context.module.types.as_slice(), index)?;
    Ok(signature_of(ty))
}

pub fn find_function<'a>(context: Context<'a>, index: u32) -> Result<Signature<'a>, Fault> {
    let ty = *find(Kind::Function, context.spaces.functions.as_slice(), index)?;
    find_type(context, ty)
}

/// Returns the type of a table's references.
pub fn find_table(context: Context<'_>, index: u32) -> Result<RefType, Fault> {
    let table = find(Kind::Table, context.spaces.tables.as_slice(), index)?;
    Ok(table.element)
}

pub fn find_global(context: Context<'_>, index: u32) -> Result<GlobalType, Fault> {
    Ok(*find(Kind::Global, context.spaces.globals.as_slice(), index)?)
}

pub fn find_elements(context: Context<'_>, index: u32) -> Result<RefType, Fault> {
    let segment = find(
        Kind::ElementSegment,
        context.module.elements.as_slice(),
        index,
    )?;
    Ok(segment.ty)
}

pub fn find_data(context: Context<'_>, index: u32) -> Result<(), Fault> {
    find(Kind::DataSegment, context.module.datas.as_slice(), index)?;
    Ok(())
}

/// Requires that a function exists and is named outside of bodies and the start.
pub fn need_function(context: Context<'_>, index: u32) -> Result<(), Fault> {
    let count = context.spaces.functions.len();
    match context.named.get(index as usize) {
        Some(true) => Ok(()),
        Some(false) => Err(Fault::Undeclared(index)),
        None => Err(Fault::Unknown(Kind::Function, index, count)),
    }
}

pub fn need_memory(context: Context<'_>) -> Result<(), Fault> {
    if context.spaces.memories.is_empty() {
        return Err(Fault::NoMemory);
    }
    Ok(())
}

/// Returns the type of a local. The parameters come first.
pub fn find_local(context: Context<'_>, index: u32) -> Result<ValType, Fault> {
    let params = context.ty.params.as_slice();
    if let Some(ty) = item(params, index) {
        return Ok(*ty);
    }
    match context
        .func
        .locals
        .get(index.saturating_sub(params.len() as u32))
    {
        Some(ty) => Ok(ty),
        None => {
            let count = params
                .len()
                .saturating_add(context.func.locals.len() as usize);
            Err(Fault::Unknown(Kind::Local, index, count))
        }
    }
}

// Marks a function, if it exists.
fn mark(named: &mut [bool], function: u32) {
    if let Some(mark) = named.get_mut(function as usize) {
        *mark = true;
    }
}

fn mark_expression(named: &mut [bool], ops: &Expression) {
    for k in 0..ops.len() {
        if let Some(PlainOp::Reference(ReferenceOp::Func(index))) = plain_op(ops.get(k)) {
            mark(named, index);
        }
    }
}

fn mark_globals(named: &mut [bool], globals: &[ModuleGlobal]) {
    for global in globals {
        mark_expression(named, &global.init);
    }
}

fn mark_exports(named: &mut [bool], exports: &[Export]) {
    for export in exports {
        if let ExportDesc::Func(index) = export.desc {
            mark(named, index);
        }
    }
}

fn mark_all(named: &mut [bool], indices: &[u32]) {
    for index in indices {
        mark(named, *index);
    }
}

fn mark_expressions(named: &mut [bool], items: &[Expression]) {
    for ops in items {
        mark_expression(named, ops);
    }
}

fn mark_elements(named: &mut [bool], elements: &[ElementSegment]) {
    for segment in elements {
        match &segment.items {
            ElementItems::Functions(indices) => mark_all(named, indices.as_slice()),
            ElementItems::Expressions(items) => mark_expressions(named, items.as_slice()),
        }
    }
}

/// Returns for each function of a module with so many whether it is named outside of bodies and the start.
pub fn named_functions(
    alloc: Global,
    module: &Module,
    count: usize,
) -> Result<Vec<bool>, AllocError> {
    let mut named = vec![in alloc; false; count]?;
    mark_globals(&mut named, module.globals.as_slice());
    mark_exports(&mut named, module.exports.as_slice());
    mark_elements(&mut named, module.elements.as_slice());
    Ok(named)
}
