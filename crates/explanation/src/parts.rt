//! What is wrong with the parts of a module outside of bodies.

use crate::constants::{ConstantFault, Constants, constant_fault};
use crate::externs::write_signature;
use crate::names::shown;
use crate::types::{name_of, reference_type};
use core_types::{
    DataMode, DataSegment, ElementItems, ElementMode, ElementSegment, Export, ExportDesc,
    Expression, Func, FuncType, Import, ImportDesc, Limits, MAX_PAGES, Module, RefType, ValType,
    item,
};
use index_spaces::IndexSpaces;
use std::alloc::{AllocError, Global};
use std::collections::BTreeMap;
use thiserror::Error;

// What is wrong with limits.
#[derive(Clone, Copy, Debug, Error)]
enum LimitsFault {
    #[error("minimum {0} is above the maximum {1}")]
    Minimum(u32, u32),
    #[error("{0} {1} pages, the maximum is 65536")]
    Pages(&'static str, u32),
}

// What is wrong with a constant expression of a name.
#[derive(Clone, Copy, Debug, Error)]
enum ExpressionFault {
    #[error("{0} is no constant expression of type {1}")]
    NotConstant(&'static str, &'static str),
    #[error("{0} has type {1}, expected {2}")]
    Type(&'static str, &'static str, &'static str),
}

// What is wrong with a part of a module.
#[derive(Clone, Copy, Debug, Error)]
enum PartFault {
    /// What is named is not there, and there are that many.
    #[error("{0} {1} is not there, and there are {2}")]
    Missing(&'static str, u32, usize),
    #[error("{0}")]
    Limits(LimitsFault),
    #[error("at most one memory is allowed")]
    SecondMemory,
    #[error("duplicate name")]
    Duplicate,
    #[error("{0}")]
    Expression(ExpressionFault),
    #[error("references of type {0}, and table {1} has {2}")]
    Table(&'static str, u32, &'static str),
}

// Returns what is wrong with limits.
fn limits_fault(limits: Limits) -> Option<PartFault> {
    match limits.max {
        Some(max) if max < limits.min => Some(PartFault::Limits(LimitsFault::Minimum(
            limits.min, max,
        ))),
        _ => None,
    }
}

// Returns what is wrong with the limits of a memory.
fn pages_fault(limits: Limits) -> Option<PartFault> {
    let (bound, pages) = match limits.max {
        _ if limits.min > MAX_PAGES => ("minimum", limits.min),
        Some(max) if max > MAX_PAGES => ("maximum", max),
        _ => return limits_fault(limits),
    };
    Some(PartFault::Limits(LimitsFault::Pages(bound, pages)))
}

// Returns that nothing has an index, if nothing has.
fn missing(kind: &'static str, index: u32, count: usize) -> Option<PartFault> {
    (index as usize >= count).then_some(PartFault::Missing(kind, index, count))
}

fn import_fault(types: usize, import: &Import) -> Option<PartFault> {
    match import.desc {
        ImportDesc::Func(ty) => missing("type", ty, types),
        ImportDesc::Table(ty) => limits_fault(ty.limits),
        ImportDesc::Memory(limits) => pages_fault(limits),
        ImportDesc::Global(_) => None,
    }
}

// Returns the text of the first import with a fault.
fn explain_imports(alloc: Global, module: &Module) -> Result<Option<String>, AllocError> {
    for (index, import) in module.imports.as_slice().iter().enumerate() {
        if let Some(fault) = import_fault(module.types.len(), import) {
            let module_name = shown(import.module_name.as_str());
            let name = shown(import.name.as_str());
            return Ok(Some(format!(in alloc;
                "import {index} ({module_name:?} {name:?}): {fault}"
            )?));
        }
    }
    Ok(None)
}

// Returns the first fault in a list, with the number of its item, which comes after imported ones.
fn first_type_missing(types: usize, funcs: &[Func]) -> Option<(usize, PartFault)> {
    for (index, func) in funcs.iter().enumerate() {
        if let Some(fault) = missing("type", func.ty, types) {
            return Some((index, fault));
        }
    }
    None
}

fn first_table_fault(module: &Module) -> Option<(usize, PartFault)> {
    for (index, ty) in module.tables.as_slice().iter().enumerate() {
        if let Some(fault) = limits_fault(ty.limits) {
            return Some((index, fault));
        }
    }
    None
}

fn first_memory_fault(module: &Module) -> Option<(usize, PartFault)> {
    for (index, limits) in module.memories.as_slice().iter().enumerate() {
        if let Some(fault) = pages_fault(*limits) {
            return Some((index, fault));
        }
    }
    None
}

// Returns the fault of a constant expression of this name.
fn expression_fault(
    name: &'static str,
    expected: ValType,
    fault: Option<ConstantFault>,
) -> Option<PartFault> {
    let expected = name_of(expected);
    let fault = match fault? {
        ConstantFault::NotConstant => ExpressionFault::NotConstant(name, expected),
        ConstantFault::OfType(found) => ExpressionFault::Type(name, found, expected),
    };
    Some(PartFault::Expression(fault))
}

fn first_global_fault(
    alloc: Global,
    constants: Constants<'_>,
) -> Result<Option<(usize, PartFault)>, AllocError> {
    for (index, global) in constants.module.globals.as_slice().iter().enumerate() {
        let expected = global.ty.value;
        let fault = constant_fault(alloc, constants, &global.init, expected)?;
        if let Some(fault) = expression_fault("initializer", expected, fault) {
            return Ok(Some((index, fault)));
        }
    }
    Ok(None)
}

// Returns that what an export names is not there, if it is not.
fn missing_export(spaces: &IndexSpaces, desc: ExportDesc) -> Option<PartFault> {
    match desc {
        ExportDesc::Func(index) => missing("function", index, spaces.functions.len()),
        ExportDesc::Table(index) => missing("table", index, spaces.tables.len()),
        ExportDesc::Memory(index) => missing("memory", index, spaces.memories.len()),
        ExportDesc::Global(index) => missing("global", index, spaces.globals.len()),
    }
}

fn first_missing_export(exports: &[Export], spaces: &IndexSpaces) -> Option<(usize, PartFault)> {
    for (index, export) in exports.iter().enumerate() {
        if let Some(fault) = missing_export(spaces, export.desc) {
            return Some((index, fault));
        }
    }
    None
}

// Returns the first export whose name was used before.
fn first_duplicate(
    alloc: Global,
    exports: &[Export],
) -> Result<Option<(usize, PartFault)>, AllocError> {
    let mut names = BTreeMap::new(alloc);
    for (index, export) in exports.iter().enumerate() {
        let name = export.name.as_str();
        if names.contains_key(name) {
            return Ok(Some((index, PartFault::Duplicate)));
        }
        names.insert(name, ())?;
    }
    Ok(None)
}

// Returns the text of an export with a fault.
fn export_text(
    alloc: Global,
    exports: &[Export],
    found: Option<(usize, PartFault)>,
) -> Result<Option<String>, AllocError> {
    let Some((index, fault)) = found else {
        return Ok(None);
    };
    let name = match exports.get(index) {
        Some(export) => shown(export.name.as_str()),
        None => "",
    };
    Ok(Some(format!(in alloc; "export {index} ({name:?}): {fault}")?))
}

fn explain_exports(
    alloc: Global,
    exports: &[Export],
    spaces: &IndexSpaces,
) -> Result<Option<String>, AllocError> {
    match first_missing_export(exports, spaces) {
        Some(found) => export_text(alloc, exports, Some(found)),
        None => export_text(alloc, exports, first_duplicate(alloc, exports)?),
    }
}

// Returns that the start function has a type.
fn start_text(alloc: Global, start: u32, ty: &FuncType) -> Result<String, AllocError> {
    let mut text = format!(in alloc; "start function {start} has type ")?;
    write_signature(&mut text, ty)?;
    Ok(text)
}

// Returns what is wrong with the start function.
fn explain_start(
    alloc: Global,
    module: &Module,
    spaces: &IndexSpaces,
) -> Result<Option<String>, AllocError> {
    let Some(start) = module.start else {
        return Ok(None);
    };
    if let Some(fault) = missing("function", start, spaces.functions.len()) {
        return Ok(Some(format!(in alloc; "start: {fault}")?));
    }
    let index = item(spaces.functions.as_slice(), start).copied();
    match index.and_then(|index| item(module.types.as_slice(), index)) {
        Some(ty) => Ok(Some(start_text(alloc, start, ty)?)),
        None => Ok(None),
    }
}

fn first_missing_function(indices: &[u32], count: usize) -> Option<PartFault> {
    for index in indices {
        if let Some(fault) = missing("function", *index, count) {
            return Some(fault);
        }
    }
    None
}

fn first_item_fault(
    alloc: Global,
    constants: Constants<'_>,
    items: &[Expression],
    expected: ValType,
) -> Result<Option<PartFault>, AllocError> {
    for ops in items {
        let fault = constant_fault(alloc, constants, ops, expected)?;
        if let Some(fault) = expression_fault("an item", expected, fault) {
            return Ok(Some(fault));
        }
    }
    Ok(None)
}

// Returns what is wrong with the references of a segment.
fn items_fault(
    alloc: Global,
    constants: Constants<'_>,
    segment: &ElementSegment,
) -> Result<Option<PartFault>, AllocError> {
    let count = constants.spaces.functions.len();
    match &segment.items {
        ElementItems::Functions(indices) => Ok(first_missing_function(indices.as_slice(), count)),
        ElementItems::Expressions(items) => {
            first_item_fault(
                alloc,
                constants,
                items.as_slice(),
                reference_type(segment.ty),
            )
        }
    }
}

// Returns what is wrong with the table of a segment.
fn table_fault(spaces: &IndexSpaces, ty: RefType, table: u32) -> Option<PartFault> {
    let Some(found) = item(spaces.tables.as_slice(), table) else {
        return missing("table", table, spaces.tables.len());
    };
    if found.element == ty {
        return None;
    }
    let other = name_of(reference_type(found.element));
    Some(PartFault::Table(name_of(reference_type(ty)), table, other))
}

fn offset_fault(
    alloc: Global,
    constants: Constants<'_>,
    offset: &Expression,
) -> Result<Option<PartFault>, AllocError> {
    let fault = constant_fault(alloc, constants, offset, ValType::I32)?;
    Ok(expression_fault("offset", ValType::I32, fault))
}

fn element_fault(
    alloc: Global,
    constants: Constants<'_>,
    segment: &ElementSegment,
) -> Result<Option<PartFault>, AllocError> {
    if let Some(fault) = items_fault(alloc, constants, segment)? {
        return Ok(Some(fault));
    }
    let ElementMode::Active { table, offset } = &segment.mode else {
        return Ok(None);
    };
    match table_fault(constants.spaces, segment.ty, *table) {
        Some(fault) => Ok(Some(fault)),
        None => offset_fault(alloc, constants, offset),
    }
}

fn first_element_fault(
    alloc: Global,
    constants: Constants<'_>,
) -> Result<Option<(usize, PartFault)>, AllocError> {
    for (index, segment) in constants.module.elements.as_slice().iter().enumerate() {
        if let Some(fault) = element_fault(alloc, constants, segment)? {
            return Ok(Some((index, fault)));
        }
    }
    Ok(None)
}

fn data_fault(
    alloc: Global,
    constants: Constants<'_>,
    segment: &DataSegment,
) -> Result<Option<PartFault>, AllocError> {
    let DataMode::Active { memory, offset } = &segment.mode else {
        return Ok(None);
    };
    match missing("memory", *memory, constants.spaces.memories.len()) {
        Some(fault) => Ok(Some(fault)),
        None => offset_fault(alloc, constants, offset),
    }
}

fn first_data_fault(
    alloc: Global,
    constants: Constants<'_>,
) -> Result<Option<(usize, PartFault)>, AllocError> {
    for (index, segment) in constants.module.datas.as_slice().iter().enumerate() {
        if let Some(fault) = data_fault(alloc, constants, segment)? {
            return Ok(Some((index, fault)));
        }
    }
    Ok(None)
}

// Returns the text of an item of this kind with a fault. Before the module's own items come imported ones.
fn item_text(
    alloc: Global,
    kind: &'static str,
    imported: usize,
    found: Option<(usize, PartFault)>,
) -> Result<Option<String>, AllocError> {
    let Some((own, fault)) = found else {
        return Ok(None);
    };
    let index = imported.saturating_add(own);
    Ok(Some(format!(in alloc; "{kind} {index}: {fault}")?))
}

// Returns what is wrong with the memories of a module, of which that many are imported.
fn memories_fault(module: &Module, imported: usize) -> Option<(usize, PartFault)> {
    match first_memory_fault(module) {
        Some(found) => Some(found),
        None => Some((1_usize.saturating_sub(imported), PartFault::SecondMemory)),
    }
}

// Returns what the items of the section of an id are, and how many are imported before them.
fn items_of(constants: Constants<'_>, id: u8) -> (&'static str, usize) {
    let (module, spaces) = (constants.module, constants.spaces);
    let (kind, all, own) = match id {
        3 => ("function", spaces.functions.len(), module.funcs.len()),
        4 => ("table", spaces.tables.len(), module.tables.len()),
        5 => ("memory", spaces.memories.len(), module.memories.len()),
        6 => ("global", spaces.globals.len(), module.globals.len()),
        9 => ("element segment", 0, 0),
        _ => ("data segment", 0, 0),
    };
    (kind, all.saturating_sub(own))
}

// Returns the first fault of the section of an id.
fn first_fault(
    alloc: Global,
    constants: Constants<'_>,
    id: u8,
    imported: usize,
) -> Result<Option<(usize, PartFault)>, AllocError> {
    let module = constants.module;
    match id {
        3 => Ok(first_type_missing(module.types.len(), module.funcs.as_slice())),
        4 => Ok(first_table_fault(module)),
        5 => Ok(memories_fault(module, imported)),
        6 => first_global_fault(alloc, constants),
        9 => first_element_fault(alloc, constants),
        11 => first_data_fault(alloc, constants),
        _ => Ok(None),
    }
}

// Returns why a section of items that have no name is not valid.
fn explain_items(
    alloc: Global,
    constants: Constants<'_>,
    id: u8,
) -> Result<Option<String>, AllocError> {
    let (kind, imported) = items_of(constants, id);
    let found = first_fault(alloc, constants, id, imported)?;
    item_text(alloc, kind, imported, found)
}

/// Returns why a section of a module is not valid, by its id, or none if that is not known.
///
/// # Errors
///
/// Fails if an allocation fails.
pub fn explain_section(
    alloc: Global,
    module: &Module,
    id: u8,
) -> Result<Option<String>, AllocError> {
    let spaces = &IndexSpaces::new(alloc, module)?;
    match id {
        2 => explain_imports(alloc, module),
        7 => explain_exports(alloc, module.exports.as_slice(), spaces),
        8 => explain_start(alloc, module, spaces),
        _ => explain_items(alloc, Constants { module, spaces }, id),
    }
}
