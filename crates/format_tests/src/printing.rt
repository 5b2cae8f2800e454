//! Modules in the standard's text format, each field after a blank.

use crate::mnemonics::{
    Printed, print_indexed, print_operation, print_types, reference_name, type_name,
};
use binary::BodyReader;
use core_types::{
    DataMode, DataSegment, ElementItems, ElementMode, ElementSegment, Export, ExportDesc,
    Expression, Func, FuncBody, FuncType, Global as ModuleGlobal, GlobalType, Import, ImportDesc,
    Limits, Module, Mutability, TableType, ValType, lent,
};
use std::alloc::{AllocError, Global};

fn print_limits(out: &mut String, limits: Limits) -> Printed {
    print_indexed(out, "", limits.min)?;
    match limits.max {
        Some(max) => print_indexed(out, "", max),
        None => Ok(()),
    }
}

fn print_table_type(out: &mut String, ty: TableType) -> Printed {
    out.push_str("table")?;
    print_limits(out, ty.limits)?;
    out.push_str(reference_name(ty.element))
}

fn print_memory_type(out: &mut String, limits: Limits) -> Printed {
    out.push_str("memory")?;
    print_limits(out, limits)
}

fn print_global_type(out: &mut String, ty: GlobalType) -> Printed {
    match ty.mutability {
        Mutability::Const => {
            out.push_str("global ")?;
            out.push_str(type_name(ty.value))
        }
        Mutability::Var => print_types(out, "global (mut", &[ty.value]),
    }
}

// Prints a list of types under a keyword, if there are any.
fn print_some(out: &mut String, keyword: &str, types: &[ValType]) -> Printed {
    if types.is_empty() {
        return Ok(());
    }
    print_types(out, keyword, types)
}

fn print_function_type(out: &mut String, ty: &FuncType) -> Printed {
    out.push_str(" (type (func")?;
    print_some(out, " (param", ty.params.as_slice())?;
    print_some(out, " (result", ty.results.as_slice())?;
    out.push_str("))")
}

fn print_import(out: &mut String, import: &Import) -> Printed {
    let module_name = import.module_name.as_str();
    write!(
        out,
        " (import \"{module_name}\" \"{}\" (",
        import.name.as_str()
    )?;
    match import.desc {
        ImportDesc::Func(ty) => write!(out, "func (type {ty})")?,
        ImportDesc::Table(ty) => print_table_type(out, ty)?,
        ImportDesc::Memory(limits) => print_memory_type(out, limits)?,
        ImportDesc::Global(ty) => print_global_type(out, ty)?,
    }
    out.push_str("))")
}

fn print_operations(out: &mut String, expression: &Expression) -> Printed {
    for index in 0..expression.len() {
        out.push_str(" ")?;
        print_operation(out, expression.get(index))?;
    }
    Ok(())
}

fn print_body(alloc: Global, out: &mut String, body: &FuncBody) -> Printed {
    let mut reader = BodyReader::new(alloc, body);
    for _ in 0..usize::MAX {
        if reader.opcode().is_none() {
            break;
        }
        let Ok(op) = reader.any() else {
            return out.push_str(" malformed");
        };
        out.push_str(" ")?;
        print_operation(out, lent(&op))?;
    }
    Ok(())
}

fn print_locals(out: &mut String, func: &Func) -> Printed {
    for index in 0..func.locals.len() {
        if let Some(ty) = func.locals.get(index) {
            print_types(out, " (local", &[ty])?;
        }
    }
    Ok(())
}

fn print_function(alloc: Global, out: &mut String, func: &Func) -> Printed {
    print_indexed(out, " (func (type", func.ty)?;
    out.push_str(")")?;
    print_locals(out, func)?;
    print_body(alloc, out, &func.body)?;
    out.push_str(")")
}

fn print_table(out: &mut String, ty: TableType) -> Printed {
    out.push_str(" (")?;
    print_table_type(out, ty)?;
    out.push_str(")")
}

fn print_memory(out: &mut String, limits: Limits) -> Printed {
    out.push_str(" (")?;
    print_memory_type(out, limits)?;
    out.push_str(")")
}

fn print_global(out: &mut String, global: &ModuleGlobal) -> Printed {
    out.push_str(" (")?;
    print_global_type(out, global.ty)?;
    print_operations(out, &global.init)?;
    out.push_str(")")
}

fn print_export(out: &mut String, export: &Export) -> Printed {
    write!(out, " (export \"{}\" ", export.name.as_str())?;
    match export.desc {
        ExportDesc::Func(x) => print_indexed(out, "(func", x)?,
        ExportDesc::Table(x) => print_indexed(out, "(table", x)?,
        ExportDesc::Memory(x) => print_indexed(out, "(memory", x)?,
        ExportDesc::Global(x) => print_indexed(out, "(global", x)?,
    }
    out.push_str("))")
}

fn print_offset(out: &mut String, offset: &Expression) -> Printed {
    out.push_str(" (offset")?;
    print_operations(out, offset)?;
    out.push_str(")")
}

fn print_element_mode(out: &mut String, mode: &ElementMode) -> Printed {
    match mode {
        ElementMode::Passive => Ok(()),
        ElementMode::Active { table, offset } => {
            print_indexed(out, " (table", *table)?;
            out.push_str(")")?;
            print_offset(out, offset)
        }
        ElementMode::Declarative => out.push_str(" declare"),
    }
}

fn print_indices(out: &mut String, indices: &[u32]) -> Printed {
    out.push_str(" func")?;
    for index in indices {
        print_indexed(out, "", *index)?;
    }
    Ok(())
}

fn print_element(out: &mut String, segment: &ElementSegment) -> Printed {
    out.push_str(" (elem")?;
    print_element_mode(out, &segment.mode)?;
    match &segment.items {
        ElementItems::Functions(indices) => print_indices(out, indices.as_slice())?,
        ElementItems::Expressions(expressions) => {
            out.push_str(reference_name(segment.ty))?;
            for expression in expressions.as_slice() {
                out.push_str(" (item")?;
                print_operations(out, expression)?;
                out.push_str(")")?;
            }
        }
    }
    out.push_str(")")
}

fn print_data(out: &mut String, segment: &DataSegment) -> Printed {
    out.push_str(" (data")?;
    if let DataMode::Active { memory, offset } = &segment.mode {
        print_indexed(out, " (memory", *memory)?;
        out.push_str(")")?;
        print_offset(out, offset)?;
    }
    out.push_str(" \"")?;
    for byte in segment.bytes.as_slice() {
        write!(out, "\\{byte:02x}")?;
    }
    out.push_str("\")")
}

fn print_declarations(alloc: Global, out: &mut String, module: &Module) -> Printed {
    for ty in module.types.as_slice() {
        print_function_type(out, ty)?;
    }
    for import in module.imports.as_slice() {
        print_import(out, import)?;
    }
    for func in module.funcs.as_slice() {
        print_function(alloc, out, func)?;
    }
    for ty in module.tables.as_slice() {
        print_table(out, *ty)?;
    }
    for limits in module.memories.as_slice() {
        print_memory(out, *limits)?;
    }
    for global in module.globals.as_slice() {
        print_global(out, global)?;
    }
    Ok(())
}

fn print_exports_and_segments(out: &mut String, module: &Module) -> Printed {
    for export in module.exports.as_slice() {
        print_export(out, export)?;
    }
    if let Some(start) = module.start {
        print_indexed(out, " (start", start)?;
        out.push_str(")")?;
    }
    for segment in module.elements.as_slice() {
        print_element(out, segment)?;
    }
    for segment in module.datas.as_slice() {
        print_data(out, segment)?;
    }
    Ok(())
}

/// Returns the text of a module.
pub fn text_of(alloc: Global, module: &Module) -> Result<String, AllocError> {
    let mut out = String::new(alloc);
    print_declarations(alloc, &mut out, module)?;
    print_exports_and_segments(&mut out, module)?;
    Ok(out)
}
