use crate::types::{write_func, write_global, write_memory, write_table};
use core_types::{
    DataSegment, Export, ExportDesc, FuncType, Import, ImportDesc, Limits, Module, TableType,
};
use index_spaces::IndexSpaces;
use std::io::{self, Write};

// Writes the type of a function, by its index in the list of types.
fn write_func_at<W: Write>(out: &mut W, types: &[FuncType], index: u32) -> io::Result<()> {
    match types.get(index as usize) {
        Some(ty) => write_func(out, ty),
        None => write!(out, "(func)"),
    }
}

// Writes a line for an import.
fn write_import<W: Write>(out: &mut W, types: &[FuncType], import: &Import) -> io::Result<()> {
    write!(
        out,
        "import {:?} {:?} ",
        import.module_name.as_str(),
        import.name.as_str()
    )?;
    match import.desc {
        ImportDesc::Func(ty) => write_func_at(out, types, ty)?,
        ImportDesc::Table(ty) => write_table(out, ty)?,
        ImportDesc::Memory(limits) => write_memory(out, limits)?,
        ImportDesc::Global(ty) => write_global(out, ty)?,
    }
    writeln!(out)
}

// Writes the type of what an export refers to.
fn write_exported<W: Write>(
    out: &mut W,
    types: &[FuncType],
    spaces: &IndexSpaces,
    desc: ExportDesc,
) -> io::Result<()> {
    match desc {
        ExportDesc::Func(index) => match spaces.functions.get(index as usize) {
            Some(ty) => write_func_at(out, types, *ty),
            None => Ok(()),
        },
        ExportDesc::Table(index) => match spaces.tables.get(index as usize) {
            Some(ty) => write_table(out, *ty),
            None => Ok(()),
        },
        ExportDesc::Memory(index) => match spaces.memories.get(index as usize) {
            Some(limits) => write_memory(out, *limits),
            None => Ok(()),
        },
        ExportDesc::Global(index) => match spaces.globals.get(index as usize) {
            Some(ty) => write_global(out, *ty),
            None => Ok(()),
        },
    }
}

// Writes a line for an export.
fn write_export<W: Write>(
    out: &mut W,
    types: &[FuncType],
    spaces: &IndexSpaces,
    export: &Export,
) -> io::Result<()> {
    write!(out, "export {:?} ", export.name.as_str())?;
    write_exported(out, types, spaces, export.desc)?;
    writeln!(out)
}

fn write_imports<W: Write>(out: &mut W, module: &Module) -> io::Result<()> {
    for import in module.imports.as_slice() {
        write_import(out, module.types.as_slice(), import)?;
    }
    Ok(())
}

fn write_exports<W: Write>(out: &mut W, module: &Module, spaces: &IndexSpaces) -> io::Result<()> {
    for export in module.exports.as_slice() {
        write_export(out, module.types.as_slice(), spaces, export)?;
    }
    Ok(())
}

fn write_tables<W: Write>(out: &mut W, tables: &[TableType]) -> io::Result<()> {
    for ty in tables {
        write_table(out, *ty)?;
        writeln!(out)?;
    }
    Ok(())
}

fn write_memories<W: Write>(out: &mut W, memories: &[Limits]) -> io::Result<()> {
    for limits in memories {
        write_memory(out, *limits)?;
        writeln!(out)?;
    }
    Ok(())
}

fn count_bytes(datas: &[DataSegment]) -> u64 {
    let mut count: u64 = 0;
    for data in datas {
        count = count.saturating_add(data.bytes.len() as u64);
    }
    count
}

// Writes the lines for functions and globals.
fn write_functions<W: Write>(out: &mut W, module: &Module, operations: u64) -> io::Result<()> {
    let count = module.funcs.len();
    writeln!(out, "functions {count}, operations {operations}")?;
    writeln!(out, "globals {}", module.globals.len())
}

// Writes the lines for segments.
fn write_segments<W: Write>(out: &mut W, module: &Module) -> io::Result<()> {
    let count = module.datas.len();
    let bytes = count_bytes(module.datas.as_slice());
    writeln!(out, "element segments {}", module.elements.len())?;
    writeln!(out, "data segments {count}, bytes {bytes}")
}

// Writes a line for the start function, if there is one.
fn write_start<W: Write>(out: &mut W, module: &Module) -> io::Result<()> {
    match module.start {
        Some(index) => writeln!(out, "start function {index}"),
        None => Ok(()),
    }
}

// Writes the lines for the module's own definitions.
fn write_sizes<W: Write>(out: &mut W, module: &Module, operations: u64) -> io::Result<()> {
    write_tables(out, module.tables.as_slice())?;
    write_memories(out, module.memories.as_slice())?;
    write_functions(out, module, operations)?;
    write_segments(out, module)?;
    write_start(out, module)
}

/// Writes what a module imports, exports and defines, one line each, with its index spaces and the number of operations of its
/// functions. Fails if the writer fails.
pub fn write_module<W: Write>(
    out: &mut W,
    module: &Module,
    spaces: &IndexSpaces,
    operations: u64,
) -> io::Result<()> {
    write_imports(out, module)?;
    write_exports(out, module, spaces)?;
    write_sizes(out, module, operations)
}
