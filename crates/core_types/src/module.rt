use crate::expression::Expression;
use crate::func_body::FuncBody;
use crate::items::Items;
use crate::locals::Locals;
use crate::text::Name;
use crate::types::{FuncType, GlobalType, Limits, RefType, TableType};

/// A function of a module: the index of its type, its locals without the parameters, and its body (Structure, Modules,
/// Functions).
#[derive(Drop)]
pub struct Func {
    pub ty: u32,
    pub locals: Locals,
    pub body: FuncBody,
}

/// What an import requires. A function is given by the index of its type (Structure, Modules, Imports).
#[derive(Clone, Copy)]
pub enum ImportDesc {
    Func(u32),
    Table(TableType),
    Memory(Limits),
    Global(GlobalType),
}

/// An import under the name of a module and a name in it (Structure, Modules, Imports).
#[derive(Drop)]
pub struct Import {
    pub module_name: Name,
    pub name: Name,
    pub desc: ImportDesc,
}

/// What an export names, by its index (Structure, Modules, Exports).
#[derive(Clone, Copy)]
pub enum ExportDesc {
    Func(u32),
    Table(u32),
    Memory(u32),
    Global(u32),
}

/// An export under its name (Structure, Modules, Exports).
#[derive(Drop)]
pub struct Export {
    pub name: Name,
    pub desc: ExportDesc,
}

/// A global and its first value, as the flat operations of a constant expression without the last `End` (Structure,
/// Modules, Globals).
#[derive(Drop)]
pub struct Global {
    pub ty: GlobalType,
    pub init: Expression,
}

/// The references of an element segment: function indices, each of which represents its `ref.func`, or constant expressions.
#[derive(Drop)]
pub enum ElementItems {
    Functions(Items<u32>),
    Expressions(Items<Expression>),
}

/// Whether an element segment is copied into a table at a link, and where (Structure, Modules, Element Segments).
#[derive(Drop)]
pub enum ElementMode {
    Passive,
    Active { table: u32, offset: Expression },
    Declarative,
}

/// References for tables (Structure, Modules, Element Segments).
#[derive(Drop)]
pub struct ElementSegment {
    pub ty: RefType,
    pub items: ElementItems,
    pub mode: ElementMode,
}

/// Whether a data segment is copied into a memory at a link, and where (Structure, Modules, Data Segments).
#[derive(Drop)]
pub enum DataMode {
    Passive,
    Active { memory: u32, offset: Expression },
}

/// Bytes for memories (Structure, Modules, Data Segments).
#[derive(Drop)]
pub struct DataSegment {
    pub bytes: Items<u8>,
    pub mode: DataMode,
}

/// A module (Structure, Modules).
#[derive(Drop)]
pub struct Module {
    pub types: Items<FuncType>,
    pub imports: Items<Import>,
    pub funcs: Items<Func>,
    pub tables: Items<TableType>,
    pub memories: Items<Limits>,
    pub globals: Items<Global>,
    pub exports: Items<Export>,
    pub start: Option<u32>,
    pub elements: Items<ElementSegment>,
    pub datas: Items<DataSegment>,
}
