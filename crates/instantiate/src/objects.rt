ghost use Rattle.std.specs.Prelude.{◌≡◌, ◌<◌, ◌≤◌, ◌^◌, length, map, IfOk, Some};
ghost use Rattle.std.specs.List.{All};
ghost use Rattle.core_types.specs.declared.module.Module.{Module as AnyModule};
ghost use Rattle.core_types.specs.declared.op.PlainOp.TheVariants.{Reference as ReferenceForm};
ghost use Rattle.core_types.specs.declared.op.ReferenceOp.TheVariants.{Func as FuncForm};
ghost use Rattle.meaning.specs.execution.Memories.{new_memory};
ghost use Rattle.meaning.specs.validation.Types.{most_pages};
ghost use Rattle.meaning.specs.execution.Modules.{HasRoom, constant, constant_value as value_of, map_all, new_data, new_elements, new_global, new_objects, references};
ghost use Rattle.meaning.specs.execution.Tables.{new_table};
ghost use Rattle.store.specs.Contents.{Contents, lists_of, module_instance, store_of, store_with};
ghost use Rattle.instantiate.specs.Objects.{OnNoValue};
ghost use Rattle.instantiate.specs.declared.objects.ObjectFault.TheVariants as faults;

use crate::constants::{ConstantOperands, function_reference};
use core_types::{
    ElementItems, ElementSegment as ModuleElements, Expression, Global as ModuleGlobal, Limits,
    TableType, Val,
};
use std::alloc::{AllocError, AllocFailed, Global};
use std::rc::Rc;
use store::{
    Addresses, DataSegment, ElementSegment, GlobalVariable, LoadedModule, Memory, Objects, State,
    Store, Table,
};

/// Why the objects of a module were not created.
#[derive(Clone, Copy)]
pub enum ObjectFault {
    /// A constant expression has no value.
    NoValue,
    /// An allocation failed.
    Memory,
}

impl From<AllocError> for ObjectFault {
    ghost from_gives = { λ _ fault. fault ≡ faults.Memory };

    fn from(_error: AllocError) -> ObjectFault {
        ObjectFault::Memory
    }
}

impl<T: Drop> From<AllocFailed<T>> for ObjectFault {
    ghost from_gives = { λ _ fault. fault ≡ faults.Memory };

    fn from(_error: AllocFailed<T>) -> ObjectFault {
        ObjectFault::Memory
    }
}

// Creates the tables of a module, all null.
fn new_tables(alloc: Global, wanted: &[TableType]) -> Result<Vec<Table>, AllocError>
    ensures { IfOk result (λ tables. tables.items ≡ map new_table wanted.now) }
{
    let mut tables = Vec::new(alloc);
    for k in 0..wanted.len() {
        tables.push(Table::new(alloc, wanted[k])?)?;
    }
    Ok(tables)
}

// Creates the memories of a module, all zero.
fn new_memories(alloc: Global, wanted: &[Limits]) -> Result<Vec<Memory>, AllocError>
    requires { All (λ l. l.min ≤ most_pages) wanted.now }
    ensures { IfOk result (λ memories. memories.items ≡ map new_memory wanted.now) }
{
    let mut memories = Vec::new(alloc);
    for k in 0..wanted.len() {
        memories.push(Memory::new(alloc, wanted[k])?)?;
    }
    Ok(memories)
}

// Creates a global of a module, with the value of its constant expression.
fn new_global(
    wanted: &ModuleGlobal,
    addresses: &Addresses,
    state: &State,
    operands: &mut ConstantOperands,
) -> Result<Option<GlobalVariable>, AllocError>
    ensures { IfOk result (λ variable. (code : Contents) (m : AnyModule) → variable ≡ new_global
        (store_with code state.now) (module_instance (lists_of addresses.now) m) wanted.now) }
{
    match operands.evaluate(&wanted.init, addresses, state)? {
        Some(value) => Ok(Some(GlobalVariable::new(wanted.ty, value))),
        None => Ok(None),
    }
}

// Creates the globals of a module, with the values of their constant expressions.
fn new_globals(
    alloc: Global,
    wanted: &[ModuleGlobal],
    addresses: &Addresses,
    state: &State,
    operands: &mut ConstantOperands,
) -> Result<Vec<GlobalVariable>, ObjectFault>
    ensures values { IfOk result (λ globals. (code : Contents) (m : AnyModule) → map_all (new_global
        (store_with code state.now) (module_instance (lists_of addresses.now) m)) wanted.now ≡
        Some globals.items) }
    ensures none { (code : Contents) (m : AnyModule) → OnNoValue result (map_all (new_global
        (store_with code state.now) (module_instance (lists_of addresses.now) m)) wanted.now) }
{
    let mut globals = Vec::new(alloc);
    for k in 0..wanted.len() {
        match new_global(&wanted[k], addresses, state, operands)? {
            Some(variable) => globals.push(variable)?,
            None => return Err(ObjectFault::NoValue),
        }
    }
    Ok(globals)
}

fn function_references(
    alloc: Global,
    indices: &[u32],
    addresses: &Addresses,
    state: &State,
) -> Result<Vec<Val>, ObjectFault>
    ensures values { IfOk result (λ found. (code : Contents) (m : AnyModule)
        → map_all (λ x. constant
        (store_with code state.now) (module_instance (lists_of addresses.now) m)
        (ReferenceForm (FuncForm x))) indices.now ≡ Some found.items) }
    ensures none { (code : Contents) (m : AnyModule) → OnNoValue result (map_all (λ x. constant
        (store_with code state.now) (module_instance (lists_of addresses.now) m)
        (ReferenceForm (FuncForm x))) indices.now) }
{
    let mut found = Vec::new(alloc);
    for k in 0..indices.len() {
        match function_reference(addresses, state, indices[k]) {
            Some(value) => found.push(value)?,
            None => return Err(ObjectFault::NoValue),
        }
    }
    Ok(found)
}

fn values_of(
    alloc: Global,
    expressions: &[Expression],
    addresses: &Addresses,
    state: &State,
    operands: &mut ConstantOperands,
) -> Result<Vec<Val>, ObjectFault>
    ensures values { IfOk result (λ found. (code : Contents) (m : AnyModule) → map_all (value_of
        (store_with code state.now) (module_instance (lists_of addresses.now) m)) expressions.now ≡
        Some found.items) }
    ensures none { (code : Contents) (m : AnyModule) → OnNoValue result (map_all (value_of
        (store_with code state.now) (module_instance (lists_of addresses.now) m))
        expressions.now) }
{
    let mut found = Vec::new(alloc);
    for k in 0..expressions.len() {
        match operands.evaluate(&expressions[k], addresses, state)? {
            Some(value) => found.push(value)?,
            None => return Err(ObjectFault::NoValue),
        }
    }
    Ok(found)
}

// Returns the references of an element segment.
fn references_of(
    alloc: Global,
    items: &ElementItems,
    addresses: &Addresses,
    state: &State,
    operands: &mut ConstantOperands,
) -> Result<Vec<Val>, ObjectFault>
    ensures values { IfOk result (λ found. (code : Contents) (m : AnyModule) → references
        (store_with code state.now) (module_instance (lists_of addresses.now) m) items.now ≡ Some
        found.items) }
    ensures none { (code : Contents) (m : AnyModule) → OnNoValue result (references
        (store_with code state.now) (module_instance (lists_of addresses.now) m) items.now) }
{
    match items {
        ElementItems::Functions(indices) => {
            function_references(alloc, indices.as_slice(), addresses, state)
        }
        ElementItems::Expressions(expressions) => {
            values_of(alloc, expressions.as_slice(), addresses, state, operands)
        }
    }
}

// Creates the element segments of a module, with the values of their constant expressions.
fn new_element_segments(
    alloc: Global,
    wanted: &[ModuleElements],
    addresses: &Addresses,
    state: &State,
    operands: &mut ConstantOperands,
) -> Result<Vec<ElementSegment>, ObjectFault>
    ensures values { IfOk result (λ elements. (code : Contents) (m : AnyModule) → map_all
        (new_elements (store_with code state.now) (module_instance (lists_of addresses.now) m))
        wanted.now ≡ Some elements.items) }
    ensures none { (code : Contents) (m : AnyModule) → OnNoValue result (map_all
        (new_elements (store_with code state.now) (module_instance (lists_of addresses.now) m))
        wanted.now) }
{
    let mut elements = Vec::new(alloc);
    for k in 0..wanted.len() {
        match references_of(alloc, &wanted[k].items, addresses, state, operands) {
            Ok(found) => elements.push(ElementSegment::new(wanted[k].ty, found))?,
            Err(fault) => return Err(fault),
        }
    }
    Ok(elements)
}

// Creates the data segments of a module, which share it.
fn new_datas(alloc: Global, loaded: &Rc<LoadedModule>) -> Result<Vec<DataSegment>, AllocError>
    requires { length loaded.now.value.source.datas < 2 ^ 32 }
    ensures { IfOk result (λ datas. datas.items ≡ map new_data loaded.now.value.source.datas) }
{
    let mut datas = Vec::new(alloc);
    for k in 0..loaded.as_ref().module().datas.len() {
        datas.push(DataSegment::new(loaded.clone()?, k as u32))?;
    }
    Ok(datas)
}

/// Creates the objects of a module, whose new instance has these addresses (Execution, Modules, Allocation).
pub fn new_objects(
    alloc: Global,
    store: &Store,
    loaded: &Rc<LoadedModule>,
    addresses: &Addresses,
) -> Result<Objects, ObjectFault>
    requires { HasRoom (store_of store.now) loaded.now.value.source }
    ensures values { IfOk result (λ objects. new_objects (store_of store.now)
        (module_instance (lists_of addresses.now) loaded.now.value.source)
        loaded.now.value.source ≡ Some objects) }
    ensures none { OnNoValue result (new_objects (store_of store.now)
        (module_instance (lists_of addresses.now) loaded.now.value.source)
        loaded.now.value.source) }
{
    let wanted = loaded.as_ref().module();
    let state = store.state();
    let mut operands = ConstantOperands::new(alloc);
    let globals = new_globals(
        alloc,
        wanted.globals.as_slice(),
        addresses,
        state,
        &mut operands,
    )?;
    let elements = new_element_segments(
        alloc,
        wanted.elements.as_slice(),
        addresses,
        state,
        &mut operands,
    )?;
    Ok(Objects {
        tables: new_tables(alloc, wanted.tables.as_slice())?,
        memories: new_memories(alloc, wanted.memories.as_slice())?,
        globals,
        elements,
        datas: new_datas(alloc, loaded)?,
    })
}
