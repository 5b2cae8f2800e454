//! Reserving capacity in a store, and growing its memories and tables.

use crate::attempts::Attempt;
use crate::linking::store_of;
use crate::modules::loaded_module;
use crate::texts::OBJECTS;
use crate::verdicts::Answer;
use bulkops::{mem_grow, mem_size, table_grow, table_size};
use core_types::{GlobalType, Limits, Mutability, RefType, TableType, Val, ValType};
use std::alloc::Global;
use store::{DataSegment, ElementSegment, GlobalVariable, Memory, Objects, State, Table};

// The limits of the table and of the memory.
const LIMITS: Limits = Limits {
    min: 1,
    max: Some(5),
};

// Creates one object of each kind. Returns none if an allocation fails.
fn one_of_each(alloc: Global) -> Option<Objects> {
    let ty = TableType {
        element: RefType::FuncRef,
        limits: LIMITS,
    };
    let variable = GlobalType {
        value: ValType::I32,
        mutability: Mutability::Const,
    };
    let mut objects = Objects {
        tables: Vec::new(alloc),
        memories: Vec::new(alloc),
        globals: Vec::new(alloc),
        elements: Vec::new(alloc),
        datas: Vec::new(alloc),
    };
    objects.tables.push(Table::new(alloc, ty).ok()?).ok()?;
    objects
        .memories
        .push(Memory::new(alloc, LIMITS).ok()?)
        .ok()?;
    objects
        .globals
        .push(GlobalVariable::new(variable, Val::I32(7)))
        .ok()?;
    objects
        .elements
        .push(ElementSegment::new(RefType::FuncRef, Vec::new(alloc)))
        .ok()?;
    objects
        .datas
        .push(DataSegment::new(loaded_module(alloc, OBJECTS)?, 0))
        .ok()?;
    Some(objects)
}

/// A reservation of capacity for objects, in a state without any.
#[derive(Drop)]
pub struct Reserving {
    state: State,
    objects: Objects,
}

impl Reserving {
    /// Prepares everything that the call needs. Returns none if that fails.
    pub fn prepare(alloc: Global) -> Option<Reserving> {
        Some(Reserving {
            state: State::new(alloc, 10, 10),
            objects: one_of_each(alloc)?,
        })
    }
}

impl Attempt for Reserving {
    fn attempt(&mut self) -> Answer {
        let answer = self.state.reserve_all(&self.objects);
        if self.state.table_count() > 0 || self.state.memory_count() > 0 {
            return Answer::Wrong;
        }
        match answer {
            Ok(()) => Answer::Ample,
            Err(_) => Answer::Wanting,
        }
    }
}

// Returns the state of a store with one object of each kind.
fn state_with_objects(alloc: Global) -> Option<State> {
    let store = store_of(alloc, OBJECTS)?;
    Some(store.state)
}

/// A growth of a memory of one page by three.
#[derive(Drop)]
pub struct GrowingMemory {
    state: State,
}

impl GrowingMemory {
    /// Prepares everything that the call needs. Returns none if that fails.
    pub fn prepare(alloc: Global) -> Option<GrowingMemory> {
        let state = state_with_objects(alloc)?;
        Some(GrowingMemory { state })
    }
}

impl Attempt for GrowingMemory {
    fn attempt(&mut self) -> Answer {
        if self.state.memory_count() == 0 {
            return Answer::Wrong;
        }
        let answer = mem_grow(&mut self.state, 0, 3);
        match (answer, mem_size(&self.state, 0)) {
            (Ok(1), 4) => Answer::Ample,
            (Err(_), 1) => Answer::Wanting,
            _ => Answer::Wrong,
        }
    }
}

/// A growth of a table of two entries by three.
#[derive(Drop)]
pub struct GrowingTable {
    state: State,
}

impl GrowingTable {
    /// Prepares everything that the call needs. Returns none if that fails.
    pub fn prepare(alloc: Global) -> Option<GrowingTable> {
        let state = state_with_objects(alloc)?;
        Some(GrowingTable { state })
    }
}

// Grows the table by three null entries. Returns its size before, or none if memory ran out.
fn grow(state: &mut State) -> Option<u32> {
    match state.table(0) {
        Some(table) if table.ty().element == RefType::FuncRef => {}
        _ => return Some(u32::MAX),
    }
    table_grow(state, 0, Val::FuncRef(None), 3).ok()
}

impl Attempt for GrowingTable {
    fn attempt(&mut self) -> Answer {
        let answer = grow(&mut self.state);
        let size = self.state.table(0).map_or(0, |table| table.entries().len());
        match (answer, size) {
            (Some(2), 5) => Answer::Ample,
            (None, 2) => Answer::Wanting,
            _ => Answer::Wrong,
        }
    }
}
