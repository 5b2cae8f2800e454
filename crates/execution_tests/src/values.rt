//! Values of each type and their cells, both ways.

use cells::{cell_of, value_of, values_of, write_cells};
use core_types::{Val, ValType};
use std::alloc::{AllocError, Global};

// A value of a type, and its cell.
struct Row {
    name: &'static str,
    value: Val,
    ty: ValType,
    cell: u64,
}

#[rattlefmt::skip]
static ROWS: [Row; 8] = [
    Row { name: "zero", value: Val::I32(0), ty: ValType::I32, cell: 0 },
    Row { name: "the greatest i32", value: Val::I32(4_294_967_295), ty: ValType::I32, cell: 4_294_967_295 },
    Row { name: "the greatest i64", value: Val::I64(18_446_744_073_709_551_615), ty: ValType::I64, cell: 18_446_744_073_709_551_615 },
    Row { name: "no function", value: Val::FuncRef(None), ty: ValType::FuncRef, cell: 0 },
    Row { name: "the function at address 0", value: Val::FuncRef(Some(0)), ty: ValType::FuncRef, cell: 1 },
    Row { name: "the function at address 41", value: Val::FuncRef(Some(41)), ty: ValType::FuncRef, cell: 42 },
    Row { name: "no external reference", value: Val::ExternRef(None), ty: ValType::ExternRef, cell: 0 },
    Row { name: "the last external reference", value: Val::ExternRef(Some(4_294_967_295)), ty: ValType::ExternRef, cell: 4_294_967_296 },
];

#[test]
fn values_have_cells(rt: HostRuntime) {
    for row in &ROWS {
        assert!(rt; cell_of(row.value) == row.cell, "{}", row.name);
    }
}

// Returns the value of a type that a cell represents, if it is one of a reference or an i64.
fn read(ty: ValType, cell: u64) -> Option<Val> {
    match ty {
        ValType::I64 => Some(value_of(ty, cell)),
        ValType::I32 if cell < 4_294_967_296 => Some(value_of(ty, cell)),
        ValType::FuncRef | ValType::ExternRef if cell <= 4_294_967_296 => Some(value_of(ty, cell)),
        _ => None,
    }
}

#[test]
fn cells_are_values(rt: HostRuntime) {
    for row in &ROWS {
        assert!(rt; read(row.ty, row.cell) == Some(row.value), "{}", row.name);
    }
}

// Writes two i64 over the first of three cells, and reads them.
fn write_and_read(alloc: Global) -> Result<bool, AllocError> {
    let mut cells = [7, 7, 7];
    write_cells(&[Val::I64(5), Val::I64(6)], &mut cells);
    let read = values_of(alloc, &[ValType::I64, ValType::I64, ValType::I64], &cells)?;
    Ok(read.as_slice() == [Val::I64(5), Val::I64(6), Val::I64(7)].as_slice())
}

#[test]
fn cells_are_written_and_read(rt: HostRuntime) {
    assert!(rt; write_and_read(rt.alloc()) == Ok(true));
}
