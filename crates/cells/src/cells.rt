ghost use Rattle.std.specs.Prelude.{◌≡◌, ◌≤◌, ◌++◌, drop, length, map, IfOk};
ghost use Rattle.cells.specs.Cells.{AreCellsOf, IsCellOf, cell_of as cell, reference_cell as reference, reference_of as referred, value_of as value, values_of as values};

use core_types::{Val, ValType};
use std::alloc::{AllocError, Global};

fn reference_cell(r: Option<u32>) -> u64
    ensures { result ≡ reference r }
{
    match r {
        Some(n) => u64::from(n) + 1,
        None => 0,
    }
}

/// Returns the cell of a value: the number of an integer, 0 for null, and n + 1 for the reference n.
pub fn cell_of(v: Val) -> u64
    ensures { result ≡ cell v }
{
    match v {
        Val::I32(n) => u64::from(n),
        Val::I64(n) => n,
        Val::FuncRef(r) | Val::ExternRef(r) => reference_cell(r),
    }
}

// Returns the reference that a cell represents.
fn reference_of(n: u64) -> Option<u32>
    requires { n ≤ 4294967296 }
    ensures { result ≡ referred n }
{
    if n == 0 { None } else { Some((n - 1) as u32) }
}

/// Returns the value of a type that a cell represents. The cell must be that of such a value.
pub fn value_of(ty: ValType, n: u64) -> Val
    requires { IsCellOf ty n }
    ensures { result ≡ value ty n }
{
    match ty {
        ValType::I32 => Val::I32(n as u32),
        ValType::I64 => Val::I64(n),
        ValType::FuncRef => Val::FuncRef(reference_of(n)),
        ValType::ExternRef => Val::ExternRef(reference_of(n)),
    }
}

/// Writes the cells of values over the first cells. Allocates nothing.
pub fn write_cells(from: &[Val], into: &mut [u64])
    requires { length from.now ≤ length into.old }
    ensures { into.new ≡ map cell from.now ++ drop (length from.now) into.old }
{
    for k in 0..from.len() {
        into[k] = cell_of(from[k]);
    }
}

/// Returns the values of these types that cells represent. The cells must be those of such values.
pub fn values_of(alloc: Global, types: &[ValType], cells: &[u64]) -> Result<Vec<Val>, AllocError>
    requires { AreCellsOf types.now cells.now }
    ensures { IfOk result (λ vs. vs.items ≡ values types.now cells.now) }
{
    let mut read = Vec::with_capacity(alloc, types.len())?;
    for k in 0..types.len() {
        read.push(value_of(types[k], cells[k]))?;
    }
    Ok(read)
}
