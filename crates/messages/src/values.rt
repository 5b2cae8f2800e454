ghost use Rattle.std.specs.Prelude.{◌≡◌, ◌≢◌, ◌↔◌, ◌++◌, ℕ, List, All, Err, OnOk, IfOk, IfSome, IsNone, IsTrue};
ghost use Rattle.core_types.specs.declared.outcome.Val.{Val as Value};
ghost use Rattle.meaning.specs.execution.Values.{type_of as type_of_value};
ghost use Rattle.cells.specs.Cells.{IsCellOf};
ghost use Rattle.messages.specs.Values.{HasItsWidth, value_bytes, values_bytes};

use crate::faults::ReadFault;
use crate::numbers::{push_number, split_number};
use crate::types::{push_type, split_type};
use cells::{cell_of, value_of};
use core_types::{Val, ValType};
use std::alloc::{AllocError, Global};

fn type_of(value: Val) -> ValType
    ensures { result ≡ type_of_value value }
{
    match value {
        Val::I32(_) => ValType::I32,
        Val::I64(_) => ValType::I64,
        Val::FuncRef(_) => ValType::FuncRef,
        Val::ExternRef(_) => ValType::ExternRef,
    }
}

// Returns whether a number is the cell of a value of a type.
fn is_cell_of(ty: ValType, cell: u64) -> bool
    ensures { IsTrue result ↔ IsCellOf ty cell }
{
    match ty {
        ValType::I32 => cell <= 0xFFFF_FFFF,
        ValType::I64 => true,
        ValType::FuncRef | ValType::ExternRef => cell <= 0x1_0000_0000,
    }
}

/// Appends a value: its type and its cell.
pub fn push_value(out: &mut Vec<u8>, value: Val) -> Result<(), AllocError>
    ensures { OnOk result (out.new.items ≡ out.old.items ++ value_bytes value) }
{
    push_type(out, type_of(value))?;
    push_number(out, cell_of(value))
}

/// Appends values in a row.
pub fn push_values(out: &mut Vec<u8>, values: &[Val]) -> Result<(), AllocError>
    ensures { OnOk result (out.new.items ≡ out.old.items ++ values_bytes values.now) }
{
    for i in 0..values.len() {
        push_value(out, values[i])?;
    }
    Ok(())
}

/// Splits bytes into the value at their start and the bytes after it. Returns none if they do not begin with a value.
pub fn split_value(bytes: &[u8]) -> Option<(Val, &[u8])>
    ensures found { IfSome result (λ r. value_bytes r.0 ++ r.1.now ≡ bytes.now) }
    ensures none { IsNone result → (v : Value) (rest : List ℕ) → HasItsWidth v →
        value_bytes v ++ rest ≢ bytes.now }
{
    let (ty, behind) = split_type(bytes)?;
    let (cell, behind) = split_number(behind)?;
    if is_cell_of(ty, cell) {
        Some((value_of(ty, cell), behind))
    } else {
        None
    }
}

/// Reads the values that the bytes encode. Room is reserved as they are read.
pub fn read_values(alloc: Global, bytes: &[u8]) -> Result<Vec<Val>, ReadFault>
    ensures read { IfOk result (λ values. values_bytes values.items ≡ bytes.now) }
    ensures not_spelt { result ≡ Err ReadFault.NotSpelt → (vs : List Value) → All HasItsWidth vs →
        values_bytes vs ≢ bytes.now }
{
    let mut values = Vec::new(alloc);
    let mut rest = bytes;
    while !rest.is_empty() {
        let Some((value, behind)) = split_value(rest) else {
            return Err(ReadFault::NotSpelt);
        };
        values.push(value)?;
        rest = behind;
    }
    Ok(values)
}
