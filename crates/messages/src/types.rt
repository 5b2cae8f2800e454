ghost use Rattle.std.specs.Prelude.{◌≡◌, ◌≢◌, ◌<◌, ◌^◌, ◌++◌, ℕ, List, Err, length, OnOk, IfOk, IfSome, IsNone};
ghost use Rattle.core_types.specs.declared.types.ValType.{ValType as AnyType};
ghost use Rattle.messages.specs.Types.{number_of, type_bytes, types_bytes};

use crate::faults::ReadFault;
use crate::numbers::{push_number, split_number};
use core_types::ValType;
use std::alloc::{AllocError, Global};

/// Returns the number of a type.
pub fn type_number(ty: ValType) -> u64
    ensures { result ≡ number_of ty }
{
    match ty {
        ValType::I32 => 0x7F,
        ValType::I64 => 0x7E,
        ValType::FuncRef => 0x70,
        ValType::ExternRef => 0x6F,
    }
}

/// Appends a type.
pub fn push_type(out: &mut Vec<u8>, ty: ValType) -> Result<(), AllocError>
    ensures { OnOk result (out.new.items ≡ out.old.items ++ type_bytes ty) }
{
    push_number(out, type_number(ty))
}

/// Appends the count of types, and then the types.
pub fn push_types(out: &mut Vec<u8>, types: &[ValType]) -> Result<(), AllocError>
    ensures { OnOk result (out.new.items ≡ out.old.items ++ types_bytes types.now) }
{
    push_number(out, types.len() as u64)?;
    for i in 0..types.len() {
        push_type(out, types[i])?;
    }
    Ok(())
}

fn type_of_number(number: u64) -> Option<ValType>
    ensures found { IfSome result (λ ty. number_of ty ≡ number) }
    ensures none { IsNone result → (ty : AnyType) → number_of ty ≢ number }
{
    match number {
        0x7F => Some(ValType::I32),
        0x7E => Some(ValType::I64),
        0x70 => Some(ValType::FuncRef),
        0x6F => Some(ValType::ExternRef),
        _ => None,
    }
}

/// Splits bytes into the type at their start and the bytes after it. Returns none if they do not begin with a type.
pub fn split_type(bytes: &[u8]) -> Option<(ValType, &[u8])>
    ensures found { IfSome result (λ r. type_bytes r.0 ++ r.1.now ≡ bytes.now) }
    ensures none { IsNone result → (ty : AnyType) (rest : List ℕ)
        → type_bytes ty ++ rest ≢ bytes.now }
{
    let (number, behind) = split_number(bytes)?;
    match type_of_number(number) {
        Some(ty) => Some((ty, behind)),
        None => None,
    }
}

/// Splits bytes into the types at their start, which follow their count, and the bytes after them. Room is reserved as they are
/// read.
pub fn split_types(alloc: Global, bytes: &[u8]) -> Result<(Vec<ValType>, &[u8]), ReadFault>
    ensures read { IfOk result (λ r. types_bytes r.0.items ++ r.1.now ≡ bytes.now) }
    ensures fits { IfOk result (λ r. length r.0.items < 2 ^ 64) }
    ensures not_spelt { result ≡ Err ReadFault.NotSpelt → (types : List AnyType) (rest : List ℕ) →
        length types < 2 ^ 64 → types_bytes types ++ rest ≢ bytes.now }
{
    let Some((count, behind)) = split_number(bytes) else {
        return Err(ReadFault::NotSpelt);
    };
    let mut rest = behind;
    let mut types = Vec::new(alloc);
    for i in 0..count {
        let Some((ty, behind)) = split_type(rest) else {
            return Err(ReadFault::NotSpelt);
        };
        types.push(ty)?;
        rest = behind;
    }
    Ok((types, rest))
}
