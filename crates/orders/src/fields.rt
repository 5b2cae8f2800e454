ghost use Rattle.std.specs.Prelude.{◌≡◌, ◌≢◌, ◌<◌, ◌^◌, ◌++◌, ℕ, List, All, IsUtf8, Err, length, IfOk, IfSome, IsNone};
ghost use Rattle.core_types.specs.declared.outcome.Val.{Val as Value};
ghost use Rattle.core_types.specs.declared.types.FuncType.{FuncType as Signature};
ghost use Rattle.messages.specs.Numbers.{number_bytes, text_bytes};
ghost use Rattle.messages.specs.Types.{types_bytes};
ghost use Rattle.messages.specs.Values.{HasItsWidth, values_bytes};
ghost use Rattle.orders.specs.Orders.{IsName};

use core_types::{FuncType, Items, Val};
use messages::{ReadFault, read_values, split_number, split_text, split_types};
use std::alloc::Global;

/// Reads the fields of a message as a number.
pub fn read_number(fields: &[u8]) -> Option<u64>
    ensures found { IfSome result (λ n. number_bytes n ≡ fields.now) }
    ensures none { IsNone result → (n : ℕ) → n < 2 ^ 64 → number_bytes n ≢ fields.now }
{
    let (number, behind) = split_number(fields)?;
    if behind.is_empty() {
        Some(number)
    } else {
        None
    }
}

/// Reads the fields of a message as a number and a name.
pub fn read_number_and_name(fields: &[u8]) -> Option<(u64, &str)>
    ensures found { IfSome result (λ r. number_bytes r.0 ++ r.1.now ≡ fields.now) }
    ensures none { IsNone result → (n : ℕ) (name : List ℕ) → n < 2 ^ 64 → IsUtf8 name →
        number_bytes n ++ name ≢ fields.now }
{
    let (number, behind) = split_number(fields)?;
    match str::from_utf8(behind) {
        Ok(name) => Some((number, name)),
        Err(_) => None,
    }
}

/// Reads the fields of a message as a number, a text and values.
pub fn read_call(alloc: Global, fields: &[u8]) -> Result<(u64, &str, Vec<Val>), ReadFault>
    ensures read { IfOk result (λ r. number_bytes r.0 ++ (text_bytes r.1.now
        ++ values_bytes r.2.items) ≡ fields.now) }
    ensures not_spelt { result ≡ Err ReadFault.NotSpelt → (n : ℕ) (name : List ℕ)
        (values : List Value) → n < 2 ^ 64 → IsName name → All HasItsWidth values →
        number_bytes n ++ (text_bytes name ++ values_bytes values) ≢ fields.now }
{
    let Some((number, behind)) = split_number(fields) else {
        return Err(ReadFault::NotSpelt);
    };
    let Some((name, behind)) = split_text(behind) else {
        return Err(ReadFault::NotSpelt);
    };
    let values = read_values(alloc, behind)?;
    Ok((number, name, values))
}

// Reads the fields of a message as a type.
fn read_type(alloc: Global, fields: &[u8]) -> Result<FuncType, ReadFault>
    ensures read { IfOk result (λ t. types_bytes t.params ++ types_bytes t.results ≡ fields.now) }
    ensures not_spelt { result ≡ Err ReadFault.NotSpelt → (t : Signature) →
        length t.params < 2 ^ 64 → length t.results < 2 ^ 64 →
        types_bytes t.params ++ types_bytes t.results ≢ fields.now }
{
    let (params, behind) = split_types(alloc, fields)?;
    let (results, behind) = split_types(alloc, behind)?;
    if !behind.is_empty() {
        return Err(ReadFault::NotSpelt);
    }
    Ok(FuncType {
        params: Items::from_vec(params),
        results: Items::from_vec(results),
    })
}

/// Reads the fields of a message as two texts and a type.
pub fn read_definition(alloc: Global, fields: &[u8]) -> Result<(&str, &str, FuncType), ReadFault>
    ensures read { IfOk result (λ r. text_bytes r.0.now ++ (text_bytes r.1.now
        ++ (types_bytes r.2.params ++ types_bytes r.2.results)) ≡ fields.now) }
    ensures not_spelt { result ≡ Err ReadFault.NotSpelt → (first second : List ℕ)
        (t : Signature) → IsName first → IsName second → length t.params < 2 ^ 64 →
        length t.results < 2 ^ 64 → text_bytes first ++ (text_bytes second
        ++ (types_bytes t.params ++ types_bytes t.results)) ≢ fields.now }
{
    let Some((first, behind)) = split_text(fields) else {
        return Err(ReadFault::NotSpelt);
    };
    let Some((second, behind)) = split_text(behind) else {
        return Err(ReadFault::NotSpelt);
    };
    let ty = read_type(alloc, behind)?;
    Ok((first, second, ty))
}

/// Reads the fields of a message as four numbers.
pub fn read_setup(fields: &[u8]) -> Option<(u64, u64, u64, u64)>
    ensures found { IfSome result (λ r. number_bytes r.0 ++ (number_bytes r.1
        ++ (number_bytes r.2 ++ number_bytes r.3)) ≡ fields.now) }
    ensures none { IsNone result → (a b c d : ℕ) → a < 2 ^ 64 → b < 2 ^ 64 → c < 2 ^ 64 →
        d < 2 ^ 64 → number_bytes a ++ (number_bytes b ++ (number_bytes c ++ number_bytes d))
        ≢ fields.now }
{
    let (fuel, behind) = split_number(fields)?;
    let (depth, behind) = split_number(behind)?;
    let (pages, behind) = split_number(behind)?;
    let entries = read_number(behind)?;
    Some((fuel, depth, pages, entries))
}
