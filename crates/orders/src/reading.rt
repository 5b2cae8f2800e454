ghost use Rattle.std.specs.Prelude.{◌≡◌, ◌≢◌, ℕ, List, Err, IfOk};
ghost use Rattle.orders.specs.Orders.{IsEncodable, HasLists, Order as AnyOrder, fields_of, kind_of};
ghost use Rattle.orders.specs.Readings.{order_of};

use crate::fields::{read_call, read_definition, read_number, read_number_and_name, read_setup};
use crate::order::Order;
use messages::{ReadFault, split_text};
use std::alloc::Global;

/// Reads the order that the kind and the fields of a message encode.
///
/// # Errors
///
/// Fails with `NotSpelt` if they encode no order. Fails with `OutOfMemory` only for a call or a definition, if its arguments or
/// types cannot be allocated.
pub fn read_order(alloc: Global, kind: u64, fields: &[u8]) -> Result<Order<'_>, ReadFault>
    ensures kind { IfOk result (λ order. kind_of (order_of order) ≡ kind) }
    ensures fields { IfOk result (λ order. fields_of (order_of order) ≡ fields.now) }
    ensures not_spelt { result ≡ Err ReadFault.NotSpelt → (order : AnyOrder) → IsEncodable order →
        kind_of order ≡ kind → fields_of order ≢ fields.now }
    ensures memory { result ≡ Err ReadFault.OutOfMemory → HasLists kind }
{
    match kind {
        0 if fields.is_empty() => Ok(Order::End),
        1 => Ok(Order::Load(fields)),
        2 => Ok(Order::Link(read_number(fields).ok_or(ReadFault::NotSpelt)?)),
        3 => match read_number_and_name(fields) {
            Some((number, name)) => Ok(Order::Register(number, name)),
            None => Err(ReadFault::NotSpelt),
        },
        4 => {
            let (number, name, args) = read_call(alloc, fields)?;
            Ok(Order::Call(number, name, args))
        }
        5 => match read_number_and_name(fields) {
            Some((number, name)) => Ok(Order::GetGlobal(number, name)),
            None => Err(ReadFault::NotSpelt),
        },
        6 => Ok(Order::SetFuel(read_number(fields).ok_or(ReadFault::NotSpelt)?)),
        7 if fields.is_empty() => Ok(Order::FuelLeft),
        8 => Ok(Order::Exports(read_number(fields).ok_or(ReadFault::NotSpelt)?)),
        9 => match split_text(fields) {
            Some((name, bytes)) => Ok(Order::File(name, bytes)),
            None => Err(ReadFault::NotSpelt),
        },
        10 => Ok(Order::RunScript(fields)),
        11 => {
            let (first, second, ty) = read_definition(alloc, fields)?;
            Ok(Order::Define(first, second, ty))
        }
        12 => match read_setup(fields) {
            Some((fuel, depth, pages, entries)) => Ok(Order::Begin(fuel, depth, pages, entries)),
            None => Err(ReadFault::NotSpelt),
        },
        13 => match read_number_and_name(fields) {
            Some((number, name)) => Ok(Order::NamedExport(number, name)),
            None => Err(ReadFault::NotSpelt),
        },
        14 => Ok(Order::Quota(read_number(fields).ok_or(ReadFault::NotSpelt)?)),
        15 if fields.is_empty() => Ok(Order::QuotaLeft),
        16 => Ok(Order::ModuleImports(read_number(fields).ok_or(ReadFault::NotSpelt)?)),
        17 => Ok(Order::ModuleExports(read_number(fields).ok_or(ReadFault::NotSpelt)?)),
        18 if fields.is_empty() => Ok(Order::Explain),
        _ => Err(ReadFault::NotSpelt),
    }
}
