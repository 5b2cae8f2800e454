use crate::causes::Cause;
use core_types::Val;
use embed::{Exports, Imports, Reply};
use scripts::Report;

/// The answer of a server to an order.
#[derive(Drop)]
pub enum Answer {
    /// The order is done.
    Done,
    /// What the embedding replied to a command.
    Applied(Reply),
    /// The value of a global.
    Global(Val),
    /// The fuel left.
    FuelLeft(u64),
    /// The bytes of the quota that are left.
    QuotaLeft(u64),
    /// What an instance or a module exports, or one export of an instance.
    Exports(Exports),
    /// What a module imports.
    Imports(Imports),
    /// The result of a script.
    Ran(Report),
    /// Why an order was refused, as a text.
    Text(String),
    /// The order is refused.
    Refused(Cause),
    /// The message encodes no order.
    NotSpelt,
    /// The order is not allowed at this time: before `begin`, or after it, or to explain an order that was not refused.
    NotNow,
}
