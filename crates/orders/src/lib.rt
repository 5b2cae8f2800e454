//! Orders to a server of an embedding, and how messages encode them.
#![tactic(auto)]

mod fields;
mod order;
mod reading;

pub use order::Order;
pub use reading::read_order;
