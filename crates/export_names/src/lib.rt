//! Exports by their names. A module's author chooses the names, so they are compared by sorting and found by binary search: in n
//! log n and log n comparisons, for any names.
#![tactic(auto)]

mod name_order;

pub use name_order::NameOrder;
