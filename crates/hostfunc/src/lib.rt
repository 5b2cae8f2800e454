//! Functions of the host, which code of modules may call.
#![tactic(auto)]

mod boxes;
mod host_function;
mod host_object;
mod host_table;
mod types;

pub use boxes::object_type;
pub use host_function::{HostFault, HostFn};
pub use host_object::HostObject;
pub use host_table::HostTable;
pub use types::{has_funcref, have_types};
