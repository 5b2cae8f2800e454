//! Instantiation of modules: imports are matched, objects allocated, active segments copied, and the start function called.
#![tactic(auto)]

mod addresses;
mod constants;
mod copies;
mod imports;
mod instantiation;
mod limits;
mod link_end;
mod objects;
mod offsets;
mod sizes;
mod tasks;

pub use instantiation::instantiate;
pub use link_end::{LinkEnd, LinkRefusal};
pub use sizes::bytes_of_instance;
pub use store::LoadedModule;
