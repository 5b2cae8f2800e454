//! The names by which imports are found when modules are linked.
#![tactic(auto)]

mod name_maps;
mod names;
mod refusals;

pub use names::Names;
pub use refusals::NameRefusal;
