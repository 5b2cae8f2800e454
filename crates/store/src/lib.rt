//! The store of a run, in two parts. One part has functions and module instances by address, with the flat code of functions.
//! The other part has tables, memories, globals and segments by address, which a run may change.
#![tactic(auto)]

mod arguments;
mod entries;
mod exports;
mod externs;
mod globals;
mod instances;
mod loaded_modules;
mod memories;
mod segments;
mod state;
mod store;
mod tables;

pub use arguments::accepts;
pub use globals::GlobalVariable;
pub use instances::{
    Addresses, Callee, Code, FunctionInstance, HostFunction, Instance, ModuleFunction,
};
pub use loaded_modules::LoadedModule;
pub use memories::Memory;
pub use segments::{DataSegment, ElementSegment};
pub use state::{ENTRY_BYTES, Objects, PAGE_BYTES, State};
pub use store::Store;
pub use tables::{Table, null_of};
