//! The embedding: commands load, link and call modules over one store, with its names and its fuel.
#![tactic(auto)]

mod commands;
mod config;
mod definitions;
mod embedding;
mod explanations;
mod host_calls;
mod host_definitions;
mod imports;
mod isolation_laws;
mod laws;
mod link_outcome;
mod modules;
mod new_fault;
mod numbers;
mod refusals;

pub use commands::{Command, Reply};
pub use config::Config;
pub use core_types::{
    Exhaustion, ExternType, FuncType, GlobalType, Limits, TableType, Trap, Val, ValType,
};
pub use embedding::Embedding;
pub use exec::Outcome;
pub use explanations::{explain_load, explain_module};
pub use host_calls::{bytes_at, func_type, no_results, one_result, put_bytes};
pub use host_definitions::HostDef;
pub use hostfunc::{HostFault, HostFn};
pub use interface::{ExportType, Exports, ImportType, Imports};
pub use isolation_laws::{deterministic, fuel_is_a_bound, isolated};
pub use laws::headline;
pub use link_outcome::LinkOutcome;
pub use new_fault::NewFault;
pub use numbers::{InstanceNumber, ModuleNumber};
pub use refusals::Refusal;
pub use std::rc::Rc;
pub use validator::Place;
