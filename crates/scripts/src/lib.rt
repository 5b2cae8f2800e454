//! Scripts: reads command files that wast2json writes, and runs them on an embedding.
#![tactic(auto)]

mod actions;
mod asking;
mod faults;
mod fields;
mod file_maps;
mod instances;
mod kinds;
mod numbers;
mod passing;
mod progress;
mod reading;
mod report;
mod running;
mod script;
mod skipping;
mod tasks;
mod unread;
mod values;

pub use faults::ScriptFault;
pub use reading::read_script;
pub use report::Report;
pub use running::run_script;
pub use script::Script;
