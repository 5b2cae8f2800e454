//! Why a module or a command is refused, as a text for those who make modules. What is refused is checked a second time, and slowly.
#![tactic(auto)]

mod bodies;
mod bounds;
mod calls;
mod constants;
mod contexts;
mod control;
mod externs;
mod faults;
mod features;
mod format;
mod instructions;
mod limits;
mod links;
mod malformations;
mod mnemonics;
mod modules;
mod names;
mod operands;
mod parts;
mod positions;
mod reader;
mod sections;
mod texts;
mod types;

pub use bounds::{Bounds, explain_bounds};
pub use calls::{explain_arguments, explain_export};
pub use limits::explain_limit;
pub use links::{explain_incompatible_import, explain_unknown_import};
pub use modules::{explain_malformed, explain_unsupported};
pub use parts::explain_section;
pub use texts::explain_function;
