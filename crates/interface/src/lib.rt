//! Lists of what a module imports and exports, with their types.
#![tactic(auto)]

mod exports;
mod imports;
mod modules;
mod types;

pub use exports::{ExportType, Exports, Listing};
pub use imports::{ImportType, Imports};
pub use modules::{exports_of, imports_of};
pub use types::Declaration;
