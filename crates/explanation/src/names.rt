//! The names of functions.

use core_types::{Export, ExportDesc, Module, Name};
use std::alloc::AllocError;

// The most characters of a name that a text shows.
const MOST_CHARACTERS: usize = 80;

/// Returns the beginning of a name, as far as a text shows it.
pub fn shown(name: &str) -> &str {
    match name.char_indices().nth(MOST_CHARACTERS) {
        Some((end, _)) => name.get(..end).unwrap_or(""),
        None => name,
    }
}

// Returns the first name under which a function is exported.
fn exported(exports: &[Export], function: u32) -> Option<&Name> {
    for export in exports {
        if let ExportDesc::Func(index) = export.desc {
            if index == function {
                return Some(&export.name);
            }
        }
    }
    None
}

/// Appends a function with its index, and with the first name under which it is exported, if there is one: `function 3 ("parse")`.
pub fn write_function_name(
    text: &mut String,
    module: &Module,
    function: u32,
) -> Result<(), AllocError> {
    match exported(module.exports.as_slice(), function) {
        Some(name) => write!(text, "function {function} ({:?})", shown(name.as_str())),
        None => write!(text, "function {function}"),
    }
}
