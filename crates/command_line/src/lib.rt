//! The command line: what the arguments after the program's name request.
#![tactic(auto)]

mod digits;
mod words;

pub use digits::{number, short_number};
pub use words::{
    CallSubcommand, DEFAULT_DEPTH, DEFAULT_FUEL, LARGEST_DEPTH, ScriptSubcommand, Subcommand,
    WordsFault, read_words,
};
