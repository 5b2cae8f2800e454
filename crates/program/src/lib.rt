//! The program, with its arguments, the files that it reads and the writers that it prints to. It reports the result of each
//! subcommand by lines and by an exit status.
#![tactic(auto)]

mod output;
mod print;
mod prints;
mod program;

pub use output::Output;
pub use print::{print_end, print_fault, print_report};
pub use prints::{Print, Printed, define_prints};
pub use program::{refuse_words, run};
