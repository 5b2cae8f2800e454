//! Lines of text that state what a module contains, or why it is refused.
#![tactic(auto)]

mod descriptions;

pub use descriptions::{Verdict, describe};
