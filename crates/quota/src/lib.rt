//! A quota of memory: the most bytes that may be held, and how many are held.
#![tactic(auto)]

mod quota;

pub use quota::Quota;
