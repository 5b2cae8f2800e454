//! A server of an embedding. A client sends orders over one descriptor and gets replies over another.
#![tactic(auto)]

mod client;
mod ending;
mod serving;

pub use ending::Ending;
pub use serving::serve;
