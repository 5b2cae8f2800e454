//! The answers of a server to orders: how the server obeys an order, and how messages encode the answer.
#![tactic(auto)]

mod answer;
mod causes;
mod explaining;
mod exports;
mod obeying;
mod replies;

pub use answer::Answer;
pub use causes::{Cause, Where};
pub use explaining::explain;
pub use obeying::obey;
pub use replies::push_answer;
