//! The server of an embedding, for C.
#![tactic(auto)]

use serve::serve;
use std::alloc::Global;

/// Serves a client until the end, and returns how the server ended. Messages are written to the descriptor `ask` and read from
/// `hear`.
///
/// - 0: the client sent the end
/// - 1: the input ended
/// - 2: the input ended within a message
/// - 3: a write failed
/// - 4: an allocation failed at the start or for a reply
#[unsafe(no_mangle)]
pub extern "C" fn tegvurn_serve(alloc: Global, ask: i32, hear: i32) -> u32 {
    u32::from(serve(alloc, ask, hear, u64::MAX).status())
}
