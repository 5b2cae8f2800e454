//! Why an order was refused, as a text.

use crate::answer::Answer;
use crate::causes::Cause;
use embed::{Embedding, InstanceNumber, ModuleNumber, Refusal, explain_load};
use orders::Order;
use std::alloc::{AllocError, Global};

// Returns why the embedding refused an order.
fn explain_refusal(
    alloc: Global,
    embedding: &Embedding,
    order: &Order<'_>,
    refusal: Refusal,
) -> Result<String, AllocError> {
    match order {
        Order::Load(bytes) => explain_load(alloc, bytes, refusal),
        Order::Link(number) => embedding.explain_link(alloc, ModuleNumber(*number), refusal),
        Order::Call(number, name, args) => {
            embedding.explain_call(
                alloc,
                InstanceNumber(*number),
                name,
                args.as_slice(),
                refusal,
            )
        }
        Order::GetGlobal(number, name) | Order::NamedExport(number, name) => {
            embedding.explain_export(alloc, InstanceNumber(*number), name, refusal)
        }
        _ => format!(in alloc; "{refusal}"),
    }
}

/// Returns the answer to an order to explain why another order was refused for a cause: a text for people. For lack of memory, the
/// answer is a refusal.
pub fn explain(alloc: Global, embedding: &Embedding, order: &Order<'_>, cause: &Cause) -> Answer {
    let text = match cause {
        Cause::Command(refusal) => explain_refusal(alloc, embedding, order, *refusal),
        _ => format!(in alloc; "{cause}"),
    };
    match text {
        Ok(text) => Answer::Text(text),
        Err(_) => Answer::Refused(Cause::Command(Refusal::OutOfMemory)),
    }
}
