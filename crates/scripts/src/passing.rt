ghost use Rattle.std.specs.Prelude.{◌≡◌};
ghost use Rattle.embed.specs.Replies.{reply_of};
ghost use Rattle.meaning.specs.scripts.Runner.{is_malformed as is_no_module, is_unlinkable as has_no_imports, linked_instance, passes as passes_with, returns as returns_values, runs_out as is_exhausted, same_value, same_values, traps as traps_for};
ghost use Rattle.scripts.specs.Views.{task_view};

use crate::script::Task;
use core_types::{Exhaustion, Val};
use embed::{Refusal, Reply};

// Returns the instance that was linked, if one was.
pub fn linked(reply: &Reply) -> Option<u64>
    ensures { result ≡ linked_instance (reply_of reply.now) }
{
    match reply {
        Reply::Linked(number) => Some(*number),
        _ => None,
    }
}

fn is_same(value: Val, other: Val) -> bool
    ensures { result ≡ same_value value other }
{
    match (value, other) {
        (Val::I32(m), Val::I32(n)) => m == n,
        (Val::I64(m), Val::I64(n)) => m == n,
        (Val::FuncRef(m), Val::FuncRef(n)) => m == n,
        (Val::ExternRef(m), Val::ExternRef(n)) => m == n,
        _ => false,
    }
}

// Returns whether the values are the same, in the same order.
fn are_same(values: &[Val], others: &[Val]) -> bool
    ensures { result ≡ same_values values.now others.now }
{
    if values.len() != others.len() {
        return false;
    }
    for k in 0..values.len() {
        if !is_same(values[k], others[k]) {
            return false;
        }
    }
    true
}

// Returns whether a reply is these values.
fn returns(expected: &[Val], reply: &Reply) -> bool
    ensures { result ≡ returns_values expected.now (reply_of reply.now) }
{
    match reply {
        Reply::Values(values) => are_same(values, expected),
        _ => false,
    }
}

// Returns whether a reply is a trap whose text is a prefix of this one.
fn traps(text: &str, reply: &Reply) -> bool
    ensures { result ≡ traps_for text.now (reply_of reply.now) }
{
    match reply {
        Reply::Trap(trap) => text.as_bytes().starts_with(trap.text().as_bytes()),
        _ => false,
    }
}

// Returns whether a reply states that fuel or depth ran out.
fn runs_out(reply: &Reply) -> bool
    ensures { result ≡ is_exhausted (reply_of reply.now) }
{
    matches!(
        reply,
        Reply::Exhausted(Exhaustion::Fuel) | Reply::Exhausted(Exhaustion::Depth)
    )
}

// Returns whether a reply states that the bytes encode no module within the limits.
fn is_malformed(reply: &Reply) -> bool
    ensures { result ≡ is_no_module (reply_of reply.now) }
{
    matches!(
        reply,
        Reply::Refused(Refusal::Malformed(_) | Refusal::Unsupported(_) | Refusal::Limit)
    )
}

// Returns whether a reply states that an import is unknown or does not match.
fn is_unlinkable(reply: &Reply) -> bool
    ensures { result ≡ has_no_imports (reply_of reply.now) }
{
    matches!(
        reply,
        Reply::Refused(Refusal::UnknownImport(_) | Refusal::IncompatibleImport(_))
    )
}

// Returns whether a task passes with this last reply.
pub fn passes(task: &Task, reply: &Reply) -> bool
    ensures { result ≡ passes_with (task_view task.now) (reply_of reply.now) }
{
    match task {
        Task::Module { .. } => matches!(reply, Reply::Linked(_)),
        Task::Register { .. } => matches!(reply, Reply::Done),
        Task::Perform(_) => matches!(reply, Reply::Values(_)),
        Task::AssertReturn(_, expected) => returns(expected, reply),
        Task::AssertTrap(_, text) => traps(text.as_str(), reply),
        Task::AssertExhaustion(_) => runs_out(reply),
        Task::AssertInvalid(_) => matches!(reply, Reply::Refused(Refusal::Invalid(_))),
        Task::AssertMalformed(_) => is_malformed(reply),
        Task::AssertUnlinkable(_) => is_unlinkable(reply),
        Task::AssertUninstantiable(_, text) => traps(text.as_str(), reply),
    }
}
