//! Lists of commands.

use core_types::Val;
use embed::{Command, Config, Embedding, Refusal, Reply};
use std::alloc::Global;
use testing::assemble;

const ADD: &str =
    "(func (param i32 i32) (result i32) local.get 0 local.get 1 i32.add) (export \"add\" (func 0))";

// Returns a call of the function with these arguments.
fn call(alloc: Global, args: &[Val]) -> Option<Command> {
    let name = String::from_str(alloc, "add").ok()?;
    Some(Command::Call(0, name, Vec::from_slice(alloc, args).ok()?))
}

// Returns six commands: a load, a link, a call, a refused call, a registration and more fuel.
fn commands(alloc: Global) -> Option<Vec<Command>> {
    let load = Command::Load(assemble(alloc, ADD).ok()?);
    let right = call(alloc, &[Val::I32(1), Val::I32(2)])?;
    let wrong = call(alloc, &[Val::I32(1)])?;
    let register = Command::Register(0, String::from_str(alloc, "m").ok()?);
    vec![in alloc;
        load,
        Command::Link(0),
        right,
        wrong,
        register,
        Command::SetFuel(9),
    ]
    .ok()
}

// Returns whether these are the replies to the load, the link and the call.
fn are_first_replies(replies: &[Reply]) -> bool {
    match replies {
        [Reply::Loaded(0), Reply::Linked(0), Reply::Values(sum)] => {
            matches!(sum.as_slice(), [Val::I32(3)])
        }
        _ => false,
    }
}

// Returns whether these are the replies to the refused call, the registration and the fuel.
fn are_last_replies(replies: &[Reply]) -> bool {
    matches!(
        replies,
        [
            Reply::Refused(Refusal::BadArguments),
            Reply::Done,
            Reply::Done,
        ]
    )
}

// Returns whether these are the replies to the six commands.
fn are_replies(replies: &[Reply]) -> bool {
    replies.len() == 6 && are_first_replies(&replies[..3]) && are_last_replies(&replies[3..])
}

// Returns the reply to one command, which sets the fuel, followed by the replies to a list.
fn replies_to(alloc: Global, at: &mut Embedding, list: &[Command]) -> Option<Vec<Reply>> {
    let mut replies = Vec::new(alloc);
    at.apply_all(&[Command::SetFuel(20)], &mut replies).ok()?;
    at.apply_all(list, &mut replies).ok()?;
    Some(replies)
}

// Returns whether the six commands get their replies, after those that were there, and leave the fuel that the last one sets.
fn is_answered(alloc: Global, at: &mut Embedding, list: &[Command]) -> bool {
    match replies_to(alloc, at, list) {
        Some(replies) => { replies.len() == 7 && are_replies(&replies[1..]) && at.fuel_left() == 9 }
        None => false,
    }
}

// Returns an embedding with 10 units of fuel, and with bounds of one frame, one page and one entry.
fn small_embedding(alloc: Global) -> Option<Embedding> {
    Embedding::new(alloc, Config::new(10, 1, 1, 1)?, Vec::new(alloc)).ok()
}

// Returns whether the six commands get their replies in such an embedding.
fn list_is_answered(alloc: Global) -> bool {
    let Some(list) = commands(alloc) else {
        return false;
    };
    match small_embedding(alloc) {
        Some(mut at) => is_answered(alloc, &mut at, &list),
        None => false,
    }
}

#[test]
fn lists_get_their_replies(rt: HostRuntime) {
    assert!(rt; list_is_answered(rt.alloc()));
}
