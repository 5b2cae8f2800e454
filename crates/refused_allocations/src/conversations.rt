//! Commands to an embedding, in a row.

use crate::attempts::Conversation;
use crate::embeddings::{FUEL, embedding_with, fresh_embedding, load_of};
use crate::seen::{EXHAUSTED, REFUSED, Seen, seen_in};
use crate::texts::{GROWTH, ITSELF, ITSELF_AND_TRAP};
use crate::verdicts::Verdict;
use core_types::{Trap, Val};
use embed::{Command, Embedding, Reply};
use std::alloc::Global;

// Returns the command that calls a function of an instance.
fn call_of(alloc: Global, instance: u64, name: &str, args: &[Val]) -> Option<Command> {
    let name = String::from_str(alloc, name).ok()?;
    let args = Vec::from_slice(alloc, args).ok()?;
    Some(Command::Call(instance, name, args))
}

// Applies a command. Returns what is seen of the reply.
fn give(at: &mut Embedding, command: &Command) -> Seen {
    seen_in(&at.apply(command))
}

// Links the module of a number. Returns what is seen of the reply.
fn link(at: &mut Embedding, number: u64) -> Seen {
    give(at, &Command::Link(number))
}

// Applies a command, and applies it again if it ran out of memory. Then it also keeps the place. Returns what is seen of the
// last reply. A command that runs out of memory changes nothing that matters here.
fn ask(
    at: &mut Embedding,
    command: &Command,
    place: &'static str,
    wanting: &mut Option<&'static str>,
) -> Seen {
    let seen = give(at, command);
    if !seen.wants_memory() {
        return seen;
    }
    *wanting = Some(place);
    give(at, command)
}

// Links the first module in the same way.
fn ask_for_link(at: &mut Embedding, wanting: &mut Option<&'static str>) -> Seen {
    ask(at, &Command::Link(0), "Link", wanting)
}

// Returns the verdict on all calls.
fn verdict_of(is_right: bool, wanting: Option<&'static str>) -> Verdict {
    match (is_right, wanting) {
        (true, None) => Verdict::Ample,
        (true, Some(place)) => Verdict::Wanting(place),
        (false, _) => Verdict::Wrong("an address"),
    }
}

/// The second link of a module, and a call of each of its instances. The module's function returns a reference to itself.
#[derive(Drop)]
pub struct LinkingAgain {
    at: Embedding,
    first: Command,
    second: Command,
}

/// Prepares an embedding in which the module is linked once. Returns none if that fails.
pub fn prepare_link(alloc: Global) -> Option<LinkingAgain> {
    let first = call_of(alloc, 0, "itself", &[])?;
    let second = call_of(alloc, 1, "itself", &[])?;
    Some(LinkingAgain {
        at: embedding_with(alloc, ITSELF)?,
        first,
        second,
    })
}

impl Conversation for LinkingAgain {
    fn hold(&mut self) -> Verdict {
        let mut wanting = None;
        let linked = ask_for_link(&mut self.at, &mut wanting) == Seen::Linked(1);
        let is_first = ask(&mut self.at, &self.first, "Call", &mut wanting) == Seen::Function(0);
        let is_second = ask(&mut self.at, &self.second, "Call", &mut wanting) == Seen::Function(1);
        verdict_of(linked && is_first && is_second, wanting)
    }
}

// Returns the address of the next function after the link of a module with two functions, whose start function fails. Returns
// none if another reply was seen.
fn address_after(seen: Seen) -> Option<u32> {
    match seen {
        Seen::Trapped(Trap::Unreachable) => Some(3),
        _ if seen == EXHAUSTED => Some(3),
        _ if seen == REFUSED => Some(1),
        _ => None,
    }
}

/// A link of a module whose start function fails, and then of one whose function returns a reference to itself.
#[derive(Drop)]
pub struct FailingLink {
    at: Embedding,
    call: Command,
}

/// Prepares an embedding in which both modules are loaded, and the one without a start function is linked once. Returns none if
/// that fails.
pub fn prepare_start(alloc: Global) -> Option<FailingLink> {
    let call = call_of(alloc, 1, "itself", &[])?;
    let load = load_of(alloc, ITSELF_AND_TRAP)?;
    let mut at = embedding_with(alloc, ITSELF)?;
    (give(&mut at, &load) == Seen::Loaded(1)).then_some(FailingLink { at, call })
}

impl Conversation for FailingLink {
    fn hold(&mut self) -> Verdict {
        let seen = link(&mut self.at, 1);
        let Some(address) = address_after(seen) else {
            return Verdict::Wrong("the link that fails");
        };
        let mut wanting = seen.wants_memory().then_some("the link that fails");
        let linked = ask_for_link(&mut self.at, &mut wanting) == Seen::Linked(1);
        let called = ask(&mut self.at, &self.call, "Call", &mut wanting);
        verdict_of(linked && called == Seen::Function(address), wanting)
    }
}

// Sets the fuel. Returns whether it was set.
fn can_set_fuel(at: &mut Embedding, fuel: u64) -> bool {
    give(at, &Command::SetFuel(fuel)) == Seen::Done && at.fuel_left() == fuel
}

// Applies a command. Returns whether it gets this answer and leaves this fuel.
fn gets(at: &mut Embedding, command: &Command, wanted: Seen, left: u64) -> bool {
    give(at, command) == wanted && at.fuel_left() == left
}

/// A call that grows a memory of one page by one.
#[derive(Drop)]
pub struct GrowingInCall {
    at: Embedding,
    by_one: Command,
    by_none: Command,
}

/// Prepares an embedding with a memory of one page and 10,000 units of fuel left. Returns none if that fails.
pub fn prepare_growth(alloc: Global) -> Option<GrowingInCall> {
    let by_one = call_of(alloc, 0, "g", &[Val::I32(1)])?;
    let by_none = call_of(alloc, 0, "g", &[Val::I32(0)])?;
    let mut at = embedding_with(alloc, GROWTH)?;
    can_set_fuel(&mut at, 10_000).then_some(GrowingInCall {
        at,
        by_one,
        by_none,
    })
}

impl GrowingInCall {
    // Returns whether a memory that did not grow still has its size, which leaves this fuel, and whether it then grows.
    fn grows_then(&mut self, left: u64) -> bool {
        gets(&mut self.at, &self.by_none, Seen::Number(1), left)
            && can_set_fuel(&mut self.at, 9_999)
            && gets(&mut self.at, &self.by_one, Seen::Number(1), 8_973)
    }
}

impl Conversation for GrowingInCall {
    fn hold(&mut self) -> Verdict {
        let seen = give(&mut self.at, &self.by_one);
        let left = self.at.fuel_left();
        if seen == Seen::Number(1) && left == 8_974 {
            return Verdict::Ample;
        }
        let place = match left {
            10_000 => "the frame",
            _ => "the growth",
        };
        if seen == EXHAUSTED && left >= 9_999 && self.grows_then(left - 2) {
            return Verdict::Wanting(place);
        }
        Verdict::Wrong(place)
    }
}

// Returns what is seen of the replies to two commands, if there are two.
fn seen_in_both(replies: &[Reply]) -> Option<(Seen, Seen)> {
    match replies {
        [first, second] => Some((seen_in(first), seen_in(second))),
        _ => None,
    }
}

// What is seen if the fuel is set and a module is loaded.
const BOTH: Option<(Seen, Seen)> = Some((Seen::Done, Seen::Loaded(0)));

/// One call that sets the fuel and loads a module.
#[derive(Drop)]
pub struct ApplyingBoth {
    at: Embedding,
    commands: Vec<Command>,
    replies: Vec<Reply>,
}

/// Prepares a fresh embedding and two commands. Returns none if that fails.
pub fn prepare_all(alloc: Global) -> Option<ApplyingBoth> {
    let load = load_of(alloc, ITSELF)?;
    let mut commands = Vec::new(alloc);
    commands.push(Command::SetFuel(5)).ok()?;
    commands.push(load).ok()?;
    Some(ApplyingBoth {
        at: fresh_embedding(alloc)?,
        commands,
        replies: Vec::new(alloc),
    })
}

impl ApplyingBoth {
    // Applies both commands. Returns whether their replies could be allocated.
    fn apply(&mut self) -> bool {
        self.at.apply_all(&self.commands, &mut self.replies).is_ok()
    }

    // Applies both commands again after their replies could not be allocated. Nothing may have changed by then.
    fn apply_again(&mut self) -> Verdict {
        let is_unchanged = self.replies.is_empty() && self.at.fuel_left() == FUEL;
        if self.apply() && is_unchanged && seen_in_both(&self.replies) == BOTH {
            return Verdict::Wanting("the room for replies");
        }
        Verdict::Wrong("the room for replies")
    }

    // Applies only the command that loads the module. Returns whether the module is loaded.
    fn is_loaded_then(&mut self) -> bool {
        match self.commands.last() {
            Some(load) => give(&mut self.at, load) == Seen::Loaded(0),
            None => false,
        }
    }
}

impl Conversation for ApplyingBoth {
    fn hold(&mut self) -> Verdict {
        if !self.apply() {
            return self.apply_again();
        }
        if self.at.fuel_left() != 5 {
            return Verdict::Wrong("SetFuel");
        }
        let seen = seen_in_both(&self.replies);
        if seen == BOTH {
            return Verdict::Ample;
        }
        if seen == Some((Seen::Done, REFUSED)) && self.is_loaded_then() {
            return Verdict::Wanting("Load");
        }
        Verdict::Wrong("Load")
    }
}
