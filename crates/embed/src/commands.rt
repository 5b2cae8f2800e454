ghost use Rattle.std.specs.Prelude.{◌≡◌};
ghost use Rattle.embed.specs.Replies.{call_reply, link_reply, load_reply, register_reply, reply_of, values_reply};

use crate::link_outcome::LinkOutcome;
use crate::numbers::ModuleNumber;
use crate::refusals::Refusal;
use core_types::{Exhaustion, Trap, Val};
use exec::Outcome;

/// A command to an embedding.
///
/// Modules and instances are named by numbers. Both kinds count up from 0, each over its own successes.
#[derive(Drop)]
pub enum Command {
    /// Loads the module that the bytes encode, and gives it the next module number. The reply is `Loaded`.
    ///
    /// The command is refused with:
    /// - `Malformed`, `Unsupported` or `Limit` if the bytes encode no module within the limits
    /// - `Invalid` if the module is not valid
    /// - `OutOfMemory` if an allocation fails
    ///
    /// The first `Load` of the eight bytes `00 61 73 6D 01 00 00 00` gets the reply `Loaded(0)`.
    Load(Vec<u8>),
    /// Links the module of a number with what the names of its imports stand for. The reply is `Linked` with the number of the
    /// new instance. If a segment or the start function traps or is exhausted, the reply is `Trap` or `Exhausted`. Then the
    /// instance has no number, and what was done stays.
    ///
    /// The command is refused, in this order, with:
    /// - `UnknownModule` if there is no such module
    /// - `UnknownImport` if an import's names stand for nothing
    /// - `IncompatibleImport` if what they stand for does not match
    /// - `Limit` if a table, a memory or the store would be larger than it may be
    ///
    /// It is refused with `OutOfMemory` if an allocation fails.
    ///
    /// `Link(0)` gets the reply `Linked(0)` for a first module without imports, and `Linked(1)` when it is linked again.
    Link(u64),
    /// Registers the instance of a number under a name, and replaces the instance that was registered under it. The reply is
    /// `Done`.
    ///
    /// The command is refused, in this order, with `UnknownInstance`, and with `NameTaken` if a host function is defined under
    /// this name of a module. It is refused with `OutOfMemory` if an allocation fails.
    ///
    /// After `Register(0, "m")` a module can import the exports of instance 0 from `m`.
    Register(u64, String),
    /// Calls the function that the instance of a number exports under a name. The reply is `Values`, `Trap` or `Exhausted`.
    ///
    /// The command is refused with:
    /// - `UnknownInstance` or `UnknownExport`
    /// - `WrongKind` if the export is not a function
    /// - `BadArguments` if the number of arguments is wrong, or if an argument has another type than its parameter or names a
    ///   function that does not exist
    ///
    /// If the function adds, `Call(0, "add", [I32(1), I32(2)])` gets the reply `Values([I32(3)])`.
    Call(u64, String, Vec<Val>),
    /// Reads the global that the instance of a number exports under a name. The reply is `Values` with its value alone.
    ///
    /// The command is refused with `UnknownInstance`, with `UnknownExport`, with `WrongKind` if the export is not a global, and
    /// with `OutOfMemory`.
    ///
    /// If the global is 666, `GetGlobal(0, "g")` gets the reply `Values([I32(666)])`.
    GetGlobal(u64, String),
    /// Sets the fuel left. The reply is always `Done`.
    ///
    /// After `SetFuel(10)` the fuel left is 10.
    SetFuel(u64),
}

/// The reply of an embedding to a command.
#[derive(Drop)]
pub enum Reply {
    /// The number of the module: `Loaded(0)` for the first.
    Loaded(u64),
    /// The number of the instance: `Linked(0)` for the first.
    Linked(u64),
    /// The command is done. `SetFuel(10)` always gets this reply.
    Done,
    /// The results of a call, or the value of a global: `Values([I32(3)])`.
    Values(Vec<Val>),
    /// A trap in a link or a call: `Trap(Unreachable)`.
    Trap(Trap),
    /// A link or a call ran out of something: `Exhausted(Fuel)`.
    Exhausted(Exhaustion),
    /// The command was refused, and nothing has changed: `Refused(UnknownModule)`.
    Refused(Refusal),
}

impl From<Result<ModuleNumber, Refusal>> for Reply {
    ghost from_gives = { λ answer reply. reply_of reply ≡ load_reply answer };

    fn from(answer: Result<ModuleNumber, Refusal>) -> Reply {
        match answer {
            Ok(number) => Reply::Loaded(number.0),
            Err(refusal) => Reply::Refused(refusal),
        }
    }
}

impl From<Result<LinkOutcome, Refusal>> for Reply {
    ghost from_gives = { λ answer reply. reply_of reply ≡ link_reply answer };

    fn from(answer: Result<LinkOutcome, Refusal>) -> Reply {
        match answer {
            Ok(LinkOutcome::Linked(number)) => Reply::Linked(number.0),
            Ok(LinkOutcome::Trap(trap)) => Reply::Trap(trap),
            Ok(LinkOutcome::Exhausted(what)) => Reply::Exhausted(what),
            Err(refusal) => Reply::Refused(refusal),
        }
    }
}

impl From<Result<(), Refusal>> for Reply {
    ghost from_gives = { λ answer reply. reply_of reply ≡ register_reply answer };

    fn from(answer: Result<(), Refusal>) -> Reply {
        match answer {
            Ok(()) => Reply::Done,
            Err(refusal) => Reply::Refused(refusal),
        }
    }
}

impl From<Result<Outcome, Refusal>> for Reply {
    ghost from_gives = { λ answer reply. reply_of reply ≡ call_reply answer };

    fn from(answer: Result<Outcome, Refusal>) -> Reply {
        match answer {
            Ok(Outcome::Values(values)) => Reply::Values(values.into_vec()),
            Ok(Outcome::Trap(trap)) => Reply::Trap(trap),
            Ok(Outcome::Exhausted(what)) => Reply::Exhausted(what),
            Err(refusal) => Reply::Refused(refusal),
        }
    }
}

impl From<Result<Vec<Val>, Refusal>> for Reply {
    ghost from_gives = { λ answer reply. reply_of reply ≡ values_reply answer };

    fn from(answer: Result<Vec<Val>, Refusal>) -> Reply {
        match answer {
            Ok(values) => Reply::Values(values),
            Err(refusal) => Reply::Refused(refusal),
        }
    }
}
