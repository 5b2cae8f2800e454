//! Sequences of commands, and their replies.

use crate::engines::{Asked, want_memory};
use crate::explanations::step_is_explained;
use core_types::{Exhaustion, Trap, Val};
use embed::{Config, Embedding, InstanceNumber, LinkOutcome, ModuleNumber, Place, Refusal, Reply};
use std::alloc::Global;
use testing::assemble;

/// The expected reply to a command.
#[derive(Clone, Copy)]
pub enum Answer {
    // The number of a module, or of an instance.
    Number(u64),
    Done,
    Values(&'static [Val]),
    Trapped(Trap),
    Lacks(Exhaustion),
    Refused(Refusal),
}

use Answer::{Done, Lacks, Number, Refused, Trapped, Values};

/// A command with its expected reply, or the fuel left at this point.
#[derive(Clone, Copy)]
pub enum Step {
    // The bytes of a module.
    LoadBytes(&'static [u8], Answer),
    // The text of a module.
    Load(&'static str, Answer),
    Link(u64, Answer),
    // A module that is linked that many times, with any replies.
    LinkTimes(u64, u64),
    // Modules that differ, one for each number from the first to before the last. Each is loaded and linked.
    LinkOthers(u64, u64),
    Register(u64, &'static str, Answer),
    Call(u64, &'static str, &'static [Val], Answer),
    GetGlobal(u64, &'static str, Answer),
    SetFuel(u64),
    Left(u64),
    // A step that is refused, and the text that explains why.
    Explained(&'static Step, &'static str),
}

use Step::{
    Call, Explained, GetGlobal, Left, Link, LinkOthers, LinkTimes, Load, LoadBytes, Register,
    SetFuel,
};

// Steps in a row, in a fresh embedding.
struct Row {
    name: &'static str,
    steps: &'static [Step],
}

// One function, add, of type [i32 i32] -> [i32].
const ADD: [u8; 41] = [
    0x00, 0x61, 0x73, 0x6D, 0x01, 0x00, 0x00, 0x00, 0x01, 0x07, 0x01, 0x60, 0x02, 0x7F, 0x7F, 0x01,
    0x7F, 0x03, 0x02, 0x01, 0x00, 0x07, 0x07, 0x01, 0x03, 0x61, 0x64, 0x64, 0x00, 0x00, 0x0A, 0x09,
    0x01, 0x07, 0x00, 0x20, 0x00, 0x20, 0x01, 0x6A, 0x0B,
];

const EMPTY: [u8; 8] = [0x00, 0x61, 0x73, 0x6D, 0x01, 0x00, 0x00, 0x00];

const ONE_AND_TWO: [Val; 2] = [Val::I32(1), Val::I32(2)];

// A table of ten entries, and a function that calls them.
const TEN: &str =
    "(type (func (param i32) (result i32))) (type (func (result i32))) (table 10 funcref) \
    (func (param i32) (result i32) local.get 0 call_indirect (type 1)) (export \"table\" (table 0)) (export \"call\" (func 0))";

pub const PAST_THE_END: &str =
    "(import \"ten\" \"table\" (table 10 funcref)) (func (result i32) i32.const 42) (elem (offset i32.const 0) func 0) (elem (offset i32.const 10) func 0)";

const ENTRY_ONE: &str =
    "(import \"ten\" \"table\" (table 10 funcref)) (func (result i32) i32.const 7) (elem (offset i32.const 1) func 0)";

// Takes a reference to a function, and returns whether it is null.
pub const TAKES_FUNCTION: &str =
    "(func (param funcref) (result i32) local.get 0 ref.is_null) (export \"is_null\" (func 0))";

// A function that adds, and a global of 666.
const ADD_AND_GLOBAL: &str =
    "(func (param i32 i32) (result i32) local.get 0 local.get 1 i32.add) (global i32 i32.const 666) (export \"add\" (func 0)) (export \"g\" (global 0))";

const ONE: &str = "(func (result i32) i32.const 1) (export \"f\" (func 0))";

const TWO: &str = "(func (result i32) i32.const 2) (export \"f\" (func 0))";

const CALLS_F: &str =
    "(import \"m\" \"f\" (func (result i32))) (func (result i32) call 0) (export \"g\" (func 1))";

#[rattlefmt::skip]
static ANSWERS: [Row; 8] = [
    Row { name: "a module is loaded, linked and called", steps: &[
        LoadBytes(&ADD, Number(0)), Link(0, Number(0)), SetFuel(10),
        Call(0, "add", &ONE_AND_TWO, Values(&[Val::I32(3)])), Left(7),
        Call(0, "add", &[Val::I32(1)], Refused(Refusal::BadArguments)),
        Link(9, Refused(Refusal::UnknownModule)), Register(0, "m", Done), Left(7),
    ] },
    Row { name: "a module is linked twice", steps: &[LoadBytes(&ADD, Number(0)), Link(0, Number(0)), Link(0, Number(1))] },
    Row { name: "a module with nothing in it", steps: &[
        LoadBytes(&EMPTY, Number(0)), Link(0, Number(0)), Call(0, "add", &[], Refused(Refusal::UnknownExport)),
    ] },
    Row { name: "a start function that traps", steps: &[
        SetFuel(10), Load("(func unreachable) (start 0)", Number(0)), Link(0, Trapped(Trap::Unreachable)), Left(9),
        LoadBytes(&ADD, Number(1)), Link(1, Number(0)),
    ] },
    Row { name: "an entry of a failed link stays", steps: &[
        SetFuel(1000), Load(TEN, Number(0)), Link(0, Number(0)), Register(0, "ten", Done),
        Load(PAST_THE_END, Number(1)), Link(1, Trapped(Trap::TableBounds)), Left(997),
        Load(ENTRY_ONE, Number(2)), LinkTimes(2, 20), Left(957),
        Call(0, "call", &[Val::I32(0)], Values(&[Val::I32(42)])), Call(0, "call", &[Val::I32(1)], Values(&[Val::I32(7)])), Left(951),
    ] },
    Row { name: "two instances under one name", steps: &[
        Load(ONE, Number(0)), Load(TWO, Number(1)), Load(CALLS_F, Number(2)), Link(0, Number(0)), Link(1, Number(1)),
        Register(0, "m", Done), Link(2, Number(2)), Register(1, "m", Done), Link(2, Number(3)),
        Call(2, "g", &[], Values(&[Val::I32(1)])), Call(3, "g", &[], Values(&[Val::I32(2)])),
        Register(4, "m", Refused(Refusal::UnknownInstance)), Link(2, Number(4)), Call(4, "g", &[], Values(&[Val::I32(2)])),
    ] },
    Row { name: "no fuel", steps: &[
        LoadBytes(&ADD, Number(0)), Link(0, Number(0)), SetFuel(2), Call(0, "add", &ONE_AND_TWO, Lacks(Exhaustion::Fuel)), Left(0),
        SetFuel(3), Call(0, "add", &ONE_AND_TWO, Values(&[Val::I32(3)])), Left(0),
    ] },
    Row { name: "the fuel at first", steps: &[Left(1_000_000_000)] },
];

#[rattlefmt::skip]
static REFUSALS: [Row; 8] = [
    Row { name: "seven bytes", steps: &[
        LoadBytes(&[0x00, 0x61, 0x73, 0x6D, 0x01, 0x00, 0x00], Refused(Refusal::Malformed(7))), LoadBytes(&EMPTY, Number(0)),
    ] },
    Row { name: "an invalid module", steps: &[
        Load("(func (result i32) i64.const 1)", Refused(Refusal::Invalid(Place::Func(0)))), LoadBytes(&EMPTY, Number(0)),
    ] },
    Row { name: "a missing import before one of a wrong type", steps: &[
        Load(ONE, Number(0)), Link(0, Number(0)), Register(0, "m", Done),
        Load("(import \"m\" \"missing\" (func (result i32))) (import \"m\" \"f\" (func (result i64)))", Number(1)),
        Link(1, Refused(Refusal::UnknownImport(0))),
    ] },
    Row { name: "an import of a wrong type", steps: &[
        Load(ONE, Number(0)), Link(0, Number(0)), Register(0, "m", Done),
        Load("(import \"m\" \"f\" (func (result i64)))", Number(1)), Link(1, Refused(Refusal::IncompatibleImport(0))),
    ] },
    Row { name: "more pages than a memory may have", steps: &[
        Load("(memory 1025)", Number(0)), Link(0, Refused(Refusal::Limit)), Load("(memory 1024)", Number(1)), Link(1, Number(0)),
    ] },
    Row { name: "refused calls cost nothing", steps: &[
        LoadBytes(&ADD, Number(0)), Link(0, Number(0)), SetFuel(5),
        Call(0, "add", &[Val::I32(1)], Refused(Refusal::BadArguments)), Call(9, "add", &[], Refused(Refusal::UnknownInstance)),
        Link(9, Refused(Refusal::UnknownModule)), Left(5),
    ] },
    Row { name: "a reference past the functions of the store", steps: &[
        Load(TAKES_FUNCTION, Number(0)), Link(0, Number(0)),
        Call(0, "is_null", &[Val::FuncRef(Some(1))], Refused(Refusal::BadArguments)),
        Call(0, "is_null", &[Val::FuncRef(Some(0))], Values(&[Val::I32(0)])),
        Call(0, "is_null", &[Val::FuncRef(None)], Values(&[Val::I32(1)])),
    ] },
    Row { name: "an exported function and an exported global", steps: &[
        Load(ADD_AND_GLOBAL, Number(0)), Link(0, Number(0)), SetFuel(5),
        GetGlobal(0, "g", Values(&[Val::I32(666)])), GetGlobal(0, "add", Refused(Refusal::WrongKind)),
        Call(0, "g", &[], Refused(Refusal::WrongKind)), GetGlobal(0, "h", Refused(Refusal::UnknownExport)),
        GetGlobal(1, "g", Refused(Refusal::UnknownInstance)), Left(5),
    ] },
];

// Returns whether a reply is the expected one.
fn is_answer(reply: &Reply, answer: Answer) -> bool {
    match (reply, answer) {
        (Reply::Loaded(number), Number(wanted)) => *number == wanted,
        (Reply::Linked(number), Number(wanted)) => *number == wanted,
        (Reply::Done, Done) => true,
        (Reply::Values(values), Values(wanted)) => values.as_slice() == wanted,
        (Reply::Trap(trap), Trapped(wanted)) => *trap == wanted,
        (Reply::Exhausted(what), Lacks(wanted)) => *what == wanted,
        (Reply::Refused(refusal), Refused(wanted)) => *refusal == wanted,
        _ => false,
    }
}

// Returns the command of a step and the expected reply, if the step is a command.
fn command_in(step: Step) -> Option<(Asked, Answer)> {
    match step {
        LoadBytes(_, wanted) | Load(_, wanted) => Some((Asked::Load, wanted)),
        Link(_, wanted) => Some((Asked::Link, wanted)),
        Register(_, _, wanted) => Some((Asked::Register, wanted)),
        Call(_, _, _, wanted) => Some((Asked::Call, wanted)),
        GetGlobal(_, _, wanted) => Some((Asked::GetGlobal, wanted)),
        SetFuel(_) => Some((Asked::SetFuel, Done)),
        LinkTimes(..) | LinkOthers(..) | Left(_) | Explained(..) => None,
    }
}

// Returns the reply when the module of a text is loaded.
fn load_text(alloc: Global, at: &mut Embedding, text: &str) -> Reply {
    match assemble(alloc, text) {
        Ok(bytes) => Reply::from(at.load(bytes.as_slice())),
        Err(_) => Reply::Refused(Refusal::OutOfMemory),
    }
}

// Returns the reply when a global is read.
fn read(alloc: Global, at: &Embedding, number: u64, name: &str) -> Reply {
    match at.get_global(InstanceNumber(number), name) {
        Ok(value) => match Vec::from_slice(alloc, &[value]) {
            Ok(values) => Reply::Values(values),
            Err(_) => Reply::Refused(Refusal::OutOfMemory),
        },
        Err(refusal) => Reply::Refused(refusal),
    }
}

// Returns the reply of the method for a step's command.
fn ask(alloc: Global, at: &mut Embedding, step: Step) -> Reply {
    match step {
        LoadBytes(bytes, _) => Reply::from(at.load(bytes)),
        Load(text, _) => load_text(alloc, at, text),
        Link(number, _) => Reply::from(at.link(ModuleNumber(number))),
        Register(number, name, _) => Reply::from(at.register(InstanceNumber(number), name)),
        Call(number, name, args, _) => Reply::from(at.call(InstanceNumber(number), name, args)),
        GetGlobal(number, name, _) => read(alloc, at, number, name),
        SetFuel(fuel) => {
            at.set_fuel(fuel);
            Reply::Done
        }
        LinkTimes(..) | LinkOthers(..) | Left(_) | Explained(..) => Reply::Done,
    }
}

// Returns whether a step gets the expected reply. If `wanting` is given, commands of that kind always run out of memory.
fn gets(alloc: Global, at: &mut Embedding, wanting: Option<Asked>, step: Step) -> bool {
    match command_in(step) {
        Some((asked, wanted)) if wanting == Some(asked) => is_answer(&want_memory(asked), wanted),
        Some((_, wanted)) => is_answer(&ask(alloc, at, step), wanted),
        None => true,
    }
}

// Links a module that many times.
fn link_times(at: &mut Embedding, number: u64, times: u64) {
    for _ in 0..times {
        let _ = at.link(ModuleNumber(number));
    }
}

// Returns whether the module of a text is loaded and linked.
fn links_text(alloc: Global, at: &mut Embedding, text: &str) -> bool {
    let Ok(bytes) = assemble(alloc, text) else {
        return false;
    };
    match at.load(bytes.as_slice()) {
        Ok(number) => matches!(at.link(number), Ok(LinkOutcome::Linked(_))),
        Err(_) => false,
    }
}

// Returns whether a module with its own objects, and a function that returns this number, is loaded and linked.
fn links_other(alloc: Global, at: &mut Embedding, number: u64) -> bool {
    match format!(in alloc;
        "(memory 1) (table 2 funcref) (global i32 i32.const {number}) (func (result i32) i32.const {number}) \
        (elem (offset i32.const 0) func 0) (data (offset i32.const 0) \"x\")"
    ) {
        Ok(text) => links_text(alloc, at, text.as_str()),
        Err(_) => false,
    }
}

// Returns whether such modules are loaded and linked, one for each of these numbers.
fn links_others(alloc: Global, at: &mut Embedding, first: u64, last: u64) -> bool {
    let mut all = true;
    for number in first..last {
        all &= links_other(alloc, at, number);
    }
    all
}

// Returns whether a step holds.
fn is_so(alloc: Global, at: &mut Embedding, wanting: Option<Asked>, step: Step) -> bool {
    match step {
        LinkTimes(number, times) => {
            link_times(at, number, times);
            true
        }
        LinkOthers(first, last) => links_others(alloc, at, first, last),
        Left(fuel) => at.fuel_left() == fuel,
        Explained(step, text) => step_is_explained(alloc, at, step, text) == Ok(true),
        command => gets(alloc, at, wanting, command),
    }
}

/// Returns whether all steps hold. If `wanting` is given, commands of that kind always run out of memory.
pub fn steps_hold_wanting(
    alloc: Global,
    at: &mut Embedding,
    wanting: Option<Asked>,
    steps: &[Step],
) -> bool {
    let mut all = true;
    for step in steps {
        all &= is_so(alloc, at, wanting, *step);
    }
    all
}

/// Returns whether all steps hold.
pub fn steps_hold(alloc: Global, at: &mut Embedding, steps: &[Step]) -> bool {
    steps_hold_wanting(alloc, at, None, steps)
}

/// Returns a fresh embedding without host functions.
pub fn fresh_embedding(alloc: Global) -> Option<Embedding> {
    let config = Config::new(1_000_000_000, 1_024, 1_024, 1_000_000)?;
    Embedding::new(alloc, config, Vec::new(alloc)).ok()
}

/// Returns whether all steps hold in a fresh embedding without host functions.
pub fn all_are_so(alloc: Global, steps: &[Step]) -> bool {
    match fresh_embedding(alloc) {
        Some(mut at) => steps_hold(alloc, &mut at, steps),
        None => false,
    }
}

#[test]
fn commands_get_their_answers(rt: HostRuntime) {
    for row in &ANSWERS {
        assert!(rt; all_are_so(rt.alloc(), row.steps), "{}", row.name);
    }
}

#[test]
fn refused_commands_say_why(rt: HostRuntime) {
    for row in &REFUSALS {
        assert!(rt; all_are_so(rt.alloc(), row.steps), "{}", row.name);
    }
}

// Returns whether that many of the first bytes of the module that adds get the right reply. They are loaded if they are a
// module: without sections, with its type alone, or whole. Otherwise they are malformed at one of them or at their end.
fn is_answer_to_first(answer: Result<ModuleNumber, Refusal>, count: usize) -> bool {
    match answer {
        Ok(number) => matches!(count, 8 | 17 | 41) && number == ModuleNumber(0),
        Err(Refusal::Malformed(offset)) => !matches!(count, 8 | 17 | 41) && offset <= count,
        Err(_) => false,
    }
}

// Returns whether that many of the first bytes get the right reply from an embedding.
fn loads_first_in(at: &mut Embedding, count: usize) -> bool {
    let first = &ADD[..count.min(ADD.len())];
    is_answer_to_first(at.load(first), count)
}

// Returns whether that many of the first bytes get the right reply.
fn loads_first(alloc: Global, count: usize) -> bool {
    match fresh_embedding(alloc) {
        Some(mut at) => loads_first_in(&mut at, count),
        None => false,
    }
}

#[test]
fn the_first_bytes_of_a_module_are_no_module(rt: HostRuntime) {
    for count in 0..=ADD.len() {
        assert!(rt; loads_first(rt.alloc(), count), "{count} bytes");
    }
}
