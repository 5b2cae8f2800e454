//! The list of commands: modules that share a table and a memory are loaded, linked, registered and called.

/// The kind of a module.
#[derive(Clone, Copy, PartialEq, Eq)]
pub enum Kind {
    /// Has a table, a memory and a global.
    Maker,
    /// Writes into the table and the memory of a maker, grows both, and calls the host.
    User,
    /// Calls a function of a user.
    Caller,
    /// Exports a function and the global of a maker.
    Passer,
    /// Has nothing.
    Empty,
}

impl Kind {
    /// Returns the text of the module.
    pub fn text(self) -> &'static str {
        match self {
            Kind::Maker => {
                "(type (func (result i32))) (memory 1 5) (table 2 8 funcref) (global (mut i32) i32.const 7) (func (result i32) i32.const 0 i32.load8_u) (func (result i32) i32.const 0 call_indirect (type 0)) (func global.get 0 i32.const 1 i32.add global.set 0) (func (param i32) (result i32) local.get 0 i32.eqz if (result i32) i32.const 0 else local.get 0 i32.const 1 i32.sub call 3 i32.const 1 i32.add end) (func (param i32) (result i32) local.get 0 return_call 5) (func (param i32) (result i32) (local i64 i64 i64 i64 i64 i64 i64 i64) local.get 0) (export \"memory\" (memory 0)) (export \"table\" (table 0)) (export \"g\" (global 0)) (export \"read\" (func 0)) (export \"through\" (func 1)) (export \"bump\" (func 2)) (export \"deep\" (func 3)) (export \"wide\" (func 4))"
            }
            Kind::User => {
                "(import \"a\" \"memory\" (memory 1 5)) (import \"a\" \"table\" (table 2 8 funcref)) (import \"host\" \"count\" (func (result i32))) (func (result i32) call 0) (func (param i32) (result i32) local.get 0 memory.grow) (func (param i32) (result i32) ref.null func local.get 0 table.grow 0) (func i32.const 1 memory.grow drop) (func (result i32) return_call 0) (elem (offset i32.const 0) func 1) (data (offset i32.const 0) \"x\") (start 4) (export \"counts\" (func 1)) (export \"grow_memory\" (func 2)) (export \"grow_table\" (func 3)) (export \"counts_last\" (func 5))"
            }
            Kind::Caller => {
                "(import \"b\" \"counts\" (func (result i32))) (import \"a\" \"table\" (table 2 8 funcref)) (func (result i32) call 0) (export \"calls\" (func 1))"
            }
            Kind::Passer => {
                "(import \"a\" \"bump\" (func)) (import \"a\" \"g\" (global (mut i32))) (export \"bump\" (func 0)) (export \"g\" (global 0))"
            }
            Kind::Empty => "",
        }
    }
}

/// A name under which an instance is registered.
#[derive(Clone, Copy, PartialEq, Eq)]
pub enum Name {
    A,
    B,
}

impl Name {
    /// Returns the text of the name.
    pub fn text(self) -> &'static str {
        match self {
            Name::A => "a",
            Name::B => "b",
        }
    }
}

/// A function that a module exports.
#[derive(Clone, Copy, PartialEq, Eq)]
pub enum Function {
    /// Reads the first byte of the memory.
    Read,
    /// Calls the first entry of the table.
    Through,
    /// Calls itself the number of times that its argument states.
    Deep,
    /// Tail-calls a function with a larger frame.
    Wide,
    /// Calls the host.
    Counts,
    /// Tail-calls the host.
    CountsLast,
    /// Calls `counts` of another instance.
    Calls,
    GrowMemory,
    GrowTable,
}

impl Function {
    /// Returns the name under which the function is exported.
    pub fn name(self) -> &'static str {
        match self {
            Function::Read => "read",
            Function::Through => "through",
            Function::Deep => "deep",
            Function::Wide => "wide",
            Function::Counts => "counts",
            Function::CountsLast => "counts_last",
            Function::Calls => "calls",
            Function::GrowMemory => "grow_memory",
            Function::GrowTable => "grow_table",
        }
    }

    /// Returns the kind of the modules that export the function.
    pub fn exporter(self) -> Kind {
        match self {
            Function::Read | Function::Through | Function::Deep | Function::Wide => Kind::Maker,
            Function::Counts | Function::CountsLast | Function::GrowMemory | Function::GrowTable =>
                Kind::User,
            Function::Calls => Kind::Caller,
        }
    }
}

/// A command of the list, or the script.
#[derive(Clone, Copy)]
pub enum Step {
    Load(Kind),
    Link(u64),
    Register(u64, Name),
    /// A call, with or without an argument.
    Call(u64, Function, Option<u32>),
    /// A read of the global of a maker.
    GetGlobal(u64),
    SetFuel(u64),
    Script,
}

use Step::{Call, GetGlobal, Link, Load, Register, Script, SetFuel};

/// The list: each step with its name.
#[rattlefmt::skip]
pub static STEPS: [(&str, Step); 27] = [
    ("Load of a maker", Load(Kind::Maker)),
    ("Load of a user", Load(Kind::User)),
    ("Load of a caller", Load(Kind::Caller)),
    ("Link of the maker", Link(0)),
    ("Register of the maker", Register(0, Name::A)),
    ("Link of the user", Link(1)),
    ("Register of the user", Register(1, Name::B)),
    ("Link of the caller", Link(2)),
    ("SetFuel", SetFuel(50_000)),
    ("Call that reads the memory", Call(0, Function::Read, None)),
    ("Call through the table", Call(0, Function::Through, None)),
    ("Call of the host", Call(1, Function::Counts, None)),
    ("Call of the host, last", Call(1, Function::CountsLast, None)),
    ("Call over instances", Call(2, Function::Calls, None)),
    ("Call that grows the memory", Call(1, Function::GrowMemory, Some(2))),
    ("Call that grows the memory too far", Call(1, Function::GrowMemory, Some(2))),
    ("Call that grows the table", Call(1, Function::GrowTable, Some(3))),
    ("Call that calls itself", Call(0, Function::Deep, Some(50))),
    ("Call of a larger frame, last", Call(0, Function::Wide, Some(9))),
    ("GetGlobal", GetGlobal(0)),
    ("run_script", Script),
    ("Load behind the script", Load(Kind::Empty)),
    ("Link behind the script", Link(4)),
    ("GetGlobal behind the script", GetGlobal(0)),
    ("Call through the table behind the script", Call(0, Function::Through, None)),
    ("Call that grows the table again", Call(1, Function::GrowTable, Some(1))),
    ("Load at the end", Load(Kind::Passer)),
];
