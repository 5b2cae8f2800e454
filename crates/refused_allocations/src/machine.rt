//! What an embedding answers to the list, derived from the steps alone.
//!
//! An instruction costs 1. A bulk instruction, a growth that succeeds and a segment also cost fuel for their sizes.

use crate::embeddings::FUEL;
use crate::numbered::Numbered;
use crate::seen::{EXHAUSTED, REFUSED, Seen};
use crate::steps::{Function, Kind, Name, Step};
use core_types::Trap;
use embed::Refusal;

// The most pages that the memory may have, and the most entries that the table may have.
const MOST_PAGES: u32 = 5;

const MOST_ENTRIES: u32 = 8;

// The cost of each page that a memory grows by.
const PAGE_COST: u64 = 1_024;

/// The state that an embedding must have.
#[derive(Clone, Copy)]
pub struct Machine {
    modules: Numbered,
    instances: Numbered,
    // What is registered under the names.
    a: Option<Kind>,
    b: Option<Kind>,
    // The pages, the entries and the global of the maker, and whether a user has written to its memory and its table.
    pages: u32,
    entries: u32,
    global: u32,
    is_written: bool,
    // The number of calls of the host.
    calls: u32,
    fuel: u64,
}

/// What may be left if memory runs out: the reply, and the machine after it.
#[derive(Clone, Copy)]
pub struct Left {
    pub seen: Seen,
    pub machine: Machine,
}

impl Machine {
    /// Creates the machine of a fresh embedding.
    pub fn new() -> Machine {
        Machine {
            modules: Numbered::new(),
            instances: Numbered::new(),
            a: None,
            b: None,
            pages: 1,
            entries: 2,
            global: 7,
            is_written: false,
            calls: 0,
            fuel: FUEL,
        }
    }

    /// Returns the fuel left.
    pub fn fuel(&self) -> u64 {
        self.fuel
    }

    // Spends fuel, at most what is left.
    fn spend(&mut self, cost: u64) {
        self.fuel = self.fuel.saturating_sub(cost);
    }

    // Adds what may be left if the command is refused because memory ran out: nothing has changed.
    fn may_refuse(&self, left: &mut Vec<Left>) {
        let _ = left.push(Left {
            seen: REFUSED,
            machine: *self,
        });
    }

    // Adds what may be left if memory runs out after `cost` was spent.
    fn may_exhaust(&self, cost: u64, left: &mut Vec<Left>) {
        let mut machine = *self;
        machine.spend(cost);
        let _ = left.push(Left {
            seen: EXHAUSTED,
            machine,
        });
    }

    // Loads a module.
    fn load(&mut self, kind: Kind, left: &mut Vec<Left>) -> Seen {
        self.may_refuse(left);
        Seen::Loaded(self.modules.append(kind))
    }

    // Returns the index of the first import of a module whose names stand for nothing, if there is one.
    fn unknown_import(&self, kind: Kind) -> Option<usize> {
        match kind {
            Kind::Maker | Kind::Empty => None,
            Kind::User | Kind::Passer if self.a == Some(Kind::Maker) => None,
            Kind::User | Kind::Passer => Some(0),
            Kind::Caller if self.b != Some(Kind::User) => Some(0),
            Kind::Caller if self.a != Some(Kind::Maker) => Some(1),
            Kind::Caller => None,
        }
    }

    // Copies the segments of a user, with two instructions for each, and calls its start function, which grows the memory by a
    // page.
    fn start_user(&mut self, left: &mut Vec<Left>) {
        self.is_written = true;
        self.spend(4);
        self.may_exhaust(0, left);
        self.may_exhaust(1, left);
        self.spend(3);
        if self.pages < MOST_PAGES {
            self.pages += 1;
            self.spend(PAGE_COST);
        }
    }

    // Links a module.
    fn link(&mut self, number: u64, left: &mut Vec<Left>) -> Seen {
        let Some(kind) = self.modules.get(number) else {
            return Seen::Refused(Refusal::UnknownModule);
        };
        self.may_refuse(left);
        if let Some(index) = self.unknown_import(kind) {
            return Seen::Refused(Refusal::UnknownImport(index));
        }
        if kind == Kind::User {
            self.start_user(left);
        }
        Seen::Linked(self.instances.append(kind))
    }

    // Registers an instance.
    fn register(&mut self, number: u64, name: Name, left: &mut Vec<Left>) -> Seen {
        let Some(kind) = self.instances.get(number) else {
            return Seen::Refused(Refusal::UnknownInstance);
        };
        self.may_refuse(left);
        match name {
            Name::A => self.a = Some(kind),
            Name::B => self.b = Some(kind),
        }
        Seen::Done
    }

    // Calls the host, after `spent` units of fuel were spent in the call.
    fn call_host(&mut self, spent: u64, left: &mut Vec<Left>) -> Seen {
        self.may_exhaust(spent, left);
        self.spend(spent.saturating_add(1));
        self.calls = self.calls.saturating_add(1);
        Seen::Number(self.calls)
    }

    // Calls the first entry of the table, which is null unless a user has written it.
    fn call_entry(&mut self, left: &mut Vec<Left>) -> Seen {
        if !self.is_written {
            self.spend(2);
            return Seen::Trapped(Trap::UninitializedElement);
        }
        self.may_exhaust(1, left);
        self.call_host(2, left)
    }

    // Grows the memory, after an instruction for the operand.
    fn grow_memory(&mut self, count: u32, left: &mut Vec<Left>) -> Seen {
        let before = self.pages;
        let after = before.saturating_add(count);
        if after > MOST_PAGES {
            self.spend(2);
            return Seen::Number(u32::MAX);
        }
        self.may_exhaust(1, left);
        self.pages = after;
        self.spend(PAGE_COST.saturating_mul(u64::from(count)).saturating_add(2));
        Seen::Number(before)
    }

    // Grows the table, after two instructions for the operands.
    fn grow_table(&mut self, count: u32, left: &mut Vec<Left>) -> Seen {
        let before = self.entries;
        let after = before.saturating_add(count);
        if after > MOST_ENTRIES {
            self.spend(3);
            return Seen::Number(u32::MAX);
        }
        self.may_exhaust(2, left);
        self.entries = after;
        self.spend(u64::from(count / 8).saturating_add(3));
        Seen::Number(before)
    }

    // Calls a function that calls itself `times` times. Six instructions come before each of these calls, and two after it. The
    // last time, there are four instructions.
    fn call_deep(&mut self, times: u32, left: &mut Vec<Left>) -> Seen {
        for time in 0..times {
            self.may_exhaust(u64::from(time).saturating_mul(7).saturating_add(6), left);
        }
        self.spend(u64::from(times).saturating_mul(9).saturating_add(4));
        Seen::Number(times)
    }

    // Calls a function that tail-calls one with a larger frame, after an instruction for the operand. That frame replaces the
    // first one.
    fn call_wide(&mut self, number: u32, left: &mut Vec<Left>) -> Seen {
        self.may_exhaust(1, left);
        self.spend(3);
        Seen::Number(number)
    }

    // Calls a function. A frame is opened before anything is spent.
    fn call(
        &mut self,
        number: u64,
        function: Function,
        argument: u32,
        left: &mut Vec<Left>,
    ) -> Seen {
        let Some(kind) = self.instances.get(number) else {
            return Seen::Refused(Refusal::UnknownInstance);
        };
        if kind != function.exporter() {
            return Seen::Refused(Refusal::UnknownExport);
        }
        self.may_exhaust(0, left);
        match function {
            Function::Read => {
                self.spend(2);
                Seen::Number(if self.is_written { 120 } else { 0 })
            }
            Function::Through => self.call_entry(left),
            Function::Deep => self.call_deep(argument, left),
            Function::Wide => self.call_wide(argument, left),
            Function::Counts | Function::CountsLast => self.call_host(0, left),
            Function::Calls => self.call_host(1, left),
            Function::GrowMemory => self.grow_memory(argument, left),
            Function::GrowTable => self.grow_table(argument, left),
        }
    }

    // Reads the global.
    fn get_global(&self, number: u64, left: &mut Vec<Left>) -> Seen {
        match self.instances.get(number) {
            None => Seen::Refused(Refusal::UnknownInstance),
            Some(Kind::Maker | Kind::Passer) => {
                self.may_refuse(left);
                Seen::Number(self.global)
            }
            Some(_) => Seen::Refused(Refusal::UnknownExport),
        }
    }

    // Runs the script: it loads and links a passer, calls its function, and reads its global. Before each command, the fuel is
    // set to that of the setup. The script may end because memory ran out, before and after each command that it gives.
    fn run_script(&mut self, left: &mut Vec<Left>) -> Seen {
        self.may_refuse(left);
        self.fuel = FUEL;
        self.may_refuse(left);
        self.modules.append(Kind::Passer);
        self.may_refuse(left);
        if self.unknown_import(Kind::Passer).is_some() {
            return Seen::Counted(0, 3);
        }
        self.instances.append(Kind::Passer);
        self.may_refuse(left);
        self.global = self.global.saturating_add(1);
        self.spend(4);
        self.may_refuse(left);
        self.fuel = FUEL;
        self.may_refuse(left);
        Seen::Counted(
            if self.global == 8 { 3 } else { 2 },
            if self.global == 8 { 0 } else { 1 },
        )
    }

    /// Takes a step with ample memory, and returns the reply. Appends what may be left if memory runs out.
    pub fn take(&mut self, step: Step, left: &mut Vec<Left>) -> Seen {
        match step {
            Step::Load(kind) => self.load(kind, left),
            Step::Link(number) => self.link(number, left),
            Step::Register(number, name) => self.register(number, name, left),
            Step::Call(number, function, argument) => {
                self.call(number, function, argument.unwrap_or(0), left)
            }
            Step::GetGlobal(number) => self.get_global(number, left),
            Step::SetFuel(fuel) => {
                self.fuel = fuel;
                Seen::Done
            }
            Step::Script => self.run_script(left),
        }
    }
}
