//! Calling functions from outside.

use crate::attempts::Attempt;
use crate::linking::store_of;
use crate::texts::{DEEP, ROUNDS};
use crate::verdicts::Answer;
use core_types::{Exhaustion, Val};
use exec::{Outcome, have_hosts, invoke};
use fuel::Meter;
use hostfunc::HostTable;
use std::alloc::Global;
use store::{Store, accepts};

// The fuel of a call.
const FUEL: u64 = 10_000_000;

// The most frames that may be open.
const DEPTH: u32 = 100;

// Calls the function at address 0, which returns its argument. Returns the verdict on the call.
fn call(alloc: Global, store: &mut Store, number: u32) -> Answer {
    let arguments = [Val::I32(number)];
    let mut hosts = HostTable::new(alloc);
    if !have_hosts(store, &hosts) || !accepts(store, 0, &arguments) {
        return Answer::Wrong;
    }
    let mut meter = Meter::new(FUEL, DEPTH);
    match invoke(alloc, store, &mut hosts, &mut meter, 0, &arguments) {
        Outcome::Values(values) if values.as_slice() == arguments.as_slice() => Answer::Ample,
        Outcome::Exhausted(Exhaustion::Memory) => Answer::Wanting,
        _ => Answer::Wrong,
    }
}

/// A call of a function that calls itself fifty times.
#[derive(Drop)]
pub struct Calling {
    alloc: Global,
    store: Store,
}

impl Calling {
    /// Prepares everything that the call needs. Returns none if that fails.
    pub fn prepare(alloc: Global) -> Option<Calling> {
        let store = store_of(alloc, DEEP)?;
        Some(Calling { alloc, store })
    }
}

impl Attempt for Calling {
    fn attempt(&mut self) -> Answer {
        call(self.alloc, &mut self.store, 50)
    }
}

/// A call of a function that runs a loop `count` times.
#[derive(Drop)]
pub struct Rounds {
    alloc: Global,
    store: Store,
    count: u32,
}

impl Rounds {
    /// Prepares everything that the call needs. Returns none if that fails.
    pub fn prepare(alloc: Global, count: u32) -> Option<Rounds> {
        let store = store_of(alloc, ROUNDS)?;
        Some(Rounds {
            alloc,
            store,
            count,
        })
    }
}

impl Attempt for Rounds {
    fn attempt(&mut self) -> Answer {
        call(self.alloc, &mut self.store, self.count)
    }
}
