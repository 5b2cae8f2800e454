//! Host functions, and adding them to a table.

use crate::attempts::Attempt;
use crate::padding::pad;
use crate::verdicts::{Answer, Verdict};
use core_types::{Val, ValType};
use embed::{HostDef, func_type, one_result};
use hostfunc::{HostFn, HostTable, has_funcref, object_type};
use plugin_functions::Counter;
use std::alloc::{AllocError, Global};

/// Creates a host function that returns the number of its calls. Fails if an allocation fails.
pub fn boxed_counter(alloc: Global) -> Result<Box<Counter>, AllocError> {
    let ty = func_type(alloc, &[], &[ValType::I32])?;
    let calls = 0;
    Ok(Box::new(alloc, Counter { alloc, calls, ty })?)
}

// Appends a host function as the first one. Returns the verdict on that.
fn take_in(hosts: &mut HostTable, object: Box<dyn HostFn>) -> Answer {
    if hosts.len() > 0 || has_funcref(object_type(&object).results.as_slice()) {
        return Answer::Wrong;
    }
    let answer = hosts.push(object);
    match (answer, hosts.len()) {
        (Ok(0), 1) => Answer::Ample,
        (Err(_), 0) => Answer::Wanting,
        _ => Answer::Wrong,
    }
}

// Appends a host function after `before` unused allocations, and another one if memory ran out. Fails if an allocation for the
// host functions fails.
fn take_in_twice(alloc: Global, before: usize) -> Result<Verdict, AllocError> {
    let first = boxed_counter(alloc)?;
    let second = boxed_counter(alloc)?;
    let mut hosts = HostTable::new(alloc);
    if let Err(verdict) = pad(alloc, before) {
        return Ok(verdict);
    }
    Ok(match take_in(&mut hosts, first) {
        Answer::Ample => Verdict::Ample,
        Answer::Wrong => Verdict::Wrong("push"),
        Answer::Wanting => match take_in(&mut hosts, second) {
            Answer::Ample => Verdict::Wanting("push"),
            _ => Verdict::Wrong("push"),
        },
    })
}

/// Appends a host function after `before` unused allocations, and another one if memory ran out. Returns the verdict.
pub fn judge_push(alloc: Global, before: usize) -> Verdict {
    take_in_twice(alloc, before).unwrap_or(Verdict::Unready(0))
}

/// The creation of the parts of a host function.
#[derive(Drop)]
pub struct Parts {
    alloc: Global,
}

impl Parts {
    /// Prepares everything that the call needs. Returns none if that fails.
    pub fn prepare(alloc: Global) -> Option<Parts> {
        Some(Parts { alloc })
    }

    // Creates a type, a definition and a result. Returns whether they are as requested, and fails if an allocation fails.
    fn are_made(&self) -> Result<bool, AllocError> {
        let ty = func_type(self.alloc, &[ValType::I32, ValType::I64], &[ValType::I64])?;
        let counter = boxed_counter(self.alloc)?;
        let made = HostDef::new(self.alloc, "host", "count", counter)?;
        let Ok(results) = one_result(self.alloc, Val::I32(5)) else {
            return Err(AllocError);
        };
        Ok(
            ty.params.len() == 2
                && ty.results.len() == 1
                && made.name.as_str() == "count"
                && results.as_slice() == [Val::I32(5)].as_slice(),
        )
    }
}

impl Attempt for Parts {
    fn attempt(&mut self) -> Answer {
        match self.are_made() {
            Ok(true) => Answer::Ample,
            Ok(false) => Answer::Wrong,
            Err(_) => Answer::Wanting,
        }
    }
}
