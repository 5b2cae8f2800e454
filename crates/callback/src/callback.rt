ghost use Rattle.std.specs.Prelude.{◌≡◌, IfOk, IfSome, length, map};
ghost use Rattle.meaning.specs.execution.Values.{type_of};

use crate::asking::Asking;
use crate::ranges::range_within;
use crate::requests::make_request;
use core_types::{FuncType, Val};
use hostfunc::{HostFault, HostFn, have_types};
use io::read_full;
use messages::{Head, read_head, read_number, skip, split_value};
use std::alloc::Global;

/// The code of the trap if the client gives no valid answer: the answer is of another kind, has other types, is out of range,
/// or is cut short.
pub const NO_ANSWER: u32 = 0xFFFF_FFFF;

// The kinds of answers. No order has one of these kinds.
const RESULTS: u64 = 20;

const TRAP: u64 = 21;

const READ: u64 = 22;

const PUT: u64 = 23;

// The sizes in bytes of an encoded number and of an encoded value.
const NUMBER: u64 = 8;

const VALUE: u64 = 16;

/// A host function that a client executes. Requests are written to one descriptor, and answers are read from another.
#[derive(Drop)]
pub struct Callback {
    alloc: Global,
    number: u32,
    asking: Asking,
    hear: i32,
    ty: FuncType,
}

// Sends the bytes of the borrowed memory that an answer asks for. Returns whether they are within that memory and were written.
fn give_lent(asking: &Asking, hear: i32, size: u64, memory: &[u8]) -> bool {
    if size != 2 * NUMBER {
        skip(hear, size);
        return false;
    }
    let (Some(first), Some(count)) = (read_number(hear), read_number(hear)) else {
        return false;
    };
    match range_within(first, count, memory.len()) {
        Some((start, end)) => asking.lend(&memory[start..end]),
        None => false,
    }
}

// Writes the bytes of an answer to the borrowed memory. Returns whether their range is within that memory and all of them
// arrived.
fn put_lent(hear: i32, size: u64, memory: &mut [u8]) -> bool
    ensures { length memory.new ≡ length memory.old }
{
    if size < NUMBER {
        skip(hear, size);
        return false;
    }
    let Some(first) = read_number(hear) else {
        return false;
    };
    let count = size - NUMBER;
    match range_within(first, count, memory.len()) {
        Some((start, end)) => {
            let part = &mut memory[start..end];
            read_full(hear, part) == part.len()
        }
        None => {
            skip(hear, count);
            false
        }
    }
}

// Returns the code of the trap that an answer gives, or `NO_ANSWER` if it gives no code of 32 bits.
fn take_trap(hear: i32, size: u64) -> u32 {
    if size != NUMBER {
        skip(hear, size);
        return NO_ANSWER;
    }
    match read_number(hear) {
        Some(code) => u32::try_from(code).unwrap_or(NO_ANSWER),
        None => NO_ANSWER,
    }
}

// Reads a value from a descriptor. Returns none if the input ends or the bytes encode no value.
fn read_value(hear: i32) -> Option<Val> {
    let mut bytes = [0u8; VALUE as usize];
    if read_full(hear, &mut bytes) != bytes.len() {
        return None;
    }
    let (value, _) = split_value(&bytes)?;
    Some(value)
}

impl Callback {
    /// Creates the host function with this number and this type. Requests are written to `ask`, and answers are read from
    /// `hear`.
    pub fn new(alloc: Global, number: u32, ask: i32, hear: i32, ty: FuncType) -> Callback
        ensures number { result.number ≡ number }
        ensures asking { result.asking ≡ record { descriptor = ask; requests = 0 } }
        ensures hear { result.hear ≡ hear }
        ensures ty { result.ty ≡ ty }
    {
        Callback {
            alloc,
            number,
            asking: Asking::new(ask),
            hear,
            ty,
        }
    }

    // Reads the results of an answer to their end. Returns none if they do not have the declared types. The capacity of
    // `results` suffices for them.
    fn take_results(&self, size: u64, mut results: Vec<Val>) -> Option<Vec<Val>>
        ensures { IfSome result (λ values. map type_of values.items ≡ self.now.ty.results) }
    {
        let types = self.ty.results.as_slice();
        if size % VALUE != 0 || size / VALUE != types.len() as u64 {
            skip(self.hear, size);
            return None;
        }
        let mut are_values = true;
        for _ in 0..types.len() {
            are_values &= match read_value(self.hear) {
                Some(value) => results.push(value).is_ok(),
                None => false,
            };
        }
        if are_values && have_types(results.as_slice(), types) {
            Some(results)
        } else {
            None
        }
    }

    // Serves the client until it gives results or a trap. Returns the results, or the code of the trap.
    fn hear_answer(&self, results: Vec<Val>, memory: &mut [u8]) -> Result<Vec<Val>, u32>
        ensures typed { IfOk result (λ values. map type_of values.items ≡ self.now.ty.results) }
        ensures lent { length memory.new ≡ length memory.old }
    {
        for _ in 0..u64::MAX {
            let Ok(Head { size, kind }) = read_head(self.hear) else {
                return Err(NO_ANSWER);
            };
            let is_served = match kind {
                RESULTS => return self.take_results(size, results).ok_or(NO_ANSWER),
                TRAP => return Err(take_trap(self.hear, size)),
                READ => give_lent(&self.asking, self.hear, size, memory),
                PUT => put_lent(self.hear, size, memory),
                _ => {
                    skip(self.hear, size);
                    false
                }
            };
            if !is_served {
                return Err(NO_ANSWER);
            }
        }
        Err(NO_ANSWER)
    }
}

impl HostFn for Callback {
    ghost use Rattle.callback.specs.Strangers.{AnswersAtWill};

    ghost declared = { λ callback. callback.ty };

    ghost Answers = { λ callback _ bytes answer then callback'.
        AnswersAtWill callback bytes answer then callback' };

    fn ty(&self) -> &FuncType {
        &self.ty
    }

    fn call(&mut self, args: &[Val], memory: &mut [u8]) -> Result<Vec<Val>, HostFault> {
        // Once the request is sent, the call must not fail because an allocation fails. So the results are allocated first.
        let results = Vec::with_capacity(self.alloc, self.ty.results.len())?;
        let request = make_request(self.alloc, self.number, memory.len(), args)?;
        if self.asking.is_spent() {
            return Err(HostFault::Trap(NO_ANSWER));
        }
        if !self.asking.request(request.as_slice()) {
            return Err(HostFault::Trap(NO_ANSWER));
        }
        match self.hear_answer(results, memory) {
            Ok(values) => Ok(values),
            Err(code) => Err(HostFault::Trap(code)),
        }
    }
}
