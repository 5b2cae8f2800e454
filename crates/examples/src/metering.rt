//! A platform for contracts: each call buys fuel, and pays for the fuel that it spends, whether it ends with values, a trap or
//! an exhaustion.

use crate::fault::Fault;
use crate::outcomes::print_outcome;
use account::{Account, pay_for_call};
use embed::{Config, Embedding, InstanceNumber, LinkOutcome, NewFault, Val};
use std::alloc::Global;
use std::io::{self, Write};

// The fuel that the caller may spend in all, and the limit for one call.
const MONEY: u64 = 3_000;

const LIMIT: u64 = 1_200;

// The calls, with their arguments.
static CALLS: [(&str, &[Val]); 11] = [
    ("add", &[Val::I32(1), Val::I32(2)]),
    ("divide", &[Val::I32(7), Val::I32(0)]),
    ("fill", &[Val::I32(640)]),
    ("fill", &[Val::I32(70_000)]),
    ("copy", &[Val::I32(6_400)]),
    ("grow", &[Val::I32(1)]),
    ("grow", &[Val::I32(1)]),
    ("call_itself", &[]),
    ("add", &[]),
    ("loop", &[]),
    ("add", &[Val::I32(1), Val::I32(2)]),
];

// Creates an embedding with the most fuel that a call may buy.
fn new_embedding(alloc: Global) -> Result<Embedding, Fault> {
    let config = Config::new(LIMIT, 16, 16, 100).ok_or(NewFault::OutOfMemory)?;
    Ok(Embedding::new(alloc, config, Vec::new(alloc))?)
}

// Links the contract that the bytes encode.
fn link(embedding: &mut Embedding, bytes: &[u8]) -> Result<InstanceNumber, Fault> {
    let loaded = embedding.load(bytes)?;
    match embedding.link(loaded)? {
        LinkOutcome::Linked(contract) => Ok(contract),
        LinkOutcome::Trap(_) | LinkOutcome::Exhausted(_) => Err(Fault::Start),
    }
}

// Makes a call, and prints how it ended and what it cost.
fn call<W: Write>(
    embedding: &mut Embedding,
    contract: InstanceNumber,
    account: &mut Account,
    (export, args): (&str, &[Val]),
    out: &mut W,
) -> io::Result<()> {
    let paid = pay_for_call(account, LIMIT, embedding, contract, export, args);
    let (bought, left, balance) = (paid.bought, paid.left, account.balance);
    write!(
        out,
        "{export}: bought {bought}, left {left}, balance {balance}: "
    )?;
    print_outcome(out, &paid.outcome)
}

// Makes the calls of a caller with this money, and prints what each one costs.
fn make_calls<W: Write>(
    embedding: &mut Embedding,
    contract: InstanceNumber,
    out: &mut W,
) -> io::Result<()> {
    let mut account = Account { balance: MONEY };
    for (export, args) in &CALLS {
        call(embedding, contract, &mut account, (export, args), out)?;
    }
    Ok(())
}

// Links the contract that the bytes encode in an embedding, and makes the calls.
fn run<W: Write>(embedding: &mut Embedding, bytes: &[u8], out: &mut W) -> Result<(), Fault> {
    let contract = link(embedding, bytes)?;
    make_calls(embedding, contract, out)?;
    Ok(())
}

/// Makes the calls to the contract that the bytes encode.
pub fn run_contract<W: Write>(alloc: Global, bytes: &[u8], out: &mut W) -> Result<(), Fault> {
    match new_embedding(alloc) {
        Ok(mut embedding) => run(&mut embedding, bytes, out),
        Err(fault) => Err(fault),
    }
}
