//! Host functions: their results, what they borrow, and which definitions are refused.

ghost use Rattle.std.specs.Prelude.{◌≡◌, ◌<◌, ◌^◌, ◌∷◌, [], IfOk, IfErr, length, map};
ghost use Rattle.std.proofs.Props.{props};
ghost use Rattle.core_types.specs.declared.outcome.Val.TheVariants.{I32 as I32Value};
ghost use Rattle.core_types.specs.declared.types.ValType.TheVariants.{I32, I64};
ghost use Rattle.meaning.specs.execution.Values.{type_of};
ghost use Rattle.hostfunc.specs.declared.host_function.HostFault.TheVariants.{Memory as MemoryFault};
ghost use Rattle.embedding_tests.specs.Kinds.{results_of};

use crate::commands::{Answer, Step, steps_hold};
use crate::kinds::Kind;
use Answer::{Done, Lacks, Number, Refused, Trapped, Values};
use Step::{Call, Left, Link, Load, Register, SetFuel};
use core_types::{Exhaustion, FuncType, Items, Trap, Val};
use embed::{Config, Embedding, HostDef, NewFault, Refusal};
use hostfunc::{HostFault, HostFn};
use std::alloc::{AllocError, Global};

// A host function of a kind, and the number of its calls.
#[derive(Drop)]
struct Host {
    alloc: Global,
    kind: Kind,
    calls: u32,
    ty: FuncType,
    ghost typed: { ty.results ≡ results_of kind } by { Prim.hlevel props },
}

fn new_host(alloc: Global, kind: Kind) -> Result<Host, AllocError> {
    let params = Vec::from_slice(alloc, kind.params())?;
    let results = Vec::from_slice(alloc, kind.results())?;
    Ok(Host {
        alloc,
        kind,
        calls: 0,
        ty: FuncType {
            params: Items::from_vec(params),
            results: Items::from_vec(results),
        },
    })
}

// Returns one i32 as results.
fn one_result(alloc: Global, number: u32) -> Result<Vec<Val>, HostFault>
    ensures ok { IfOk result (λ values. values.items ≡ I32Value number ∷ []) }
    ensures err { IfErr result (λ fault. fault ≡ MemoryFault) }
{
    let mut values = Vec::new(alloc);
    match values.push(Val::I32(number)) {
        Ok(()) => Ok(values),
        Err(_) => Err(HostFault::Memory),
    }
}

fn results(alloc: Global, values: &[Val]) -> Result<Vec<Val>, HostFault>
    ensures ok { IfOk result (λ copied. copied.items ≡ values.now) }
    ensures err { IfErr result (λ fault. fault ≡ MemoryFault) }
{
    match Vec::from_slice(alloc, values) {
        Ok(copied) => Ok(copied),
        Err(_) => Err(HostFault::Memory),
    }
}

// Returns an i32 and an i64 as results, in the other order.
fn swapped(alloc: Global, args: &[Val]) -> Result<Vec<Val>, HostFault>
    ensures ok { IfOk result (λ values. map type_of values.items ≡ I64 ∷ I32 ∷ []) }
{
    match args {
        [Val::I32(first), Val::I64(second)] => {
            results(alloc, &[Val::I64(*second), Val::I32(*first)])
        }
        _ => Err(HostFault::Trap(0)),
    }
}

// Writes the byte 7 at 0, unless the memory is empty.
fn mark(memory: &mut [u8]) {
    if !memory.is_empty() {
        memory[0] = 7;
    }
}

impl HostFn for Host {
    ghost declared = { λ h. h.ty };

    ghost Answers = { λ h arguments bytes answer then h'. h'.ty ≡ h.ty };

    fn ty(&self) -> &FuncType {
        &self.ty
    }

    fn call(&mut self, args: &[Val], memory: &mut [u8]) -> Result<Vec<Val>, HostFault> {
        match self.kind {
            Kind::Counts => {
                let next = self.calls.wrapping_add(1);
                let values = one_result(self.alloc, next)?;
                self.calls = next;
                Ok(values)
            }
            Kind::Traps => Err(HostFault::Trap(5)),
            Kind::LacksMemory => Err(HostFault::Memory),
            Kind::Writes => {
                let values = one_result(self.alloc, 5)?;
                mark(memory);
                Ok(values)
            }
            Kind::Marks => {
                mark(memory);
                Ok(Vec::new(self.alloc))
            }
            Kind::Measures => one_result(
                self.alloc,
                u32::try_from(memory.len()).unwrap_or(u32::MAX),
            ),
            Kind::GivesFive => results(
                self.alloc,
                &[
                    Val::I32(1),
                    Val::I64(2),
                    Val::ExternRef(Some(3)),
                    Val::ExternRef(None),
                    Val::I32(5),
                ],
            ),
            Kind::Swaps => swapped(self.alloc, args),
            Kind::GivesFunction => Err(HostFault::Trap(0)),
        }
    }
}

// Host functions under the module name `host`, each with its name, and steps in a row in a fresh embedding. If there is no
// embedding, the number of the refusal.
struct Row {
    name: &'static str,
    hosts: &'static [(&'static str, Kind)],
    refused: Option<u8>,
    steps: &'static [Step],
}

const CALLS_TWICE: &str =
    "(import \"host\" \"c\" (func (result i32))) (func (result i32 i32) call 0 call 0) (export \"f\" (func 1))";

const CALLS_AFTER_TWO: &str =
    "(import \"host\" \"h\" (func)) (func i32.const 1 drop call 0) (export \"f\" (func 1))";

const READS_WHAT_WAS_WRITTEN: &str =
    "(import \"host\" \"w\" (func (result i32))) (memory 1) (func (result i32 i32) call 0 i32.const 0 i32.load8_u) (export \"f\" (func 1))";

const MEASURES: &str =
    "(import \"host\" \"m\" (func (result i32))) (memory 2) (func (result i32) call 0) (export \"f\" (func 1)) (export \"m\" (func 0))";

const MEASURES_NOTHING: &str =
    "(import \"host\" \"m\" (func (result i32))) (func (result i32) call 0) (export \"f\" (func 1))";

const CALLS_THROUGH_A_TABLE: &str =
    "(type (func (result i32))) (import \"host\" \"c\" (func (result i32))) (table 1 funcref) \
    (func (result i32) i32.const 0 call_indirect (type 0)) (elem (offset i32.const 0) func 0) (export \"f\" (func 1))";

// Has a memory, and a table that contains the host function.
pub const LENDS_A_TABLE: &str =
    "(import \"host\" \"w\" (func (result i32))) (memory 1) (table 1 funcref) (func (result i32) i32.const 0 i32.load8_u) \
    (elem (offset i32.const 0) func 0) (export \"table\" (table 0)) (export \"byte\" (func 1))";

// Has another memory, and calls through that table.
pub const CALLS_THROUGH_THAT_TABLE: &str =
    "(type (func (result i32))) (import \"a\" \"table\" (table 1 funcref)) (memory 1) \
    (func (result i32) i32.const 0 call_indirect (type 0)) (func (result i32) i32.const 0 i32.load8_u) (export \"f\" (func 0)) \
    (export \"byte\" (func 1))";

const WRITES_AND_READS: &str =
    "(import \"host\" \"w\" (func (result i32))) (memory 1) (func (result i32) call 0) (func (result i32) i32.const 0 i32.load8_u) \
    (export \"f\" (func 1)) (export \"byte\" (func 2))";

const STARTS_A_MARK: &str =
    "(import \"host\" \"s\" (func)) (memory 1) (func call 0) (func (result i32) i32.const 0 i32.load8_u) (start 0) \
    (export \"f\" (func 1)) (export \"byte\" (func 2))";

const STARTS_A_TRAP: &str = "(import \"host\" \"h\" (func)) (start 0)";

#[rattlefmt::skip]
static CALLS: [Row; 11] = [
    Row { name: "calls are counted from 1", hosts: &[("c", Kind::Counts)], refused: None, steps: &[
        Load(CALLS_TWICE, Number(0)), Link(0, Number(0)), SetFuel(10),
        Call(0, "f", &[], Values(&[Val::I32(1), Val::I32(2)])), Left(8),
    ] },
    Row { name: "a host function traps", hosts: &[("h", Kind::Traps)], refused: None, steps: &[
        Load(CALLS_AFTER_TWO, Number(0)), Link(0, Number(0)), SetFuel(10), Call(0, "f", &[], Trapped(Trap::Host(5))), Left(7),
    ] },
    Row { name: "a host function has no memory", hosts: &[("h", Kind::LacksMemory)], refused: None, steps: &[
        Load(CALLS_AFTER_TWO, Number(0)), Link(0, Number(0)), SetFuel(10), Call(0, "f", &[], Lacks(Exhaustion::Memory)), Left(8),
    ] },
    Row { name: "a host function is not called without fuel", hosts: &[("c", Kind::Counts)], refused: None, steps: &[
        Load(CALLS_TWICE, Number(0)), Link(0, Number(0)), SetFuel(1), Call(0, "f", &[], Lacks(Exhaustion::Fuel)), Left(0),
        SetFuel(2), Call(0, "f", &[], Values(&[Val::I32(2), Val::I32(3)])), Left(0),
    ] },
    Row { name: "a call through a table", hosts: &[("c", Kind::Counts)], refused: None, steps: &[
        SetFuel(100), Load(CALLS_THROUGH_A_TABLE, Number(0)), Link(0, Number(0)), SetFuel(2),
        Call(0, "f", &[], Values(&[Val::I32(1)])), Left(0),
    ] },
    Row { name: "a start function of the host that traps", hosts: &[("h", Kind::Traps)], refused: None, steps: &[
        SetFuel(4), Load(STARTS_A_TRAP, Number(0)), Link(0, Trapped(Trap::Host(5))), Left(4),
    ] },
    Row { name: "a module name of host functions is taken", hosts: &[("c", Kind::Counts)], refused: None, steps: &[
        Load(CALLS_TWICE, Number(0)), Link(0, Number(0)), Register(0, "host", Refused(Refusal::NameTaken)),
        Link(0, Number(1)), Register(0, "other", Done),
    ] },
    Row { name: "a host function of another type", hosts: &[("c", Kind::Traps)], refused: None, steps: &[
        Load(CALLS_TWICE, Number(0)), Link(0, Refused(Refusal::IncompatibleImport(0))),
    ] },
    Row { name: "one pair twice, the second with a funcref", hosts: &[("c", Kind::Counts), ("c", Kind::GivesFunction)], refused: Some(14), steps: &[] },
    Row { name: "one pair twice", hosts: &[("c", Kind::Counts), ("c", Kind::Counts)], refused: Some(12), steps: &[] },
    Row { name: "two pairs", hosts: &[("c", Kind::Counts), ("h", Kind::Traps)], refused: None, steps: &[
        Load(CALLS_TWICE, Number(0)), Link(0, Number(0)), Call(0, "f", &[], Values(&[Val::I32(1), Val::I32(2)])),
        Load(CALLS_AFTER_TWO, Number(1)), Link(1, Number(1)), Call(1, "f", &[], Trapped(Trap::Host(5))),
    ] },
];

#[rattlefmt::skip]
static LENT: [Row; 7] = [
    Row { name: "what a host function writes is read", hosts: &[("w", Kind::Writes)], refused: None, steps: &[
        Load(READS_WHAT_WAS_WRITTEN, Number(0)), Link(0, Number(0)), SetFuel(3),
        Call(0, "f", &[], Values(&[Val::I32(5), Val::I32(7)])), Left(0),
    ] },
    Row { name: "the memory of the caller is lent", hosts: &[("m", Kind::Measures)], refused: None, steps: &[
        Load(MEASURES, Number(0)), Link(0, Number(0)), Call(0, "f", &[], Values(&[Val::I32(131_072)])),
    ] },
    Row { name: "nothing is lent where the caller has no memory", hosts: &[("m", Kind::Measures)], refused: None, steps: &[
        Load(MEASURES_NOTHING, Number(0)), Link(0, Number(0)), Call(0, "f", &[], Values(&[Val::I32(0)])),
    ] },
    Row { name: "nothing is lent from outside", hosts: &[("m", Kind::Measures)], refused: None, steps: &[
        Load(MEASURES, Number(0)), Link(0, Number(0)), SetFuel(3), Call(0, "m", &[], Values(&[Val::I32(0)])), Left(3),
    ] },
    Row { name: "the memory of the caller is lent, and not that of the table's owner", hosts: &[("w", Kind::Writes)], refused: None, steps: &[
        Load(LENDS_A_TABLE, Number(0)), Link(0, Number(0)), Register(0, "a", Done),
        Load(CALLS_THROUGH_THAT_TABLE, Number(1)), Link(1, Number(1)), Call(1, "f", &[], Values(&[Val::I32(5)])),
        Call(1, "byte", &[], Values(&[Val::I32(7)])), Call(0, "byte", &[], Values(&[Val::I32(0)])),
    ] },
    Row { name: "each of two instances has the byte in its own memory", hosts: &[("w", Kind::Writes)], refused: None, steps: &[
        Load(WRITES_AND_READS, Number(0)), Link(0, Number(0)), Link(0, Number(1)), Call(0, "f", &[], Values(&[Val::I32(5)])),
        Call(0, "byte", &[], Values(&[Val::I32(7)])), Call(1, "byte", &[], Values(&[Val::I32(0)])),
        Call(1, "f", &[], Values(&[Val::I32(5)])), Call(1, "byte", &[], Values(&[Val::I32(7)])),
    ] },
    Row { name: "a start function of the host is lent nothing", hosts: &[("s", Kind::Marks)], refused: None, steps: &[
        Load(STARTS_A_MARK, Number(0)), Link(0, Number(0)), Call(0, "byte", &[], Values(&[Val::I32(0)])),
        Call(0, "f", &[], Values(&[])), Call(0, "byte", &[], Values(&[Val::I32(7)])),
    ] },
];

// Appends the definition of a host function.
fn defined(alloc: Global, name: &str, func: Box<dyn HostFn>) -> Result<HostDef, AllocError> {
    Ok(HostDef {
        module: String::from_str(alloc, "host")?,
        name: String::from_str(alloc, name)?,
        func,
    })
}

// Returns whether no embedding was created, for this reason.
fn is_refusal(fault: &NewFault, refused: Option<u8>) -> bool {
    refused == Some(fault.number())
}

// Returns whether all steps hold in a fresh embedding with these host functions, in which that many frames may be open. If a
// number of a refusal is given, returns whether no embedding was created for that reason.
fn steps_hold_in(
    alloc: Global,
    hosts: Vec<HostDef>,
    depth: u32,
    refused: Option<u8>,
    steps: &[Step],
) -> bool
    requires { length hosts.items < 2 ^ 32 }
{
    let Some(config) = Config::new(1_000_000_000, depth, 1_024, 1_000_000) else {
        return false;
    };
    match Embedding::new(alloc, config, hosts) {
        Ok(mut at) => refused.is_none() && steps_hold(alloc, &mut at, steps),
        Err(fault) => is_refusal(&fault, refused),
    }
}

/// Returns whether all steps hold in a fresh embedding with host functions of these names and kinds, in which that many frames
/// may be open. If a number of a refusal is given, returns whether no embedding was created for that reason.
pub fn steps_hold_with(
    alloc: Global,
    defs: &[(&str, Kind)],
    depth: u32,
    refused: Option<u8>,
    steps: &[Step],
) -> Result<bool, AllocError> {
    let mut hosts = Vec::new(alloc);
    for (name, kind) in defs {
        let host = new_host(alloc, *kind)?;
        hosts.push(defined(alloc, name, Box::new(alloc, host)?)?)?;
    }
    Ok(hosts.len() <= 10 && steps_hold_in(alloc, hosts, depth, refused, steps))
}

// Returns whether a row holds.
fn is_so(alloc: Global, row: &Row) -> Result<bool, AllocError> {
    steps_hold_with(alloc, row.hosts, 1_024, row.refused, row.steps)
}

fn calls() -> &'static [Row] {
    &CALLS
}

#[test]
fn host_functions_are_called(rt: HostRuntime) {
    for row in calls() {
        assert!(rt; is_so(rt.alloc(), row) == Ok(true), "{}", row.name);
    }
}

#[test]
fn host_functions_are_lent_the_memory_of_the_caller(rt: HostRuntime) {
    for row in &LENT {
        assert!(rt; is_so(rt.alloc(), row) == Ok(true), "{}", row.name);
    }
}

#[test]
fn call_always_out_of_memory(rt: HostRuntime) {
    for row in calls() {
        assert!(rt;
            !is_refusal(&NewFault::OutOfMemory, row.refused),
            "{}",
            row.name
        );
    }
}
