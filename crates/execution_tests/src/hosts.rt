//! Host functions, and stores with them.

ghost use Rattle.std.specs.Prelude.{◌≡◌, ◌+◌, ◌<◌, ◌-◌, ◌^◌, ◌∷◌, [], length, IfOk, IfErr, OnOk};
ghost use Rattle.std.proofs.Props.{props};
ghost use Rattle.core_types.specs.declared.outcome.Val.TheVariants.{I32 as I32Value};
ghost use Rattle.core_types.specs.declared.types.ValType.TheVariants.{I32, I64};
ghost use Rattle.hostfunc.specs.declared.host_function.HostFault.TheVariants.{Memory as MemoryFault};
ghost use Rattle.hostfunc.specs.Tables.{hosts_in};
ghost use Rattle.store.specs.Contents.{store_of};

use crate::modules::{ENTRIES, PAGES};
use core_types::{FuncType, Items, Val, ValType};
use hostfunc::{HostFault, HostFn, HostTable, has_funcref, object_type};
use std::alloc::{AllocError, Global};
use store::Store;

fn function_type(
    alloc: Global,
    params: &[ValType],
    results: &[ValType],
) -> Result<FuncType, AllocError>
    ensures { IfOk result (λ ty. ty.results ≡ results.now) }
{
    let params = Vec::from_slice(alloc, params)?;
    let results = Vec::from_slice(alloc, results)?;
    Ok(FuncType {
        params: Items::from_vec(params),
        results: Items::from_vec(results),
    })
}

// Returns one i32 as results.
fn one_result(alloc: Global, number: u32) -> Result<Vec<Val>, HostFault>
    ensures ok { IfOk result (λ values. values.items ≡ I32Value number ∷ []) }
    ensures err { IfErr result (λ fault. fault ≡ MemoryFault) }
{
    let mut values = Vec::new(alloc);
    match values.push(Val::I32(number)) {
        Ok(()) => Ok(values),
        Err(_) => Err(HostFault::Memory),
    }
}

// Writes the byte 7 at 0, unless the memory is empty.
fn mark(memory: &mut [u8]) {
    if !memory.is_empty() {
        memory[0] = 7;
    }
}

// Returns the difference of two i32 and writes the byte 7 at 0. Traps with the code 5 if the second is 0.
#[derive(Drop)]
struct Difference {
    alloc: Global,
    ty: FuncType,
    ghost gives_number: { ty.results ≡ I32 ∷ [] } by { Prim.hlevel props },
}

fn new_difference(alloc: Global) -> Result<Box<Difference>, AllocError> {
    let ty = function_type(alloc, &[ValType::I32, ValType::I32], &[ValType::I32])?;
    Ok(Box::new(alloc, Difference { alloc, ty })?)
}

impl HostFn for Difference {
    ghost declared = { λ h. h.ty };

    ghost Answers = { λ h arguments bytes answer then h'. h'.ty ≡ h.ty };

    fn ty(&self) -> &FuncType {
        &self.ty
    }

    fn call(&mut self, args: &[Val], memory: &mut [u8]) -> Result<Vec<Val>, HostFault> {
        match args {
            [Val::I32(_), Val::I32(0)] => Err(HostFault::Trap(5)),
            [Val::I32(a), Val::I32(b)] => {
                let values = one_result(self.alloc, a.wrapping_sub(*b))?;
                mark(memory);
                Ok(values)
            }
            _ => Err(HostFault::Trap(0)),
        }
    }
}

// Returns the sum of the i32 of all calls. Returns that memory ran out if one is 0.
#[derive(Drop)]
struct Sum {
    alloc: Global,
    sum: u32,
    ty: FuncType,
    ghost gives_number: { ty.results ≡ I32 ∷ [] } by { Prim.hlevel props },
}

fn new_sum(alloc: Global) -> Result<Box<Sum>, AllocError> {
    let ty = function_type(alloc, &[ValType::I32], &[ValType::I32])?;
    Ok(Box::new(alloc, Sum { alloc, sum: 0, ty })?)
}

impl HostFn for Sum {
    ghost declared = { λ h. h.ty };

    ghost Answers = { λ h arguments bytes answer then h'. h'.ty ≡ h.ty };

    fn ty(&self) -> &FuncType {
        &self.ty
    }

    fn call(&mut self, args: &[Val], _memory: &mut [u8]) -> Result<Vec<Val>, HostFault> {
        match args {
            [Val::I32(0)] => Err(HostFault::Memory),
            [Val::I32(number)] => {
                let sum = self.sum.wrapping_add(*number);
                let values = one_result(self.alloc, sum)?;
                self.sum = sum;
                Ok(values)
            }
            _ => Err(HostFault::Trap(0)),
        }
    }
}

// Returns 1 to 4, of which the second is an i64.
#[derive(Drop)]
struct Four {
    alloc: Global,
    ty: FuncType,
    ghost gives_four: { ty.results ≡ I32 ∷ I64 ∷ I32 ∷ I32 ∷ [] } by { Prim.hlevel props },
}

fn new_four(alloc: Global) -> Result<Box<Four>, AllocError> {
    let results = [ValType::I32, ValType::I64, ValType::I32, ValType::I32];
    let ty = function_type(alloc, &[], &results)?;
    Ok(Box::new(alloc, Four { alloc, ty })?)
}

impl HostFn for Four {
    ghost declared = { λ h. h.ty };

    ghost Answers = { λ h arguments bytes answer then h'. h'.ty ≡ h.ty };

    fn ty(&self) -> &FuncType {
        &self.ty
    }

    fn call(&mut self, _args: &[Val], _memory: &mut [u8]) -> Result<Vec<Val>, HostFault> {
        let numbers = [Val::I32(1), Val::I64(2), Val::I32(3), Val::I32(4)];
        match Vec::from_slice(self.alloc, &numbers) {
            Ok(values) => Ok(values),
            Err(_) => Err(HostFault::Memory),
        }
    }
}

// Writes the byte 7 at 0, and returns nothing.
#[derive(Drop)]
struct Marker {
    alloc: Global,
    ty: FuncType,
    ghost gives_nothing: { ty.results ≡ [] } by { Prim.hlevel props },
}

fn new_marker(alloc: Global) -> Result<Box<Marker>, AllocError> {
    let ty = function_type(alloc, &[], &[])?;
    Ok(Box::new(alloc, Marker { alloc, ty })?)
}

impl HostFn for Marker {
    ghost declared = { λ h. h.ty };

    ghost Answers = { λ h arguments bytes answer then h'. h'.ty ≡ h.ty };

    fn ty(&self) -> &FuncType {
        &self.ty
    }

    fn call(&mut self, _args: &[Val], memory: &mut [u8]) -> Result<Vec<Val>, HostFault> {
        mark(memory);
        Ok(Vec::new(self.alloc))
    }
}

// Writes the byte 7 at 0, and returns the number of bytes that it borrows.
#[derive(Drop)]
struct Measure {
    alloc: Global,
    ty: FuncType,
    ghost gives_number: { ty.results ≡ I32 ∷ [] } by { Prim.hlevel props },
}

fn new_measure(alloc: Global) -> Result<Box<Measure>, AllocError> {
    let ty = function_type(alloc, &[], &[ValType::I32])?;
    Ok(Box::new(alloc, Measure { alloc, ty })?)
}

impl HostFn for Measure {
    ghost declared = { λ h. h.ty };

    ghost Answers = { λ h arguments bytes answer then h'. h'.ty ≡ h.ty };

    fn ty(&self) -> &FuncType {
        &self.ty
    }

    fn call(&mut self, _args: &[Val], memory: &mut [u8]) -> Result<Vec<Val>, HostFault> {
        let lent = u32::try_from(memory.len()).unwrap_or(u32::MAX);
        let values = one_result(self.alloc, lent)?;
        mark(memory);
        Ok(values)
    }
}

/// A store, and the objects of its host functions.
#[derive(Drop)]
pub struct Hosted {
    pub store: Store,
    pub hosts: HostTable,
}

/// Returns an empty store.
pub fn empty_hosted(alloc: Global) -> Hosted
    ensures objects { hosts_in result.hosts ≡ [] }
    ensures functions { (store_of result.store).functions ≡ [] }
    ensures hosts { result.store.code.hosts ≡ [] }
{
    Hosted {
        store: Store::new(alloc, PAGES, ENTRIES),
        hosts: HostTable::new(alloc),
    }
}

// Appends an object that gives no funcref, after that many host functions.
fn take_in(hosted: &mut Hosted, alloc: Global, object: Box<dyn HostFn>) -> Result<(), AllocError>
    requires objects { length (hosts_in hosted.old.hosts) < 9 }
    requires functions { length (store_of hosted.old.store).functions < 9 }
    requires hosts { length hosted.old.store.code.hosts < 9 }
    ensures objects { OnOk result (length (hosts_in hosted.new.hosts) ≡
        length (hosts_in hosted.old.hosts) + 1) }
    ensures functions { OnOk result (length (store_of hosted.new.store).functions ≡
        length (store_of hosted.old.store).functions + 1) }
    ensures hosts { OnOk result (length hosted.new.store.code.hosts ≡
        length hosted.old.store.code.hosts + 1) }
{
    if has_funcref(object_type(&object).results.as_slice()) {
        return Err(AllocError);
    }
    let number = hosted.hosts.push(object)?;
    let ty = hosted.hosts.ty(number).copy(alloc)?;
    hosted.store.append_host(ty)?;
    Ok(())
}

// Appends two such objects, one after the other.
fn take_in_both(
    hosted: &mut Hosted,
    alloc: Global,
    first: Box<dyn HostFn>,
    second: Box<dyn HostFn>,
) -> Result<(), AllocError>
    requires objects { length (hosts_in hosted.old.hosts) < 8 }
    requires functions { length (store_of hosted.old.store).functions < 8 }
    requires hosts { length hosted.old.store.code.hosts < 8 }
    ensures objects { OnOk result (length (hosts_in hosted.new.hosts) ≡
        length (hosts_in hosted.old.hosts) + 2) }
    ensures functions { OnOk result (length (store_of hosted.new.store).functions ≡
        length (store_of hosted.old.store).functions + 2) }
    ensures hosts { OnOk result (length hosted.new.store.code.hosts ≡
        length hosted.old.store.code.hosts + 2) }
{
    take_in(hosted, alloc, first)?;
    take_in(hosted, alloc, second)
}

// Four host functions: a difference, a sum, four results, and none.
#[derive(Drop)]
struct Functions {
    difference: Box<Difference>,
    sum: Box<Sum>,
    four: Box<Four>,
    marker: Box<Marker>,
}

fn new_functions(alloc: Global) -> Result<Functions, AllocError> {
    Ok(Functions {
        difference: new_difference(alloc)?,
        sum: new_sum(alloc)?,
        four: new_four(alloc)?,
        marker: new_marker(alloc)?,
    })
}

/// Creates a store with only these four host functions.
pub fn new_hosted(alloc: Global) -> Result<Hosted, AllocError> {
    let functions = new_functions(alloc)?;
    let mut hosted = empty_hosted(alloc);
    take_in_both(&mut hosted, alloc, functions.difference, functions.sum)?;
    take_in_both(&mut hosted, alloc, functions.four, functions.marker)?;
    Ok(hosted)
}

// Two host functions: a measure, and one without results.
#[derive(Drop)]
struct Lent {
    measure: Box<Measure>,
    marker: Box<Marker>,
}

fn new_lent(alloc: Global) -> Result<Lent, AllocError> {
    Ok(Lent {
        measure: new_measure(alloc)?,
        marker: new_marker(alloc)?,
    })
}

/// Creates a store with only two host functions, which write the byte 7 at 0. The first one returns the number of bytes that it
/// borrows, and the second one returns nothing.
pub fn new_measured(alloc: Global) -> Result<Hosted, AllocError> {
    let functions = new_lent(alloc)?;
    let mut hosted = empty_hosted(alloc);
    take_in_both(&mut hosted, alloc, functions.measure, functions.marker)?;
    Ok(hosted)
}
