//! Small helpers for host functions.

ghost use Rattle.std.specs.Prelude.{◌≡◌, ◌+◌, ◌++◌, ◌<◌, ◌≤◌, [], ◌∷◌, IfErr, IfOk, MatchOption, drop, false, length, take, true};
ghost use Rattle.hostfunc.specs.declared.host_function.HostFault.TheVariants.{Memory as MemoryFault};

use core_types::{FuncType, Items, Val, ValType};
use hostfunc::HostFault;
use std::alloc::{AllocError, Global};

/// Creates the type of a function with these parameters and results. Fails if an allocation fails.
pub fn func_type(
    alloc: Global,
    params: &[ValType],
    results: &[ValType],
) -> Result<FuncType, AllocError>
    ensures params { IfOk result (λ ty. ty.params ≡ params.now) }
    ensures results { IfOk result (λ ty. ty.results ≡ results.now) }
{
    let params = Vec::from_slice(alloc, params)?;
    let results = Vec::from_slice(alloc, results)?;
    Ok(FuncType {
        params: Items::from_vec(params),
        results: Items::from_vec(results),
    })
}

/// Returns the results of a host function that has no result. Allocates nothing.
pub fn no_results(alloc: Global) -> Vec<Val>
    ensures { result.items ≡ [] }
{
    Vec::new(alloc)
}

/// Returns the results of a host function that has one result. Fails with `HostFault::Memory` if an allocation fails.
pub fn one_result(alloc: Global, value: Val) -> Result<Vec<Val>, HostFault>
    ensures ok { IfOk result (λ values. values.items ≡ value ∷ []) }
    ensures err { IfErr result (λ fault. fault ≡ MemoryFault) }
{
    Ok(vec![in alloc; value]?)
}

/// Returns `len` bytes of a borrowed memory from the address `start` on, or none if the memory ends before them.
pub fn bytes_at(memory: &[u8], start: u32, len: u32) -> Option<&[u8]>
    ensures { MatchOption result (length memory.now < start + len)
        (λ bytes. (start + len ≤ length memory.now) × (bytes.now ≡ take len
        (drop start memory.now))) }
{
    let (from, count) = (start as usize, len as usize);
    if from + count > memory.len() {
        return None;
    }
    Some(&memory[from..from + count])
}

/// Writes bytes to a borrowed memory from the address `start` on. Returns whether the memory has room for them. If it has not, nothing
/// is written.
pub fn put_bytes(memory: &mut [u8], start: u32, bytes: &[u8]) -> bool
    ensures fits { result ≡ true → start + length bytes.now ≤ length memory.old }
    ensures written { result ≡ true → memory.new ≡ take start memory.old
        ++ (bytes.now ++ drop (start + length bytes.now) memory.old) }
    ensures past_the_end { result ≡ false → length memory.old < start + length bytes.now }
    ensures unchanged { result ≡ false → memory.new ≡ memory.old }
    ensures len { length memory.new ≡ length memory.old }
{
    let from = start as usize;
    if bytes.len() > memory.len() || from > memory.len() - bytes.len() {
        return false;
    }
    memory[from..from + bytes.len()].copy_from_slice(bytes);
    true
}
