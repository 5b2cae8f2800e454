//! Unused allocations.

use crate::verdicts::Verdict;
use std::alloc::Global;

/// Makes `count` unused allocations, and one more for a list of them, and then frees all of them. If one was refused, returns
/// how many were made before it. Allocates nothing if `count` is 0.
pub fn allocate_in_vain(alloc: Global, count: usize) -> Option<usize> {
    let mut kept: Vec<Box<usize>> = Vec::new(alloc);
    if kept.try_reserve(count).is_err() {
        return Some(0);
    }
    for number in 1..=count {
        let Ok(one) = Box::new(alloc, number) else {
            return Some(number);
        };
        if kept.push(one).is_err() {
            return Some(number);
        }
    }
    None
}

/// Makes `count` unused allocations before the first call. Returns the verdict `Unready` if one was refused.
pub fn pad(alloc: Global, count: usize) -> Result<(), Verdict> {
    match allocate_in_vain(alloc, count) {
        None => Ok(()),
        Some(made) => Err(Verdict::Unready(made)),
    }
}
