ghost use Rattle.std.specs.Prelude.{All, IsTrue, length, ◌↔◌, ◌≤◌};
ghost use Rattle.meaning.specs.validation.Types.{AreFewPages};
ghost use Rattle.validator.specs.Modules.{IsValidMemory};

use crate::types::are_ordered;
use core_types::{Limits, MAX_PAGES};

// Returns whether the bounds are within the pages of the address space (Validation, Memory Types).
fn are_few_pages(limits: Limits) -> bool
    ensures { IsTrue result ↔ AreFewPages limits }
{
    limits.min <= MAX_PAGES && limits.max.unwrap_or(limits.min) <= MAX_PAGES
}

pub fn is_valid_memory(limits: Limits) -> bool
    ensures { IsTrue result ↔ IsValidMemory limits }
{
    are_ordered(limits) && are_few_pages(limits)
}

pub fn are_valid_memories(memories: &[Limits]) -> bool
    ensures { IsTrue result ↔ All IsValidMemory memories.now }
{
    memories.iter().all(|limits| is_valid_memory(*limits))
}

// Returns whether there is at most one memory (Validation, Modules).
pub fn is_at_most_one(memories: &[Limits]) -> bool
    ensures { IsTrue result ↔ (length memories.now ≤ 1) }
{
    memories.len() <= 1
}
