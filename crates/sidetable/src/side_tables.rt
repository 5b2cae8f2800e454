ghost use Rattle.std.specs.Prelude.{◌≡◌, ◌<◌, ◌++◌, ◌∷◌, [], length, IfOk, OnOk};
ghost use Rattle.sidetable.specs.Completion.{Adds, ChangesEntries, with_target};
ghost use Rattle.sidetable.specs.SideTables.{constant_of, pair_of};

use crate::operations::Entry;
use std::alloc::{AllocError, Global};

/// The labels of a branch by number: the number of the first entry, the number of entries, and the number of the entry for all
/// larger numbers.
#[derive(Clone, Copy)]
pub struct BranchRange {
    pub first: u32,
    pub count: u32,
    pub default: u32,
}

/// The two indices of an instruction that has two, in the order of the instruction.
#[derive(Clone, Copy)]
pub struct IndexPair {
    pub first: u32,
    pub second: u32,
}

/// What the operations of a module name by number, because it does not fit in eight bytes.
#[derive(Drop)]
pub struct SideTables {
    pub entries: Vec<Entry>,
    pub branch_ranges: Vec<BranchRange>,
    pub constants: Vec<u64>,
    pub pairs: Vec<IndexPair>,
}

/// Returns a count as a 32-bit number, by which operations and entries are numbered. Fails if it has more bits.
pub fn number(count: usize) -> Result<u32, AllocError>
    ensures { IfOk result (λ n. n ≡ count) }
{
    if count > u32::MAX as usize {
        return Err(AllocError);
    }
    Ok(count as u32)
}

impl SideTables {
    /// Creates empty side tables. Allocates nothing.
    pub(crate) fn new(alloc: Global) -> SideTables {
        SideTables {
            entries: Vec::new(alloc),
            branch_ranges: Vec::new(alloc),
            constants: Vec::new(alloc),
            pairs: Vec::new(alloc),
        }
    }

    /// Pushes an entry and returns its number.
    #[inline(always)]
    pub(crate) fn push_entry(&mut self, entry: Entry) -> Result<u32, AllocError>
        ensures entries { OnOk result (ChangesEntries self.old self.new
            (self.old.entries.items ++ entry ∷ [])) }
        ensures number { IfOk result (λ n. n ≡ length self.old.entries.items) }
    {
        let place = number(self.entries.len())?;
        self.entries.push(entry)?;
        Ok(place)
    }

    /// Sets the target of the entry with this number.
    pub(crate) fn set_target(&mut self, number: u32, target: u32)
        requires { number < length self.old.entries.items }
        ensures { ChangesEntries self.old self.new
            (with_target self.old.entries.items number target) }
    {
        self.entries[number as usize].target = target;
    }

    /// Pushes the range of a branch and returns its number.
    pub(crate) fn push_branch_range(&mut self, range: BranchRange) -> Result<u32, AllocError>
        ensures ranges { OnOk result (self.new.branch_ranges.items
            ≡ self.old.branch_ranges.items ++ range ∷ []) }
        ensures entries { self.new.entries ≡ self.old.entries }
        ensures constants { self.new.constants ≡ self.old.constants }
        ensures pairs { self.new.pairs ≡ self.old.pairs }
        ensures number { IfOk result (λ n. n ≡ length self.old.branch_ranges.items) }
    {
        let place = number(self.branch_ranges.len())?;
        self.branch_ranges.push(range)?;
        Ok(place)
    }

    /// Appends a constant, and returns its number.
    pub(crate) fn push_constant(&mut self, constant: u64) -> Result<u32, AllocError>
        ensures adds { OnOk result (Adds self.old self.new) }
        ensures within { IfOk result (λ n. n < length self.new.constants.items) }
        ensures constant { IfOk result (λ n. constant_of self.new n ≡ constant) }
    {
        let place = number(self.constants.len())?;
        self.constants.push(constant)?;
        Ok(place)
    }

    /// Appends a pair of indices, and returns its number.
    pub(crate) fn push_pair(&mut self, first: u32, second: u32) -> Result<u32, AllocError>
        ensures adds { OnOk result (Adds self.old self.new) }
        ensures within { IfOk result (λ n. n < length self.new.pairs.items) }
        ensures pair { IfOk result (λ n. ((pair_of self.new n).first ≡ first)
            × ((pair_of self.new n).second ≡ second)) }
    {
        let place = number(self.pairs.len())?;
        self.pairs.push(IndexPair { first, second })?;
        Ok(place)
    }
}
