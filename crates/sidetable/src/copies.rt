//! Completes the entries of branches by number, which are copies of the entries of labels.

ghost use Rattle.std.specs.Prelude.{◌≡◌, ◌≤◌, drop, length};
ghost use Rattle.sidetable.specs.Completion.{AreCopies, ChangesEntries, IsCopying, all_copied, copied};

use crate::side_tables::{BranchRange, SideTables};

// Replaces each number of a label by the entry of the label, in the range of one branch.
fn copy_labels(tables: &mut SideTables, range: BranchRange)
    requires { IsCopying tables.old.entries.items range }
    ensures { ChangesEntries tables.old tables.new
        (copied tables.old.entries.items tables.old.entries.items range) }
{
    let first = range.first as usize;
    for index in first..first + range.count as usize {
        let label = tables.entries[index].target as usize;
        tables.entries[index] = tables.entries[label];
    }
}

/// Replaces each number of a label by the entry of the label, in this range and all later ones.
pub fn copy_all_labels(tables: &mut SideTables, first_range: usize)
    requires within { first_range ≤ length tables.old.branch_ranges.items }
    requires copies { AreCopies 0 tables.old.entries.items
        (drop first_range tables.old.branch_ranges.items) }
    ensures { ChangesEntries tables.old tables.new (all_copied tables.new.entries.items
        (drop first_range tables.old.branch_ranges.items) tables.old.entries.items) }
{
    for index in first_range..tables.branch_ranges.len() {
        let range = tables.branch_ranges[index];
        copy_labels(tables, range);
    }
}
