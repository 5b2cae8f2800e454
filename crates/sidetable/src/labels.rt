ghost use Rattle.std.specs.Prelude.{◌≡◌, ◌++◌, IfOk, OnOk, map};
ghost use Rattle.core_types.specs.declared.op.PlainOp.TheVariants as plain;
ghost use Rattle.sidetable.specs.Completion.{Adds, ChangesEntries, HasAdded, copy_of};
ghost use Rattle.sidetable.specs.Flat.{flat_op};
ghost use Rattle.sidetable.specs.Labels.{HaveEntries, label_entries, number_at};
ghost use Rattle.sidetable.specs.Packing.{Packs};
ghost use Rattle.sidetable.specs.SideTables.{SideTables as AnyTables, entry_of_number};
ghost use Rattle.sidetable.specs.declared.operations.PackedOp.TheVariants as packed;
ghost use Rattle.sidetable.specs.declared.operations.TransferInstruction.TheVariants as transfer;

use crate::operand_heights::Height;
use crate::operations::Entry;
use crate::side_tables::{BranchRange, SideTables, number};
use core_types::{BranchTable, Stack};
use std::alloc::AllocError;

/// Which entries of an open body have no target yet.
#[derive(Clone, Copy)]
pub enum Pending {
    /// None: the body is that of a loop.
    Nothing,
    /// The label's entry, until the body ends.
    End,
    /// The label's entry, and the entry with this number, at which an `if` continues if its condition is zero.
    SecondAndEnd(u32),
}

/// An open body: the number of its label's entry, the entries without a target, the height inside of it at first, and the height after
/// it. A height is none if nothing arrives.
#[derive(Clone, Copy)]
pub struct Level {
    pub label: u32,
    pub pending: Pending,
    pub inside: Height,
    pub after: Height,
}

/// Returns the number of a label's entry. Labels are counted from the inside out, and the function's own label is the last one.
#[inline(always)]
pub fn label_at(outermost: u32, levels: &Stack<Level>, index: u32) -> u32
    ensures { result ≡ number_at outermost levels.now index }
{
    match levels.get(index as usize) {
        Some(level) => level.label,
        None => outermost,
    }
}

// Pushes an entry for each of these labels. It holds the number of the label's entry.
fn push_copies(
    tables: &mut SideTables,
    outermost: u32,
    levels: &Stack<Level>,
    indices: &[u32],
) -> Result<(), AllocError>
    ensures { OnOk result (ChangesEntries tables.old tables.new (tables.old.entries.items
        ++ map (λ index. copy_of (number_at outermost levels.now index)) indices.now)) }
{
    for index in indices {
        let label = label_at(outermost, levels, *index);
        tables.push_entry(Entry {
            target: label,
            kept: 0,
            height: 0,
        })?;
    }
    Ok(())
}

/// Pushes the entries of a branch by number, and returns the number of its range. Until the function ends, each entry holds the number of
/// its label's entry.
pub fn push_branch(
    tables: &mut SideTables,
    outermost: u32,
    levels: &Stack<Level>,
    branch: &BranchTable,
) -> Result<u32, AllocError>
    requires { HaveEntries tables.old outermost levels.now }
    ensures adds { OnOk result (Adds tables.old tables.new) }
    ensures packs { IfOk result (λ n. (final : AnyTables) → HasAdded tables.old tables.new final
        → Packs final (packed.Transfer transfer.BrTable n) (flat_op
        (entry_of_number final outermost) (label_entries final outermost levels.now)
        (plain.BrTable branch.now))) }
{
    let first = number(tables.entries.len())?;
    let count = number(branch.labels.len())?;
    push_copies(tables, outermost, levels, branch.labels.as_slice())?;
    let place = tables.push_branch_range(BranchRange {
        first,
        count,
        default: label_at(outermost, levels, branch.default),
    })?;
    Ok(place)
}
