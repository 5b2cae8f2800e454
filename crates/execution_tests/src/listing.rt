//! Flat code as text: a word for each operation, followed by its entries, if it has some, as (target,kept,height), and by the
//! indices of tail calls. Targets count from the first operation of the function, and heights from its locals on.

use sidetable::{
    Entry, FlatModule, IndexPair, PackedFunction, PackedOp, SideTables, TransferInstruction,
};
use std::alloc::{AllocError, Global};
use std::fmt::Write;

// A function whose flat code is listed: the tables of its module, the place of its first operation, and the number of its
// locals.
#[derive(Clone, Copy)]
struct Listed<'a> {
    tables: &'a SideTables,
    place: u32,
    locals: u32,
}

// Returns an entry of a number, relative to the function.
fn find_entry(listed: Listed<'_>, number: u32) -> Option<Entry> {
    let entry = listed.tables.entries.get(number as usize)?;
    Some(Entry {
        target: entry.target.checked_sub(listed.place)?,
        kept: entry.kept,
        height: entry.height.checked_sub(u64::from(listed.locals))?,
    })
}

fn write_entry(text: &mut String, listed: Listed<'_>, number: u32) -> Result<(), AllocError> {
    match find_entry(listed, number) {
        Some(
            Entry {
                target,
                kept,
                height,
            },
        ) => write!(text, "({target},{kept},{height})"),
        None => text.push_str("(none)"),
    }
}

// Writes the entries of a branch by number: those of its labels, and the one for all larger numbers.
fn write_range(text: &mut String, listed: Listed<'_>, number: u32) -> Result<(), AllocError> {
    let Some(range) = listed.tables.branch_ranges.get(number as usize) else {
        return text.push_str("(none)");
    };
    for k in 0..range.count {
        write_entry(text, listed, range.first.saturating_add(k))?;
    }
    text.push_str(" else")?;
    write_entry(text, listed, range.default)
}

// Writes the two indices of a number.
fn write_pair(text: &mut String, tables: &SideTables, number: u32) -> Result<(), AllocError> {
    match tables.pairs.get(number as usize) {
        Some(IndexPair { first, second }) => write!(text, "({first},{second})"),
        None => text.push_str("(none)"),
    }
}

fn write_transfer(
    text: &mut String,
    listed: Listed<'_>,
    instruction: TransferInstruction,
    number: u32,
) -> Result<(), AllocError> {
    let word = match instruction {
        TransferInstruction::Jump => " jump",
        TransferInstruction::Br => " br",
        TransferInstruction::Return => " return",
        TransferInstruction::BrTable => {
            text.push_str(" br_table")?;
            return write_range(text, listed, number);
        }
        TransferInstruction::ReturnCall => return write!(text, " return_call({number})"),
        TransferInstruction::ReturnCallIndirect => {
            text.push_str(" return_call_indirect")?;
            return write_pair(text, listed.tables, number);
        }
        _ => return text.push_str(" plain"),
    };
    text.push_str(word)?;
    write_entry(text, listed, number)
}

fn write_operation(text: &mut String, listed: Listed<'_>, op: PackedOp) -> Result<(), AllocError> {
    match op {
        PackedOp::Enter => text.push_str(" enter"),
        PackedOp::If(number) => {
            text.push_str(" if")?;
            write_entry(text, listed, number)
        }
        PackedOp::BrIf(number) => {
            text.push_str(" br_if")?;
            write_entry(text, listed, number)
        }
        PackedOp::Leave(_) => text.push_str(" leave"),
        PackedOp::Transfer(instruction, number) => {
            write_transfer(text, listed, instruction, number)
        }
        _ => text.push_str(" plain"),
    }
}

/// Returns the listing of the flat code of a module's last function, with a space before each word.
pub fn list(alloc: Global, flat: &FlatModule, last: &PackedFunction) -> Result<String, AllocError> {
    let listed = Listed {
        tables: &flat.tables,
        place: last.place,
        locals: last.locals,
    };
    let mut text = String::new(alloc);
    for op in flat
        .operations
        .as_slice()
        .get(last.place as usize..)
        .unwrap_or(&[])
    {
        write_operation(&mut text, listed, *op)?;
    }
    Ok(text)
}
