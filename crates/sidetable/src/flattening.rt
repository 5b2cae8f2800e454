//! Flattens the body of a function: the operations that its marks leave, and its other operations, in order.

ghost use Rattle.std.specs.Prelude.{◌≡◌, ◌<◌, ◌++◌, ◌∷◌, [], length, max, IfOk, OnOk};
ghost use Rattle.core_types.specs.Expressions.{mark_op};
ghost use Rattle.core_types.specs.declared.op.Op.TheVariants.{Block, Else, End, If, Loop, Plain};
ghost use Rattle.core_types.specs.declared.op.PlainOp.TheVariants as plain;
ghost use Rattle.core_types.specs.declared.op.VariableOp.TheVariants.{LocalGet};
ghost use Rattle.sidetable.specs.Completion.{ChangesEntries, with_targets};
ghost use Rattle.sidetable.specs.Counts.{behind, block_counts, height_or_zero};
ghost use Rattle.sidetable.specs.Flattening.{EndsAs, HasBegun, IsBegun, IsOpen, Passes, Pushes, Starts};
ghost use Rattle.sidetable.specs.Labels.{IfSecond, second_targets, targets_of};
ghost use Rattle.sidetable.specs.SideTables.{SideTables as SideTablesBefore};
ghost use Rattle.sidetable.specs.Signatures.{signatures_of};

use crate::copies::copy_all_labels;
use crate::counts::{Counts, ModuleTypes, counts_of_block};
use crate::instructions::{
    PackedInstruction, pack, pack_control, pack_i32_const, pack_local_get, pack_memory,
    pack_numeric, pack_parametric, pack_variable,
};
use crate::labels::{Level, Pending};
use crate::operand_heights::{Height, Heights, base, changed, less_one};
use crate::operations::{Entry, PackedOp, TransferInstruction};
use crate::side_tables::{SideTables, number};
use core_types::{
    BlockType, ControlOp, Mark, MemoryOp, NumericOp, Op, ParametricOp, Stack, VariableOp, append,
};
use std::alloc::{AllocError, Global};

/// What was made of the operations so far: the side tables and the operations, with those of earlier functions; the open bodies, the
/// height here, and the greatest height so far. The stack keeps its memory for the next function.
#[derive(Drop)]
pub struct Flattening {
    pub tables: SideTables,
    pub operations: Vec<PackedOp>,
    levels: Stack<Level>,
    heights: Heights,
}

impl Flattening {
    /// Creates an empty result. Allocates nothing.
    pub fn new(alloc: Global) -> Flattening
        ensures { result.operations.items ≡ [] }
    {
        Flattening {
            tables: SideTables::new(alloc),
            operations: Vec::new(alloc),
            levels: Stack::new(alloc),
            heights: Heights::new(0, 0),
        }
    }
}

// ---- operations

// Appends an operation, after which the height is this.
#[inline(always)]
fn push_operation(f: &mut Flattening, op: PackedOp, after: Height) -> Result<(), AllocError>
    ensures { OnOk result (Pushes f.old op after f.new) }
{
    f.heights.set(after)?;
    append(&mut f.operations, op)
}

// ---- marks

// Pushes an entry that has no target yet, and returns its number.
fn push_pending(tables: &mut SideTables, kept: u32, height: u64) -> Result<u32, AllocError>
    ensures entries { OnOk result (ChangesEntries tables.old tables.new
        (tables.old.entries.items ++ (record { target = 0; kept = kept; height = height }) ∷ [])) }
    ensures number { IfOk result (λ n. n ≡ length tables.old.entries.items) }
{
    tables.push_entry(Entry {
        target: 0,
        kept,
        height,
    })
}

// Flattens the beginning of a block of this type, which has these counts. A branch to its label goes on behind it, with its results.
#[inline(always)]
fn begin_block(
    s: &ModuleTypes<'_>,
    outermost: u32,
    f: &mut Flattening,
    ty: BlockType,
    c: Counts,
) -> Result<(), AllocError>
    requires { c ≡ block_counts (signatures_of s.now) ty }
    ensures { OnOk result (Passes (signatures_of s.now) outermost f.old (Block ty) f.new) }
{
    let inside = f.heights.here();
    let after = changed(c, inside)?;
    let label = push_pending(&mut f.tables, number(c.gives)?, base(c, inside))?;
    push_operation(f, PackedOp::Enter, inside)?;
    f.levels.push(Level {
        label,
        pending: Pending::End,
        inside,
        after,
    })?;
    Ok(())
}

// Flattens the beginning of a block. Most take and give nothing, which the compiler then knows.
#[inline(never)]
fn step_block(
    s: &ModuleTypes<'_>,
    outermost: u32,
    f: &mut Flattening,
    ty: BlockType,
) -> Result<(), AllocError>
    ensures { OnOk result (Passes (signatures_of s.now) outermost f.old (Block ty) f.new) }
{
    match ty {
        BlockType::Empty => begin_block(s, outermost, f, ty, Counts { takes: 0, gives: 0 }),
        _ => begin_block(s, outermost, f, ty, counts_of_block(s, ty)),
    }
}

// Flattens the beginning of a loop of this type, which has these counts. A branch to its label restarts it, with its parameters.
#[inline(always)]
fn begin_loop(
    s: &ModuleTypes<'_>,
    outermost: u32,
    f: &mut Flattening,
    ty: BlockType,
    c: Counts,
) -> Result<(), AllocError>
    requires { c ≡ block_counts (signatures_of s.now) ty }
    ensures { OnOk result (Passes (signatures_of s.now) outermost f.old (Loop ty) f.new) }
{
    let inside = f.heights.here();
    let after = changed(c, inside)?;
    let label = f.tables.push_entry(Entry {
        target: number(f.operations.len())?,
        kept: number(c.takes)?,
        height: base(c, inside),
    })?;
    push_operation(f, PackedOp::Enter, inside)?;
    f.levels.push(Level {
        label,
        pending: Pending::Nothing,
        inside,
        after,
    })?;
    Ok(())
}

// Flattens the beginning of a loop. Most take and give nothing, which the compiler then knows.
#[inline(never)]
fn step_loop(
    s: &ModuleTypes<'_>,
    outermost: u32,
    f: &mut Flattening,
    ty: BlockType,
) -> Result<(), AllocError>
    ensures { OnOk result (Passes (signatures_of s.now) outermost f.old (Loop ty) f.new) }
{
    match ty {
        BlockType::Empty => begin_loop(s, outermost, f, ty, Counts { takes: 0, gives: 0 }),
        _ => begin_loop(s, outermost, f, ty, counts_of_block(s, ty)),
    }
}

// An `if`: where the condition is zero it goes on with its second body, or behind it.
#[inline(never)]
fn step_if(
    s: &ModuleTypes<'_>,
    outermost: u32,
    f: &mut Flattening,
    ty: BlockType,
) -> Result<(), AllocError>
    ensures { OnOk result (Passes (signatures_of s.now) outermost f.old (If ty) f.new) }
{
    let c = counts_of_block(s, ty);
    let inside = less_one(f.heights.here());
    let after = changed(c, inside)?;
    let height = base(c, inside);
    let label = push_pending(&mut f.tables, number(c.gives)?, height)?;
    let second = push_pending(&mut f.tables, number(c.takes)?, height)?;
    push_operation(f, PackedOp::If(second), inside)?;
    f.levels.push(Level {
        label,
        pending: Pending::SecondAndEnd(second),
        inside,
        after,
    })?;
    Ok(())
}

// Sets the target of the second entry of an `if`, unless it has one.
fn complete_second(tables: &mut SideTables, pending: Pending, place: u32)
    requires { IfSecond (λ number. number < length tables.old.entries.items) pending }
    ensures { ChangesEntries tables.old tables.new
        (with_targets tables.old.entries.items (second_targets pending place)) }
{
    match pending {
        Pending::Nothing | Pending::End => {}
        Pending::SecondAndEnd(second) => tables.set_target(second, place),
    }
}

// An else: the first body goes on behind the `if`, with its results. There is none where no body is open.
#[inline(never)]
fn step_else(s: &ModuleTypes<'_>, outermost: u32, f: &mut Flattening) -> Result<(), AllocError>
    requires { HasBegun outermost f.old }
    ensures { OnOk result (Passes (signatures_of s.now) outermost f.old Else f.new) }
{
    let Some(level) = f.levels.pop() else {
        return Ok(());
    };
    let jump = PackedOp::Transfer(TransferInstruction::Jump, level.label);
    push_operation(f, jump, level.inside)?;
    complete_second(&mut f.tables, level.pending, number(f.operations.len())?);
    f.levels.push(Level {
        label: level.label,
        pending: Pending::End,
        inside: level.inside,
        after: level.after,
    })?;
    Ok(())
}

// Sets the targets that are known when a body ends.
fn complete_level(tables: &mut SideTables, level: Level, end: u32)
    requires second { IfSecond (λ number. number < length tables.old.entries.items) level.pending }
    requires label { level.label < length tables.old.entries.items }
    ensures { ChangesEntries tables.old tables.new
        (with_targets tables.old.entries.items (targets_of level.pending level.label end end)) }
{
    let pending = level.pending;
    complete_second(tables, pending, end);
    match pending {
        Pending::Nothing => {}
        Pending::End | Pending::SecondAndEnd(_) => tables.set_target(level.label, end),
    }
}

// An end, which leaves no operation. There is none where no body is open.
#[inline(never)]
fn step_end(s: &ModuleTypes<'_>, outermost: u32, f: &mut Flattening) -> Result<(), AllocError>
    requires { HasBegun outermost f.old }
    ensures { OnOk result (Passes (signatures_of s.now) outermost f.old End f.new) }
{
    let Some(level) = f.levels.pop() else {
        return Ok(());
    };
    complete_level(&mut f.tables, level, number(f.operations.len())?);
    f.heights.set(level.after)?;
    Ok(())
}

/// Passes a mark, at which a body begins or ends.
#[inline(always)]
pub fn pass_mark(
    s: &ModuleTypes<'_>,
    outermost: u32,
    f: &mut Flattening,
    mark: Mark,
) -> Result<(), AllocError>
    requires { HasBegun outermost f.old }
    ensures { OnOk result (Passes (signatures_of s.now) outermost f.old (mark_op mark) f.new) }
{
    match mark {
        Mark::Block(ty) => step_block(s, outermost, f, ty),
        Mark::Loop(ty) => step_loop(s, outermost, f, ty),
        Mark::If(ty) => step_if(s, outermost, f, ty),
        Mark::Else => step_else(s, outermost, f),
        Mark::End => step_end(s, outermost, f),
    }
}

// ---- instructions without a body

// Appends a packed instruction, after which the heights change by its counts.
#[inline(always)]
fn push_packed(f: &mut Flattening, packed: PackedInstruction) -> Result<(), AllocError>
    ensures { OnOk result (Pushes f.old packed.op (behind packed.counts f.old.heights.here) f.new) }
{
    f.heights.pass(packed.counts)?;
    append(&mut f.operations, packed.op)
}

/// Passes a `local.get`.
#[inline(always)]
pub fn pass_local_get(
    s: &ModuleTypes<'_>,
    outermost: u32,
    f: &mut Flattening,
    index: u32,
) -> Result<(), AllocError>
    ensures { OnOk result (Passes (signatures_of s.now) outermost f.old (Plain (plain.Variable (LocalGet index))) f.new) }
{
    push_packed(f, pack_local_get(index))
}

/// Passes an instruction on a local or a global.
#[inline(always)]
pub fn pass_variable(
    s: &ModuleTypes<'_>,
    outermost: u32,
    f: &mut Flattening,
    op: VariableOp,
) -> Result<(), AllocError>
    ensures { OnOk result (Passes (signatures_of s.now) outermost f.old (Plain (plain.Variable op)) f.new) }
{
    push_packed(f, pack_variable(op))
}

/// Passes an instruction on operands of any type.
#[inline(always)]
pub fn pass_parametric(
    s: &ModuleTypes<'_>,
    outermost: u32,
    f: &mut Flattening,
    op: ParametricOp,
) -> Result<(), AllocError>
    ensures { OnOk result (Passes (signatures_of s.now) outermost f.old (Plain (plain.Parametric op)) f.new) }
{
    push_packed(f, pack_parametric(op))
}

/// Passes an instruction on the memory or a data segment.
#[inline(always)]
pub fn pass_memory(
    s: &ModuleTypes<'_>,
    outermost: u32,
    f: &mut Flattening,
    op: MemoryOp,
) -> Result<(), AllocError>
    ensures { OnOk result (Passes (signatures_of s.now) outermost f.old (Plain (plain.Memory op)) f.new) }
{
    push_packed(f, pack_memory(op))
}

/// Passes a numeric instruction.
#[inline(always)]
pub fn pass_numeric(
    s: &ModuleTypes<'_>,
    outermost: u32,
    f: &mut Flattening,
    op: NumericOp,
) -> Result<(), AllocError>
    ensures { OnOk result (Passes (signatures_of s.now) outermost f.old (Plain (plain.Numeric op)) f.new) }
{
    push_packed(f, pack_numeric(op))
}

/// Passes a 32-bit constant.
#[inline(always)]
pub fn pass_i32_const(
    s: &ModuleTypes<'_>,
    outermost: u32,
    f: &mut Flattening,
    value: u32,
) -> Result<(), AllocError>
    ensures { OnOk result (Passes (signatures_of s.now) outermost f.old (Plain (plain.I32Const value)) f.new) }
{
    push_packed(f, pack_i32_const(value))
}

/// Passes a control instruction that has neither a body nor a list.
#[inline(always)]
pub fn pass_control(
    s: &ModuleTypes<'_>,
    outermost: u32,
    f: &mut Flattening,
    op: ControlOp,
) -> Result<(), AllocError>
    requires { HasBegun outermost f.old }
    ensures { OnOk result (Passes (signatures_of s.now) outermost f.old (Plain (plain.Control op)) f.new) }
{
    let packed = pack_control(s, &mut f.tables, outermost, &f.levels, op)?;
    push_packed(f, packed)
}

/// Passes any operation.
#[inline(never)]
pub fn pass_any(
    s: &ModuleTypes<'_>,
    outermost: u32,
    f: &mut Flattening,
    op: &Op,
) -> Result<(), AllocError>
    requires { HasBegun outermost f.old }
    ensures { OnOk result (Passes (signatures_of s.now) outermost f.old op.now f.new) }
{
    match op {
        Op::Block(ty) => step_block(s, outermost, f, *ty),
        Op::Loop(ty) => step_loop(s, outermost, f, *ty),
        Op::If(ty) => step_if(s, outermost, f, *ty),
        Op::Else => step_else(s, outermost, f),
        Op::End => step_end(s, outermost, f),
        Op::Plain(op) => {
            let packed = pack(s, &mut f.tables, outermost, &f.levels, op)?;
            push_packed(f, packed)
        }
    }
}

/// Begins the body of a function that has this many locals, parameters included, and results. Returns the number of the entry of its
/// label.
pub fn begin_body(f: &mut Flattening, locals: u32, results: u32) -> Result<u32, AllocError>
    ensures starts { IfOk result (λ outermost. Starts f.old.tables outermost f.new locals results) }
    ensures operations { f.new.operations ≡ f.old.operations }
{
    f.levels.clear();
    let outermost = push_pending(&mut f.tables, results, locals as u64)?;
    f.heights = Heights::new(locals as u64, results as u64);
    Ok(outermost)
}

/// Ends the body of a function, with the branches by number from an index on. Returns the greatest height in its frame.
pub fn end_body(f: &mut Flattening, outermost: u32, first_range: usize) -> Result<u64, AllocError>
    requires { (before : SideTablesBefore) × (length before.branch_ranges.items ≡ first_range)
        × IsBegun before outermost f.old }
    ensures ends { OnOk result ((before : SideTablesBefore)
        → length before.branch_ranges.items ≡ first_range → IsOpen before outermost f.old ([])
        → EndsAs before outermost f.old ([]) f.new.tables) }
    ensures greatest { IfOk result (λ n. n ≡ max f.old.heights.greatest
        (height_or_zero f.old.heights.here)) }
    ensures operations { f.new.operations ≡ f.old.operations }
{
    f.tables.set_target(outermost, number(f.operations.len())?);
    copy_all_labels(&mut f.tables, first_range);
    Ok(f.heights.greatest())
}
