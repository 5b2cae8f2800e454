ghost use Rattle.std.specs.Prelude.{◌≡◌, IfOk, None, OnOk, Some};
ghost use Rattle.core_types.specs.declared.op.PlainOp.TheVariants as plain_op;
ghost use Rattle.core_types.specs.declared.op.PlainOp.TheVariants.{I64Const};
ghost use Rattle.core_types.specs.declared.op.VariableOp.TheVariants.{LocalGet};
ghost use Rattle.sidetable.specs.Counts.{counts as counts_of_numbers, counts_of, memory_counts as memory_counts_of, numeric_counts as numeric_counts_of, parametric_counts as parametric_counts_of, variable_counts as variable_counts_of};
ghost use Rattle.sidetable.specs.Completion.{Adds, HasAdded};
ghost use Rattle.sidetable.specs.Flat.{Plain, flat_control, flat_op};
ghost use Rattle.sidetable.specs.Labels.{HaveEntries, label_entries};
ghost use Rattle.sidetable.specs.Packing.{Packs, PacksAnywhere};
ghost use Rattle.sidetable.specs.SideTables.{SideTables as AnyTables, entry_of_number};
ghost use Rattle.sidetable.specs.Signatures.{signatures_of};

use crate::counts::{
    Counts, ModuleTypes, control_counts, memory_counts, numeric_counts, parametric_counts,
    reference_counts, table_counts, variable_counts,
};
use crate::labels::{Level, label_at, push_branch};
use crate::operations::{OtherInstruction, PackedOp, TransferInstruction};
use crate::packing::{memory, numeric, parametric, reference, table, variable};
use crate::side_tables::SideTables;
use core_types::{
    BranchTable, ControlOp, MemoryOp, NumericOp, ParametricOp, PlainOp, Stack, VariableOp,
};
use std::alloc::AllocError;

// Packs a control instruction that has neither a body nor a list.
#[inline(always)]
#[tactic(auto, using(crate::proofs::Adding::adds_nothing))]
fn control(
    tables: &mut SideTables,
    outermost: u32,
    levels: &Stack<Level>,
    op: ControlOp,
) -> Result<PackedOp, AllocError>
    requires { HaveEntries tables.old outermost levels.now }
    ensures adds { OnOk result (Adds tables.old tables.new) }
    ensures packs { IfOk result (λ p. (final : AnyTables) → HasAdded tables.old tables.new final
        → Packs final p (flat_control (entry_of_number final outermost)
        (label_entries final outermost levels.now) op)) }
{
    let packed = match op {
        ControlOp::Unreachable => PackedOp::Transfer(TransferInstruction::Unreachable, 0),
        ControlOp::Nop => PackedOp::Other(OtherInstruction::Nop, 0),
        ControlOp::Br(index) => {
            let label = label_at(outermost, levels, index);
            PackedOp::Transfer(TransferInstruction::Br, label)
        }
        ControlOp::BrIf(index) => PackedOp::BrIf(label_at(outermost, levels, index)),
        ControlOp::Return => PackedOp::Transfer(TransferInstruction::Return, outermost),
        ControlOp::Call(function) => PackedOp::Call(function),
        ControlOp::CallIndirect { ty, table } => {
            PackedOp::Transfer(
                TransferInstruction::CallIndirect,
                tables.push_pair(ty, table)?,
            )
        }
        ControlOp::ReturnCall(function) => {
            PackedOp::Transfer(TransferInstruction::ReturnCall, function)
        }
        ControlOp::ReturnCallIndirect { ty, table } => {
            PackedOp::Transfer(
                TransferInstruction::ReturnCallIndirect,
                tables.push_pair(ty, table)?,
            )
        }
    };
    Ok(packed)
}

// Packs a branch by number.
fn branch_table(
    tables: &mut SideTables,
    outermost: u32,
    levels: &Stack<Level>,
    branch: &BranchTable,
) -> Result<PackedOp, AllocError>
    requires { HaveEntries tables.old outermost levels.now }
    ensures adds { OnOk result (Adds tables.old tables.new) }
    ensures packs { IfOk result (λ p. (final : AnyTables) → HasAdded tables.old tables.new final
        → Packs final p (flat_op (entry_of_number final outermost)
        (label_entries final outermost levels.now) (plain_op.BrTable branch.now))) }
{
    let range = push_branch(tables, outermost, levels, branch)?;
    Ok(PackedOp::Transfer(TransferInstruction::BrTable, range))
}

// Packs a 64-bit constant.
fn constant(tables: &mut SideTables, n: u64) -> Result<PackedOp, AllocError>
    ensures adds { OnOk result (Adds tables.old tables.new) }
    ensures packs { IfOk result (λ p. (final : AnyTables) → HasAdded tables.old tables.new final
        → Packs final p (Plain (I64Const n))) }
{
    let number = tables.push_constant(n)?;
    Ok(PackedOp::Other(OtherInstruction::I64Const, number))
}

/// A packed instruction without a body, and its counts. It has no counts if the next operation is never reached from it.
#[derive(Clone, Copy)]
pub struct PackedInstruction {
    pub op: PackedOp,
    pub counts: Option<Counts>,
}

// Creates an instruction after which the next one is executed.
fn with_counts(op: PackedOp, counts: Counts) -> PackedInstruction
    ensures op { result.op ≡ op }
    ensures counts { result.counts ≡ Some counts }
{
    PackedInstruction {
        op,
        counts: Some(counts),
    }
}

// Packs a control instruction that has neither a body nor a list.
#[inline(always)]
pub fn pack_control(
    s: &ModuleTypes<'_>,
    tables: &mut SideTables,
    outermost: u32,
    levels: &Stack<Level>,
    op: ControlOp,
) -> Result<PackedInstruction, AllocError>
    requires { HaveEntries tables.old outermost levels.now }
    ensures adds { OnOk result (Adds tables.old tables.new) }
    ensures packs { IfOk result (λ p. (final : AnyTables) → HasAdded tables.old tables.new final
        → Packs final p.op (flat_control (entry_of_number final outermost)
        (label_entries final outermost levels.now) op)) }
    ensures counts { IfOk result (λ p. p.counts ≡ counts_of (signatures_of s.now)
        (plain_op.Control op)) }
{
    let packed = control(tables, outermost, levels, op)?;
    Ok(PackedInstruction {
        op: packed,
        counts: control_counts(s, op),
    })
}

// Packs a branch by number.
fn pack_branch_table(
    tables: &mut SideTables,
    outermost: u32,
    levels: &Stack<Level>,
    branch: &BranchTable,
) -> Result<PackedInstruction, AllocError>
    requires { HaveEntries tables.old outermost levels.now }
    ensures adds { OnOk result (Adds tables.old tables.new) }
    ensures packs { IfOk result (λ p. (final : AnyTables) → HasAdded tables.old tables.new final
        → Packs final p.op (flat_op (entry_of_number final outermost)
        (label_entries final outermost levels.now) (plain_op.BrTable branch.now))) }
    ensures counts { IfOk result (λ p. p.counts ≡ None) }
{
    let packed = branch_table(tables, outermost, levels, branch)?;
    Ok(PackedInstruction {
        op: packed,
        counts: None,
    })
}

// Creates an instruction on a local or a global.
#[inline(always)]
pub fn pack_variable(op: VariableOp) -> PackedInstruction
    ensures op { PacksAnywhere result.op (plain_op.Variable op) }
    ensures counts { result.counts ≡ Some (variable_counts_of op) }
{
    with_counts(variable(op), variable_counts(op))
}

// Creates a `local.get`.
#[inline(always)]
pub fn pack_local_get(index: u32) -> PackedInstruction
    ensures op { PacksAnywhere result.op (plain_op.Variable (LocalGet index)) }
    ensures counts { result.counts ≡ Some (counts_of_numbers 0 1) }
{
    with_counts(PackedOp::LocalGet(index), Counts { takes: 0, gives: 1 })
}

// Creates an instruction on operands of any type.
#[inline(always)]
pub fn pack_parametric(op: ParametricOp) -> PackedInstruction
    ensures op { PacksAnywhere result.op (plain_op.Parametric op) }
    ensures counts { result.counts ≡ Some (parametric_counts_of op) }
{
    with_counts(parametric(op), parametric_counts(op))
}

// Creates an instruction on the memory or a data segment.
#[inline(always)]
pub fn pack_memory(op: MemoryOp) -> PackedInstruction
    ensures op { PacksAnywhere result.op (plain_op.Memory op) }
    ensures counts { result.counts ≡ Some (memory_counts_of op) }
{
    with_counts(memory(op), memory_counts(op))
}

// Creates a numeric instruction.
#[inline(always)]
pub fn pack_numeric(op: NumericOp) -> PackedInstruction
    ensures op { PacksAnywhere result.op (plain_op.Numeric op) }
    ensures counts { result.counts ≡ Some (numeric_counts_of op) }
{
    with_counts(numeric(op), numeric_counts(op))
}

// Creates a 32-bit constant.
#[inline(always)]
pub fn pack_i32_const(value: u32) -> PackedInstruction
    ensures op { PacksAnywhere result.op (plain_op.I32Const value) }
    ensures counts { result.counts ≡ Some (counts_of_numbers 0 1) }
{
    with_counts(PackedOp::I32Const(value), Counts { takes: 0, gives: 1 })
}

/// Packs an instruction without a body, within these labels. Fails if an allocation fails for what it names by number.
#[tactic(auto, using(crate::proofs::Adding::adds_nothing))]
pub fn pack(
    s: &ModuleTypes<'_>,
    tables: &mut SideTables,
    outermost: u32,
    levels: &Stack<Level>,
    op: &PlainOp,
) -> Result<PackedInstruction, AllocError>
    requires { HaveEntries tables.old outermost levels.now }
    ensures adds { OnOk result (Adds tables.old tables.new) }
    ensures packs { IfOk result (λ p. (final : AnyTables) → HasAdded tables.old tables.new final
        → Packs final p.op (flat_op (entry_of_number final outermost)
        (label_entries final outermost levels.now) op.now)) }
    ensures counts { IfOk result (λ p. p.counts ≡ counts_of (signatures_of s.now) op.now) }
{
    let packed = match op {
        PlainOp::Control(op) => pack_control(s, tables, outermost, levels, *op)?,
        PlainOp::BrTable(branch) => { pack_branch_table(tables, outermost, levels, branch.get())? }
        PlainOp::Reference(op) => with_counts(reference(*op), reference_counts(*op)),
        PlainOp::Parametric(op) => pack_parametric(*op),
        PlainOp::SelectTyped(_) => with_counts(
            PackedOp::Other(OtherInstruction::Select, 0),
            Counts { takes: 3, gives: 1 },
        ),
        PlainOp::Variable(op) => pack_variable(*op),
        PlainOp::Table(op) => with_counts(table(tables, *op)?, table_counts(*op)),
        PlainOp::Memory(op) => pack_memory(*op),
        PlainOp::Numeric(op) => pack_numeric(*op),
        PlainOp::I32Const(n) => pack_i32_const(*n),
        PlainOp::I64Const(n) => with_counts(constant(tables, *n)?, Counts { takes: 0, gives: 1 }),
    };
    Ok(packed)
}
