//! Instructions, each as a flat operation (Binary Format, Instructions).

pub mod control;
pub mod memory;
pub mod numeric;
pub mod parametric;
pub mod reference;
pub mod rows;
pub mod table;
pub mod variable;

ghost use Rattle.std.specs.Prelude.{List, Some, ℕ, ◌≡◌, ◌≤◌, ◌⊎◌};
ghost use Rattle.core_types.specs.Expressions.{mark_op};
ghost use Rattle.core_types.specs.declared.op.Op.TheVariants as flat;
ghost use Rattle.core_types.specs.declared.op.PlainOp.TheVariants as plain;
ghost use Rattle.core_types.specs.declared.op.PlainOp.TheVariants.{BrTable, I32Const, I64Const, Numeric, SelectTyped};
ghost use Rattle.core_types.specs.declared.op.VariableOp.TheVariants.{LocalGet};
ghost use Rattle.core_types.specs.reading.Conventions.{chosen_at, mapped_at, mapped_case};
ghost use Rattle.core_types.specs.reading.Instructions.{branch_table_at, group_at, numeric_at, op_at, operation_at, plain_at, prefixed_at, stored_at};
ghost use Rattle.core_types.specs.reading.Types.{val_type_at};
ghost use Rattle.core_types.specs.reading.Values.{unsigned_at, vector_at};
ghost use Rattle.meaning.specs.binary.Modules.{names_data};
ghost use Rattle.binary.specs.Conventions.{Gives, GivesSeen};
ghost use Rattle.binary.specs.Values.{first_byte};

use crate::errors::DecodeError;
use crate::instructions::control::{read_branch_table, read_control};
use crate::instructions::memory::{read_memory, read_prefixed_memory};
use crate::instructions::numeric::numeric_op;
use crate::instructions::parametric::read_parametric;
use crate::instructions::reference::read_reference;
use crate::instructions::table::{read_prefixed_table, read_table};
use crate::instructions::variable::read_variable;
use crate::reader::Reader;
use crate::types::read_block_type;
use crate::values::read_vector;
use core_types::{
    Boxed, ControlOp, Mark, MemoryOp, NumericOp, Op, ParametricOp, PlainOp, ValType, VariableOp,
};
use std::alloc::Global;

// Reads the rest of a branch by number, whose opcode was read.
fn read_br_table(alloc: Global, reader: &mut Reader<'_>) -> Result<PlainOp, DecodeError>
    ensures { Gives result reader.new (mapped_at BrTable branch_table_at reader.old) }
{
    Ok(PlainOp::BrTable(Boxed::new(alloc, read_branch_table(alloc, reader)?)?))
}

// Reads the rest of a select with types, whose opcode was read.
fn read_typed_select(alloc: Global, reader: &mut Reader<'_>) -> Result<PlainOp, DecodeError>
    ensures { Gives result reader.new (mapped_at SelectTyped (vector_at val_type_at) reader.old) }
{
    Ok(PlainOp::SelectTyped(Boxed::new(alloc, read_vector::<ValType>(alloc, reader)?)?))
}

// Reads the rest of a 32-bit constant, whose opcode was read.
fn read_i32_const(reader: &mut Reader<'_>) -> Result<PlainOp, DecodeError>
    ensures { Gives result reader.new (mapped_at I32Const (stored_at 32) reader.old) }
{
    Ok(PlainOp::I32Const(reader.s32()?.cast_unsigned()))
}

// Reads the rest of a 64-bit constant, whose opcode was read.
fn read_i64_const(reader: &mut Reader<'_>) -> Result<PlainOp, DecodeError>
    ensures { Gives result reader.new (mapped_at I64Const (stored_at 64) reader.old) }
{
    Ok(PlainOp::I64Const(reader.s64()?.cast_unsigned()))
}

// Reads a numeric instruction without an immediate, whose opcode was read at the offset.
#[inline(always)]
fn read_numeric(code: u8, offset: usize) -> Result<PlainOp, DecodeError>
    ensures { (rest : List ℕ) → Gives result rest (mapped_case Numeric numeric_at code rest) }
{
    match numeric_op(code) {
        Some(op) => Ok(PlainOp::Numeric(op)),
        None => Err(DecodeError::Unsupported(offset)),
    }
}

// Reads the rest of an instruction of a group with consecutive opcodes, whose opcode was read at the offset.
#[tactic(auto, unfolding(core_types::specs::reading::Instructions::group_at))]
#[inline(always)]
fn read_group(reader: &mut Reader<'_>, code: u8, offset: usize) -> Result<PlainOp, DecodeError>
    ensures { Gives result reader.new (group_at code reader.old) }
{
    match code {
        0x00..=0x13 => Ok(PlainOp::Control(read_control(reader, code, offset)?)),
        0x14..=0x1B => Ok(PlainOp::Parametric(read_parametric(reader, code, offset)?)),
        0x1C..=0x24 => Ok(PlainOp::Variable(read_variable(reader, code, offset)?)),
        0x25..=0x27 => Ok(PlainOp::Table(read_table(reader, code, offset)?)),
        0x28..=0x40 => Ok(PlainOp::Memory(read_memory(reader, code, offset)?)),
        0x41..=0xC4 => read_numeric(code, offset),
        _ => Ok(PlainOp::Reference(read_reference(reader, code, offset)?)),
    }
}

// Reads an instruction after the byte FC, which was read at the offset.
#[tactic(auto, unfolding(core_types::specs::reading::Instructions::prefixed_at))]
fn read_prefixed(reader: &mut Reader<'_>, offset: usize) -> Result<PlainOp, DecodeError>
    ensures { Gives result reader.new (chosen_at (unsigned_at 32) prefixed_at reader.old) }
{
    match reader.u32()? {
        number @ 0..=11 => Ok(PlainOp::Memory(read_prefixed_memory(reader, number, offset)?)),
        number => Ok(PlainOp::Table(read_prefixed_table(reader, number, offset)?)),
    }
}

// Reads the rest of an instruction without a body, whose opcode was read at the offset.
#[tactic(auto, unfolding(core_types::specs::reading::Instructions::plain_at))]
fn read_plain(
    alloc: Global,
    reader: &mut Reader<'_>,
    code: u8,
    offset: usize,
) -> Result<PlainOp, DecodeError>
    ensures { Gives result reader.new (plain_at code reader.old) }
{
    match code {
        0x0E => read_br_table(alloc, reader),
        0x1C => read_typed_select(alloc, reader),
        0x41 => read_i32_const(reader),
        0x42 => read_i64_const(reader),
        0xFC => read_prefixed(reader, offset),
        _ => read_group(reader, code, offset),
    }
}

// Reads the rest of an operation, whose opcode was read at the offset.
#[tactic(auto, unfolding(core_types::specs::reading::Instructions::operation_at))]
#[inline(never)]
fn read_operation(
    alloc: Global,
    reader: &mut Reader<'_>,
    code: u8,
    offset: usize,
) -> Result<Op, DecodeError>
    ensures { Gives result reader.new (operation_at code reader.old) }
{
    match code {
        0x02 => Ok(Op::Block(read_block_type(reader)?)),
        0x03 => Ok(Op::Loop(read_block_type(reader)?)),
        0x04 => Ok(Op::If(read_block_type(reader)?)),
        0x05 => Ok(Op::Else),
        0x0B => Ok(Op::End),
        _ => Ok(Op::Plain(read_plain(alloc, reader, code, offset)?)),
    }
}

// Reads an operation.
#[tactic(auto, unfolding(core_types::specs::reading::Instructions::op_at))]
pub fn read_op(alloc: Global, reader: &mut Reader<'_>) -> Result<Op, DecodeError>
    ensures { Gives result reader.new (op_at reader.old) }
{
    let offset = reader.offset();
    let code = reader.byte()?;
    read_operation(alloc, reader, code, offset)
}

// Reads an instruction on a local or a global, with this opcode.
#[tactic(auto, unfolding(core_types::specs::reading::Instructions::op_at, core_types::specs::reading::Instructions::operation_at, core_types::specs::reading::Instructions::plain_at, core_types::specs::reading::Instructions::group_at))]
#[inline(always)]
pub fn read_variable_op(reader: &mut Reader<'_>, code: u8) -> Result<VariableOp, DecodeError>
    requires opcode { first_byte reader.old ≡ Some code }
    requires group { (0x20 ≤ code) × (code ≤ 0x24) }
    ensures { GivesSeen (λ op. flat.Plain (plain.Variable op)) result reader.new (op_at reader.old) }
{
    let offset = reader.offset();
    reader.skip();
    read_variable(reader, code, offset)
}

// Reads a `local.get`.
#[tactic(auto, unfolding(core_types::specs::reading::Instructions::op_at, core_types::specs::reading::Instructions::operation_at, core_types::specs::reading::Instructions::plain_at, core_types::specs::reading::Instructions::group_at, core_types::specs::reading::Instructions::variable_at))]
#[inline(always)]
pub fn read_local_get_op(reader: &mut Reader<'_>) -> Result<u32, DecodeError>
    requires { first_byte reader.old ≡ Some 0x20 }
    ensures { GivesSeen (λ n. flat.Plain (plain.Variable (LocalGet n))) result reader.new
        (op_at reader.old) }
{
    reader.skip();
    Ok(reader.u32()?)
}

// Reads a parametric instruction without an immediate, with this opcode.
#[tactic(auto, unfolding(core_types::specs::reading::Instructions::op_at, core_types::specs::reading::Instructions::operation_at, core_types::specs::reading::Instructions::plain_at, core_types::specs::reading::Instructions::group_at))]
#[inline(always)]
pub fn read_parametric_op(reader: &mut Reader<'_>, code: u8) -> Result<ParametricOp, DecodeError>
    requires opcode { first_byte reader.old ≡ Some code }
    requires group { (0x1A ≤ code) × (code ≤ 0x1B) }
    ensures { GivesSeen (λ op. flat.Plain (plain.Parametric op)) result reader.new
        (op_at reader.old) }
{
    let offset = reader.offset();
    reader.skip();
    read_parametric(reader, code, offset)
}

// Reads a load or a store, with this opcode.
#[tactic(auto, unfolding(core_types::specs::reading::Instructions::op_at, core_types::specs::reading::Instructions::operation_at, core_types::specs::reading::Instructions::plain_at, core_types::specs::reading::Instructions::group_at))]
#[inline(always)]
pub fn read_memory_op(reader: &mut Reader<'_>, code: u8) -> Result<MemoryOp, DecodeError>
    requires opcode { first_byte reader.old ≡ Some code }
    requires group { (0x28 ≤ code) × (code ≤ 0x3E) }
    ensures { GivesSeen (λ op. flat.Plain (plain.Memory op)) result reader.new (op_at reader.old) }
{
    let offset = reader.offset();
    reader.skip();
    read_memory(reader, code, offset)
}

// Reads a control instruction without a body, with this opcode.
#[tactic(auto, unfolding(core_types::specs::reading::Instructions::op_at, core_types::specs::reading::Instructions::operation_at, core_types::specs::reading::Instructions::plain_at, core_types::specs::reading::Instructions::group_at))]
#[inline(always)]
pub fn read_control_op(reader: &mut Reader<'_>, code: u8) -> Result<ControlOp, DecodeError>
    requires opcode { first_byte reader.old ≡ Some code }
    requires group { ((0x0C ≤ code) × (code ≤ 0x0D)) ⊎ ((0x0F ≤ code) × (code ≤ 0x10)) }
    ensures { GivesSeen (λ op. flat.Plain (plain.Control op)) result reader.new (op_at reader.old) }
{
    let offset = reader.offset();
    reader.skip();
    read_control(reader, code, offset)
}

// Reads a numeric instruction without an immediate, with this opcode.
#[tactic(auto, unfolding(core_types::specs::reading::Instructions::op_at, core_types::specs::reading::Instructions::operation_at, core_types::specs::reading::Instructions::plain_at, core_types::specs::reading::Instructions::group_at))]
#[inline(always)]
pub fn read_numeric_op(reader: &mut Reader<'_>, code: u8) -> Result<NumericOp, DecodeError>
    requires opcode { first_byte reader.old ≡ Some code }
    requires group { (0x45 ≤ code) × (code ≤ 0xC4) }
    ensures { GivesSeen (λ op. flat.Plain (plain.Numeric op)) result reader.new (op_at reader.old) }
{
    let offset = reader.offset();
    reader.skip();
    match numeric_op(code) {
        Some(op) => Ok(op),
        None => Err(DecodeError::Unsupported(offset)),
    }
}

// Reads a 32-bit constant.
#[tactic(auto, unfolding(core_types::specs::reading::Instructions::op_at, core_types::specs::reading::Instructions::operation_at, core_types::specs::reading::Instructions::plain_at))]
#[inline(always)]
pub fn read_i32_const_op(reader: &mut Reader<'_>) -> Result<u32, DecodeError>
    requires { first_byte reader.old ≡ Some 0x41 }
    ensures { GivesSeen (λ n. flat.Plain (plain.I32Const n)) result reader.new (op_at reader.old) }
{
    reader.skip();
    Ok(reader.s32()?.cast_unsigned())
}

// Reads a mark, at which a body begins or ends, with this opcode.
#[tactic(auto, unfolding(core_types::specs::reading::Instructions::op_at, core_types::specs::reading::Instructions::operation_at))]
#[inline(always)]
pub fn read_mark(reader: &mut Reader<'_>, code: u8) -> Result<Mark, DecodeError>
    requires opcode { first_byte reader.old ≡ Some code }
    requires group { ((0x02 ≤ code) × (code ≤ 0x05)) ⊎ (code ≡ 0x0B) }
    ensures { GivesSeen mark_op result reader.new (op_at reader.old) }
{
    reader.skip();
    match code {
        0x02 => Ok(Mark::Block(read_block_type(reader)?)),
        0x03 => Ok(Mark::Loop(read_block_type(reader)?)),
        0x04 => Ok(Mark::If(read_block_type(reader)?)),
        0x05 => Ok(Mark::Else),
        0x0B => Ok(Mark::End),
        _ => unreachable!(),
    }
}

// Returns whether an instruction on the memory names a data segment.
#[inline(always)]
pub fn is_memory_op_of_data(op: MemoryOp) -> bool
    ensures { result ≡ names_data (flat.Plain (plain.Memory op)) }
{
    matches!(op, MemoryOp::Init(_) | MemoryOp::DataDrop(_))
}

// Returns whether an operation names a data segment.
pub fn is_of_data(op: &Op) -> bool
    ensures { result ≡ names_data op.now }
{
    match op {
        Op::Plain(PlainOp::Memory(op)) => is_memory_op_of_data(*op),
        _ => false,
    }
}
