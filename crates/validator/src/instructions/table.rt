ghost use Rattle.core_types.specs.declared.op.Op.TheVariants as flat;
ghost use Rattle.core_types.specs.declared.op.PlainOp.TheVariants as plain;
ghost use Rattle.core_types.specs.declared.op.TableOp.TheVariants as table_op;
ghost use Rattle.validator.specs.InstructionTypes.{HasTypeOf};
ghost use Rattle.validator.specs.Steps.{Steps};

use crate::context::{BodyContext, segment_type, table_element};
use crate::control_frames::Stacks;
use crate::errors::Fault;
use crate::instructions::apply_some;
use crate::types::{
    InstructionType, once, over_i32, reference_type, takes_gives, takes_i32_gives, twice,
};
use core_types::{TableOp, ValType};

// Returns the type of `table.copy`, between tables of one type of elements.
fn type_of_table_copy(
    context: &BodyContext<'_>,
    target: u32,
    source: u32,
) -> Option<InstructionType<'static>>
    ensures { HasTypeOf context.now (plain.Table (table_op.Copy target source)) result }
{
    let into = table_element(context, target)?;
    let from = table_element(context, source)?;
    if into == from {
        Some(takes_i32_gives(twice(ValType::I32), &[]))
    } else {
        None
    }
}

// Returns the type of `table.init`, from a segment of the type of the table's elements.
fn type_of_table_init(
    context: &BodyContext<'_>,
    segment: u32,
    table: u32,
) -> Option<InstructionType<'static>>
    ensures { HasTypeOf context.now (plain.Table (table_op.Init segment table)) result }
{
    let into = table_element(context, table)?;
    let from = segment_type(context, segment)?;
    if into == from {
        Some(takes_i32_gives(twice(ValType::I32), &[]))
    } else {
        None
    }
}

// Returns the type of an instruction on a table or an element segment.
fn type_of_table(context: &BodyContext<'_>, op: TableOp) -> Option<InstructionType<'static>>
    ensures { HasTypeOf context.now (plain.Table op) result }
{
    match op {
        TableOp::Get(index) => {
            let ty = table_element(context, index)?;
            Some(takes_i32_gives(&[], once(reference_type(ty))))
        }
        TableOp::Set(index) => {
            let ty = table_element(context, index)?;
            Some(takes_gives(over_i32(reference_type(ty)), &[]))
        }
        TableOp::Size(index) => {
            let _ = table_element(context, index)?;
            Some(takes_gives(&[], once(ValType::I32)))
        }
        TableOp::Grow(index) => {
            let ty = table_element(context, index)?;
            Some(takes_i32_gives(once(reference_type(ty)), once(ValType::I32)))
        }
        TableOp::Fill(index) => {
            let ty = table_element(context, index)?;
            Some(takes_i32_gives(over_i32(reference_type(ty)), &[]))
        }
        TableOp::Copy { target, source } => type_of_table_copy(context, target, source),
        TableOp::Init { segment, table } => type_of_table_init(context, segment, table),
        TableOp::ElemDrop(segment) => {
            let _ = segment_type(context, segment)?;
            Some(takes_gives(&[], &[]))
        }
    }
}

// Steps over an instruction on a table or an element segment.
pub fn step_table(
    context: &BodyContext<'_>,
    stacks: &mut Stacks<'_>,
    op: TableOp,
) -> Result<(), Fault>
    ensures { Steps context.now stacks.old stacks.new (flat.Plain (plain.Table op)) result }
{
    apply_some(stacks, &type_of_table(context, op))
}
