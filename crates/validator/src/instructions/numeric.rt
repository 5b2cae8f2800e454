ghost use Rattle.std.specs.Prelude.{◌≡◌};
ghost use Rattle.core_types.specs.declared.op.PlainOp.TheVariants as plain;
ghost use Rattle.meaning.specs.validation.Instructions.{numeric_instruction_type};
ghost use Rattle.validator.specs.InstructionTypes.{lent_type};
ghost use Rattle.validator.specs.Steps.{StepsOver};

use crate::control_frames::Stacks;
use crate::errors::Fault;
use crate::instructions::{apply, apply_binary, apply_unary};
use crate::types::{InstructionType, integer_type, once, takes_gives};
use core_types::{Conversion, NumericOp, ValType};

fn type_of_conversion(op: Conversion) -> InstructionType<'static>
    ensures { lent_type result ≡ numeric_instruction_type (NumericOp.Convert op) }
{
    match op {
        Conversion::I32WrapI64 => takes_gives(once(ValType::I64), once(ValType::I32)),
        Conversion::I64ExtendI32S | Conversion::I64ExtendI32U => takes_gives(
            once(ValType::I32),
            once(ValType::I64),
        ),
        Conversion::I64Extend32S => takes_gives(once(ValType::I64), once(ValType::I64)),
    }
}

#[inline(always)]
pub fn step_numeric(stacks: &mut Stacks<'_>, op: NumericOp) -> Result<(), Fault>
    ensures { StepsOver stacks.old stacks.new (plain.Numeric op) result }
{
    match op {
        NumericOp::Eqz(width) => apply_unary(stacks, integer_type(width), ValType::I32),
        NumericOp::Compare(width, _) => apply_binary(stacks, integer_type(width), ValType::I32),
        NumericOp::Unary(width, _) => {
            let ty = integer_type(width);
            apply_unary(stacks, ty, ty)
        }
        NumericOp::Binary(width, _) => {
            let ty = integer_type(width);
            apply_binary(stacks, ty, ty)
        }
        NumericOp::Convert(op) => apply(stacks, &type_of_conversion(op)),
    }
}

// Steps over a 32-bit constant.
#[inline(always)]
pub fn step_i32_const(stacks: &mut Stacks<'_>, value: u32) -> Result<(), Fault>
    ensures { StepsOver stacks.old stacks.new (plain.I32Const value) result }
{
    apply(stacks, &takes_gives(&[], once(ValType::I32)))
}

// Steps over a 64-bit constant.
#[inline(always)]
pub fn step_i64_const(stacks: &mut Stacks<'_>, value: u64) -> Result<(), Fault>
    ensures { StepsOver stacks.old stacks.new (plain.I64Const value) result }
{
    apply(stacks, &takes_gives(&[], once(ValType::I64)))
}
