ghost use Rattle.std.specs.Prelude.{◌≡◌, ◌%◌, ◌^◌, ◌<◌};
ghost use Rattle.meaning.specs.execution.Numerics.{binary_operator, comparison_operator};
ghost use Rattle.cells.specs.Cells.{IsCellOf};
ghost use Rattle.sidetable.specs.Packing.{binary_op, unary_op};
ghost use Rattle.effects.specs.Numeric.{GivesBinary, GivesUnary, operand_type};

use core_types::{BinaryOp, Comparison, Trap, UnaryOp};
use intops::{
    binary_32, binary_64, compare_32, compare_64, eqz_32, eqz_64, extend_low_signed, extend_signed,
    extend_unsigned, unary_32, unary_64, wrap,
};
use sidetable::{BinaryInstruction, UnaryInstruction};

/// Returns the low 32 bits of a cell, which are the integer of an i32 (Execution, Numerics, Conversions, wrap).
#[inline(always)]
pub fn low(x: u64) -> u32
    ensures { result ≡ x % 2 ^ 32 }
{
    wrap(x)
}

/// Returns the cell of the result of an instruction on the integer of a cell (Execution, Numeric Instructions).
#[inline(always)]
pub fn compute_unary(op: UnaryInstruction, x: u64) -> u64
    requires { IsCellOf (operand_type (unary_op op)) x }
    ensures { GivesUnary (unary_op op) x result }
{
    match op {
        UnaryInstruction::I32Eqz => eqz_32(low(x)) as u64,
        UnaryInstruction::I64Eqz => eqz_64(x) as u64,
        UnaryInstruction::I32Clz => unary_32(UnaryOp::Clz, low(x)) as u64,
        UnaryInstruction::I32Ctz => unary_32(UnaryOp::Ctz, low(x)) as u64,
        UnaryInstruction::I32Popcnt => unary_32(UnaryOp::Popcnt, low(x)) as u64,
        UnaryInstruction::I32Extend8S => unary_32(UnaryOp::Extend8S, low(x)) as u64,
        UnaryInstruction::I32Extend16S => unary_32(UnaryOp::Extend16S, low(x)) as u64,
        UnaryInstruction::I64Clz => unary_64(UnaryOp::Clz, x),
        UnaryInstruction::I64Ctz => unary_64(UnaryOp::Ctz, x),
        UnaryInstruction::I64Popcnt => unary_64(UnaryOp::Popcnt, x),
        UnaryInstruction::I64Extend8S => unary_64(UnaryOp::Extend8S, x),
        UnaryInstruction::I64Extend16S => unary_64(UnaryOp::Extend16S, x),
        UnaryInstruction::I32WrapI64 => wrap(x) as u64,
        UnaryInstruction::I64ExtendI32S => extend_signed(low(x)),
        UnaryInstruction::I64ExtendI32U => extend_unsigned(low(x)),
        UnaryInstruction::I64Extend32S => extend_low_signed(x),
    }
}

// Returns the integer of a 32-bit cell.
#[inline(always)]
fn integer_32(x: u64) -> u32
    requires { x < 2 ^ 32 }
    ensures { result ≡ x }
{
    low(x)
}

// Returns the result of an operator on the cells of two 32-bit integers, or its trap.
#[inline(always)]
fn binary_low(op: BinaryOp, x: u64, y: u64) -> Result<u64, Trap>
    requires x { x < 2 ^ 32 }
    requires y { y < 2 ^ 32 }
    ensures { result ≡ binary_operator 32 op x y }
{
    Ok(binary_32(op, integer_32(x), integer_32(y))? as u64)
}

// Returns whether the cells of two 32-bit integers satisfy a comparison, as a cell.
#[inline(always)]
fn compare_low(op: Comparison, x: u64, y: u64) -> u64
    requires x { x < 2 ^ 32 }
    requires y { y < 2 ^ 32 }
    ensures { result ≡ comparison_operator 32 op x y }
{
    compare_32(op, integer_32(x), integer_32(y)) as u64
}

/// Returns the cell of the result of an instruction on the integers of two cells, the first operand first, or its trap. It traps
/// for a division or a remainder by zero, or for a signed quotient that does not fit its type (Execution, Numeric Instructions).
#[inline(always)]
pub fn compute_binary(op: BinaryInstruction, x: u64, y: u64) -> Result<u64, Trap>
    requires first { IsCellOf (operand_type (binary_op op)) x }
    requires second { IsCellOf (operand_type (binary_op op)) y }
    ensures { GivesBinary (binary_op op) x y result }
{
    match op {
        BinaryInstruction::I32Sub => binary_low(BinaryOp::Sub, x, y),
        BinaryInstruction::I32Mul => binary_low(BinaryOp::Mul, x, y),
        BinaryInstruction::I32DivS => binary_low(BinaryOp::DivS, x, y),
        BinaryInstruction::I32DivU => binary_low(BinaryOp::DivU, x, y),
        BinaryInstruction::I32RemS => binary_low(BinaryOp::RemS, x, y),
        BinaryInstruction::I32RemU => binary_low(BinaryOp::RemU, x, y),
        BinaryInstruction::I32And => binary_low(BinaryOp::And, x, y),
        BinaryInstruction::I32Or => binary_low(BinaryOp::Or, x, y),
        BinaryInstruction::I32Xor => binary_low(BinaryOp::Xor, x, y),
        BinaryInstruction::I32Shl => binary_low(BinaryOp::Shl, x, y),
        BinaryInstruction::I32ShrS => binary_low(BinaryOp::ShrS, x, y),
        BinaryInstruction::I32ShrU => binary_low(BinaryOp::ShrU, x, y),
        BinaryInstruction::I32Rotl => binary_low(BinaryOp::Rotl, x, y),
        BinaryInstruction::I32Rotr => binary_low(BinaryOp::Rotr, x, y),
        BinaryInstruction::I64Add => binary_64(BinaryOp::Add, x, y),
        BinaryInstruction::I64Sub => binary_64(BinaryOp::Sub, x, y),
        BinaryInstruction::I64Mul => binary_64(BinaryOp::Mul, x, y),
        BinaryInstruction::I64DivS => binary_64(BinaryOp::DivS, x, y),
        BinaryInstruction::I64DivU => binary_64(BinaryOp::DivU, x, y),
        BinaryInstruction::I64RemS => binary_64(BinaryOp::RemS, x, y),
        BinaryInstruction::I64RemU => binary_64(BinaryOp::RemU, x, y),
        BinaryInstruction::I64And => binary_64(BinaryOp::And, x, y),
        BinaryInstruction::I64Or => binary_64(BinaryOp::Or, x, y),
        BinaryInstruction::I64Xor => binary_64(BinaryOp::Xor, x, y),
        BinaryInstruction::I64Shl => binary_64(BinaryOp::Shl, x, y),
        BinaryInstruction::I64ShrS => binary_64(BinaryOp::ShrS, x, y),
        BinaryInstruction::I64ShrU => binary_64(BinaryOp::ShrU, x, y),
        BinaryInstruction::I64Rotl => binary_64(BinaryOp::Rotl, x, y),
        BinaryInstruction::I64Rotr => binary_64(BinaryOp::Rotr, x, y),
        BinaryInstruction::I32Eq => Ok(compare_low(Comparison::Eq, x, y)),
        BinaryInstruction::I32Ne => Ok(compare_low(Comparison::Ne, x, y)),
        BinaryInstruction::I32LtS => Ok(compare_low(Comparison::LtS, x, y)),
        BinaryInstruction::I32LtU => Ok(compare_low(Comparison::LtU, x, y)),
        BinaryInstruction::I32GtS => Ok(compare_low(Comparison::GtS, x, y)),
        BinaryInstruction::I32GtU => Ok(compare_low(Comparison::GtU, x, y)),
        BinaryInstruction::I32LeS => Ok(compare_low(Comparison::LeS, x, y)),
        BinaryInstruction::I32LeU => Ok(compare_low(Comparison::LeU, x, y)),
        BinaryInstruction::I32GeS => Ok(compare_low(Comparison::GeS, x, y)),
        BinaryInstruction::I32GeU => Ok(compare_low(Comparison::GeU, x, y)),
        BinaryInstruction::I64Eq => Ok(compare_64(Comparison::Eq, x, y) as u64),
        BinaryInstruction::I64Ne => Ok(compare_64(Comparison::Ne, x, y) as u64),
        BinaryInstruction::I64LtS => Ok(compare_64(Comparison::LtS, x, y) as u64),
        BinaryInstruction::I64LtU => Ok(compare_64(Comparison::LtU, x, y) as u64),
        BinaryInstruction::I64GtS => Ok(compare_64(Comparison::GtS, x, y) as u64),
        BinaryInstruction::I64GtU => Ok(compare_64(Comparison::GtU, x, y) as u64),
        BinaryInstruction::I64LeS => Ok(compare_64(Comparison::LeS, x, y) as u64),
        BinaryInstruction::I64LeU => Ok(compare_64(Comparison::LeU, x, y) as u64),
        BinaryInstruction::I64GeS => Ok(compare_64(Comparison::GeS, x, y) as u64),
        BinaryInstruction::I64GeU => Ok(compare_64(Comparison::GeU, x, y) as u64),
    }
}
