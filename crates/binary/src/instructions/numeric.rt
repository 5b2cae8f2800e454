//! Numeric instructions without an immediate (Binary Format, Numeric Instructions).

ghost use Rattle.std.specs.Prelude.{◌≡◌};
ghost use Rattle.core_types.specs.reading.Instructions.{numeric_of};

use crate::instructions::rows::op_of;
use core_types::{BinaryOp, Comparison, Conversion, NumericOp, UnaryOp, Width};

// The numeric instructions without an immediate by opcode, from 45 on. Where there is none, there is an instruction on
// floating-point numbers.
const NUMERICS: [Option<NumericOp>; 128] = [
    // 45: tests and comparisons of 32 bits
    Some(NumericOp::Eqz(Width::W32)),
    Some(NumericOp::Compare(Width::W32, Comparison::Eq)),
    Some(NumericOp::Compare(Width::W32, Comparison::Ne)),
    Some(NumericOp::Compare(Width::W32, Comparison::LtS)),
    Some(NumericOp::Compare(Width::W32, Comparison::LtU)),
    Some(NumericOp::Compare(Width::W32, Comparison::GtS)),
    Some(NumericOp::Compare(Width::W32, Comparison::GtU)),
    Some(NumericOp::Compare(Width::W32, Comparison::LeS)),
    Some(NumericOp::Compare(Width::W32, Comparison::LeU)),
    Some(NumericOp::Compare(Width::W32, Comparison::GeS)),
    Some(NumericOp::Compare(Width::W32, Comparison::GeU)),
    // 50: tests and comparisons of 64 bits
    Some(NumericOp::Eqz(Width::W64)),
    Some(NumericOp::Compare(Width::W64, Comparison::Eq)),
    Some(NumericOp::Compare(Width::W64, Comparison::Ne)),
    Some(NumericOp::Compare(Width::W64, Comparison::LtS)),
    Some(NumericOp::Compare(Width::W64, Comparison::LtU)),
    Some(NumericOp::Compare(Width::W64, Comparison::GtS)),
    Some(NumericOp::Compare(Width::W64, Comparison::GtU)),
    Some(NumericOp::Compare(Width::W64, Comparison::LeS)),
    Some(NumericOp::Compare(Width::W64, Comparison::LeU)),
    Some(NumericOp::Compare(Width::W64, Comparison::GeS)),
    Some(NumericOp::Compare(Width::W64, Comparison::GeU)),
    // 5B: comparisons of floating-point numbers
    None,
    None,
    None,
    None,
    None,
    None,
    None,
    None,
    None,
    None,
    None,
    None,
    // 67: operators on 32 bits
    Some(NumericOp::Unary(Width::W32, UnaryOp::Clz)),
    Some(NumericOp::Unary(Width::W32, UnaryOp::Ctz)),
    Some(NumericOp::Unary(Width::W32, UnaryOp::Popcnt)),
    Some(NumericOp::Binary(Width::W32, BinaryOp::Add)),
    Some(NumericOp::Binary(Width::W32, BinaryOp::Sub)),
    Some(NumericOp::Binary(Width::W32, BinaryOp::Mul)),
    Some(NumericOp::Binary(Width::W32, BinaryOp::DivS)),
    Some(NumericOp::Binary(Width::W32, BinaryOp::DivU)),
    Some(NumericOp::Binary(Width::W32, BinaryOp::RemS)),
    Some(NumericOp::Binary(Width::W32, BinaryOp::RemU)),
    Some(NumericOp::Binary(Width::W32, BinaryOp::And)),
    Some(NumericOp::Binary(Width::W32, BinaryOp::Or)),
    Some(NumericOp::Binary(Width::W32, BinaryOp::Xor)),
    Some(NumericOp::Binary(Width::W32, BinaryOp::Shl)),
    Some(NumericOp::Binary(Width::W32, BinaryOp::ShrS)),
    Some(NumericOp::Binary(Width::W32, BinaryOp::ShrU)),
    Some(NumericOp::Binary(Width::W32, BinaryOp::Rotl)),
    Some(NumericOp::Binary(Width::W32, BinaryOp::Rotr)),
    // 79: operators on 64 bits
    Some(NumericOp::Unary(Width::W64, UnaryOp::Clz)),
    Some(NumericOp::Unary(Width::W64, UnaryOp::Ctz)),
    Some(NumericOp::Unary(Width::W64, UnaryOp::Popcnt)),
    Some(NumericOp::Binary(Width::W64, BinaryOp::Add)),
    Some(NumericOp::Binary(Width::W64, BinaryOp::Sub)),
    Some(NumericOp::Binary(Width::W64, BinaryOp::Mul)),
    Some(NumericOp::Binary(Width::W64, BinaryOp::DivS)),
    Some(NumericOp::Binary(Width::W64, BinaryOp::DivU)),
    Some(NumericOp::Binary(Width::W64, BinaryOp::RemS)),
    Some(NumericOp::Binary(Width::W64, BinaryOp::RemU)),
    Some(NumericOp::Binary(Width::W64, BinaryOp::And)),
    Some(NumericOp::Binary(Width::W64, BinaryOp::Or)),
    Some(NumericOp::Binary(Width::W64, BinaryOp::Xor)),
    Some(NumericOp::Binary(Width::W64, BinaryOp::Shl)),
    Some(NumericOp::Binary(Width::W64, BinaryOp::ShrS)),
    Some(NumericOp::Binary(Width::W64, BinaryOp::ShrU)),
    Some(NumericOp::Binary(Width::W64, BinaryOp::Rotl)),
    Some(NumericOp::Binary(Width::W64, BinaryOp::Rotr)),
    // 8B: operators on floating-point numbers
    None,
    None,
    None,
    None,
    None,
    None,
    None,
    None,
    None,
    None,
    None,
    None,
    None,
    None,
    None,
    None,
    None,
    None,
    None,
    None,
    None,
    None,
    None,
    None,
    None,
    None,
    None,
    None,
    // A7: conversions
    Some(NumericOp::Convert(Conversion::I32WrapI64)),
    None,
    None,
    None,
    None,
    Some(NumericOp::Convert(Conversion::I64ExtendI32S)),
    Some(NumericOp::Convert(Conversion::I64ExtendI32U)),
    None,
    None,
    None,
    None,
    None,
    None,
    None,
    None,
    None,
    None,
    None,
    None,
    None,
    None,
    None,
    None,
    None,
    None,
    // C0: sign extensions
    Some(NumericOp::Unary(Width::W32, UnaryOp::Extend8S)),
    Some(NumericOp::Unary(Width::W32, UnaryOp::Extend16S)),
    Some(NumericOp::Unary(Width::W64, UnaryOp::Extend8S)),
    Some(NumericOp::Unary(Width::W64, UnaryOp::Extend16S)),
    Some(NumericOp::Convert(Conversion::I64Extend32S)),
];

// The numeric instruction without an immediate of this opcode, if there is one.
#[tactic(auto, unfolding(core_types::specs::reading::Instructions::numeric_of, core_types::specs::reading::Instructions::numerics))]
#[inline(always)]
pub fn numeric_op(code: u8) -> Option<NumericOp>
    ensures { result ≡ numeric_of code }
{
    if code < 0x45 {
        return None;
    }
    op_of(&NUMERICS, 0x45, code)
}
