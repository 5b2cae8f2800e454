//! Numeric instructions over cells: their operands and results, worked out from the standard.

ghost use Rattle.std.specs.Prelude.{IsTrue};
ghost use Rattle.cells.specs.Cells.{IsCellOf};
ghost use Rattle.sidetable.specs.Packing.{binary_op, unary_op};
ghost use Rattle.effects.specs.Numeric.{operand_type};

use core_types::Trap;
use effects::{compute_binary, compute_unary, low};
use sidetable::{BinaryInstruction as Binary, UnaryInstruction as Unary};

// -1 of each type, and the least signed numbers.
const ALL_32: u64 = 0xFFFF_FFFF;

const ALL_64: u64 = 0xFFFF_FFFF_FFFF_FFFF;

const LEAST_32: u64 = 0x8000_0000;

const LEAST_64: u64 = 0x8000_0000_0000_0000;

// An instruction, its operand and its result.
struct UnaryRow {
    name: &'static str,
    op: Unary,
    x: u64,
    result: u64,
}

#[rattlefmt::skip]
static UNARY: [UnaryRow; 29] = [
    UnaryRow { name: "i32.eqz 0", op: Unary::I32Eqz, x: 0, result: 1 },
    UnaryRow { name: "i32.eqz least", op: Unary::I32Eqz, x: LEAST_32, result: 0 },
    UnaryRow { name: "i64.eqz 0", op: Unary::I64Eqz, x: 0, result: 1 },
    UnaryRow { name: "i64.eqz, the low half zero", op: Unary::I64Eqz, x: 0x1_0000_0000, result: 0 },
    UnaryRow { name: "i32.clz 0", op: Unary::I32Clz, x: 0, result: 32 },
    UnaryRow { name: "i32.clz 1", op: Unary::I32Clz, x: 1, result: 31 },
    UnaryRow { name: "i32.clz -1", op: Unary::I32Clz, x: ALL_32, result: 0 },
    UnaryRow { name: "i32.ctz 0", op: Unary::I32Ctz, x: 0, result: 32 },
    UnaryRow { name: "i32.ctz least", op: Unary::I32Ctz, x: LEAST_32, result: 31 },
    UnaryRow { name: "i32.popcnt -1", op: Unary::I32Popcnt, x: ALL_32, result: 32 },
    UnaryRow { name: "i32.extend8_s, negative", op: Unary::I32Extend8S, x: 0x80, result: 0xFFFF_FF80 },
    UnaryRow { name: "i32.extend8_s, bits above", op: Unary::I32Extend8S, x: 0x17F, result: 0x7F },
    UnaryRow { name: "i32.extend16_s, negative", op: Unary::I32Extend16S, x: 0x8000, result: 0xFFFF_8000 },
    UnaryRow { name: "i64.clz 0", op: Unary::I64Clz, x: 0, result: 64 },
    UnaryRow { name: "i64.clz 1", op: Unary::I64Clz, x: 1, result: 63 },
    UnaryRow { name: "i64.ctz 0", op: Unary::I64Ctz, x: 0, result: 64 },
    UnaryRow { name: "i64.ctz least", op: Unary::I64Ctz, x: LEAST_64, result: 63 },
    UnaryRow { name: "i64.popcnt -1", op: Unary::I64Popcnt, x: ALL_64, result: 64 },
    UnaryRow { name: "i64.extend8_s, negative", op: Unary::I64Extend8S, x: 0x80, result: 0xFFFF_FFFF_FFFF_FF80 },
    UnaryRow { name: "i64.extend16_s, negative", op: Unary::I64Extend16S, x: 0x8000, result: 0xFFFF_FFFF_FFFF_8000 },
    UnaryRow { name: "i64.extend16_s, bits above", op: Unary::I64Extend16S, x: 0x1_7FFF, result: 0x7FFF },
    UnaryRow { name: "i64.extend32_s, negative", op: Unary::I64Extend32S, x: LEAST_32, result: 0xFFFF_FFFF_8000_0000 },
    UnaryRow { name: "i64.extend32_s, bits above", op: Unary::I64Extend32S, x: 0x1_7FFF_FFFF, result: 0x7FFF_FFFF },
    UnaryRow { name: "i32.wrap_i64 -1", op: Unary::I32WrapI64, x: ALL_64, result: ALL_32 },
    UnaryRow { name: "i32.wrap_i64, bits above", op: Unary::I32WrapI64, x: 0xFFFF_FFFF_0000_0001, result: 1 },
    UnaryRow { name: "i64.extend_i32_s -1", op: Unary::I64ExtendI32S, x: ALL_32, result: ALL_64 },
    UnaryRow { name: "i64.extend_i32_s, positive", op: Unary::I64ExtendI32S, x: 0x7FFF_FFFF, result: 0x7FFF_FFFF },
    UnaryRow { name: "i64.extend_i32_u -1", op: Unary::I64ExtendI32U, x: ALL_32, result: ALL_32 },
    UnaryRow { name: "i64.extend_i32_u least", op: Unary::I64ExtendI32U, x: LEAST_32, result: LEAST_32 },
];

// Returns whether a cell can be the instruction's operand.
fn is_unary_operand(op: Unary, x: u64) -> bool
    ensures { IsTrue result → IsCellOf (operand_type (unary_op op)) x }
{
    match op {
        Unary::I64Eqz
        | Unary::I64Clz
        | Unary::I64Ctz
        | Unary::I64Popcnt
        | Unary::I64Extend8S
        | Unary::I64Extend16S
        | Unary::I32WrapI64
        | Unary::I64Extend32S => true,
        _ => x < 0x1_0000_0000,
    }
}

fn computes_unary(row: &UnaryRow) -> bool {
    is_unary_operand(row.op, row.x) && compute_unary(row.op, row.x) == row.result
}

#[test]
fn instructions_on_one_integer(rt: HostRuntime) {
    for row in &UNARY {
        assert!(rt; computes_unary(row), "{}", row.name);
    }
}

// An instruction, its operands and its result.
struct BinaryRow {
    name: &'static str,
    op: Binary,
    x: u64,
    y: u64,
    result: Result<u64, Trap>,
}

const ZERO_DIVISOR: Result<u64, Trap> = Err(Trap::DivideByZero);

const TOO_GREAT: Result<u64, Trap> = Err(Trap::IntegerOverflow);

#[rattlefmt::skip]
static BINARY: [BinaryRow; 70] = [
    BinaryRow { name: "i32.sub 5 3", op: Binary::I32Sub, x: 5, y: 3, result: Ok(2) },
    BinaryRow { name: "i32.sub 0 1", op: Binary::I32Sub, x: 0, y: 1, result: Ok(ALL_32) },
    BinaryRow { name: "i32.mul 65536 65536", op: Binary::I32Mul, x: 0x1_0000, y: 0x1_0000, result: Ok(0) },
    BinaryRow { name: "i32.mul -1 -1", op: Binary::I32Mul, x: ALL_32, y: ALL_32, result: Ok(1) },
    BinaryRow { name: "i32.div_s -7 2", op: Binary::I32DivS, x: 0xFFFF_FFF9, y: 2, result: Ok(0xFFFF_FFFD) },
    BinaryRow { name: "i32.div_s 7 0", op: Binary::I32DivS, x: 7, y: 0, result: ZERO_DIVISOR },
    BinaryRow { name: "i32.div_s least -1", op: Binary::I32DivS, x: LEAST_32, y: ALL_32, result: TOO_GREAT },
    BinaryRow { name: "i32.div_u -1 2", op: Binary::I32DivU, x: ALL_32, y: 2, result: Ok(0x7FFF_FFFF) },
    BinaryRow { name: "i32.div_u 7 0", op: Binary::I32DivU, x: 7, y: 0, result: ZERO_DIVISOR },
    BinaryRow { name: "i32.rem_s -7 2", op: Binary::I32RemS, x: 0xFFFF_FFF9, y: 2, result: Ok(ALL_32) },
    BinaryRow { name: "i32.rem_s least -1", op: Binary::I32RemS, x: LEAST_32, y: ALL_32, result: Ok(0) },
    BinaryRow { name: "i32.rem_s 7 0", op: Binary::I32RemS, x: 7, y: 0, result: ZERO_DIVISOR },
    BinaryRow { name: "i32.rem_u -1 10", op: Binary::I32RemU, x: ALL_32, y: 10, result: Ok(5) },
    BinaryRow { name: "i32.rem_u 7 0", op: Binary::I32RemU, x: 7, y: 0, result: ZERO_DIVISOR },
    BinaryRow { name: "i32.and", op: Binary::I32And, x: 0b1100, y: 0b1010, result: Ok(0b1000) },
    BinaryRow { name: "i32.or", op: Binary::I32Or, x: 0b1100, y: 0b1010, result: Ok(0b1110) },
    BinaryRow { name: "i32.xor", op: Binary::I32Xor, x: 0b1100, y: 0b1010, result: Ok(0b0110) },
    BinaryRow { name: "i32.shl 1 31", op: Binary::I32Shl, x: 1, y: 31, result: Ok(LEAST_32) },
    BinaryRow { name: "i32.shl 1 33", op: Binary::I32Shl, x: 1, y: 33, result: Ok(2) },
    BinaryRow { name: "i32.shr_s least 31", op: Binary::I32ShrS, x: LEAST_32, y: 31, result: Ok(ALL_32) },
    BinaryRow { name: "i32.shr_u least 31", op: Binary::I32ShrU, x: LEAST_32, y: 31, result: Ok(1) },
    BinaryRow { name: "i32.rotl least 1", op: Binary::I32Rotl, x: LEAST_32, y: 1, result: Ok(1) },
    BinaryRow { name: "i32.rotl 3 63", op: Binary::I32Rotl, x: 3, y: 63, result: Ok(0x8000_0001) },
    BinaryRow { name: "i32.rotr 1 1", op: Binary::I32Rotr, x: 1, y: 1, result: Ok(LEAST_32) },
    BinaryRow { name: "i32.rotr 3 33", op: Binary::I32Rotr, x: 3, y: 33, result: Ok(0x8000_0001) },
    BinaryRow { name: "i64.add -1 1", op: Binary::I64Add, x: ALL_64, y: 1, result: Ok(0) },
    BinaryRow { name: "i64.add, into the high half", op: Binary::I64Add, x: ALL_32, y: 1, result: Ok(0x1_0000_0000) },
    BinaryRow { name: "i64.sub 0 1", op: Binary::I64Sub, x: 0, y: 1, result: Ok(ALL_64) },
    BinaryRow { name: "i64.mul 2^32 2^32", op: Binary::I64Mul, x: 0x1_0000_0000, y: 0x1_0000_0000, result: Ok(0) },
    BinaryRow { name: "i64.div_s -7 2", op: Binary::I64DivS, x: 0xFFFF_FFFF_FFFF_FFF9, y: 2, result: Ok(0xFFFF_FFFF_FFFF_FFFD) },
    BinaryRow { name: "i64.div_s 7 0", op: Binary::I64DivS, x: 7, y: 0, result: ZERO_DIVISOR },
    BinaryRow { name: "i64.div_s least -1", op: Binary::I64DivS, x: LEAST_64, y: ALL_64, result: TOO_GREAT },
    BinaryRow { name: "i64.div_u -1 2", op: Binary::I64DivU, x: ALL_64, y: 2, result: Ok(0x7FFF_FFFF_FFFF_FFFF) },
    BinaryRow { name: "i64.div_u 7 0", op: Binary::I64DivU, x: 7, y: 0, result: ZERO_DIVISOR },
    BinaryRow { name: "i64.rem_s -7 2", op: Binary::I64RemS, x: 0xFFFF_FFFF_FFFF_FFF9, y: 2, result: Ok(ALL_64) },
    BinaryRow { name: "i64.rem_s least -1", op: Binary::I64RemS, x: LEAST_64, y: ALL_64, result: Ok(0) },
    BinaryRow { name: "i64.rem_s 7 0", op: Binary::I64RemS, x: 7, y: 0, result: ZERO_DIVISOR },
    BinaryRow { name: "i64.rem_u -1 10", op: Binary::I64RemU, x: ALL_64, y: 10, result: Ok(5) },
    BinaryRow { name: "i64.rem_u 7 0", op: Binary::I64RemU, x: 7, y: 0, result: ZERO_DIVISOR },
    BinaryRow { name: "i64.and", op: Binary::I64And, x: 0xC_0000_0000, y: 0xA_0000_0000, result: Ok(0x8_0000_0000) },
    BinaryRow { name: "i64.or", op: Binary::I64Or, x: 0xC_0000_0000, y: 0xA_0000_0000, result: Ok(0xE_0000_0000) },
    BinaryRow { name: "i64.xor", op: Binary::I64Xor, x: 0xC_0000_0000, y: 0xA_0000_0000, result: Ok(0x6_0000_0000) },
    BinaryRow { name: "i64.shl 1 63", op: Binary::I64Shl, x: 1, y: 63, result: Ok(LEAST_64) },
    BinaryRow { name: "i64.shl 1 65", op: Binary::I64Shl, x: 1, y: 65, result: Ok(2) },
    BinaryRow { name: "i64.shr_s least 63", op: Binary::I64ShrS, x: LEAST_64, y: 63, result: Ok(ALL_64) },
    BinaryRow { name: "i64.shr_u least 63", op: Binary::I64ShrU, x: LEAST_64, y: 63, result: Ok(1) },
    BinaryRow { name: "i64.rotl 3 127", op: Binary::I64Rotl, x: 3, y: 127, result: Ok(0x8000_0000_0000_0001) },
    BinaryRow { name: "i64.rotr 3 65", op: Binary::I64Rotr, x: 3, y: 65, result: Ok(0x8000_0000_0000_0001) },
    BinaryRow { name: "i32.eq -1 -1", op: Binary::I32Eq, x: ALL_32, y: ALL_32, result: Ok(1) },
    BinaryRow { name: "i32.ne -1 -1", op: Binary::I32Ne, x: ALL_32, y: ALL_32, result: Ok(0) },
    BinaryRow { name: "i32.lt_s -1 0", op: Binary::I32LtS, x: ALL_32, y: 0, result: Ok(1) },
    BinaryRow { name: "i32.lt_u -1 0", op: Binary::I32LtU, x: ALL_32, y: 0, result: Ok(0) },
    BinaryRow { name: "i32.gt_s 0 least", op: Binary::I32GtS, x: 0, y: LEAST_32, result: Ok(1) },
    BinaryRow { name: "i32.gt_u 0 least", op: Binary::I32GtU, x: 0, y: LEAST_32, result: Ok(0) },
    BinaryRow { name: "i32.le_s least least", op: Binary::I32LeS, x: LEAST_32, y: LEAST_32, result: Ok(1) },
    BinaryRow { name: "i32.le_s 0 -1", op: Binary::I32LeS, x: 0, y: ALL_32, result: Ok(0) },
    BinaryRow { name: "i32.le_u 0 -1", op: Binary::I32LeU, x: 0, y: ALL_32, result: Ok(1) },
    BinaryRow { name: "i32.ge_s least 0", op: Binary::I32GeS, x: LEAST_32, y: 0, result: Ok(0) },
    BinaryRow { name: "i32.ge_u least 0", op: Binary::I32GeU, x: LEAST_32, y: 0, result: Ok(1) },
    BinaryRow { name: "i64.eq -1 -1", op: Binary::I64Eq, x: ALL_64, y: ALL_64, result: Ok(1) },
    BinaryRow { name: "i64.ne -1 -1", op: Binary::I64Ne, x: ALL_64, y: ALL_64, result: Ok(0) },
    BinaryRow { name: "i64.lt_s -1 0", op: Binary::I64LtS, x: ALL_64, y: 0, result: Ok(1) },
    BinaryRow { name: "i64.lt_u -1 0", op: Binary::I64LtU, x: ALL_64, y: 0, result: Ok(0) },
    BinaryRow { name: "i64.gt_s 0 least", op: Binary::I64GtS, x: 0, y: LEAST_64, result: Ok(1) },
    BinaryRow { name: "i64.gt_u 0 least", op: Binary::I64GtU, x: 0, y: LEAST_64, result: Ok(0) },
    BinaryRow { name: "i64.le_s least least", op: Binary::I64LeS, x: LEAST_64, y: LEAST_64, result: Ok(1) },
    BinaryRow { name: "i64.le_s 0 -1", op: Binary::I64LeS, x: 0, y: ALL_64, result: Ok(0) },
    BinaryRow { name: "i64.le_u 0 -1", op: Binary::I64LeU, x: 0, y: ALL_64, result: Ok(1) },
    BinaryRow { name: "i64.ge_s least 0", op: Binary::I64GeS, x: LEAST_64, y: 0, result: Ok(0) },
    BinaryRow { name: "i64.ge_u least 0", op: Binary::I64GeU, x: LEAST_64, y: 0, result: Ok(1) },
];

// Returns whether a cell can be one of the instruction's operands.
fn is_binary_operand(op: Binary, x: u64) -> bool
    ensures { IsTrue result → IsCellOf (operand_type (binary_op op)) x }
{
    match op {
        Binary::I64Add
        | Binary::I64Sub
        | Binary::I64Mul
        | Binary::I64DivS
        | Binary::I64DivU
        | Binary::I64RemS
        | Binary::I64RemU
        | Binary::I64And
        | Binary::I64Or
        | Binary::I64Xor
        | Binary::I64Shl
        | Binary::I64ShrS
        | Binary::I64ShrU
        | Binary::I64Rotl
        | Binary::I64Rotr
        | Binary::I64Eq
        | Binary::I64Ne
        | Binary::I64LtS
        | Binary::I64LtU
        | Binary::I64GtS
        | Binary::I64GtU
        | Binary::I64LeS
        | Binary::I64LeU
        | Binary::I64GeS
        | Binary::I64GeU => true,
        _ => x < 0x1_0000_0000,
    }
}

fn computes_binary(row: &BinaryRow) -> bool {
    is_binary_operand(row.op, row.x)
        && is_binary_operand(row.op, row.y)
        && compute_binary(row.op, row.x, row.y) == row.result
}

#[test]
fn instructions_on_two_integers(rt: HostRuntime) {
    for row in &BINARY {
        assert!(rt; computes_binary(row), "{}", row.name);
    }
}

#[test]
fn the_low_half(rt: HostRuntime) {
    assert!(rt; low(0xFFFF_FFFE_0000_0005) == 5);
}
