//! The integer operators: their operands and results.

use crate::numeric_rows::{BINARY_32, BINARY_64, COMPARISON_32, COMPARISON_64, UNARY_32, UNARY_64};
use core_types::{BinaryOp, Comparison, Trap, UnaryOp};
use intops::{
    binary_32, binary_64, compare_32, compare_64, eqz_32, eqz_64, extend_low_signed, extend_signed,
    extend_unsigned, unary_32, unary_64, wrap,
};

// A row of a table: an operator's name, its operands, and its result as text.
#[derive(Clone, Copy)]
struct Row<'a> {
    name: &'a str,
    a: &'a str,
    b: &'a str,
    answer: &'a str,
}

fn row_of(line: &str) -> Row<'_> {
    let (call, answer) = line.split_once(" = ").unwrap_or((line, ""));
    let (name, operands) = call.split_once(' ').unwrap_or((call, ""));
    let (a, b) = operands.split_once(' ').unwrap_or((operands, "0"));
    Row { name, a, b, answer }
}

fn unary_named(name: &str) -> Option<UnaryOp> {
    match name {
        "clz" => Some(UnaryOp::Clz),
        "ctz" => Some(UnaryOp::Ctz),
        "popcnt" => Some(UnaryOp::Popcnt),
        "extend8_s" => Some(UnaryOp::Extend8S),
        "extend16_s" => Some(UnaryOp::Extend16S),
        _ => None,
    }
}

fn binary_named(name: &str) -> Option<BinaryOp> {
    match name {
        "add" => Some(BinaryOp::Add),
        "sub" => Some(BinaryOp::Sub),
        "mul" => Some(BinaryOp::Mul),
        "div_s" => Some(BinaryOp::DivS),
        "div_u" => Some(BinaryOp::DivU),
        "rem_s" => Some(BinaryOp::RemS),
        "rem_u" => Some(BinaryOp::RemU),
        "and" => Some(BinaryOp::And),
        "or" => Some(BinaryOp::Or),
        "xor" => Some(BinaryOp::Xor),
        "shl" => Some(BinaryOp::Shl),
        "shr_s" => Some(BinaryOp::ShrS),
        "shr_u" => Some(BinaryOp::ShrU),
        "rotl" => Some(BinaryOp::Rotl),
        "rotr" => Some(BinaryOp::Rotr),
        _ => None,
    }
}

fn comparison_named(name: &str) -> Option<Comparison> {
    match name {
        "eq" => Some(Comparison::Eq),
        "ne" => Some(Comparison::Ne),
        "lt_s" => Some(Comparison::LtS),
        "lt_u" => Some(Comparison::LtU),
        "gt_s" => Some(Comparison::GtS),
        "gt_u" => Some(Comparison::GtU),
        "le_s" => Some(Comparison::LeS),
        "le_u" => Some(Comparison::LeU),
        "ge_s" => Some(Comparison::GeS),
        "ge_u" => Some(Comparison::GeU),
        _ => None,
    }
}

fn trap_named(name: &str) -> Option<Trap> {
    match name {
        "DivideByZero" => Some(Trap::DivideByZero),
        "IntegerOverflow" => Some(Trap::IntegerOverflow),
        _ => None,
    }
}

// Returns the result of a row's operator on its 32-bit operands.
fn result_32(row: Row<'_>) -> Option<Result<u32, Trap>> {
    let a = row.a.parse().ok()?;
    let b = row.b.parse().ok()?;
    if let Some(op) = unary_named(row.name) {
        return Some(Ok(unary_32(op, a)));
    }
    if let Some(op) = comparison_named(row.name) {
        return Some(Ok(compare_32(op, a, b)));
    }
    Some(binary_32(binary_named(row.name)?, a, b))
}

// Returns the result of a row's operator on its 64-bit operands.
fn result_64(row: Row<'_>) -> Option<Result<u64, Trap>> {
    let a = row.a.parse().ok()?;
    let b = row.b.parse().ok()?;
    if let Some(op) = unary_named(row.name) {
        return Some(Ok(unary_64(op, a)));
    }
    if let Some(op) = comparison_named(row.name) {
        return Some(Ok(u64::from(compare_64(op, a, b))));
    }
    Some(binary_64(binary_named(row.name)?, a, b))
}

// Returns whether a result is that of a row: a number, or the name of a trap.
fn is_answer(given: Option<Result<u64, Trap>>, answer: &str) -> bool {
    match given {
        Some(Ok(n)) => answer.parse().ok() == Some(n),
        Some(Err(trap)) => trap_named(answer) == Some(trap),
        None => false,
    }
}

// Returns whether a row of a 32-bit operator holds.
fn agrees_32(line: &str) -> bool {
    let row = row_of(line);
    is_answer(result_32(row).map(|given| given.map(u64::from)), row.answer)
}

// Returns whether a row of a 64-bit operator holds.
fn agrees_64(line: &str) -> bool {
    let row = row_of(line);
    is_answer(result_64(row), row.answer)
}

static ROWS_32: [(&str, usize); 3] = [(BINARY_32, 77), (UNARY_32, 29), (COMPARISON_32, 29)];

static ROWS_64: [(&str, usize); 3] = [(BINARY_64, 58), (UNARY_64, 21), (COMPARISON_64, 22)];

#[test]
fn computes_with_32_bits(rt: HostRuntime) {
    for (rows, count) in &ROWS_32 {
        assert!(rt; rows.lines().count() == *count);
        for line in rows.lines() {
            assert!(rt; agrees_32(line), "{line}");
        }
    }
}

#[test]
fn computes_with_64_bits(rt: HostRuntime) {
    for (rows, count) in &ROWS_64 {
        assert!(rt; rows.lines().count() == *count);
        for line in rows.lines() {
            assert!(rt; agrees_64(line), "{line}");
        }
    }
}

// An operator on one integer that is not among those above.
#[derive(Clone, Copy)]
enum Operator {
    Eqz32,
    Eqz64,
    Wrap,
    ExtendSigned,
    ExtendUnsigned,
    ExtendLowSigned,
}

// An operator, its operand and its result.
#[rattlefmt::skip]
static OTHERS: [(&str, Operator, u64, u64); 18] = [
    ("i32.eqz", Operator::Eqz32, 0, 1),
    ("i32.eqz", Operator::Eqz32, 1, 0),
    ("i32.eqz", Operator::Eqz32, 0x8000_0000, 0),
    ("i64.eqz", Operator::Eqz64, 0, 1),
    ("i64.eqz", Operator::Eqz64, 1, 0),
    ("i64.eqz", Operator::Eqz64, 0x1_0000_0000, 0),
    ("i32.wrap_i64", Operator::Wrap, 4294967301, 5),
    ("i32.wrap_i64", Operator::Wrap, 18446744073709551615, 4294967295),
    ("i32.wrap_i64", Operator::Wrap, 4294967296, 0),
    ("i64.extend_i32_s", Operator::ExtendSigned, 2147483647, 2147483647),
    ("i64.extend_i32_s", Operator::ExtendSigned, 2147483648, 18446744071562067968),
    ("i64.extend_i32_s", Operator::ExtendSigned, 4294967295, 18446744073709551615),
    ("i64.extend_i32_u", Operator::ExtendUnsigned, 0, 0),
    ("i64.extend_i32_u", Operator::ExtendUnsigned, 4294967295, 4294967295),
    ("i64.extend32_s", Operator::ExtendLowSigned, 2147483647, 2147483647),
    ("i64.extend32_s", Operator::ExtendLowSigned, 2147483648, 18446744071562067968),
    ("i64.extend32_s", Operator::ExtendLowSigned, 4294967296, 0),
    ("i64.extend32_s", Operator::ExtendLowSigned, 18446744071562067967, 2147483647),
];

// Returns the result of an operator, if its operand is an integer of its width.
fn apply(operator: Operator, a: u64) -> Option<u64> {
    let short = u32::try_from(a).ok();
    match operator {
        Operator::Eqz32 => Some(u64::from(eqz_32(short?))),
        Operator::Eqz64 => Some(u64::from(eqz_64(a))),
        Operator::Wrap => Some(u64::from(wrap(a))),
        Operator::ExtendSigned => Some(extend_signed(short?)),
        Operator::ExtendUnsigned => Some(extend_unsigned(short?)),
        Operator::ExtendLowSigned => Some(extend_low_signed(a)),
    }
}

#[test]
fn tests_and_converts(rt: HostRuntime) {
    for (name, operator, a, answer) in &OTHERS {
        assert!(rt; apply(*operator, *a) == Some(*answer), "{name} {a}");
    }
}
