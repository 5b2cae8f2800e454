//! The names of unsupported types and instructions (Binary Format, Types and Instructions).

use crate::malformations::Unsupported;

/// Returns that a value type of floating-point numbers or vectors is not supported, by its byte.
pub fn unsupported_type(byte: u8) -> Unsupported {
    match byte {
        0x7D => Unsupported::Feature("f32", "floating point"),
        0x7C => Unsupported::Feature("f64", "floating point"),
        _ => Unsupported::Feature("v128", "vectors"),
    }
}

// Comparisons by opcode, from 5B on.
#[rattlefmt::skip]
static COMPARISONS: [&str; 12] = [
    "f32.eq",
    "f32.ne",
    "f32.lt",
    "f32.gt",
    "f32.le",
    "f32.ge",
    "f64.eq",
    "f64.ne",
    "f64.lt",
    "f64.gt",
    "f64.le",
    "f64.ge",
];

// Operators by opcode, from 8B on.
#[rattlefmt::skip]
static OPERATORS: [&str; 28] = [
    "f32.abs",
    "f32.neg",
    "f32.ceil",
    "f32.floor",
    "f32.trunc",
    "f32.nearest",
    "f32.sqrt",
    "f32.add",
    "f32.sub",
    "f32.mul",
    "f32.div",
    "f32.min",
    "f32.max",
    "f32.copysign",
    "f64.abs",
    "f64.neg",
    "f64.ceil",
    "f64.floor",
    "f64.trunc",
    "f64.nearest",
    "f64.sqrt",
    "f64.add",
    "f64.sub",
    "f64.mul",
    "f64.div",
    "f64.min",
    "f64.max",
    "f64.copysign",
];

// Conversions by opcode, from A8 on. Those of integers are between them.
#[rattlefmt::skip]
static CONVERSIONS: [&str; 24] = [
    "i32.trunc_f32_s",
    "i32.trunc_f32_u",
    "i32.trunc_f64_s",
    "i32.trunc_f64_u",
    "i64.extend_i32_s",
    "i64.extend_i32_u",
    "i64.trunc_f32_s",
    "i64.trunc_f32_u",
    "i64.trunc_f64_s",
    "i64.trunc_f64_u",
    "f32.convert_i32_s",
    "f32.convert_i32_u",
    "f32.convert_i64_s",
    "f32.convert_i64_u",
    "f32.demote_f64",
    "f64.convert_i32_s",
    "f64.convert_i32_u",
    "f64.convert_i64_s",
    "f64.convert_i64_u",
    "f64.promote_f32",
    "i32.reinterpret_f32",
    "i64.reinterpret_f64",
    "f32.reinterpret_i32",
    "f64.reinterpret_i64",
];

// Returns the name of a load, a store or a constant of floating-point numbers.
fn access(opcode: u8) -> Option<&'static str> {
    match opcode {
        0x2A => Some("f32.load"),
        0x2B => Some("f64.load"),
        0x38 => Some("f32.store"),
        0x39 => Some("f64.store"),
        0x43 => Some("f32.const"),
        0x44 => Some("f64.const"),
        _ => None,
    }
}

// Returns the name of an instruction on floating-point numbers, by its opcode.
fn float_name(opcode: u8) -> Option<&'static str> {
    let (names, first): (&[&'static str], u8) = match opcode {
        0x5B..=0x66 => (&COMPARISONS, 0x5B),
        0x8B..=0xA6 => (&OPERATORS, 0x8B),
        0xA8..=0xBF => (&CONVERSIONS, 0xA8),
        _ => return access(opcode),
    };
    names.get(opcode.wrapping_sub(first) as usize).copied()
}

/// Returns that an instruction is not supported, by its opcode.
pub fn unsupported_instruction(opcode: u8) -> Unsupported {
    if let Some(name) = float_name(opcode) {
        return Unsupported::Feature(name, "floating point");
    }
    match opcode {
        0xFD => Unsupported::Feature("opcode 0xfd", "vectors"),
        0xFE => Unsupported::Feature("opcode 0xfe", "threads"),
        _ => Unsupported::Opcode(opcode),
    }
}

/// Returns that an instruction is not supported, by its number after the prefix.
pub fn unsupported_prefixed(number: u32) -> Unsupported {
    let name = match number {
        0 => "i32.trunc_sat_f32_s",
        1 => "i32.trunc_sat_f32_u",
        2 => "i32.trunc_sat_f64_s",
        3 => "i32.trunc_sat_f64_u",
        4 => "i64.trunc_sat_f32_s",
        5 => "i64.trunc_sat_f32_u",
        6 => "i64.trunc_sat_f64_s",
        7 => "i64.trunc_sat_f64_u",
        _ => return Unsupported::Prefixed(number),
    };
    Unsupported::Feature(name, "floating point")
}
