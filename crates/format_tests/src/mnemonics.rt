//! Instructions in the standard's text format, flat, with all indices as numbers.

use core_types::{
    BinaryOp, BlockType, BranchTable, Comparison, ControlOp, Conversion, LentOp, LoadOp, Mark,
    MemArg, MemoryOp, NumericOp, Op, OpWith, ParametricOp, PlainOp, RefType, ReferenceOp, Sign,
    StoreOp, TableOp, UnaryOp, ValType, VariableOp, Width, mark_of, plain_op,
};
use std::alloc::AllocError;

/// The result of printing, which fails if memory runs out.
pub type Printed = Result<(), AllocError>;

fn integer_name(width: Width) -> &'static str {
    match width {
        Width::W32 => "i32",
        Width::W64 => "i64",
    }
}

fn load8_name(sign: Sign) -> &'static str {
    match sign {
        Sign::Signed => ".load8_s",
        Sign::Unsigned => ".load8_u",
    }
}

fn load16_name(sign: Sign) -> &'static str {
    match sign {
        Sign::Signed => ".load16_s",
        Sign::Unsigned => ".load16_u",
    }
}

fn load32_name(sign: Sign) -> &'static str {
    match sign {
        Sign::Signed => ".load32_s",
        Sign::Unsigned => ".load32_u",
    }
}

/// Returns the name of a value type.
pub fn type_name(ty: ValType) -> &'static str {
    match ty {
        ValType::I32 => "i32",
        ValType::I64 => "i64",
        ValType::FuncRef => "funcref",
        ValType::ExternRef => "externref",
    }
}

/// Prints a list of types under a keyword.
pub fn print_types(out: &mut String, keyword: &str, types: &[ValType]) -> Printed {
    out.push_str(keyword)?;
    for ty in types {
        out.push_str(" ")?;
        out.push_str(type_name(*ty))?;
    }
    out.push_str(")")
}

/// Returns the name of a reference type, after a blank.
pub fn reference_name(ty: RefType) -> &'static str {
    match ty {
        RefType::FuncRef => " funcref",
        RefType::ExternRef => " externref",
    }
}

fn null_name(ty: RefType) -> &'static str {
    match ty {
        RefType::FuncRef => "ref.null func",
        RefType::ExternRef => "ref.null extern",
    }
}

fn unary_name(op: UnaryOp) -> &'static str {
    match op {
        UnaryOp::Clz => ".clz",
        UnaryOp::Ctz => ".ctz",
        UnaryOp::Popcnt => ".popcnt",
        UnaryOp::Extend8S => ".extend8_s",
        UnaryOp::Extend16S => ".extend16_s",
    }
}

fn binary_name(op: BinaryOp) -> &'static str {
    match op {
        BinaryOp::Add => ".add",
        BinaryOp::Sub => ".sub",
        BinaryOp::Mul => ".mul",
        BinaryOp::DivS => ".div_s",
        BinaryOp::DivU => ".div_u",
        BinaryOp::RemS => ".rem_s",
        BinaryOp::RemU => ".rem_u",
        BinaryOp::And => ".and",
        BinaryOp::Or => ".or",
        BinaryOp::Xor => ".xor",
        BinaryOp::Shl => ".shl",
        BinaryOp::ShrS => ".shr_s",
        BinaryOp::ShrU => ".shr_u",
        BinaryOp::Rotl => ".rotl",
        BinaryOp::Rotr => ".rotr",
    }
}

fn comparison_name(op: Comparison) -> &'static str {
    match op {
        Comparison::Eq => ".eq",
        Comparison::Ne => ".ne",
        Comparison::LtS => ".lt_s",
        Comparison::LtU => ".lt_u",
        Comparison::GtS => ".gt_s",
        Comparison::GtU => ".gt_u",
        Comparison::LeS => ".le_s",
        Comparison::LeU => ".le_u",
        Comparison::GeS => ".ge_s",
        Comparison::GeU => ".ge_u",
    }
}

fn conversion_name(op: Conversion) -> &'static str {
    match op {
        Conversion::I32WrapI64 => "i32.wrap_i64",
        Conversion::I64ExtendI32S => "i64.extend_i32_s",
        Conversion::I64ExtendI32U => "i64.extend_i32_u",
        Conversion::I64Extend32S => "i64.extend32_s",
    }
}

/// Prints a word followed by an index.
pub fn print_indexed(out: &mut String, word: &str, index: u32) -> Printed {
    write!(out, "{word} {index}")
}

// Prints a word followed by two indices.
fn print_pair(out: &mut String, word: &str, first: u32, second: u32) -> Printed {
    print_indexed(out, word, first)?;
    print_indexed(out, "", second)
}

// Prints an operator of an integer type.
fn print_operator(out: &mut String, width: Width, operator: &str) -> Printed {
    out.push_str(integer_name(width))?;
    out.push_str(operator)
}

fn print_numeric(out: &mut String, op: NumericOp) -> Printed {
    match op {
        NumericOp::Eqz(width) => print_operator(out, width, ".eqz"),
        NumericOp::Compare(width, op) => print_operator(out, width, comparison_name(op)),
        NumericOp::Unary(width, op) => print_operator(out, width, unary_name(op)),
        NumericOp::Binary(width, op) => print_operator(out, width, binary_name(op)),
        NumericOp::Convert(op) => out.push_str(conversion_name(op)),
    }
}

fn print_argument(out: &mut String, argument: MemArg) -> Printed {
    let alignment = 1u64 << (argument.align % 64);
    write!(out, " offset={} align={alignment}", argument.offset)
}

fn print_load(out: &mut String, op: LoadOp) -> Printed {
    match op {
        LoadOp::Whole(width) => print_operator(out, width, ".load"),
        LoadOp::Bits8(width, sign) => print_operator(out, width, load8_name(sign)),
        LoadOp::Bits16(width, sign) => print_operator(out, width, load16_name(sign)),
        LoadOp::Bits32(sign) => print_operator(out, Width::W64, load32_name(sign)),
    }
}

fn print_store(out: &mut String, op: StoreOp) -> Printed {
    match op {
        StoreOp::Whole(width) => print_operator(out, width, ".store"),
        StoreOp::Bits8(width) => print_operator(out, width, ".store8"),
        StoreOp::Bits16(width) => print_operator(out, width, ".store16"),
        StoreOp::Bits32 => print_operator(out, Width::W64, ".store32"),
    }
}

fn print_memory(out: &mut String, op: MemoryOp) -> Printed {
    match op {
        MemoryOp::Load(op, argument) => {
            print_load(out, op)?;
            print_argument(out, argument)
        }
        MemoryOp::Store(op, argument) => {
            print_store(out, op)?;
            print_argument(out, argument)
        }
        MemoryOp::Size => out.push_str("memory.size"),
        MemoryOp::Grow => out.push_str("memory.grow"),
        MemoryOp::Fill => out.push_str("memory.fill"),
        MemoryOp::Copy => out.push_str("memory.copy"),
        MemoryOp::Init(segment) => print_indexed(out, "memory.init", segment),
        MemoryOp::DataDrop(segment) => print_indexed(out, "data.drop", segment),
    }
}

fn print_table(out: &mut String, op: TableOp) -> Printed {
    match op {
        TableOp::Get(table) => print_indexed(out, "table.get", table),
        TableOp::Set(table) => print_indexed(out, "table.set", table),
        TableOp::Size(table) => print_indexed(out, "table.size", table),
        TableOp::Grow(table) => print_indexed(out, "table.grow", table),
        TableOp::Fill(table) => print_indexed(out, "table.fill", table),
        TableOp::Copy { target, source } => print_pair(out, "table.copy", target, source),
        TableOp::Init { segment, table } => print_pair(out, "table.init", table, segment),
        TableOp::ElemDrop(segment) => print_indexed(out, "elem.drop", segment),
    }
}

fn print_variable(out: &mut String, op: VariableOp) -> Printed {
    match op {
        VariableOp::LocalGet(x) => print_indexed(out, "local.get", x),
        VariableOp::LocalSet(x) => print_indexed(out, "local.set", x),
        VariableOp::LocalTee(x) => print_indexed(out, "local.tee", x),
        VariableOp::GlobalGet(x) => print_indexed(out, "global.get", x),
        VariableOp::GlobalSet(x) => print_indexed(out, "global.set", x),
    }
}

fn print_reference(out: &mut String, op: ReferenceOp) -> Printed {
    match op {
        ReferenceOp::Null(ty) => out.push_str(null_name(ty)),
        ReferenceOp::IsNull => out.push_str("ref.is_null"),
        ReferenceOp::Func(x) => print_indexed(out, "ref.func", x),
    }
}

fn print_control(out: &mut String, op: ControlOp) -> Printed {
    match op {
        ControlOp::Unreachable => out.push_str("unreachable"),
        ControlOp::Nop => out.push_str("nop"),
        ControlOp::Br(label) => print_indexed(out, "br", label),
        ControlOp::BrIf(label) => print_indexed(out, "br_if", label),
        ControlOp::Return => out.push_str("return"),
        ControlOp::Call(x) => print_indexed(out, "call", x),
        ControlOp::CallIndirect { ty, table } => write!(out, "call_indirect {table} (type {ty})"),
        ControlOp::ReturnCall(x) => print_indexed(out, "return_call", x),
        ControlOp::ReturnCallIndirect { ty, table } => {
            write!(out, "return_call_indirect {table} (type {ty})")
        }
    }
}

fn print_branch_table(out: &mut String, table: &BranchTable) -> Printed {
    out.push_str("br_table")?;
    for label in table.labels.as_slice() {
        print_indexed(out, "", *label)?;
    }
    print_indexed(out, "", table.default)
}

fn print_parametric(out: &mut String, op: ParametricOp) -> Printed {
    match op {
        ParametricOp::DropOperand => out.push_str("drop"),
        ParametricOp::Select => out.push_str("select"),
    }
}

fn print_block_type(out: &mut String, ty: BlockType) -> Printed {
    match ty {
        BlockType::Empty => Ok(()),
        BlockType::Value(ty) => print_types(out, " (result", &[ty]),
        BlockType::Index(x) => write!(out, " (type {x})"),
    }
}

fn print_block(out: &mut String, word: &str, ty: BlockType) -> Printed {
    out.push_str(word)?;
    print_block_type(out, ty)
}

fn print_plain(out: &mut String, op: &PlainOp) -> Printed {
    match op {
        PlainOp::Control(op) => print_control(out, *op),
        PlainOp::BrTable(table) => print_branch_table(out, table.get()),
        PlainOp::Reference(op) => print_reference(out, *op),
        PlainOp::Parametric(op) => print_parametric(out, *op),
        PlainOp::SelectTyped(types) => print_types(out, "select (result", types.get().as_slice()),
        PlainOp::Variable(op) => print_variable(out, *op),
        PlainOp::Table(op) => print_table(out, *op),
        PlainOp::Memory(op) => print_memory(out, *op),
        PlainOp::Numeric(op) => print_numeric(out, *op),
        PlainOp::I32Const(n) => write!(out, "i32.const {n}"),
        PlainOp::I64Const(n) => write!(out, "i64.const {n}"),
    }
}

fn print_mark(out: &mut String, mark: Mark) -> Printed {
    match mark {
        Mark::Block(ty) => print_block(out, "block", ty),
        Mark::Loop(ty) => print_block(out, "loop", ty),
        Mark::If(ty) => print_block(out, "if", ty),
        Mark::Else => out.push_str("else"),
        Mark::End => out.push_str("end"),
    }
}

// Prints an instruction that has a list, or else a question mark.
fn print_list(out: &mut String, op: LentOp<'_>) -> Printed {
    match op {
        OpWith::Other(Op::Plain(op)) => print_plain(out, op),
        _ => out.push_str("?"),
    }
}

/// Prints a flat operation.
pub fn print_operation(out: &mut String, op: LentOp<'_>) -> Printed {
    if let Some(mark) = mark_of(op) {
        return print_mark(out, mark);
    }
    match plain_op(op) {
        Some(op) => print_plain(out, &op),
        None => print_list(out, op),
    }
}
