ghost use Rattle.std.specs.Prelude.{◌≡◌, IfOk, OnOk};
ghost use Rattle.core_types.specs.declared.op.NumericOp.TheVariants.{Binary, Compare, Convert, Eqz, Unary};
ghost use Rattle.core_types.specs.declared.op.PlainOp.TheVariants as plain;
ghost use Rattle.core_types.specs.declared.op.MemoryOp.TheVariants.{Load, Store};
ghost use Rattle.core_types.specs.declared.op.Width.TheVariants.{W32, W64};
ghost use Rattle.sidetable.specs.Completion.{Adds, HasAdded};
ghost use Rattle.sidetable.specs.Flat.{Plain, at_offset, without_alignment};
ghost use Rattle.sidetable.specs.Packing.{Packs, PacksAlone, unary_op};
ghost use Rattle.sidetable.specs.SideTables.{SideTables as AnyTables};

use crate::operations::{
    BinaryInstruction, LoadInstruction, OtherInstruction, PackedOp, StoreInstruction,
    TransferInstruction, UnaryInstruction,
};
use crate::side_tables::SideTables;
use core_types::{
    BinaryOp, Comparison, Conversion, LoadOp, MemoryOp, NumericOp, ParametricOp, RefType,
    ReferenceOp, Sign, StoreOp, TableOp, UnaryOp, VariableOp, Width,
};
use std::alloc::AllocError;

// Returns an operator on two 32-bit integers.
#[inline(always)]
fn i32_binary(op: BinaryOp) -> PackedOp
    ensures { PacksAlone result (plain.Numeric (Binary W32 op)) }
{
    match op {
        BinaryOp::Add => PackedOp::I32Add,
        BinaryOp::Sub => PackedOp::Binary(BinaryInstruction::I32Sub),
        BinaryOp::Mul => PackedOp::Binary(BinaryInstruction::I32Mul),
        BinaryOp::DivS => PackedOp::Binary(BinaryInstruction::I32DivS),
        BinaryOp::DivU => PackedOp::Binary(BinaryInstruction::I32DivU),
        BinaryOp::RemS => PackedOp::Binary(BinaryInstruction::I32RemS),
        BinaryOp::RemU => PackedOp::Binary(BinaryInstruction::I32RemU),
        BinaryOp::And => PackedOp::Binary(BinaryInstruction::I32And),
        BinaryOp::Or => PackedOp::Binary(BinaryInstruction::I32Or),
        BinaryOp::Xor => PackedOp::Binary(BinaryInstruction::I32Xor),
        BinaryOp::Shl => PackedOp::Binary(BinaryInstruction::I32Shl),
        BinaryOp::ShrS => PackedOp::Binary(BinaryInstruction::I32ShrS),
        BinaryOp::ShrU => PackedOp::Binary(BinaryInstruction::I32ShrU),
        BinaryOp::Rotl => PackedOp::Binary(BinaryInstruction::I32Rotl),
        BinaryOp::Rotr => PackedOp::Binary(BinaryInstruction::I32Rotr),
    }
}

// Returns an operator on two 64-bit integers.
#[inline(always)]
fn i64_binary(op: BinaryOp) -> PackedOp
    ensures { PacksAlone result (plain.Numeric (Binary W64 op)) }
{
    match op {
        BinaryOp::Add => PackedOp::Binary(BinaryInstruction::I64Add),
        BinaryOp::Sub => PackedOp::Binary(BinaryInstruction::I64Sub),
        BinaryOp::Mul => PackedOp::Binary(BinaryInstruction::I64Mul),
        BinaryOp::DivS => PackedOp::Binary(BinaryInstruction::I64DivS),
        BinaryOp::DivU => PackedOp::Binary(BinaryInstruction::I64DivU),
        BinaryOp::RemS => PackedOp::Binary(BinaryInstruction::I64RemS),
        BinaryOp::RemU => PackedOp::Binary(BinaryInstruction::I64RemU),
        BinaryOp::And => PackedOp::Binary(BinaryInstruction::I64And),
        BinaryOp::Or => PackedOp::Binary(BinaryInstruction::I64Or),
        BinaryOp::Xor => PackedOp::Binary(BinaryInstruction::I64Xor),
        BinaryOp::Shl => PackedOp::Binary(BinaryInstruction::I64Shl),
        BinaryOp::ShrS => PackedOp::Binary(BinaryInstruction::I64ShrS),
        BinaryOp::ShrU => PackedOp::Binary(BinaryInstruction::I64ShrU),
        BinaryOp::Rotl => PackedOp::Binary(BinaryInstruction::I64Rotl),
        BinaryOp::Rotr => PackedOp::Binary(BinaryInstruction::I64Rotr),
    }
}

// Returns a comparison of two 32-bit integers.
#[inline(always)]
fn i32_comparison(op: Comparison) -> PackedOp
    ensures { PacksAlone result (plain.Numeric (Compare W32 op)) }
{
    match op {
        Comparison::Eq => PackedOp::Binary(BinaryInstruction::I32Eq),
        Comparison::Ne => PackedOp::Binary(BinaryInstruction::I32Ne),
        Comparison::LtS => PackedOp::Binary(BinaryInstruction::I32LtS),
        Comparison::LtU => PackedOp::Binary(BinaryInstruction::I32LtU),
        Comparison::GtS => PackedOp::Binary(BinaryInstruction::I32GtS),
        Comparison::GtU => PackedOp::Binary(BinaryInstruction::I32GtU),
        Comparison::LeS => PackedOp::Binary(BinaryInstruction::I32LeS),
        Comparison::LeU => PackedOp::Binary(BinaryInstruction::I32LeU),
        Comparison::GeS => PackedOp::Binary(BinaryInstruction::I32GeS),
        Comparison::GeU => PackedOp::Binary(BinaryInstruction::I32GeU),
    }
}

// Returns a comparison of two 64-bit integers.
#[inline(always)]
fn i64_comparison(op: Comparison) -> PackedOp
    ensures { PacksAlone result (plain.Numeric (Compare W64 op)) }
{
    match op {
        Comparison::Eq => PackedOp::Binary(BinaryInstruction::I64Eq),
        Comparison::Ne => PackedOp::Binary(BinaryInstruction::I64Ne),
        Comparison::LtS => PackedOp::Binary(BinaryInstruction::I64LtS),
        Comparison::LtU => PackedOp::Binary(BinaryInstruction::I64LtU),
        Comparison::GtS => PackedOp::Binary(BinaryInstruction::I64GtS),
        Comparison::GtU => PackedOp::Binary(BinaryInstruction::I64GtU),
        Comparison::LeS => PackedOp::Binary(BinaryInstruction::I64LeS),
        Comparison::LeU => PackedOp::Binary(BinaryInstruction::I64LeU),
        Comparison::GeS => PackedOp::Binary(BinaryInstruction::I64GeS),
        Comparison::GeU => PackedOp::Binary(BinaryInstruction::I64GeU),
    }
}

// Returns an operator on a 32-bit integer.
#[inline(always)]
fn i32_unary(op: UnaryOp) -> UnaryInstruction
    ensures { unary_op result ≡ (Unary W32 op) }
{
    match op {
        UnaryOp::Clz => UnaryInstruction::I32Clz,
        UnaryOp::Ctz => UnaryInstruction::I32Ctz,
        UnaryOp::Popcnt => UnaryInstruction::I32Popcnt,
        UnaryOp::Extend8S => UnaryInstruction::I32Extend8S,
        UnaryOp::Extend16S => UnaryInstruction::I32Extend16S,
    }
}

// Returns an operator on a 64-bit integer.
#[inline(always)]
fn i64_unary(op: UnaryOp) -> UnaryInstruction
    ensures { unary_op result ≡ (Unary W64 op) }
{
    match op {
        UnaryOp::Clz => UnaryInstruction::I64Clz,
        UnaryOp::Ctz => UnaryInstruction::I64Ctz,
        UnaryOp::Popcnt => UnaryInstruction::I64Popcnt,
        UnaryOp::Extend8S => UnaryInstruction::I64Extend8S,
        UnaryOp::Extend16S => UnaryInstruction::I64Extend16S,
    }
}

// Returns an operator on an integer that exists for one width only.
#[inline(always)]
fn conversion(op: Conversion) -> UnaryInstruction
    ensures { unary_op result ≡ (Convert op) }
{
    match op {
        Conversion::I32WrapI64 => UnaryInstruction::I32WrapI64,
        Conversion::I64ExtendI32S => UnaryInstruction::I64ExtendI32S,
        Conversion::I64ExtendI32U => UnaryInstruction::I64ExtendI32U,
        Conversion::I64Extend32S => UnaryInstruction::I64Extend32S,
    }
}

// Returns a test on an integer.
#[inline(always)]
fn eqz(width: Width) -> UnaryInstruction
    ensures { unary_op result ≡ (Eqz width) }
{
    match width {
        Width::W32 => UnaryInstruction::I32Eqz,
        Width::W64 => UnaryInstruction::I64Eqz,
    }
}

#[inline(always)]
fn compare(width: Width, op: Comparison) -> PackedOp
    ensures { PacksAlone result (plain.Numeric (Compare width op)) }
{
    match width {
        Width::W32 => i32_comparison(op),
        Width::W64 => i64_comparison(op),
    }
}

// Returns an operator on one integer.
#[inline(always)]
fn unary(width: Width, op: UnaryOp) -> UnaryInstruction
    ensures { unary_op result ≡ (Unary width op) }
{
    match width {
        Width::W32 => i32_unary(op),
        Width::W64 => i64_unary(op),
    }
}

// Returns an operator on two integers.
#[inline(always)]
fn binary(width: Width, op: BinaryOp) -> PackedOp
    ensures { PacksAlone result (plain.Numeric (Binary width op)) }
{
    match width {
        Width::W32 => i32_binary(op),
        Width::W64 => i64_binary(op),
    }
}

// Returns an instruction on one integer.
#[inline(always)]
fn on_one(instruction: UnaryInstruction) -> PackedOp
    ensures { PacksAlone result (plain.Numeric (unary_op instruction)) }
{
    PackedOp::Other(OtherInstruction::Unary(instruction), 0)
}

/// Packs a numeric instruction.
#[inline(always)]
pub fn numeric(op: NumericOp) -> PackedOp
    ensures { PacksAlone result (plain.Numeric op) }
{
    match op {
        NumericOp::Eqz(width) => on_one(eqz(width)),
        NumericOp::Compare(width, op) => compare(width, op),
        NumericOp::Unary(width, op) => on_one(unary(width, op)),
        NumericOp::Binary(width, op) => binary(width, op),
        NumericOp::Convert(op) => on_one(conversion(op)),
    }
}

// Returns a load from an offset.
#[inline(always)]
pub fn load(op: LoadOp, offset: u32) -> PackedOp
    ensures { PacksAlone result (plain.Memory (Load op (at_offset offset))) }
{
    match op {
        LoadOp::Whole(Width::W32) => PackedOp::I32Load(offset),
        LoadOp::Whole(Width::W64) => PackedOp::Load(LoadInstruction::I64Load, offset),
        LoadOp::Bits8(Width::W32, Sign::Unsigned) => PackedOp::Load(
            LoadInstruction::I32Load8U,
            offset,
        ),
        LoadOp::Bits8(Width::W32, Sign::Signed) => PackedOp::Load(
            LoadInstruction::I32Load8S,
            offset,
        ),
        LoadOp::Bits8(Width::W64, Sign::Signed) => PackedOp::Load(
            LoadInstruction::I64Load8S,
            offset,
        ),
        LoadOp::Bits8(Width::W64, Sign::Unsigned) => PackedOp::Load(
            LoadInstruction::I64Load8U,
            offset,
        ),
        LoadOp::Bits16(Width::W32, Sign::Signed) => PackedOp::Load(
            LoadInstruction::I32Load16S,
            offset,
        ),
        LoadOp::Bits16(Width::W32, Sign::Unsigned) => PackedOp::Load(
            LoadInstruction::I32Load16U,
            offset,
        ),
        LoadOp::Bits16(Width::W64, Sign::Signed) => PackedOp::Load(
            LoadInstruction::I64Load16S,
            offset,
        ),
        LoadOp::Bits16(Width::W64, Sign::Unsigned) => PackedOp::Load(
            LoadInstruction::I64Load16U,
            offset,
        ),
        LoadOp::Bits32(Sign::Signed) => PackedOp::Load(LoadInstruction::I64Load32S, offset),
        LoadOp::Bits32(Sign::Unsigned) => PackedOp::Load(LoadInstruction::I64Load32U, offset),
    }
}

// Returns a store at an offset.
#[inline(always)]
pub fn store(op: StoreOp, offset: u32) -> PackedOp
    ensures { PacksAlone result (plain.Memory (Store op (at_offset offset))) }
{
    match op {
        StoreOp::Whole(Width::W32) => PackedOp::Store(StoreInstruction::I32Store, offset),
        StoreOp::Whole(Width::W64) => PackedOp::Store(StoreInstruction::I64Store, offset),
        StoreOp::Bits8(Width::W32) => PackedOp::Store(StoreInstruction::I32Store8, offset),
        StoreOp::Bits8(Width::W64) => PackedOp::Store(StoreInstruction::I64Store8, offset),
        StoreOp::Bits16(Width::W32) => PackedOp::Store(StoreInstruction::I32Store16, offset),
        StoreOp::Bits16(Width::W64) => PackedOp::Store(StoreInstruction::I64Store16, offset),
        StoreOp::Bits32 => PackedOp::Store(StoreInstruction::I64Store32, offset),
    }
}

/// Packs an instruction on the memory or a data segment, without its alignment.
#[inline(always)]
pub fn memory(op: MemoryOp) -> PackedOp
    ensures { PacksAlone result (plain.Memory (without_alignment op)) }
{
    match op {
        MemoryOp::Load(op, argument) => load(op, argument.offset),
        MemoryOp::Store(op, argument) => store(op, argument.offset),
        MemoryOp::Size => PackedOp::Other(OtherInstruction::MemorySize, 0),
        MemoryOp::Grow => PackedOp::Other(OtherInstruction::MemoryGrow, 0),
        MemoryOp::Fill => PackedOp::Other(OtherInstruction::MemoryFill, 0),
        MemoryOp::Copy => PackedOp::Other(OtherInstruction::MemoryCopy, 0),
        MemoryOp::Init(segment) => PackedOp::Other(OtherInstruction::MemoryInit, segment),
        MemoryOp::DataDrop(segment) => PackedOp::Other(OtherInstruction::DataDrop, segment),
    }
}

/// Packs an instruction on references.
pub fn reference(op: ReferenceOp) -> PackedOp
    ensures { PacksAlone result (plain.Reference op) }
{
    match op {
        ReferenceOp::Null(RefType::FuncRef) => PackedOp::Other(OtherInstruction::RefNullFunc, 0),
        ReferenceOp::Null(RefType::ExternRef) => PackedOp::Other(
            OtherInstruction::RefNullExtern,
            0,
        ),
        ReferenceOp::IsNull => PackedOp::Other(OtherInstruction::RefIsNull, 0),
        ReferenceOp::Func(function) => PackedOp::Other(OtherInstruction::RefFunc, function),
    }
}

/// Packs an instruction on operands of any type.
pub fn parametric(op: ParametricOp) -> PackedOp
    ensures { PacksAlone result (plain.Parametric op) }
{
    match op {
        ParametricOp::DropOperand => PackedOp::Other(OtherInstruction::DropOperand, 0),
        ParametricOp::Select => PackedOp::Other(OtherInstruction::Select, 0),
    }
}

/// Packs an instruction on a local or a global.
#[inline(always)]
pub fn variable(op: VariableOp) -> PackedOp
    ensures { PacksAlone result (plain.Variable op) }
{
    match op {
        VariableOp::LocalGet(local) => PackedOp::LocalGet(local),
        VariableOp::LocalSet(local) => PackedOp::LocalSet(local),
        VariableOp::LocalTee(local) => PackedOp::LocalTee(local),
        VariableOp::GlobalGet(global) => PackedOp::Other(OtherInstruction::GlobalGet, global),
        VariableOp::GlobalSet(global) => PackedOp::Other(OtherInstruction::GlobalSet, global),
    }
}

/// Packs an instruction on a table or an element segment. Fails where there is no memory for a pair of indices.
#[tactic(auto, using(crate::proofs::Adding::adds_nothing))]
pub fn table(tables: &mut SideTables, op: TableOp) -> Result<PackedOp, AllocError>
    ensures adds { OnOk result (Adds tables.old tables.new) }
    ensures packs { IfOk result (λ p. (final : AnyTables) → HasAdded tables.old tables.new final
        → Packs final p (Plain (plain.Table op))) }
{
    let packed = match op {
        TableOp::Get(table) => PackedOp::Other(OtherInstruction::TableGet, table),
        TableOp::Set(table) => PackedOp::Other(OtherInstruction::TableSet, table),
        TableOp::Size(table) => PackedOp::Other(OtherInstruction::TableSize, table),
        TableOp::Grow(table) => PackedOp::Other(OtherInstruction::TableGrow, table),
        TableOp::Fill(table) => PackedOp::Other(OtherInstruction::TableFill, table),
        TableOp::Copy { target, source } => {
            PackedOp::Other(
                OtherInstruction::TableCopy,
                tables.push_pair(target, source)?,
            )
        }
        TableOp::Init { segment, table } => {
            PackedOp::Other(
                OtherInstruction::TableInit,
                tables.push_pair(segment, table)?,
            )
        }
        TableOp::ElemDrop(segment) => PackedOp::Other(OtherInstruction::ElemDrop, segment),
    };
    Ok(packed)
}
