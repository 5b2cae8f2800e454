//! Memory instructions (Binary Format, Memory Instructions).

ghost use Rattle.std.specs.Prelude.{◌≤◌};
ghost use Rattle.binary.specs.Conventions.{Gives};
ghost use Rattle.core_types.specs.reading.Instructions.{load_at, mem_arg_at, memory_at, prefixed_memory_at, store_at};

use crate::errors::DecodeError;
use crate::instructions::rows::op_of;
use crate::reader::Reader;
use crate::values::read_expected;
use core_types::{LoadOp, MemArg, MemoryOp, Sign, StoreOp, Width};

// The loads by opcode, from 28 on.
const LOADS: [Option<LoadOp>; 14] = [
    Some(LoadOp::Whole(Width::W32)),
    Some(LoadOp::Whole(Width::W64)),
    None,
    None,
    Some(LoadOp::Bits8(Width::W32, Sign::Signed)),
    Some(LoadOp::Bits8(Width::W32, Sign::Unsigned)),
    Some(LoadOp::Bits16(Width::W32, Sign::Signed)),
    Some(LoadOp::Bits16(Width::W32, Sign::Unsigned)),
    Some(LoadOp::Bits8(Width::W64, Sign::Signed)),
    Some(LoadOp::Bits8(Width::W64, Sign::Unsigned)),
    Some(LoadOp::Bits16(Width::W64, Sign::Signed)),
    Some(LoadOp::Bits16(Width::W64, Sign::Unsigned)),
    Some(LoadOp::Bits32(Sign::Signed)),
    Some(LoadOp::Bits32(Sign::Unsigned)),
];

// The stores by opcode, from 36 on.
const STORES: [Option<StoreOp>; 9] = [
    Some(StoreOp::Whole(Width::W32)),
    Some(StoreOp::Whole(Width::W64)),
    None,
    None,
    Some(StoreOp::Bits8(Width::W32)),
    Some(StoreOp::Bits16(Width::W32)),
    Some(StoreOp::Bits8(Width::W64)),
    Some(StoreOp::Bits16(Width::W64)),
    Some(StoreOp::Bits32),
];

#[tactic(auto, unfolding(core_types::specs::reading::Instructions::mem_arg_at))]
#[inline(always)]
fn read_mem_arg(reader: &mut Reader<'_>) -> Result<MemArg, DecodeError>
    ensures { Gives result reader.new (mem_arg_at reader.old) }
{
    let align = reader.u32()?;
    let offset = reader.u32()?;
    Ok(MemArg { align, offset })
}

#[tactic(auto, unfolding(core_types::specs::reading::Instructions::load_at))]
#[inline(always)]
fn read_load(reader: &mut Reader<'_>, code: u8, offset: usize) -> Result<MemoryOp, DecodeError>
    requires { 0x28 ≤ code }
    ensures { Gives result reader.new (load_at code reader.old) }
{
    match op_of(&LOADS, 0x28, code) {
        Some(op) => Ok(MemoryOp::Load(op, read_mem_arg(reader)?)),
        None => Err(DecodeError::Unsupported(offset)),
    }
}

#[tactic(auto, unfolding(core_types::specs::reading::Instructions::store_at))]
#[inline(always)]
fn read_store(reader: &mut Reader<'_>, code: u8, offset: usize) -> Result<MemoryOp, DecodeError>
    requires { 0x36 ≤ code }
    ensures { Gives result reader.new (store_at code reader.old) }
{
    match op_of(&STORES, 0x36, code) {
        Some(op) => Ok(MemoryOp::Store(op, read_mem_arg(reader)?)),
        None => Err(DecodeError::Unsupported(offset)),
    }
}

// Reads the rest of a memory instruction, whose opcode, from 28 on, was read at the offset.
#[tactic(auto, unfolding(core_types::specs::reading::Instructions::memory_at))]
#[inline(always)]
pub fn read_memory(
    reader: &mut Reader<'_>,
    code: u8,
    offset: usize,
) -> Result<MemoryOp, DecodeError>
    requires { 0x28 ≤ code }
    ensures { Gives result reader.new (memory_at code reader.old) }
{
    match code {
        0x00..=0x35 => read_load(reader, code, offset),
        0x36..=0x3E => read_store(reader, code, offset),
        0x3F => {
            read_expected(reader, &[0x00])?;
            Ok(MemoryOp::Size)
        }
        0x40 => {
            read_expected(reader, &[0x00])?;
            Ok(MemoryOp::Grow)
        }
        _ => Err(DecodeError::Unsupported(offset)),
    }
}

// Reads the rest of a memory instruction with this number after the byte FC, which was read at the offset.
#[tactic(auto, unfolding(core_types::specs::reading::Instructions::prefixed_memory_at))]
pub fn read_prefixed_memory(
    reader: &mut Reader<'_>,
    number: u32,
    offset: usize,
) -> Result<MemoryOp, DecodeError>
    ensures { Gives result reader.new (prefixed_memory_at number reader.old) }
{
    match number {
        8 => {
            let segment = reader.u32()?;
            read_expected(reader, &[0x00])?;
            Ok(MemoryOp::Init(segment))
        }
        9 => Ok(MemoryOp::DataDrop(reader.u32()?)),
        10 => {
            read_expected(reader, &[0x00, 0x00])?;
            Ok(MemoryOp::Copy)
        }
        11 => {
            read_expected(reader, &[0x00])?;
            Ok(MemoryOp::Fill)
        }
        _ => Err(DecodeError::Unsupported(offset)),
    }
}
