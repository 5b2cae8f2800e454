//! Types (Binary Format, Types).

ghost use Rattle.binary.specs.Conventions.{Gives};
ghost use Rattle.core_types.specs.reading.Types.{block_type_at, other_block_type_at, ref_type_at, val_type_at};
ghost use Rattle.binary.specs.Types.{global_type_at, limits_at, mutability_at, table_type_at};

use crate::errors::DecodeError;
use crate::reader::Reader;
use crate::values::{Readable, read_vector};
use core_types::{
    BlockType, FuncType, GlobalType, Limits, Mutability, RefType, TableType, ValType,
};
use std::alloc::Global;

impl Readable for ValType {
    ghost use Rattle.core_types.specs.reading.Types.{val_type_at};

    ghost reads = { val_type_at };

    fn read(_alloc: Global, reader: &mut Reader<'_>) -> Result<ValType, DecodeError> {
        read_val_type(reader)
    }
}

// A function type.
impl Readable for FuncType {
    ghost use Rattle.binary.specs.Types.{func_type_at};

    ghost reads = { func_type_at };

    #[tactic(auto, unfolding(crate::specs::Types::func_type_at))]
    fn read(alloc: Global, reader: &mut Reader<'_>) -> Result<FuncType, DecodeError> {
        let offset = reader.offset();
        if reader.byte()? != 0x60 {
            return Err(DecodeError::Malformed(offset));
        }
        let params = read_vector::<ValType>(alloc, reader)?;
        let results = read_vector::<ValType>(alloc, reader)?;
        Ok(FuncType { params, results })
    }
}

impl Readable for Limits {
    ghost use Rattle.binary.specs.Types.{limits_at};

    ghost reads = { limits_at };

    fn read(_alloc: Global, reader: &mut Reader<'_>) -> Result<Limits, DecodeError> {
        read_limits(reader)
    }
}

impl Readable for TableType {
    ghost use Rattle.binary.specs.Types.{table_type_at};

    ghost reads = { table_type_at };

    fn read(_alloc: Global, reader: &mut Reader<'_>) -> Result<TableType, DecodeError> {
        read_table_type(reader)
    }
}

// Reads a value type: a number type or a reference type.
#[tactic(auto, unfolding(core_types::specs::reading::Types::val_type_at))]
pub fn read_val_type(reader: &mut Reader<'_>) -> Result<ValType, DecodeError>
    ensures { Gives result reader.new (val_type_at reader.old) }
{
    let offset = reader.offset();
    match reader.byte()? {
        0x7F => Ok(ValType::I32),
        0x7E => Ok(ValType::I64),
        0x70 => Ok(ValType::FuncRef),
        0x6F => Ok(ValType::ExternRef),
        0x7B..=0x7D => Err(DecodeError::Unsupported(offset)),
        _ => Err(DecodeError::Malformed(offset)),
    }
}

// Reads a reference type.
#[tactic(auto, unfolding(core_types::specs::reading::Types::ref_type_at))]
pub fn read_ref_type(reader: &mut Reader<'_>) -> Result<RefType, DecodeError>
    ensures { Gives result reader.new (ref_type_at reader.old) }
{
    let offset = reader.offset();
    match reader.byte()? {
        0x70 => Ok(RefType::FuncRef),
        0x6F => Ok(RefType::ExternRef),
        _ => Err(DecodeError::Malformed(offset)),
    }
}

// Reads limits, which are also the type of a memory.
#[tactic(auto, unfolding(crate::specs::Types::limits_at))]
pub fn read_limits(reader: &mut Reader<'_>) -> Result<Limits, DecodeError>
    ensures { Gives result reader.new (limits_at reader.old) }
{
    let offset = reader.offset();
    match reader.byte()? {
        0x00 => {
            let min = reader.u32()?;
            Ok(Limits { min, max: None })
        }
        0x01 => {
            let min = reader.u32()?;
            let max = Some(reader.u32()?);
            Ok(Limits { min, max })
        }
        _ => Err(DecodeError::Malformed(offset)),
    }
}

#[tactic(auto, unfolding(crate::specs::Types::table_type_at))]
pub fn read_table_type(reader: &mut Reader<'_>) -> Result<TableType, DecodeError>
    ensures { Gives result reader.new (table_type_at reader.old) }
{
    let element = read_ref_type(reader)?;
    let limits = read_limits(reader)?;
    Ok(TableType { element, limits })
}

#[tactic(auto, unfolding(crate::specs::Types::mutability_at))]
fn read_mutability(reader: &mut Reader<'_>) -> Result<Mutability, DecodeError>
    ensures { Gives result reader.new (mutability_at reader.old) }
{
    let offset = reader.offset();
    match reader.byte()? {
        0x00 => Ok(Mutability::Const),
        0x01 => Ok(Mutability::Var),
        _ => Err(DecodeError::Malformed(offset)),
    }
}

#[tactic(auto, unfolding(crate::specs::Types::global_type_at))]
pub fn read_global_type(reader: &mut Reader<'_>) -> Result<GlobalType, DecodeError>
    ensures { Gives result reader.new (global_type_at reader.old) }
{
    let value = read_val_type(reader)?;
    let mutability = read_mutability(reader)?;
    Ok(GlobalType { value, mutability })
}

// Reads a block type that is not empty: a value type, or an index, which is a nonnegative signed 33-bit integer.
#[inline(never)]
fn read_other_block_type(reader: &mut Reader<'_>) -> Result<BlockType, DecodeError>
    ensures { Gives result reader.new (other_block_type_at reader.old) }
{
    if reader.begins_negative() {
        return Ok(BlockType::Value(read_val_type(reader)?));
    }
    let offset = reader.offset();
    match u32::try_from(reader.s33()?) {
        Ok(index) => Ok(BlockType::Index(index)),
        Err(_) => Err(DecodeError::Malformed(offset)),
    }
}

// Reads a block type. Most are empty. Only a copy of the reader is in memory.
#[tactic(auto, unfolding(core_types::specs::reading::Types::block_type_at))]
#[inline(always)]
pub fn read_block_type(reader: &mut Reader<'_>) -> Result<BlockType, DecodeError>
    ensures { Gives result reader.new (block_type_at reader.old) }
{
    if reader.accept(0x40) {
        return Ok(BlockType::Empty);
    }
    let mut copy = reader.fork();
    let result = read_other_block_type(&mut copy);
    *reader = copy;
    result
}
