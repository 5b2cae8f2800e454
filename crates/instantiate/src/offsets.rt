ghost use Rattle.std.specs.Prelude.{◌≡◌, ◌≤◌, IfOk};
ghost use Rattle.instantiate.specs.Offsets.{HasRoomForOffsets, HaveRoom, data_mode_offset, data_offset, element_mode_offset, element_offset};

use crate::constants::ConstantOperands;
use core_types::{DataMode, DataSegment, ElementMode, ElementSegment, Module};
use std::alloc::{AllocError, Global};

// Returns the number of instructions of the offset of an element segment, or 0 if it has no offset.
fn element_offset_length(mode: &ElementMode) -> usize
    ensures { result ≡ element_mode_offset mode.now }
{
    match mode {
        ElementMode::Passive | ElementMode::Declarative => 0,
        ElementMode::Active { offset, .. } => offset.len(),
    }
}

// Returns the number of instructions of the offset of a data segment, or 0 if it has no offset.
fn data_offset_length(mode: &DataMode) -> usize
    ensures { result ≡ data_mode_offset mode.now }
{
    match mode {
        DataMode::Passive => 0,
        DataMode::Active { offset, .. } => offset.len(),
    }
}

// Returns the length of the longest offset of element segments.
fn longest_element_offset(elements: &[ElementSegment]) -> usize
    ensures { HaveRoom element_offset result elements.now }
{
    let mut longest = 0;
    for k in 0..elements.len() {
        let length = element_offset_length(&elements[k].mode);
        if length > longest {
            longest = length;
        }
    }
    longest
}

// Returns the length of the longest offset of data segments.
fn longest_data_offset(datas: &[DataSegment]) -> usize
    ensures { HaveRoom data_offset result datas.now }
{
    let mut longest = 0;
    for k in 0..datas.len() {
        let length = data_offset_length(&datas[k].mode);
        if length > longest {
            longest = length;
        }
    }
    longest
}

/// Creates operands with room for each offset of a module. Fails if an allocation fails.
pub fn reserve_operands(alloc: Global, wanted: &Module) -> Result<ConstantOperands, AllocError>
    ensures { IfOk result (λ room. HasRoomForOffsets room wanted.now) }
{
    let mut operands = ConstantOperands::new(alloc);
    operands.reserve(longest_element_offset(wanted.elements.as_slice()))?;
    operands.reserve(longest_data_offset(wanted.datas.as_slice()))?;
    Ok(operands)
}
