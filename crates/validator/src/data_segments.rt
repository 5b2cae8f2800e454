ghost use Rattle.std.specs.Prelude.{All, IsTrue, ◌<◌, ◌↔◌};
ghost use Rattle.core_types.specs.declared.module.DataSegment.{DataSegment as Data};
ghost use Rattle.validator.specs.ModuleParts.{IsDataModeIn};

use crate::constants::{ConstantContext, is_constant};
use core_types::{DataMode, DataSegment, ValType};
use index_spaces::IndexSpaces;

// Returns whether a data segment is passive, or is for a memory that exists, at a constant offset (Validation, Data Segments).
#[tactic(auto, unfolding(crate::specs::ModuleParts::IsDataModeIn))]
fn is_valid_data_mode(spaces: &IndexSpaces, context: &ConstantContext<'_>, mode: &DataMode) -> bool
    ensures { IsTrue result ↔ IsDataModeIn spaces.now context.now mode.now }
{
    match mode {
        DataMode::Passive => true,
        DataMode::Active { memory, offset } => {
            (*memory as usize) < spaces.memories.len() && is_constant(context, offset, ValType::I32)
        }
    }
}

pub fn are_valid_datas(
    spaces: &IndexSpaces,
    context: &ConstantContext<'_>,
    datas: &[DataSegment],
) -> bool
    ensures { IsTrue result ↔ All (λ (d : Data). IsDataModeIn spaces.now context.now d.mode)
        datas.now }
{
    datas.iter().all(|segment| is_valid_data_mode(spaces, context, &segment.mode))
}
