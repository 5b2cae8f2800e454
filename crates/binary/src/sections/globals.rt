//! Globals (Binary Format, Global Section).

use crate::errors::DecodeError;
use crate::expressions::read_expression;
use crate::reader::Reader;
use crate::types::read_global_type;
use crate::values::Readable;
use core_types::Global as ModuleGlobal;
use std::alloc::Global;

// A type, and an expression for the first value.
impl Readable for ModuleGlobal {
    ghost use Rattle.binary.specs.Sections.{global_at};

    ghost reads = { global_at };

    #[tactic(auto, unfolding(crate::specs::Sections::global_at))]
    fn read(alloc: Global, reader: &mut Reader<'_>) -> Result<ModuleGlobal, DecodeError> {
        let ty = read_global_type(reader)?;
        let init = read_expression(alloc, reader)?;
        Ok(ModuleGlobal { ty, init })
    }
}
