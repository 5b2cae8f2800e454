//! How the bodies of functions are read: to their end, or cut out.

ghost use Rattle.std.specs.Prelude.{Bool, IfOk, List, Option, ℕ, ◌≡◌, ◌||◌};
ghost use Rattle.core_types.specs.declared.op.Op.{Op};
ghost use Rattle.binary.specs.Conventions.{Gives};

use crate::errors::DecodeError;
use crate::expressions::{OpenBody, read_body};
use crate::reader::Reader;
use core_types::{FuncBody, Stack};
use std::alloc::Global;

// A way to read the body of a function.
pub trait ReadBody: Drop {
    // The operations of the body.
    ghost reads: { List ℕ → Option (List Op × List ℕ) };

    // Whether it was noted that code names a data segment.
    ghost noted: { Self → Bool };

    // Whether it is noted of this body.
    ghost notes: { List Op → Bool };

    fn read(&mut self, alloc: Global, reader: &mut Reader<'_>) -> Result<FuncBody, DecodeError>
        ensures reads { Gives result reader.new (reads reader.old) }
        ensures data { IfOk result (λ body. noted self.new ≡ (noted self.old || notes body)) };
}

// Reads each operation up to the end of the body. The stack is room that is reused.
#[derive(Drop)]
pub struct WholeBodies {
    bodies: Stack<OpenBody>,
    pub data_named: bool,
}

impl WholeBodies {
    ghost use Rattle.std.specs.Prelude.{false, ◌≡◌};

    pub fn new(alloc: Global) -> WholeBodies
        ensures { result.data_named ≡ false }
    {
        WholeBodies {
            bodies: Stack::new(alloc),
            data_named: false,
        }
    }
}

impl ReadBody for WholeBodies {
    ghost use Rattle.std.specs.List.{list_any};
    ghost use Rattle.meaning.specs.binary.Modules.{names_data};
    ghost use Rattle.binary.specs.Expressions.{expression_at};

    ghost reads = { expression_at };

    ghost noted = { λ s. s.data_named };

    ghost notes = { list_any names_data };

    fn read(&mut self, alloc: Global, reader: &mut Reader<'_>) -> Result<FuncBody, DecodeError> {
        read_body(alloc, reader, &mut self.bodies, &mut self.data_named)
    }
}

// Takes all bytes but the last, which is an end, and reads none of their operations.
#[derive(Clone, Copy)]
pub struct CutBodies {}

impl ReadBody for CutBodies {
    ghost use Rattle.std.specs.Prelude.{false};
    ghost use Rattle.binary.specs.Sections.{cut_body_at};

    ghost reads = { cut_body_at };

    ghost noted = { λ _. false };

    ghost notes = { λ _. false };

    #[tactic(auto, unfolding(crate::specs::Sections::cut_body_at))]
    fn read(&mut self, alloc: Global, reader: &mut Reader<'_>) -> Result<FuncBody, DecodeError> {
        let bytes = reader.rest();
        if bytes.is_empty() || bytes[bytes.len() - 1] != 0x0B {
            return Err(DecodeError::Malformed(reader.offset()));
        }
        reader.skip_rest();
        let body = &bytes[..bytes.len() - 1];
        Ok(FuncBody::from_bytes(Vec::from_slice(alloc, body)?))
    }
}
