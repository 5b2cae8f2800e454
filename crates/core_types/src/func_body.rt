ghost use Rattle.std.specs.Prelude.{◌≡◌};
ghost use Rattle.core_types.specs.reading.Bodies.{operations_of};

use std::marker::Model;

/// The body of a function, as bytes, without the last `end`. Contracts see it as the list of flat operations that the bytes encode
/// (Structure, Modules, Functions). If they encode none, contracts see an `else` without an `if`, so that no such body is valid.
#[derive(Drop)]
pub struct FuncBody {
    bytes: Vec<u8>,
}

impl Model for FuncBody {
    ghost use Rattle.std.specs.Prelude.{List};
    ghost use Rattle.core_types.specs.declared.op.Op.{Op};
    ghost use Rattle.core_types.specs.reading.Bodies.{operations_of};

    ghost Value = { List Op };

    ghost view = { λ b. operations_of b.bytes.items };
}

impl FuncBody {
    /// Takes over the bytes of a body.
    pub fn from_bytes(bytes: Vec<u8>) -> FuncBody
        ensures { result ≡ operations_of bytes.items }
    {
        FuncBody { bytes }
    }

    /// Returns the bytes.
    pub fn as_bytes(&self) -> &[u8]
        ensures { operations_of result.now ≡ self.now }
    {
        &self.bytes
    }
}
