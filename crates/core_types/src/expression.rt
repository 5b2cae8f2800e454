ghost use Rattle.std.specs.Prelude.{◌≡◌, ◌<◌, ◌∷◌, [], ◌++◌, Some, length, slice_get, OnOk};
ghost use Rattle.core_types.specs.Expressions.{lent_op};

use crate::appending::append;
use crate::lent_op::LentOp;
use crate::op::Op;
use crate::short_op::lent;
use std::alloc::{AllocError, Global};
use std::marker::Model;

/// A constant expression: its flat operations without the last `End`. Contracts see it as the list of them (Structure,
/// Instructions, Expressions).
#[derive(Drop)]
pub struct Expression {
    operations: Vec<Op>,
}

impl Model for Expression {
    ghost use Rattle.std.specs.Prelude.{List};
    ghost use Rattle.core_types.specs.declared.op.Op.{Op};

    ghost Value = { List Op };

    ghost view = { λ e. e.operations.items };
}

impl Expression {
    /// Creates an expression without operations. Allocates nothing.
    pub fn new(alloc: Global) -> Expression
        ensures { result ≡ [] }
    {
        Expression {
            operations: Vec::new(alloc),
        }
    }

    /// Frees the unused room. Allocates nothing.
    pub fn shrink(&mut self)
        ensures { self.new ≡ self.old }
    {
        self.operations.shrink_to_fit();
    }

    /// Returns the number of operations.
    pub fn len(&self) -> usize
        ensures { result ≡ length self.now }
    {
        self.operations.len()
    }

    /// Returns the operation at an index, borrowed.
    pub fn get(&self, index: usize) -> LentOp<'_>
        requires { index < length self.now }
        ensures { slice_get self.now index ≡ Some (lent_op result) }
    {
        lent(&self.operations[index])
    }

    /// Appends an operation. Fails if an allocation fails.
    pub fn push(&mut self, op: Op) -> Result<(), AllocError>
        ensures { OnOk result (self.new ≡ self.old ++ op ∷ []) }
    {
        append(&mut self.operations, op)
    }
}
