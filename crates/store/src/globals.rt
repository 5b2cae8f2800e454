ghost use Rattle.std.specs.Prelude.{◌≡◌};

use core_types::{GlobalType, Val};
use std::marker::Model;

/// A global: its type and its value (Execution, Global Instances).
#[derive(Drop)]
pub struct GlobalVariable {
    ty: GlobalType,
    value: Val,
}

impl Model for GlobalVariable {
    ghost use Rattle.meaning.specs.execution.Store.{GlobalInstance};

    ghost Value = { GlobalInstance };

    ghost view = { λ g. record { ty = g.ty; value = g.value } };
}

impl GlobalVariable {
    /// Creates a global of this type with its first value.
    pub fn new(ty: GlobalType, value: Val) -> GlobalVariable
        ensures { result ≡ record { ty = ty; value = value } }
    {
        GlobalVariable { ty, value }
    }

    /// Returns the type.
    pub fn ty(&self) -> GlobalType
        ensures { result ≡ self.now.ty }
    {
        self.ty
    }

    /// Returns the value.
    pub fn value(&self) -> Val
        ensures { result ≡ self.now.value }
    {
        self.value
    }

    pub(crate) fn set(&mut self, value: Val)
        ensures { self.new ≡ record { ty = self.old.ty; value = value } }
    {
        self.value = value;
    }
}
