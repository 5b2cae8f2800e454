ghost use Rattle.std.specs.Prelude.{◌≡◌, ◌↔◌, ℕ, IsSome, IsTrue, IfErr, IfOk, Some};
ghost use Rattle.core_types.specs.declared.outcome.Extern.TheVariants.{Func as FuncValue};
ghost use Rattle.meaning.specs.execution.Store.{extern_type as type_of};
ghost use Rattle.store.specs.Contents.{store_of};

use crate::store::Store;
use core_types::{Extern, ExternType};
use std::alloc::{AllocError, Global};

impl Store {
    /// Returns whether an external value is in the store.
    pub fn has_extern(&self, value: Extern) -> bool
        ensures { IsTrue result ↔ IsSome (type_of (store_of self.now) value) }
    {
        match value {
            Extern::Func(address) => self.code().function(address).is_some(),
            Extern::Table(address) => self.state().table(address).is_some(),
            Extern::Memory(address) => self.state().memory(address).is_some(),
            Extern::Global(address) => self.state().global(address).is_some(),
        }
    }

    /// Returns the type of an external value, which must be in the store (Execution, Modules, External Typing). The minimum of a
    /// table or a memory is its present size.
    ///
    /// # Errors
    ///
    /// Fails only for a function, if the allocation of its types fails.
    pub fn extern_type(&self, alloc: Global, value: Extern) -> Result<ExternType, AllocError>
        requires { IsSome (type_of (store_of self.now) value) }
        ensures ty { IfOk result (λ ty. type_of (store_of self.now) value ≡ Some ty) }
        ensures function { IfErr result (λ _. (address : ℕ) × (value ≡ FuncValue address)) }
    {
        match value {
            Extern::Func(address) => match self.code().function(address) {
                Some(callee) => Ok(ExternType::Func(callee.ty().copy(alloc)?)),
                None => unreachable!(),
            },
            Extern::Table(address) => match self.state().table(address) {
                Some(table) => Ok(ExternType::Table(table.ty())),
                None => unreachable!(),
            },
            Extern::Memory(address) => match self.state().memory(address) {
                Some(memory) => Ok(ExternType::Memory(memory.limits())),
                None => unreachable!(),
            },
            Extern::Global(address) => match self.state().global(address) {
                Some(variable) => Ok(ExternType::Global(variable.ty())),
                None => unreachable!(),
            },
        }
    }
}
