ghost use Rattle.std.specs.Prelude.{◌≡◌, ℕ, List, IfOk, Err, map};
ghost use Rattle.hostfunc.specs.declared.host_function.HostFault.TheVariants.{Memory as MemoryFault};
ghost use Rattle.core_types.specs.declared.outcome.Val.{Val as Value};
ghost use Rattle.core_types.specs.declared.types.FuncType.{FuncType as Signature};
ghost use Rattle.meaning.specs.execution.Runs.{Answer, HostTrap, Results};
ghost use Rattle.meaning.specs.execution.Values.{type_of};

use core_types::{FuncType, Val};
use std::alloc::{AllocError, AllocFailed};

/// Why a host function gives no results.
#[derive(Clone, Copy)]
pub enum HostFault {
    /// A trap specific to the host function, with a code.
    Trap(u32),
    /// An allocation failed, and nothing has changed.
    Memory,
}

impl From<AllocError> for HostFault {
    ghost from_gives = { λ _ fault. fault ≡ MemoryFault };

    fn from(_error: AllocError) -> HostFault {
        HostFault::Memory
    }
}

impl<T: Drop> From<AllocFailed<T>> for HostFault {
    ghost from_gives = { λ _ fault. fault ≡ MemoryFault };

    fn from(_error: AllocFailed<T>) -> HostFault {
        HostFault::Memory
    }
}

/// A function of the host: an object with its own state (Execution, Instructions, Host Functions).
///
/// It states its type and a relation. The relation is between the object, the arguments and the bytes that it borrows before the
/// call, and its answer, the bytes and the object after the call.
pub trait HostFn: Drop {
    /// The types of its parameters and results.
    ghost declared: { Self → Signature };

    /// Whether a call with this object, these arguments and these bytes can end with this answer, these bytes and this object.
    ghost Answers: { Self → List Value → List ℕ → Answer → List ℕ → Self → Type 0 };

    /// Returns the declared type.
    fn ty(&self) -> &FuncType
        ensures { result.now ≡ declared self.now };

    /// Calls the function. It borrows the bytes of the caller's memory, or no bytes.
    ///
    /// The caller must pass arguments of the declared parameter types. The function must return results of the declared result
    /// types, or a fault, and must not change the declared type. After `Memory` nothing has changed.
    fn call(&mut self, args: &[Val], memory: &mut [u8]) -> Result<Vec<Val>, HostFault>
        requires arguments { map type_of args.now ≡ (declared self.old).params }
        ensures same_type { declared self.new ≡ declared self.old }
        ensures typed { IfOk result (λ values. map type_of values.items ≡
            (declared self.old).results) }
        ensures answered { IfOk result
            (λ values. Answers self.old args.now memory.old (Results values.items) memory.new
            self.new) }
        ensures trapped { (code : ℕ) → result ≡ Err (HostFault.Trap code)
            → Answers self.old args.now memory.old (HostTrap code)
            memory.new self.new }
        ensures unchanged { result ≡ Err HostFault.Memory
            → (self.new ≡ self.old) × (memory.new ≡ memory.old) };
}
