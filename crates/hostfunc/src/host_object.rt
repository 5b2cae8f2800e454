ghost use Rattle.std.specs.Prelude.{◌≡◌, IfOk, Err, map};
ghost use Rattle.meaning.specs.execution.Storage.{AreBytes};
ghost use Rattle.meaning.specs.execution.Values.{FitsWidth, type_of};
ghost use Rattle.std.specs.List.{All};
ghost use Rattle.hostfunc.specs.Boxes.{HostAnswers};
ghost use Rattle.hostfunc.specs.Faults.{IfAnswered};
ghost use Rattle.hostfunc.specs.declared.host_function.HostFault.TheVariants.{Memory as MemoryFault};

use crate::boxes::{call_object, object_type, show_bytes};
use crate::host_function::{HostFault, HostFn};
use core_types::{FuncType, Val};

/// A host function, with the type that it was defined with.
#[derive(Drop)]
pub struct HostObject {
    pub ty: FuncType,
    pub object: Box<dyn HostFn>,
}

impl HostObject {
    /// Calls the function, with arguments of its parameter types and bytes that it borrows.
    ///
    /// A function that declares another type than it was defined with would trap with the code 0. No function that keeps its
    /// contract does this.
    pub fn call(&mut self, args: &[Val], memory: &mut [u8]) -> Result<Vec<Val>, HostFault>
        requires arguments { map type_of args.now ≡ self.old.ty.params }
        ensures same_type { self.new.ty ≡ self.old.ty }
        ensures typed { IfOk result (λ values. (map type_of values.items ≡ self.old.ty.results)
            × All FitsWidth values.items) }
        ensures are_bytes { AreBytes memory.new }
        ensures answered { IfAnswered result (λ answer. HostAnswers ⟦<dyn HostFn as HostFn>⟧
            self.old args.now memory.old answer memory.new self.new) }
        ensures unchanged { result ≡ Err MemoryFault
            → (self.new ≡ self.old) × (memory.new ≡ memory.old) }
    {
        if !object_type(&self.object).is_same(&self.ty) {
            show_bytes(memory);
            return Err(HostFault::Trap(0));
        }
        call_object(&mut self.object, args, memory)
    }
}
