ghost use Rattle.std.proofs.Props.{props};
ghost use Rattle.std.specs.List.{All};
ghost use Rattle.std.specs.Prelude.{◌≡◌, ◌<◌, ◌-◌, ◌^◌, ◌++◌, ◌∷◌, [], length, map, IfOk, OnOk, OnErr, Err, false};
ghost use Rattle.core_types.specs.declared.types.FuncType.{FuncType as Signature};
ghost use Rattle.meaning.specs.embedding.Creation.{has_funcref};
ghost use Rattle.meaning.specs.execution.Values.{type_of};
ghost use Rattle.soundness.specs.Hosts.{GivesNoFuncref};
ghost use Rattle.hostfunc.specs.Boxes.{HostCall, IsHost, type_of_host};
ghost use Rattle.hostfunc.specs.Faults.{IfAnswered};
ghost use Rattle.hostfunc.specs.declared.host_function.HostFault.TheVariants.{Memory as MemoryFault};

use crate::boxes::object_type;
use crate::host_function::{HostFault, HostFn};
use crate::host_object::HostObject;
use core_types::{FuncType, Val};
use std::alloc::{AllocError, Global};

/// The host functions of an embedding, by number. None of them returns references to functions.
#[derive(Drop)]
pub struct HostTable {
    alloc: Global,
    objects: Vec<HostObject>,
    ghost no_funcrefs: { All (GivesNoFuncref type_of_host) objects.items } by { Prim.hlevel props },
}

impl HostTable {
    /// Creates a table without host functions. Allocates nothing.
    pub fn new(alloc: Global) -> HostTable
        ensures { result.objects.items ≡ [] }
    {
        HostTable {
            alloc,
            objects: Vec::new(alloc),
        }
    }

    /// Returns the number of host functions.
    pub fn len(&self) -> usize
        ensures { result ≡ length self.now.objects.items }
    {
        self.objects.len()
    }

    /// Appends a host function with the type that it declares, and returns its number, the next one. The type must have no
    /// funcref among its results. If memory runs out, the object is dropped and the table is unchanged.
    pub fn push(&mut self, object: Box<dyn HostFn>) -> Result<u32, AllocError>
        requires room { length self.old.objects.items < 2 ^ 32 - 1 }
        requires no_funcref { has_funcref (declared object).results ≡ false }
        ensures number { IfOk result (λ number. number ≡ length self.old.objects.items) }
        ensures pushed { OnOk result (self.new.objects.items ≡ self.old.objects.items ++
            record { ty = declared object; object = object } ∷ []) }
        ensures unchanged { OnErr result (self.new.objects.items ≡ self.old.objects.items) }
    {
        let number = self.objects.len() as u32;
        let ty = object_type(&object).copy(self.alloc)?;
        self.objects.push(HostObject { ty, object })?;
        Ok(number)
    }

    /// Returns the type of the host function of a number.
    pub fn ty(&self, number: u32) -> &FuncType
        requires there { number < length self.now.objects.items }
        ensures { IsHost self.now.objects.items number result.now }
    {
        &self.objects[number as usize].ty
    }

    /// Calls the host function of a number, with arguments of its parameter types and bytes that it borrows. All other host
    /// functions are unchanged. After `HostFault::Memory` nothing has changed.
    pub fn call(
        &mut self,
        number: u32,
        args: &[Val],
        memory: &mut [u8],
    ) -> Result<Vec<Val>, HostFault>
        requires there { (t : Signature) × IsHost self.old.objects.items number t
            × (map type_of args.now ≡ t.params) }
        ensures answered { IfAnswered result (λ answer. HostCall ⟦<dyn HostFn as HostFn>⟧
            self.old.objects.items number args.now memory.old answer memory.new
            self.new.objects.items) }
        ensures unchanged { result ≡ Err MemoryFault
            → (self.new.objects.items ≡ self.old.objects.items)
            × (memory.new ≡ memory.old) }
    {
        let host = &mut self.objects[number as usize];
        host.call(args, memory)
    }
}
