//! Host functions of the plug-in host. One counts its calls, and one copies a text out of the plug-in's memory.
#![tactic(auto)]

ghost use Rattle.std.specs.Prelude.{◌≡◌, ◌∷◌, []};
ghost use Rattle.std.proofs.Props.{props};
ghost use Rattle.core_types.specs.declared.types.ValType.TheVariants.{I32};
ghost use Rattle.plugin_functions.specs.HostFunctions.{Counts, StayAsBefore, Writes};

use embed::{FuncType, HostFault, HostFn, Rc, Val, bytes_at, no_results, one_result};
use std::alloc::Global;
use std::cell::RefCell;

/// `count () -> i32`: returns the number of its calls, including this one.
#[derive(Drop)]
pub struct Counter {
    pub alloc: Global,
    pub calls: u32,
    pub ty: FuncType,
    ghost gives_number: { ty.results ≡ I32 ∷ [] } by { Prim.hlevel props },
}

impl HostFn for Counter {
    ghost declared = { λ counter. counter.ty };

    ghost Answers = { λ counter _ bytes answer then counter'.
        Counts counter.calls answer counter'.calls
        × StayAsBefore bytes counter.ty then counter'.ty };

    fn ty(&self) -> &FuncType {
        &self.ty
    }

    fn call(&mut self, _args: &[Val], _memory: &mut [u8]) -> Result<Vec<Val>, HostFault> {
        let calls = self.calls.checked_add(1).ok_or(HostFault::Trap(1))?;
        let results = one_result(self.alloc, Val::I32(calls))?;
        self.calls = calls;
        Ok(results)
    }
}

/// `write (start: i32, length: i32)`: appends bytes of the plug-in's memory to a text that is shared with the host. Traps with
/// the code 1 if the memory does not have all of them.
#[derive(Drop)]
pub struct Writer {
    pub alloc: Global,
    pub text: Rc<RefCell<Vec<u8>>>,
    pub ty: FuncType,
    ghost gives_nothing: { ty.results ≡ [] } by { Prim.hlevel props },
}

impl HostFn for Writer {
    ghost declared = { λ writer. writer.ty };

    ghost Answers = { λ writer arguments bytes answer then writer'. Writes arguments bytes answer
        × StayAsBefore bytes writer.ty then writer'.ty };

    fn ty(&self) -> &FuncType {
        &self.ty
    }

    fn call(&mut self, args: &[Val], memory: &mut [u8]) -> Result<Vec<Val>, HostFault> {
        let [Val::I32(start), Val::I32(len)] = args else {
            return Err(HostFault::Trap(1));
        };
        let bytes = bytes_at(memory, *start, *len).ok_or(HostFault::Trap(1))?;
        let mut text = self.text.try_borrow_mut().map_err(|_| HostFault::Trap(1))?;
        text.extend_from_slice(bytes)?;
        Ok(no_results(self.alloc))
    }
}
