ghost use Rattle.std.specs.Prelude.{◌≡◌, IfOk, string_bytes};

use hostfunc::HostFn;
use std::alloc::{AllocError, Global};

/// A host function, and the two names by which modules import it: the name of a module, and a name in it.
#[derive(Drop)]
pub struct HostDef {
    pub module: String,
    pub name: String,
    pub func: Box<dyn HostFn>,
}

impl HostDef {
    /// Creates a host function under these names. Fails if an allocation fails.
    pub fn new(
        alloc: Global,
        module: &str,
        name: &str,
        func: Box<dyn HostFn>,
    ) -> Result<HostDef, AllocError>
        ensures module_name { IfOk result (λ made. string_bytes made.«module» ≡ «module».now) }
        ensures name { IfOk result (λ made. string_bytes made.name ≡ name.now) }
        ensures func { IfOk result (λ made. made.func ≡ func) }
    {
        let module = String::from_str(alloc, module)?;
        let name = String::from_str(alloc, name)?;
        Ok(HostDef { module, name, func })
    }
}
