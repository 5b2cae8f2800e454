ghost use Rattle.std.specs.Prelude.{All, IsTrue, ◌↔◌};
ghost use Rattle.core_types.specs.declared.module.Global.{Global as OwnGlobal};
ghost use Rattle.validator.specs.Constants.{IsConstantIn};

use crate::constants::{ConstantContext, is_constant};
use core_types::Global as ModuleGlobal;

// Returns whether the first value of each global is constant and of the global's type (Validation, Globals).
pub fn are_valid_globals(context: &ConstantContext<'_>, globals: &[ModuleGlobal]) -> bool
    ensures { IsTrue result ↔ All (λ (g : OwnGlobal). IsConstantIn context.now g.init g.ty.value)
        globals.now }
{
    globals.iter().all(|global| is_constant(context, &global.init, global.ty.value))
}
