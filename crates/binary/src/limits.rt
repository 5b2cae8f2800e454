//! The limits on a module, which are this project's own.

ghost use Rattle.std.specs.Prelude.{◌≡◌, ◌↔◌, IsTrue, slice_get};
ghost use Rattle.binary.specs.Limits.{HasSmallParts};
ghost use Rattle.meaning.specs.binary.Limits.{HasFewLocals, IsSmallType, parameter_count};

use core_types::{Func, FuncType, Module};

// The most bytes of a module.
pub const MAX_SIZE: usize = 67_108_864;

// The most parameters of a type, and the most results.
const MAX_VALUES: usize = 1_000;

// The most locals of a function, its parameters included.
const MAX_LOCALS: usize = 50_000;

// Returns whether the module's types and functions are within the limits.
pub fn has_small_parts(decoded: &Module) -> bool
    ensures { IsTrue result ↔ HasSmallParts decoded.now }
{
    let types = decoded.types.as_slice();
    types.iter().all(is_small_type)
        && decoded
            .funcs
            .as_slice()
            .iter()
            .all(|f| has_few_locals(types, f))
}

fn is_small_type(ty: &FuncType) -> bool
    ensures { IsTrue result ↔ IsSmallType ty.now }
{
    ty.params.len() <= MAX_VALUES && ty.results.len() <= MAX_VALUES
}

fn has_few_locals(types: &[FuncType], f: &Func) -> bool
    ensures { IsTrue result ↔ HasFewLocals types.now f.now }
{
    let parameters = parameters_of(types, f.ty);
    let locals = f.locals.len() as usize;
    locals <= MAX_LOCALS && parameters <= MAX_LOCALS - locals
}

// Returns the number of parameters of the type with this index, or 0 if there is no such type.
fn parameters_of(types: &[FuncType], ty: u32) -> usize
    ensures { result ≡ parameter_count (slice_get types.now ty) }
{
    match types.get(ty as usize) {
        Some(found) => found.params.len(),
        None => 0,
    }
}
