ghost use Rattle.std.specs.Prelude.{◌≡◌, IfOk, IfSome, OnOk, Some, slice_get};
ghost use Rattle.interface.specs.Listings.{KeepsTypes};

use core_types::ExternType;
use std::alloc::AllocError;
use std::collections::BTreeMap;

/// Where a function is declared: the number of its instance and the index of its type there, or the number of the host function.
#[derive(Clone, Copy, PartialEq, Eq, PartialOrd, Ord)]
pub enum Declaration {
    InModule(u32, u32),
    InHost(u32),
}

// Returns the index of the type of the function of this declaration, if the list has it.
fn known_type(
    types: &[ExternType],
    known: &BTreeMap<Declaration, usize>,
    declaration: Declaration,
    ty: &ExternType,
) -> Option<usize>
    ensures { IfSome result (λ index. slice_get types.now index ≡ Some ty.now) }
{
    let index = *known.get(&declaration)?;
    match (types.get(index)?, ty) {
        (ExternType::Func(there), ExternType::Func(wanted)) if there.is_same(wanted) => Some(index),
        _ => None,
    }
}

fn add_type(types: &mut Vec<ExternType>, ty: ExternType) -> Result<usize, AllocError>
    ensures there { IfOk result (λ index. slice_get types.new.items index ≡ Some ty) }
    ensures kept { OnOk result (KeepsTypes types.old.items types.new.items) }
{
    let index = types.len();
    types.push(ty)?;
    Ok(index)
}

/// Returns the index of a type in the list, and adds the type unless the list has it under its declaration.
pub fn index_of(
    types: &mut Vec<ExternType>,
    known: &mut BTreeMap<Declaration, usize>,
    declaration: Option<Declaration>,
    ty: ExternType,
) -> Result<usize, AllocError>
    ensures there { IfOk result (λ index. slice_get types.new.items index ≡ Some ty) }
    ensures kept { OnOk result (KeepsTypes types.old.items types.new.items) }
{
    let Some(declaration) = declaration else {
        return add_type(types, ty);
    };
    if let Some(index) = known_type(types, known, declaration, &ty) {
        return Ok(index);
    }
    known.insert(declaration, types.len())?;
    add_type(types, ty)
}
