ghost use Rattle.std.specs.Prelude.{IsTrue, Some, [], ◌↔◌, ◌≡◌};
ghost use Rattle.validator.specs.ModuleParts.{IsEmptyTypeAt, IsStartIn};

use core_types::{FuncType, item};
use index_spaces::IndexSpaces;

// Returns whether a function of this type takes and gives nothing.
fn is_empty(ty: &FuncType) -> bool
    ensures { IsTrue result ↔ (ty.now ≡ record { params = []; results = [] }) }
{
    ty.params.is_empty() && ty.results.is_empty()
}

// Returns whether the type of this index exists and is that of functions that take and give nothing.
fn is_empty_at(types: &[FuncType], index: u32) -> bool
    ensures { IsTrue result ↔ IsEmptyTypeAt types.now index }
{
    match item(types, index) {
        Some(ty) => is_empty(ty),
        None => false,
    }
}

// Returns whether the start function, if there is one, takes and gives nothing (Validation, Start Function).
#[tactic(auto, unfolding(crate::specs::ModuleParts::IsStartIn))]
pub fn is_valid_start(types: &[FuncType], spaces: &IndexSpaces, start: Option<u32>) -> bool
    ensures { IsTrue result ↔ IsStartIn types.now spaces.now start }
{
    let Some(index) = start else {
        return true;
    };
    match spaces.functions.get(index as usize) {
        Some(index) => is_empty_at(types, *index),
        None => false,
    }
}
