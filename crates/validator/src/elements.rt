ghost use Rattle.std.specs.Prelude.{All, IsTrue, ◌<◌, ◌↔◌};
ghost use Rattle.validator.specs.ModuleParts.{AreItemsIn, IsElementIn, IsElementModeIn};

use crate::constants::{ConstantContext, is_constant};
use crate::types::reference_type;
use core_types::{ElementItems, ElementMode, ElementSegment, RefType, ValType};
use index_spaces::IndexSpaces;

// Returns whether the references of a segment are of its type, each a function that exists or a constant.
#[tactic(auto, unfolding(crate::specs::ModuleParts::AreItemsIn))]
fn are_valid_items(
    spaces: &IndexSpaces,
    context: &ConstantContext<'_>,
    ty: RefType,
    items: &ElementItems,
) -> bool
    ensures { IsTrue result ↔ AreItemsIn spaces.now context.now ty items.now }
{
    match items {
        ElementItems::Functions(indices) => {
            ty == RefType::FuncRef && are_below(spaces.functions.len(), indices.as_slice())
        }
        ElementItems::Expressions(expressions) => expressions
            .as_slice()
            .iter()
            .all(|ops| is_constant(context, ops, reference_type(ty))),
    }
}

fn are_below(count: usize, indices: &[u32]) -> bool
    ensures { IsTrue result ↔ All (λ x. x < count) indices.now }
{
    indices.iter().all(|index| (*index as usize) < count)
}

// Returns whether a segment of references of this type is not active, or is for a table of the type, at a constant offset.
#[tactic(auto, unfolding(crate::specs::ModuleParts::IsElementModeIn))]
fn is_valid_element_mode(
    spaces: &IndexSpaces,
    context: &ConstantContext<'_>,
    ty: RefType,
    mode: &ElementMode,
) -> bool
    ensures { IsTrue result ↔ IsElementModeIn spaces.now context.now ty mode.now }
{
    match mode {
        ElementMode::Passive | ElementMode::Declarative => true,
        ElementMode::Active { table, offset } => match spaces.tables.get(*table as usize) {
            Some(found) => { found.element == ty && is_constant(context, offset, ValType::I32) }
            None => false,
        },
    }
}

// Returns whether an element segment is valid (Validation, Element Segments).
fn is_valid_element(
    spaces: &IndexSpaces,
    context: &ConstantContext<'_>,
    element: &ElementSegment,
) -> bool
    ensures { IsTrue result ↔ IsElementIn spaces.now context.now element.now }
{
    are_valid_items(spaces, context, element.ty, &element.items)
        && is_valid_element_mode(spaces, context, element.ty, &element.mode)
}

pub fn are_valid_elements(
    spaces: &IndexSpaces,
    context: &ConstantContext<'_>,
    elements: &[ElementSegment],
) -> bool
    ensures { IsTrue result ↔ All (IsElementIn spaces.now context.now) elements.now }
{
    elements
        .iter()
        .all(|element| is_valid_element(spaces, context, element))
}
