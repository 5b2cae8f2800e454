//! Import matching: whether an external value of one type can be imported as another type.
#![tactic(auto)]

ghost use Rattle.std.specs.Prelude.{◌≡◌, ◌↔◌, IsTrue};
ghost use Rattle.meaning.specs.validation.Matching.{LimitsMatch, Matches, MaximaMatch};

use core_types::{ExternType, GlobalType, Limits, Mutability};

// Returns whether a maximum is at most the wanted one. If no maximum is wanted, any maximum or none matches.
fn maxima_match(given: Option<u32>, wanted: Option<u32>) -> bool
    ensures { IsTrue result ↔ MaximaMatch given wanted }
{
    match (given, wanted) {
        (_, None) => true,
        (None, Some(_)) => false,
        (Some(given), Some(wanted)) => given <= wanted,
    }
}

// Returns whether limits are within others.
fn limits_match(given: Limits, wanted: Limits) -> bool
    ensures { IsTrue result ↔ LimitsMatch given wanted }
{
    wanted.min <= given.min && maxima_match(given.max, wanted.max)
}

fn is_same_global(given: GlobalType, wanted: GlobalType) -> bool
    ensures { IsTrue result ↔ (given ≡ wanted) }
{
    let is_same_mutability = match (given.mutability, wanted.mutability) {
        (Mutability::Const, Mutability::Const) | (Mutability::Var, Mutability::Var) => true,
        _ => false,
    };
    given.value == wanted.value && is_same_mutability
}

/// Returns whether an external value of one type may be imported where another type is wanted (Validation, Types, Import
/// Subtyping).
///
/// The minimum of a given table or memory is its present size.
pub fn matches(given: &ExternType, wanted: &ExternType) -> bool
    ensures { IsTrue result ↔ Matches given.now wanted.now }
{
    match (given, wanted) {
        (ExternType::Func(given), ExternType::Func(wanted)) => given.is_same(wanted),
        (ExternType::Table(given), ExternType::Table(wanted)) => {
            given.element == wanted.element && limits_match(given.limits, wanted.limits)
        }
        (ExternType::Memory(given), ExternType::Memory(wanted)) => limits_match(*given, *wanted),
        (ExternType::Global(given), ExternType::Global(wanted)) => {
            is_same_global(*given, *wanted)
        }
        _ => false,
    }
}
