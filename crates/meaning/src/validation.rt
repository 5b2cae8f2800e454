//! Laws and worked rows of typing.

ghost use Rattle.std.specs.Prelude.{◌≡◌, ◌↔◌, [], ◌++◌, List, IsTrue};
ghost use Rattle.core_types.specs.declared.types.OperandType.{OperandType};
ghost use Rattle.core_types.specs.declared.types.FuncType.{FuncType};
ghost use Rattle.meaning.specs.structure.Bodies.{Body, joined};
ghost use Rattle.meaning.specs.validation.Context.{Context};
ghost use Rattle.meaning.specs.validation.ContextExtension.{Carries};
ghost use Rattle.meaning.specs.validation.Rows.{sum_of_a_long, sum_of_any};
ghost use Rattle.meaning.specs.validation.Types.{is_same_function_type};
ghost use Rattle.meaning.specs.validation.Instructions.{AllFit, HasType};

/// Law: if a body leads from one stack to another, it leads from each stack that fits the first to each that the second fits.
/// One body after another leads as far as the two.
pub fn typing_composes()
    ensures before { (context : Context) (b : Body) (before given after : List OperandType) → AllFit
        given before → HasType context b before after → HasType context b given after }
    ensures after { (context : Context) (b : Body) (before after wanted : List OperandType) →
        HasType context b before after → AllFit after wanted → HasType context b before wanted }
    ensures joined { (context : Context) (a b : Body) (before between after : List OperandType) →
        HasType context a before between → HasType context b between after → HasType context (joined
        a b) before after }
{}

/// Law: the values below the operands of a body stay below its results.
pub fn operands_below_stay()
    ensures { (context : Context) (b : Body) (under before after : List OperandType)
        → HasType context b before after → HasType context b (under ++ before) (under ++ after) }
{}

/// Law: what is typed in a context is typed in each context that has all that typing asks of the first.
pub fn typing_carries_over()
    ensures { (a b : Context) → Carries a b → (body : Body) (before after : List OperandType)
        → HasType a body before after → HasType b body before after }
{}

/// Worked rows of typing: after `unreachable` a sum finds its operands, but not if an i64 was pushed since.
pub fn operands_after_unreachable()
    ensures any { (context : Context) → HasType context sum_of_any ([]) ([]) }
    ensures kept { (context : Context) → HasType context sum_of_a_long ([]) ([]) → ⊥ }
{}

/// Law: two types of functions are the same exactly if their parameters and results are.
pub fn function_types_compare_by_structure()
    ensures { (t u : FuncType) → IsTrue (is_same_function_type t u) ↔ (t ≡ u) }
{}
