//! The laws.

ghost use Rattle.std.specs.Prelude.{◌∷◌, [], List};
ghost use Rattle.core_types.specs.declared.outcome.Val.TheVariants.{I32, I64};
ghost use Rattle.core_types.specs.declared.outcome.Extern.{Extern};
ghost use Rattle.core_types.specs.declared.types.ValType.{ValType};
ghost use Rattle.meaning.specs.execution.Configurations.{Configuration};
ghost use Rattle.meaning.specs.execution.Runs.{NoHosts};
ghost use Rattle.meaning.specs.execution.Store.{Store};
ghost use Rattle.soundness.specs.Configurations.{ConfigurationHasType, StaysGood};
ghost use Rattle.soundness.specs.Costs.{CostsAreSpent};
ghost use Rattle.soundness.specs.Embedding.{CommandsGoWell, FreshOnesAreSound, NeverAnswers, own_type};
ghost use Rattle.soundness.specs.Insides.{InsideIsTyped};
ghost use Rattle.soundness.specs.Links.{AllocationKeepsValid, ContextHasModuleTypes, IsLinkable, LinksNeverGoWrong};
ghost use Rattle.soundness.specs.Places.{Place};
ghost use Rattle.soundness.specs.Progress.{TypedRunsNeverGetStuck};
ghost use Rattle.soundness.specs.Rows.{AddsTyped, adding, adding_with_a_page, storing};
ghost use Rattle.soundness.specs.Runs.{NeverGoesWrong, NoConditions};
ghost use Rattle.soundness.specs.Stores.{Extends, StoreIsValid};

use meaning::writing_is_read;

/// Law: a chain of extensions of stores is an extension of the first store. What is typed in a valid store is typed in each
/// store that extends it.
pub fn what_is_typed_stays_typed()
    ensures same { (store : Store) → Extends store store }
    ensures through { (a b c : Store) → Extends a b → Extends b c → Extends a c }
    ensures typed { (old new : Store) (place : Place) (c : Configuration) (results : List ValType)
        → StoreIsValid old → Extends old new → ConfigurationHasType old place c results
        → ConfigurationHasType new place c results }
{}

/// Law: a typed configuration in a valid store is over with its results, traps, calls a host function with arguments of its
/// types, or takes a step. A step leads to a configuration that has the results, in a valid store that extends the one before.
pub fn typed_configurations_stay_good()
    ensures { StaysGood }
{}

/// Law: a bounded run from a typed configuration in a valid store, without host functions, ends with values of its results, or
/// with a trap or an exhaustion. The store at the end is valid and extends the one before.
pub fn typed_runs_never_go_wrong()
    ensures { NeverGoesWrong NoHosts NoConditions }
{}

/// Law: steps from a typed configuration in a valid store, without host functions, never get stuck. They always lead to a
/// configuration that is over with values, or to which a case of the reduction applies.
pub fn typed_runs_never_get_stuck()
    ensures { TypedRunsNeverGetStuck NoHosts NoConditions }
{}

/// Law: the costs of the steps of a run, and of the instruction by which it traps, sum to the fuel that it spends.
pub fn costs_are_spent()
    ensures { CostsAreSpent NoHosts }
{}

/// Law: if a module whose imports fit is linked into a valid store, the store with the module's objects appended is valid.
pub fn allocation_keeps_stores_valid()
    ensures { AllocationKeepsValid }
{
    writing_is_read();
}

/// Law: in the context of a module's instance, the types are those of the module, and so are the types of its functions.
pub fn contexts_have_the_types_of_their_modules()
    ensures { ContextHasModuleTypes }
{}

/// Law: a link, without host functions, of a valid module whose imports fit, into a valid store, ends well. Its segments and its
/// start function end well. The store at the end is valid and extends the one before.
pub fn links_never_go_wrong()
    ensures { LinksNeverGoWrong NoHosts NoConditions }
{
    writing_is_read();
}

/// Law: a fresh embedding is sound, for any host functions, and so is an embedding after any commands.
///
/// Each command goes well. Values have the types that were asked for, and the store is valid and extends the one before. No
/// command except the one that sets the fuel leaves more fuel than there was. Host functions are any types here, and never
/// answer.
pub fn commands_go_well()
    ensures fresh { FreshOnesAreSound own_type }
    ensures run { CommandsGoWell own_type NeverAnswers }
{
    writing_is_read();
}

/// Law: the inside of a typed configuration is typed in its own frame.
pub fn the_inside_is_typed()
    ensures { InsideIsTyped }
{}

/// Worked row of the definitions: a store with a function that adds is valid. A call of it with two i32 is typed. A call with
/// too few arguments or an i64 is not.
pub fn a_call_of_a_function_that_adds_is_typed()
    ensures valid { StoreIsValid adding }
    ensures typed { AddsTyped (I32 2 ∷ I32 1 ∷ []) }
    ensures too_few { AddsTyped (I32 1 ∷ []) → ⊥ }
    ensures other { AddsTyped (I64 2 ∷ I32 1 ∷ []) → ⊥ }
{}

/// Worked row of the definitions: a module with a memory and a data segment can be linked. It can't be linked with a number that
/// is not a byte, or if more is given than it imports, or if a memory may have no page.
pub fn a_module_of_bytes_can_be_linked()
    ensures linkable { IsLinkable adding_with_a_page (storing (255 ∷ [])) [] }
    ensures no_byte { IsLinkable adding_with_a_page (storing (256 ∷ [])) [] → ⊥ }
    ensures too_many { (given : Extern) → IsLinkable adding_with_a_page (storing []) (given ∷ [])
        → ⊥ }
    ensures too_large { IsLinkable adding (storing []) [] → ⊥ }
{}
