//! Worked rows of the embedding machine.

ghost use Rattle.std.specs.Prelude.{◌≡◌, ◌∷◌, [], Some};
ghost use Rattle.core_types.specs.declared.types.FuncType.{FuncType};
ghost use Rattle.core_types.specs.declared.types.ValType.TheVariants.{FuncRef, I32};
ghost use Rattle.meaning.specs.embedding.Commands.{Call, Done, GetGlobal, Link, Refused, Register, SetFuel, UnknownInstance, UnknownModule};
ghost use Rattle.meaning.specs.embedding.Creation.{HostDefinition, HostFuncRef, NameTaken, first_fault, fresh};
ghost use Rattle.meaning.specs.embedding.Machine.{AppliesAll, with_fuel};
ghost use Rattle.meaning.specs.embedding.Names.{host_of, no_names};
ghost use Rattle.meaning.specs.execution.Runs.{NoHosts};

/// Worked rows of commands. In a fresh embedding no number stands for a module or an instance. Commands with such numbers are
/// refused and change nothing. The fuel is set.
pub fn fresh_embeddings_are_empty()
    ensures refused { AppliesAll NoHosts
        (fresh {H = ⊥} (λ h. absurd h) (record { fuel = 9; depth = 1; pages = 1; entries = 1 })
        ([]))
        (Link 0 ∷ Register 0 ([]) ∷ Call 0 ([]) ([]) ∷ GetGlobal 0 ([]) ∷ SetFuel 5 ∷ [])
        (Refused UnknownModule ∷ Refused UnknownInstance ∷ Refused UnknownInstance ∷
        Refused UnknownInstance ∷ Done ∷ [])
        (with_fuel (fresh {H = ⊥} (λ h. absurd h)
        (record { fuel = 9; depth = 1; pages = 1; entries = 1 }) ([])) 5) }
{}

/// Worked rows of definitions of host functions, each of which is its type here. If two have the same pair of names, the second
/// is refused for its names, or before that for a funcref among its results. Two with different names have the addresses 0 and
/// 1, in order.
pub fn host_functions_are_defined_in_order()
    ensures taken { first_fault (λ (t : FuncType). t) no_names 0
        (record {
          module_name = 1 ∷ [];
          name = 2 ∷ [];
          host = record { params = []; results = [] };
        } ∷
        record {
          module_name = 1 ∷ [];
          name = 2 ∷ [];
          host = record { params = []; results = I32 ∷ [] };
        } ∷ []) ≡ Some NameTaken }
    ensures funcref { first_fault (λ (t : FuncType). t) no_names 0
        (record {
          module_name = 1 ∷ [];
          name = 2 ∷ [];
          host = record { params = []; results = [] };
        } ∷
        record {
          module_name = 1 ∷ [];
          name = 2 ∷ [];
          host = record { params = []; results = FuncRef ∷ [] };
        } ∷ []) ≡ Some HostFuncRef }
    ensures second { host_of (fresh (λ (t : FuncType). t)
        (record { fuel = 9; depth = 1; pages = 1; entries = 1 })
        (record {
          module_name = 1 ∷ [];
          name = 2 ∷ [];
          host = record { params = []; results = [] };
        } ∷
        record {
          module_name = 1 ∷ [];
          name = 3 ∷ [];
          host = record { params = []; results = [] };
        } ∷ [])).names
        (1 ∷ []) (3 ∷ []) ≡ Some 1 }
{}
