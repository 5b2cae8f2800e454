//! Worked rows of scripts.

ghost use Rattle.std.specs.Prelude.{◌≡◌, ◌∷◌, [], None, Some};
ghost use Rattle.core_types.specs.declared.outcome.Val.TheVariants.{I32};
ghost use Rattle.meaning.specs.embedding.Commands.{Call, Done, Ended, Link, Linked, Load, Loaded, OutOfMemory, Refused, SetFuel};
ghost use Rattle.meaning.specs.execution.Runs.{WithValues};
ghost use Rattle.meaning.specs.scripts.Commands.{AssertReturn, Invoke, Module, Perform, Skipped, Tried, files_in};
ghost use Rattle.meaning.specs.scripts.Dialogues.{Begins, Holds};
ghost use Rattle.meaning.specs.scripts.Runner.{dialogue, meant, no_instances, start, with_current};

/// Worked rows of scripts. A module is loaded and linked, and its function returns what is expected. A skipped command asks for
/// nothing. An action without an instance asks for no more than the fuel, and fails. A name means its instance until a module
/// command under that name fails. A run stops if memory ran out.
pub fn scripts_ask_and_count()
    ensures passes { Holds (dialogue 9 (files_in ((1 ∷ [], 5 ∷ []) ∷ []))
        (Tried 1 (Module (1 ∷ []) None) ∷ Tried 2 (AssertReturn (Invoke None (7 ∷ []) ([])) (I32 3
        ∷ [])) ∷ []) start) (SetFuel 9 ∷ Load (5 ∷ []) ∷ Link 0 ∷ SetFuel 9 ∷ Call 0 (7 ∷ []) ([])
        ∷ []) (Done ∷ Loaded 0 ∷ Linked 0 ∷ Done ∷ Ended (WithValues (I32 3 ∷ [])) ∷ [])
        (record { passed = 2; failed = 0; skipped = 0; failures = [] }) }
    ensures fails { Holds (dialogue 9 (files_in ([])) (Skipped ∷ Tried 2 (Perform (Invoke None (7 ∷
        []) ([]))) ∷ []) start) (SetFuel 9 ∷ []) (Done ∷ []) (record {
          passed = 0;
          failed = 1;
          skipped = 1;
          failures = 2 ∷ [];
        }) }
    ensures named { meant (with_current (with_current no_instances (Some (1 ∷ [])) (Some 4))
        (Some (2 ∷ [])) None) (Some (1 ∷ [])) ≡ Some 4 }
    ensures failed { meant (with_current (with_current no_instances (Some (1 ∷ [])) (Some 4))
        (Some (1 ∷ [])) None) (Some (1 ∷ [])) ≡ None }
    ensures stops { Begins (dialogue 9 (files_in ((1 ∷ [], 5 ∷ []) ∷ [])) (Tried 1 (Module (1 ∷ [])
        None) ∷ []) start) (SetFuel 9 ∷ Load (5 ∷ []) ∷ []) (Done ∷ Refused OutOfMemory ∷ []) }
{}
