//! Laws of typed values.

ghost use Rattle.core_types.specs.declared.types.ValType.{ValType};
ghost use Rattle.meaning.specs.execution.Values.{default_of};
ghost use Rattle.meaning.specs.soundness.Values.{ValueHasType};
ghost use Rattle.meaning.specs.execution.Store.{Store};

/// Law: the first value of a local has the local's type.
pub fn first_values_have_their_types()
    ensures { (store : Store) (t : ValType) → ValueHasType store (default_of t) t }
{}
