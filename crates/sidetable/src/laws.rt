//! Worked rows and laws of flat code.

ghost use Rattle.std.specs.Prelude.{◌≡◌, ◌+◌, ◌≤◌, List, length, ℕ, Some};
ghost use Rattle.core_types.specs.declared.op.ControlOp.{ControlOp as AnyControlOp};
ghost use Rattle.core_types.specs.declared.op.PlainOp.{PlainOp as AnyPlainOp};
ghost use Rattle.core_types.specs.declared.outcome.Val.{Val};
ghost use Rattle.meaning.specs.execution.Configurations.{Frame};
ghost use Rattle.meaning.specs.execution.Effects.{effect};
ghost use Rattle.meaning.specs.execution.Store.{Store};
ghost use Rattle.meaning.specs.structure.Bodies.{Body};
ghost use Rattle.sidetable.specs.Counts.{Signatures};
ghost use Rattle.sidetable.specs.Flat.{function_greatest, function_operations, size, without_annotations};
ghost use Rattle.sidetable.specs.Heights.{IsReached};
ghost use Rattle.sidetable.specs.Rows.{BlockLeaves, BranchLeaves, BranchOverThree, IfElseLeaves, IfLeaves, LoopLeaves, ReturnLeaves, SevenOrEight, Sum};

/// Worked rows of flat code: a branch out of a block over three constants, a sum by a loop, and an `if` with two bodies.
pub fn bodies_are_flattened()
    ensures branch { BranchOverThree }
    ensures sum { Sum }
    ensures choice { SevenOrEight }
{}

/// Law: the operations that each form of body leaves, and where its entries continue.
pub fn each_form_leaves_its_operations()
    ensures block { BlockLeaves }
    ensures loops { LoopLeaves }
    ensures if_alone { IfLeaves }
    ensures if_else { IfElseLeaves }
    ensures branch { BranchLeaves }
    ensures returns { ReturnLeaves }
{}

/// Law: each operation leaves one operation, except that an end leaves none. One more operation leaves the frame.
pub fn operations_are_as_many_as_the_size()
    ensures { (s : Signatures) (locals results at : ℕ) (body : Body)
        → length (function_operations s locals results at body) ≡ size body + 1 }
{}

/// Law: the greatest height of a function is at least that of its results, and no reached height is greater.
pub fn no_height_is_over_the_greatest()
    ensures results { (s : Signatures) (locals results : ℕ) (body : Body)
        → locals + results ≤ function_greatest s locals results body }
    ensures reached { (s : Signatures) (locals results : ℕ) (body : Body) (height : ℕ)
        → IsReached s (Some locals) body height
        → height ≤ function_greatest s locals results body }
{}

/// Law: an alignment and the types of a select do not change the effect of an instruction.
pub fn annotations_change_nothing()
    ensures { (store : Store) (frame : Frame) (op : AnyPlainOp) (values : List Val)
        → effect store frame (without_annotations op) values ≡ effect store frame op values }
{}
