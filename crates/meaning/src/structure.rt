//! Laws of bodies and their flat writing.

ghost use Rattle.std.specs.Prelude.{◌≡◌, ◌∷◌, ◌++◌, List, None, ◌+◌};
ghost use Rattle.core_types.specs.declared.op.Op.{Op};
ghost use Rattle.core_types.specs.declared.op.Op.TheVariants.{End};
ghost use Rattle.meaning.specs.structure.Bodies.{Body, body_of, rests, writing};

/// Law: the rest of a body's writing is the body, down to its end, and after the end is the rest of what surrounds it. A flat
/// list is the writing of at most one tree.
pub fn writing_is_read()
    ensures whole { (b : Body) → body_of (writing b) ≡ b }
    ensures ended { (b : Body) (ops : List Op) → body_of (writing b ++ (End ∷ ops)) ≡ b }
    ensures around { (b : Body) (ops : List Op) → rests (writing b ++ (End ∷ ops)) ≡ record {
      here =
          record { body = b; other = None };
      around = (rests ops).here ∷ (rests ops).around;
    } }
    ensures one_tree { (a b : Body) → writing a ≡ writing b → a ≡ b }
{}
