ghost use Rattle.std.specs.Prelude.{◌≡◌};
ghost use Rattle.scripts.specs.Kinds.{assertion_named, kind_named};

// The type of a command.
#[derive(Clone, Copy)]
pub enum Kind {
    Module,
    Register,
    Action,
    AssertReturn,
    AssertTrap,
    AssertExhaustion,
    AssertInvalid,
    AssertMalformed,
    AssertUnlinkable,
    AssertUninstantiable,
}

// Returns the type of an assertion of a name, if there is one.
fn assertion_of(name: &str) -> Option<Kind>
    ensures { result ≡ assertion_named name.now }
{
    match name {
        "assert_return" => Some(Kind::AssertReturn),
        "assert_trap" => Some(Kind::AssertTrap),
        "assert_exhaustion" => Some(Kind::AssertExhaustion),
        "assert_invalid" => Some(Kind::AssertInvalid),
        "assert_malformed" => Some(Kind::AssertMalformed),
        "assert_unlinkable" => Some(Kind::AssertUnlinkable),
        "assert_uninstantiable" => Some(Kind::AssertUninstantiable),
        _ => None,
    }
}

// Returns the type of a name, if there is one.
pub fn kind_of(name: &str) -> Option<Kind>
    ensures { result ≡ kind_named name.now }
{
    match name {
        "module" => Some(Kind::Module),
        "register" => Some(Kind::Register),
        "action" => Some(Kind::Action),
        _ => assertion_of(name),
    }
}

impl Kind {
    ghost use Rattle.std.specs.Prelude.{◌≡◌};
    ghost use Rattle.scripts.specs.Kinds.{has_action, has_expected};

    // Returns whether commands of this type have an action.
    pub fn has_action(self) -> bool
        ensures { result ≡ has_action self }
    {
        matches!(
            self,
            Kind::Action | Kind::AssertReturn | Kind::AssertTrap | Kind::AssertExhaustion
        )
    }

    // Returns whether commands of this type have expected values.
    pub fn has_expected(self) -> bool
        ensures { result ≡ has_expected self }
    {
        matches!(self, Kind::AssertReturn)
    }
}
