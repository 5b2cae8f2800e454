//! The laws.

ghost use Rattle.isolation.specs.Apart.{InstancesAreApart};
ghost use Rattle.isolation.specs.Commands.{CallsAreIsolated};
ghost use Rattle.isolation.specs.Determinism.{RepliesAreFunctions};
ghost use Rattle.isolation.specs.Isolation.{WhatIsOutsideIsNotRead, WhatIsOutsideStays};
ghost use Rattle.isolation.specs.Engine.{CallsOfTheEngine, RepliesOfTheEngine};
ghost use Rattle.isolation.specs.Fuel.{DeeperBoundsChangeNothing, LessFuelEndsEarly, MoreFuelChangesNothing};
ghost use Rattle.isolation.specs.Reach.{ReachIsLeast, WhatIsReachedIsThere};

use binary::bytes_spell_one_module;
use hostfunc::HostFn;
use meaning::writing_is_read;

/// Law: replies are a function of the commands.
///
/// Assume that each host function's answer is a function of its object, its arguments and the bytes that it borrows. Two runs
/// apply the same commands to one embedding, and neither has a reply that memory ran out. Then both have the same replies and
/// the same last state.
pub fn replies_are_a_function_of_the_commands<H>()
    ensures { RepliesAreFunctions H }
{
    bytes_spell_one_module();
}

/// Law: fuel is only a bound, and so is depth.
pub fn fuel_is_only_a_bound<H>()
    ensures more { MoreFuelChangesNothing H }
    ensures less { LessFuelEndsEarly H }
    ensures deeper { DeeperBoundsChangeNothing H }
{
    bytes_spell_one_module();
}

/// Law: what a run cannot reach, it can neither change nor read.
pub fn what_is_outside_of_reach_stays<H>()
    ensures changes { WhatIsOutsideStays H }
    ensures reads { WhatIsOutsideIsNotRead H }
{}

/// Law: in any run of commands on a fresh embedding, a call changes only what can be reached from its instance and its
/// arguments. A link changes only what can be reached from what it is given. No other command changes a store. A command that
/// reaches nothing of an instance never changes what the instance replies.
pub fn calls_are_isolated<H>()
    ensures { CallsAreIsolated H }
{
    writing_is_read();
}

/// Law: two instances are apart in tables, memories, globals and segments, until a command reaches what both can reach.
///
/// Any two instances are apart if no instance is registered and no call passes references to functions. Then a command to one
/// never changes what the other replies.
pub fn links_are_apart<H>()
    ensures { InstancesAreApart H }
{
    writing_is_read();
}

/// The laws for the engine's own host functions, of any kinds of objects.
pub fn laws_of_the_engine(_host: &dyn HostFn)
    ensures replies { RepliesOfTheEngine ⟦<dyn HostFn as HostFn>⟧ }
    ensures calls { CallsOfTheEngine ⟦<dyn HostFn as HostFn>⟧ }
{
    bytes_spell_one_module();
    writing_is_read();
}

/// Law: what can be reached is the least closed region. In a valid store it exists.
pub fn what_can_be_reached_is_the_least_closed_region()
    ensures least { ReachIsLeast }
    ensures there { WhatIsReachedIsThere }
{}
