//! Laws for hosts of plug-ins and for platforms of contracts.

ghost use Rattle.std.specs.Prelude.{◌<◌, ◌^◌, length};
ghost use Rattle.embed.specs.Isolation.{InstancesAreIsolated, LessFuelEndsEarly, MoreFuelChangesNothing, OthersChangeNoAnswers, RepliesAreDetermined, TouchesOnlyItsReach};

use crate::host_definitions::HostDef;
use binary::bytes_spell_one_module;
use hostfunc::HostFn;
use meaning::writing_is_read;

/// Law: a command touches only what it can reach, and instances that were given nothing of each other share nothing.
///
/// In an embedding with these definitions of host functions:
/// - `touches`: a call changes only what can be reached from its instance and the functions that its arguments refer to. A link
///   changes only what can be reached from its imports. Any other command changes nothing.
/// - `apart`: if no instance was registered, and no call was passed a reference to a function, then no two instances can reach
///   the same table, memory, global or segment.
/// - `answers`: if, in addition, the host functions keep nothing of one call for another, then a command that does not call into
///   an instance never changes what the instance replies.
pub fn isolated(definitions: &[HostDef])
    requires { length definitions.now < 2 ^ 32 }
    ensures touches { TouchesOnlyItsReach ⟦<dyn HostFn as HostFn>⟧ definitions.now }
    ensures apart { InstancesAreIsolated ⟦<dyn HostFn as HostFn>⟧ definitions.now }
    ensures answers { OthersChangeNoAnswers ⟦<dyn HostFn as HostFn>⟧ definitions.now }
{
    writing_is_read();
}

/// Law: two embeddings with the same setup, host functions and commands have the same replies and end in the same state.
///
/// The host functions must be functions of their object, their arguments and the bytes that they borrow, and memory must not run
/// out. Which of `Malformed`, `Unsupported` and `Limit` is returned for bytes that encode no module within the limits is
/// unspecified.
pub fn deterministic(definitions: &[HostDef])
    ensures { RepliesAreDetermined ⟦<dyn HostFn as HostFn>⟧ definitions.now }
{
    bytes_spell_one_module();
}

/// Law: fuel is only a bound. More fuel changes no reply. Less fuel changes no reply before the one that is out of fuel.
pub fn fuel_is_a_bound(_definitions: &[HostDef])
    ensures more { MoreFuelChangesNothing ⟦<dyn HostFn as HostFn>⟧ }
    ensures less { LessFuelEndsEarly ⟦<dyn HostFn as HostFn>⟧ }
{}
