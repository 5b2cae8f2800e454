ghost use Rattle.std.specs.Prelude.{◌≡◌};
ghost use Rattle.meaning.specs.embedding.Commands.{Ended};
ghost use Rattle.meaning.specs.execution.Modules.{HasNoValues};
ghost use Rattle.exec.specs.Endings.{ending_of};
ghost use Rattle.embed.specs.Replies.{link_outcome_reply};

use crate::numbers::InstanceNumber;
use core_types::{Exhaustion, Trap};
use exec::Outcome;

/// The end of a link that was not refused.
#[derive(Clone, Copy, PartialEq, Eq, Debug)]
pub enum LinkOutcome {
    /// The instance has this number.
    Linked(InstanceNumber),
    /// A segment or the start function trapped. The instance has no number, and what was done stays.
    Trap(Trap),
    /// The start function ran out of fuel, depth or memory. The instance has no number, and what was done stays.
    Exhausted(Exhaustion),
}

/// Returns the outcome of a link that ended like this run, which returned no values.
pub fn without_instance(outcome: &Outcome) -> LinkOutcome
    requires { HasNoValues (ending_of outcome.now) }
    ensures { link_outcome_reply result ≡ Ended (ending_of outcome.now) }
{
    match outcome {
        Outcome::Values(_) => unreachable!(),
        Outcome::Trap(trap) => LinkOutcome::Trap(*trap),
        Outcome::Exhausted(what) => LinkOutcome::Exhausted(*what),
    }
}
