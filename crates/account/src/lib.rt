//! What a caller pays for a call.
#![tactic(auto)]

ghost use Rattle.std.specs.Prelude.{◌≡◌, ◌+◌, ◌≤◌, ◌∷◌, [], min};
ghost use Rattle.embed.specs.Contents.{embedding_of};
ghost use Rattle.embed.specs.Replies.{call_reply};
ghost use Rattle.hostfunc.specs.Boxes.{HostStep};
ghost use Rattle.meaning.specs.embedding.Commands.{Call, Done, SetFuel};
ghost use Rattle.meaning.specs.embedding.Machine.{AppliesAll};

use embed::{Embedding, InstanceNumber, Outcome, Refusal, Val};
use hostfunc::HostFn;

/// A caller, with the fuel that it can still pay for.
#[derive(Drop)]
pub struct Account {
    pub balance: u64,
}

/// A call that was paid for: how it ended, the fuel that was bought for it, and the fuel that it left.
#[derive(Drop)]
pub struct PaidCall {
    pub outcome: Result<Outcome, Refusal>,
    pub bought: u64,
    pub left: u64,
}

/// Buys fuel for a call, makes the call, and returns the fuel that is left to the account.
///
/// The fuel bought is the limit, or the balance if that is less. So the account pays for what the call spent, whether it ended
/// with values, a trap or an exhaustion. It pays nothing if the call was refused.
pub fn pay_for_call(
    account: &mut Account,
    limit: u64,
    embedding: &mut Embedding,
    instance: InstanceNumber,
    export: &str,
    args: &[Val],
) -> PaidCall
    requires nothing { Unit {0} }
    ensures bought { result.bought ≡ min limit account.old.balance }
    ensures called { AppliesAll (HostStep ⟦<dyn HostFn as HostFn>⟧) (embedding_of embedding.old)
        (SetFuel result.bought ∷ Call instance.0 export.now args.now ∷ [])
        (Done ∷ call_reply result.outcome ∷ []) (embedding_of embedding.new) }
    ensures left_over { result.left ≡ (embedding_of embedding.new).state.fuel }
    ensures left { result.left ≤ result.bought }
    ensures paid { account.new.balance + result.bought ≡ account.old.balance + result.left }
{
    let bought = limit.min(account.balance);
    embedding.set_fuel(bought);
    let outcome = embedding.call(instance, export, args);
    let left = embedding.fuel_left();
    account.balance -= bought - left;
    PaidCall {
        outcome,
        bought,
        left,
    }
}
