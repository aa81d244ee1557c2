//! Laws of slack: for how long a choice bounds what can settle, and so for how long nothing can.
//! Each is the contract of a function that does nothing.
//!
//! A ceiling over queues is a choice with a limit for each participant: while each headroom, a
//! balance above its floor, is below its limit, no feasible choice exceeds it. A limit does not
//! depend on the positions, so a change of balances and floors leaves it. After `greatest` the limits
//! are the headrooms with their slacks on top.
ghost use Rattle.std.specs.Prelude.{◌≡◌, ℕ, ℤ, pos, ◌+ℤ◌, ◌≤ℤ◌, ◌<ℤ◌, ◌<◌, ◌==◌, [], List, length, if◌then◌else◌};
ghost use Rattle.rtgs_gridlock.specs.declared.queues.Payment.{Payment};
ghost use Rattle.rtgs_gridlock.specs.declared.positions.Position.{Position};
ghost use Rattle.rtgs_gridlock.specs.Choices.{amount_to, queue_of, IsWithin};
ghost use Rattle.rtgs_gridlock.specs.Laws.{IsSettled};
ghost use Rattle.rtgs_gridlock.specs.Slack.{AreAtMost, AreBelow, IsAppended, IsCalm, IsCeiling, IsWithdrawn, HasSlack};
ghost use Rattle.rtgs_gridlock.specs.Slack.{RoseLess, net_of};

/// Where a resolution chose nothing, nothing can settle as long as no headroom rises by as much as
/// its slack.
pub fn calm_within_slack()
    ensures { (positions moved : List Position) → (queues : List (List Payment)) → (slacks : List ℕ) →
        HasSlack positions queues (λ _. 0) slacks → RoseLess positions moved slacks (length queues) →
        IsCalm moved queues }
{}

/// The same of limits: nothing can settle while each headroom is below its limit. Lower limits do
/// as well.
pub fn calm_below_limits()
    ensures calm { (positions : List Position) → (queues : List (List Payment)) → (limits : ℕ → ℤ) →
        IsCeiling queues (λ _. 0) limits → AreBelow (length queues) positions limits → IsCalm positions queues }
    ensures lower { (queues : List (List Payment)) → (choice : ℕ → ℕ) → (limits lower : ℕ → ℤ) →
        IsCeiling queues choice limits → AreAtMost (length queues) lower limits → IsCeiling queues choice lower }
{}

/// A payment is appended of a sender that could not pay its whole queue, even if all that is queued
/// came in: its new limit is what the whole queue would cost it.
pub fn appended_without_cover()
    ensures { (queues new : List (List Payment)) → (sender : ℕ) → (payment : Payment) → (choice : ℕ → ℕ) →
        (limits lower : ℕ → ℤ) → IsCeiling queues choice limits → IsAppended queues sender payment new →
        AreAtMost (length queues) lower limits → lower sender ≤ℤ net_of new sender → IsCeiling new choice lower }
{}

/// A payment is appended whose receiver could get it and still be below its limit: that limit falls
/// by the amount. Where it is the first of its queue, the sender's new limit is the amount.
pub fn appended_within_slack()
    ensures { (queues new : List (List Payment)) → (sender : ℕ) → (payment : Payment) → (limits lower : ℕ → ℤ) →
        IsCeiling queues (λ _. 0) limits → IsAppended queues sender payment new → (payment.receiver ≡ sender → ⊥) →
        ((p : ℕ) → p < length queues → (lower p +ℤ pos (amount_to p payment)) ≤ℤ limits p) →
        (queue_of queues sender ≡ [] → lower sender ≤ℤ pos payment.amount) → IsCeiling new (λ _. 0) lower }
{}

/// A payment is withdrawn from anywhere in a queue: the sender's limit falls by the amount.
pub fn withdrawn_within_slack()
    ensures { (queues new : List (List Payment)) → (sender : ℕ) → (payment : Payment) → (choice : ℕ → ℕ) →
        (limits lower : ℕ → ℤ) → IsCeiling queues choice limits → IsWithdrawn queues sender payment new →
        ((p : ℕ) → p < length queues → (lower p +ℤ pos (if p == sender then payment.amount else 0)) ≤ℤ limits p) →
        IsCeiling new choice lower }
{}

/// The last payment of a queue is withdrawn: all limits stay, since what can be chosen without it could be before.
pub fn last_withdrawn_keeps_limits()
    ensures { (queues new : List (List Payment)) → (sender : ℕ) → (payment : Payment) → (choice : ℕ → ℕ) →
        (limits : ℕ → ℤ) → IsCeiling queues choice limits → IsAppended new sender payment queues →
        IsCeiling new choice limits }
{}

/// Once the choice is settled, each participant has the slack that it had before, and nothing of the
/// rest can settle within it.
pub fn slack_outlasts_settling()
    ensures { (positions rest_positions : List Position) → (queues rest_queues : List (List Payment)) →
        (choice : ℕ → ℕ) → (slacks : List ℕ) → IsWithin queues choice → HasSlack positions queues choice slacks →
        IsSettled positions queues choice rest_positions rest_queues →
        HasSlack rest_positions rest_queues (λ _. 0) slacks }
{}

/// Who has nothing queued needs no limit, if it had one above zero: what it has gives nobody more to
/// settle.
pub fn no_queue_no_limit()
    ensures { (queues : List (List Payment)) → (idle : ℕ) → (choice : ℕ → ℕ) → (limits higher : ℕ → ℤ) →
        IsCeiling queues choice limits → queue_of queues idle ≡ [] → pos 0 <ℤ limits idle →
        ((p : ℕ) → p < length queues → (p ≡ idle → ⊥) → higher p ≤ℤ limits p) → IsCeiling queues choice higher }
{}

/// Where nothing is queued, any limits do.
pub fn nothing_queued_no_limits()
    ensures { (queues : List (List Payment)) → (limits : ℕ → ℤ) →
        ((p : ℕ) → p < length queues → queue_of queues p ≡ []) → IsCeiling queues (λ _. 0) limits }
{}
