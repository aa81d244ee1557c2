//! The greatest choice of queue beginnings.
ghost use Rattle.std.specs.Prelude.{◌≡◌, ◌+◌, ◌*◌, ◌^◌, ◌<◌, ◌≤◌, IsTrue, IsFalse, List, length, slice_index};
ghost use Rattle.rtgs_gridlock.specs.declared.positions.Position.{Position};
ghost use Rattle.rtgs_gridlock.specs.Choices.{payment_count, AreInRange, AreResolvable, IsGreatest};
ghost use Rattle.rtgs_gridlock.specs.Slack.{HasSlack};
ghost use Rattle.rtgs_gridlock.specs.Workspaces.{reserved_participants, reserved_payments, lengths_of, slacks_of};
ghost use Rattle.rtgs_gridlock.specs.Workspaces.{steps_of, steps_left, untested_count, HasRoomFor, KeepsRoom};
ghost use Rattle.rtgs_gridlock.specs.Resolving.{IsResolving};

use crate::positions::Positions;
use crate::queues::Queues;
use crate::workspace::Workspace;

/// Leaves in the workspace the lengths of the greatest choice: of the queue beginnings that can
/// settle together with no participant below its floor, those that are longest at every
/// participant; and beside them each participant's slack. It takes no memory, and at most n + 3q
/// steps for n participants and q queued payments, where a step is one cover test or one removal.
/// The workspace counts them on top of those that it has counted before.
///
/// All payments are chosen at first, and the newest chosen payment of a participant without cover
/// is taken back until all have cover, as in Bech and Soramäki 2001.
pub fn greatest(positions: &Positions, queues: &Queues, workspace: &mut Workspace)
    requires resolvable { AreResolvable positions.now queues.now }
    requires room { HasRoomFor workspace.old queues.now }
    ensures length { length (lengths_of workspace.new) ≡ length queues.now }
    ensures greatest { IsGreatest positions.now queues.now (slice_index (lengths_of workspace.new)) }

    // The choice also bounds what could settle over the same queues, while nobody gets as much
    // further above its floor as its slack.
    ensures within_slack { HasSlack positions.now queues.now (slice_index (lengths_of workspace.new))
        (slacks_of workspace.new) }
    ensures steps { steps_of workspace.new ≤ steps_of workspace.old + length queues.now + 3 * payment_count queues.now }
    ensures counted { steps_of workspace.old ≤ steps_of workspace.new }
    ensures room { KeepsRoom workspace.old workspace.new }
{
    begin(positions, queues, workspace);
    take_turns(queues, workspace);
}

/// Chooses all payments, and puts every participant on the list of those still to be tested. This
/// takes no step.
fn begin(positions: &Positions, queues: &Queues, workspace: &mut Workspace)
    requires resolvable { AreResolvable positions.now queues.now }
    requires participants { length queues.now ≤ reserved_participants workspace.old }
    requires payments { payment_count queues.now ≤ reserved_payments workspace.old }
    ensures resolving { IsResolving positions.now queues.now workspace.new }
    ensures few { payment_count queues.now < 2 ^ 64 }
    ensures left { steps_left queues.now workspace.new ≤ length queues.now + 3 * payment_count queues.now }
    ensures steps { steps_of workspace.new ≡ steps_of workspace.old }
    ensures room { KeepsRoom workspace.old workspace.new }
{
    workspace.fill(positions, queues);
    workspace.list_all();
}

/// Takes turns until nobody is still to be tested.
fn take_turns(queues: &Queues, workspace: &mut Workspace)
    requires receivers { AreInRange queues.now }
    requires resolving { (positions : List Position) × IsResolving positions queues.now workspace.old }
    ensures length { length (lengths_of workspace.new) ≡ length queues.now }
    ensures greatest { (positions : List Position) → IsResolving positions queues.now workspace.old →
        IsGreatest positions queues.now (slice_index (lengths_of workspace.new)) }
    ensures within_slack { (positions : List Position) → IsResolving positions queues.now workspace.old →
        HasSlack positions queues.now (slice_index (lengths_of workspace.new)) (slacks_of workspace.new) }
    ensures steps { steps_of workspace.new ≤ steps_of workspace.old + steps_left queues.now workspace.old }
    ensures counted { steps_of workspace.old ≤ steps_of workspace.new }
    ensures room { KeepsRoom workspace.old workspace.new }
{
    while turn(queues, workspace) {}
}

/// One turn: a participant is taken out of the list of those still to be tested, and where it has
/// no cover, its newest chosen payment is taken back, and both parties are to be tested again.
/// False where the list was empty.
fn turn(queues: &Queues, workspace: &mut Workspace) -> bool
    requires receivers { AreInRange queues.now }
    requires resolving { (positions : List Position) × IsResolving positions queues.now workspace.old }
    ensures resolving { (positions : List Position) → IsResolving positions queues.now workspace.old →
        IsResolving positions queues.now workspace.new }
    ensures ended { IsFalse result →
        (untested_count workspace.new ≡ 0) × (steps_of workspace.new ≡ steps_of workspace.old) }
    ensures fewer { IsTrue result → steps_left queues.now workspace.new < steps_left queues.now workspace.old }
    ensures counted { steps_of workspace.old ≤ steps_of workspace.new }

    // The steps that were taken and those that may still come are no more than before.
    ensures steps { steps_of workspace.new + steps_left queues.now workspace.new
        ≤ steps_of workspace.old + steps_left queues.now workspace.old }
    ensures room { KeepsRoom workspace.old workspace.new }
{
    let Some(index) = workspace.next_untested() else {
        return false;
    };
    if !workspace.covered(index) {
        let payment = workspace.take_back(index, queues);
        workspace.list_parties(index, payment.receiver);
    }
    true
}
