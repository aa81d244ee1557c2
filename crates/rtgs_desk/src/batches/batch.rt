//! Batches of orders of one sender.
ghost use Rattle.std.specs.Prelude.{◌≡◌, ◌≢◌, [], true, false, length, Some, Ok, Err, IsTrue, IfOk, IfErr, OnErr};
ghost use Rattle.rtgs_book.specs.declared.book.Book.{Book};
ghost use Rattle.rtgs_book.specs.Outcome.{Reply, alone, own_of};
ghost use Rattle.rtgs_book.specs.Session.{is_judged};
ghost use Rattle.rtgs_desk.specs.Holding.{Holds, Acts};
ghost use Rattle.rtgs_desk.specs.Replies.{answers_an_order};
ghost use Rattle.rtgs_desk.specs.batches.Batches.{order_of, reply_of, replied, StopsAfter};
ghost use Rattle.rtgs_desk.specs.batches.Sent.{Sent};

use crate::Desk;
use crate::batches::laws::{resumed_batches_end_alike, stopped_batches_end_alike};
use rtgs_book::{Answer, Command, Known, NewOrder, Refusal};
use rtgs_keeper::Keeper;
use rtgs_laws::repeats::laws::runs_last;
use rtgs_money::Code;
use rtgs_order_files::{BatchResult, RowReply};
use std::alloc::{AllocError, Global};

/// Submits the rows in order, each as an order of the sender, and tells what the desk replied to each. It stops at the
/// row at which memory is refused, or the store fails or had failed before, and gives that refusal. Lack of memory for
/// the replies comes before the first row.
pub fn submit_batch<K: Keeper>(
    alloc: Global,
    desk: &mut Desk<K>,
    sender: Code,
    rows: &[NewOrder],
) -> Result<BatchResult, AllocError>
    ensures stopped { IfOk result (λ batch. StopsAfter (length batch.replies.items) (length rows.now) batch.stopped) }

    // Of a book that the desk holds the rows make what the definitions say.
    ensures sent { IfOk result (λ batch. K.is_honest desk.new.keeper → (book : Book) → Holds K.Keeper desk.old book
        → Sent K.Keeper book sender rows.now batch.replies.items batch.stopped desk.new) }
    ensures honest { K.is_honest desk.new.keeper → K.is_honest desk.old.keeper }

    // It stops with a fault of the store where the keeper failed in this batch, and nowhere else.
    ensures fault { IfOk result (λ batch. batch.stopped ≡ Some Refusal.StoreFault
        → (K.has_failed desk.old.keeper ≡ false) × (K.has_failed desk.new.keeper ≡ true)) }
    ensures only_fault { IfOk result (λ batch. batch.stopped ≢ Some Refusal.StoreFault
        → K.has_failed desk.new.keeper ≡ K.has_failed desk.old.keeper) }
    ensures failed { K.has_failed desk.old.keeper ≡ true → (desk.new ≡ desk.old)
        × IfOk result (λ batch. (batch.replies.items ≡ []) × (rows.now ≢ [] → batch.stopped ≡ Some Refusal.Failed)) }
    ensures only_failed { IfOk result (λ batch. batch.stopped ≡ Some Refusal.Failed
        → K.has_failed desk.old.keeper ≡ true) }

    // Without memory for the replies nothing is done.
    ensures err { OnErr result (desk.new ≡ desk.old) }
{
    desk.holds_a_sound_book();
    runs_last();
    resumed_batches_end_alike();
    stopped_batches_end_alike();
    let mut replies = Vec::with_capacity(alloc, rows.len())?;
    for row in rows {
        match submit_row(desk, sender, row) {
            Ok(reply) => replies.push_reserved(reply),
            Err(refusal) => {
                return Ok(BatchResult {
                    replies,
                    stopped: Some(refusal),
                });
            }
        }
    }
    desk.holds_a_sound_book();
    Ok(BatchResult {
        replies,
        stopped: None,
    })
}

// Submits one row. It is an error where the desk has not judged the order.
fn submit_row<K: Keeper>(
    desk: &mut Desk<K>,
    sender: Code,
    row: &NewOrder,
) -> Result<RowReply, Refusal>
    ensures judged { IfOk result (λ reply. is_judged (alone (reply_of reply)) ≡ true) }
    ensures unjudged { IfErr result (λ refusal. is_judged (Err refusal) ≡ false) }
    ensures acts { K.is_honest desk.new.keeper → (book : Book) → Holds K.Keeper desk.old book
        → (whole : Reply) × (own_of whole ≡ replied result)
        × Acts K.Keeper book (order_of sender row.now) whole desk.new }
    ensures honest { K.is_honest desk.new.keeper → K.is_honest desk.old.keeper }
    ensures fault { result ≡ Err Refusal.StoreFault
        → (K.has_failed desk.old.keeper ≡ false) × (K.has_failed desk.new.keeper ≡ true) }
    ensures only_fault { result ≢ Err Refusal.StoreFault → K.has_failed desk.new.keeper ≡ K.has_failed desk.old.keeper }
    ensures failed { K.has_failed desk.old.keeper ≡ true → (result ≡ Err Refusal.Failed) × (desk.new ≡ desk.old) }
    ensures only_failed { result ≡ Err Refusal.Failed → K.has_failed desk.old.keeper ≡ true }
{
    let command = Command::Order {
        sender,
        order: *row,
    };
    match desk.submit(command) {
        Ok(answer) => Ok(accepted(&answer.own)),
        Err(refusal) => refused(refusal),
    }
}

// The reply that is this answer to an order.
fn accepted(answer: &Answer) -> RowReply
    requires { IsTrue (answers_an_order answer.now) }
    ensures { reply_of result ≡ Ok answer.now }
{
    match answer {
        Answer::Settled { number, mark } => RowReply::Settled {
            number: *number,
            mark: *mark,
        },
        Answer::Queued { number, place } => RowReply::Queued {
            number: *number,
            place: *place,
        },
        Answer::Held { number, due } => RowReply::Held {
            number: *number,
            due: *due,
        },
        Answer::Repeated(Known::Order { number, state }) => RowReply::Repeated {
            number: *number,
            state: *state,
        },
        Answer::Added
        | Answer::CreditSet
        | Answer::Posted { .. }
        | Answer::Opened
        | Answer::Withdrawn { .. }
        | Answer::Resolved { .. }
        | Answer::Nothing
        | Answer::CutOffDone
        | Answer::Closed { .. }
        | Answer::Repeated(Known::Nothing | Known::Posting { .. }) => unreachable!(),
    }
}

// The reply that is this refusal. It is an error where the desk has not judged the order.
fn refused(refusal: Refusal) -> Result<RowReply, Refusal>
    ensures judged { is_judged (Err refusal) ≡ true → result ≡ Ok (RowReply.Refused refusal) }
    ensures unjudged { is_judged (Err refusal) ≡ false → result ≡ Err refusal }
{
    match refusal {
        Refusal::OutOfMemory | Refusal::StoreFault | Refusal::Failed => Err(refusal),
        _ => Ok(RowReply::Refused(refusal)),
    }
}
