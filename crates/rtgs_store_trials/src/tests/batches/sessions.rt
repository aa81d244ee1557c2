//! Calls of a desk one after another are one session.
ghost use Rattle.std.specs.Prelude.{◌≡◌, ◌≢◌, ◌∷◌, List, map, length, take, Err, IfOk};
ghost use Rattle.rtgs_book.specs.declared.book.Book.{Book};
ghost use Rattle.rtgs_book.specs.Outcome.{Reply, own_of};
ghost use Rattle.rtgs_book.specs.Session.{IsSession};
ghost use Rattle.rtgs_desk.specs.Holding.{Holds};
ghost use Rattle.rtgs_desk.specs.batches.Batches.{orders_of, replies_of, with_stop};

use super::super::setting::{alone, code};
use super::{THREE_ROWS, open_desk, rows_of};
use rtgs_book::{Answer, Command, NewOrder, Refusal, WholeAnswer};
use rtgs_desk::{Desk, submit_batch};
use rtgs_keeper::Keeper;
use rtgs_laws::repeats::laws::sessions_join;
use rtgs_money::Code;
use rtgs_order_files::BatchResult;
use rtgs_tests_desks::ensure;
use std::alloc::{AllocError, Global};
use std::test::Fail;

// Submits a command and then a batch. The replies of the session are the desk's whole replies, of which the rows of the
// batch show the own part.
fn submit_and_send<K: Keeper>(
    alloc: Global,
    desk: &mut Desk<K>,
    command: Command,
    sender: Code,
    rows: &[NewOrder],
) -> Result<(Result<WholeAnswer, Refusal>, BatchResult), AllocError>
    ensures { IfOk result (λ (reply, batch). K.is_honest desk.new.keeper → (book : Book) → Holds K.Keeper desk.old book
        → reply ≢ Err Refusal.StoreFault → (found : Book) → K.leaves desk.new.keeper found
        → (given : List Reply) × (map own_of given ≡ replies_of batch.replies.items)
        × IsSession (record {
          start = book;
          commands = command ∷ orders_of sender (take (length (with_stop given batch.stopped)) rows.now);
          replies = reply ∷ with_stop given batch.stopped;
          found = found;
        })) }
{
    sessions_join();
    desk.holds_a_sound_book();
    let reply = desk.submit(command);
    desk.holds_a_sound_book();
    let batch = submit_batch(alloc, desk, sender, rows)?;
    Ok((reply, batch))
}

#[test]
fn a_command_and_a_batch_are_a_session(rt: HostRuntime) -> Result<(), Fail> {
    let sender = code("ALFA")?;
    let rows = rows_of(rt.alloc(), THREE_ROWS)?;
    let mut desk = open_desk(rt.alloc())?;
    let (reply, batch) = submit_and_send(
        rt.alloc(),
        &mut desk,
        Command::Resolve,
        sender,
        rows.as_slice(),
    )?;
    ensure(reply == alone(Answer::Nothing))?;
    ensure(batch.replies.len() == 3)
}
