//! A batch that is sent, and a desk that is stopped after it.
ghost use Rattle.std.specs.Prelude.{◌≡◌, ◌≢◌, Some, length, IfOk};
ghost use Rattle.sqlite.specs.Held.{state};
ghost use Rattle.sqlite.specs.State.{HasCleanDisk};
ghost use Rattle.sqlite.specs.Tree.{Trees};
ghost use Rattle.rtgs_book.specs.declared.book.Book.{Book};
ghost use Rattle.rtgs_desk.specs.batches.Batches.{StopsAfter};
ghost use Rattle.rtgs_desk.specs.batches.Sent.{Sent};
ghost use Rattle.rtgs_desk.specs.Holding.{Holds};
ghost use Rattle.rtgs_book_file.specs.stored_desk.Stored.{AreTablesOf};

use crate::sessions::{NoSession, Stop};
use crate::stopping::found_again;
use rtgs_book::{NewOrder, Refusal};
use rtgs_desk::{Desk, submit_batch};
use rtgs_keeper::Keeper;
use rtgs_money::Code;
use rtgs_order_files::BatchResult;
use rtgs_tables::SqlKeeper;
use sqlite::Alter;
use sqlite_trees::store::Reopen;
use std::alloc::Global;

/// Sends the rows of an order file, and gives how each was answered, up to the one at which the batch stopped, if it
/// did: no row behind that one is answered.
pub(crate) fn send<K: Keeper>(
    alloc: Global,
    desk: &mut Desk<K>,
    sender: Code,
    rows: &[NewOrder],
) -> Result<BatchResult, NoSession>
    ensures stopped { IfOk result (λ batch. StopsAfter (length batch.replies.items) (length rows.now) batch.stopped) }
    ensures sent { IfOk result (λ batch. K.is_honest desk.new.keeper → (book : Book) → Holds K.Keeper desk.old book
        → Sent K.Keeper book sender rows.now batch.replies.items batch.stopped desk.new) }
    ensures honest { K.is_honest desk.new.keeper → K.is_honest desk.old.keeper }
    ensures only_fault { IfOk result (λ batch. batch.stopped ≢ Some Refusal.StoreFault
        → K.has_failed desk.new.keeper ≡ K.has_failed desk.old.keeper) }
{
    match submit_batch(alloc, desk, sender, rows) {
        Ok(batch) => Ok(batch),
        Err(_) => Err(NoSession::OutOfMemory),
    }
}

/// Stops a desk, and opens it again over what the stop left.
pub(crate) fn resumed<S: Alter + Reopen + Drop>(
    alloc: Global,
    desk: Desk<SqlKeeper<S>>,
    stop: Stop,
) -> Result<Desk<SqlKeeper<S>>, NoSession>
    ensures found { IfOk result (λ next. HasCleanDisk (state S.Store next.keeper.conn)
        → (trees : Trees) × (state S.Store desk.keeper.conn).may_leave trees
        × ((book : Book) → AreTablesOf book trees → Holds ⟦<SqlKeeper<S> as Keeper>⟧ next book)) }
    ensures honest { IfOk result (λ next. HasCleanDisk (state S.Store next.keeper.conn)
        → HasCleanDisk (state S.Store desk.keeper.conn)) }
{
    match found_again(alloc, desk, stop) {
        Ok(next) => Ok(next),
        Err((cause, _)) => Err(cause),
    }
}
