//! A book with which nothing more is done.
ghost use Rattle.std.specs.Prelude.{◌≡◌};
ghost use Rattle.rtgs_book_file.specs.Closed.{LeavesClosed};

use crate::closed_book::ClosedBook;
use crate::held_lock::HeldLock;
use crate::store::FileKeeper;
use rtgs_desk::Desk;
use rtgs_keeper::Keeper;
use sqlite::Start;

/// A book with which nothing more is done, and the desk over it as it was left. Only an open book makes one, and as it
/// cannot be dropped, it ends by `close` alone, or by that of a `BookFile`.
pub struct FinishedBook<K: Keeper> {
    desk: Desk<K>,
    lock: HeldLock,
}

impl<K: Keeper> FinishedBook<K> {
    /// The book of this desk, which holds this lock.
    pub(crate) fn of(desk: Desk<K>, lock: HeldLock) -> FinishedBook<K>
        ensures desk { result.desk ≡ desk }
        ensures held { result.lock ≡ lock }
    {
        FinishedBook { desk, lock }
    }

    /// The keeper under the desk, and the lock.
    pub(crate) fn into_parts(self) -> (K, HeldLock)
        ensures keeper { result.0 ≡ self.desk.keeper }
        ensures held { result.1 ≡ self.lock }
    {
        let FinishedBook { desk, lock } = self;
        (desk.into_keeper(), lock)
    }
}

impl<S: Start> FinishedBook<FileKeeper<S>> {
    /// Copies the log into the file. The lock stays held. What was committed stands in the log where the copying fails.
    pub fn close(self) -> ClosedBook<S>
        ensures closed { LeavesClosed self.desk.keeper.conn result.files }
        ensures held { result.lock ≡ self.lock }
    {
        let FinishedBook { desk, lock } = self;
        ClosedBook::copied(desk.into_keeper().into_connection(), lock)
    }
}
