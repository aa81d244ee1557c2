//! The file of a book on a disk, over which the store is.
ghost use Rattle.std.specs.Prelude.{◌≡◌, ℕ, List, string_bytes};
ghost use Rattle.rtgs_book_file.specs.FileOnDisk.{facts_from};
ghost use Rattle.rtgs_book_file.specs.LockName.{lock_name};

use crate::book_file::BookFile;
use crate::book_lock::BookLock;
use crate::closed_book::ClosedBook;
use crate::file_fault::FileFault;
use crate::held_lock::HeldLock;
use crate::open_book::OpenBook;
use crate::released::Released;
use crate::store::FileKeeper;
use crate::unopened::Unopened;
use rtgs_desk::Desk;
use rtgs_keeper::Keeper;
use sqlite::Start;

/// The file of a book on a disk, which held what `S` says. It is locked first, for whatever is done with it.
impl<S: Start> BookFile for S {
    type Kept = FileKeeper<S>;

    type Refused = Unopened<S>;

    type Released = Released<S>;

    ghost facts = { facts_from ⟦<FileKeeper<S> as Keeper>⟧ S.Start (λ keeper. keeper.conn) };

    fn make(self, rt: &HostRuntime, path: &str) -> Result<Released<S>, Unopened<S>> {
        let lock = BookLock::take(rt, path, self)?;
        lock.make(rt)
    }

    fn migrate(self, rt: &HostRuntime, path: &str) -> Result<(Released<S>, bool), Unopened<S>> {
        let lock = BookLock::take(rt, path, self)?;
        lock.migrate(rt)
    }

    fn open(self, rt: &HostRuntime, path: &str) -> Result<OpenBook<FileKeeper<S>>, Unopened<S>> {
        let lock = BookLock::take(rt, path, self)?;
        lock.open(rt)
    }

    fn release(keeper: FileKeeper<S>, lock: HeldLock) -> Released<S>
        ensures closed { (facts_from ⟦<FileKeeper<S> as Keeper>⟧ S.Start (λ keeper. keeper.conn)).was_closed keeper
            result }
        ensures at { (path : List ℕ) → string_bytes lock.locked.name ≡ lock_name path
            → (facts_from ⟦<FileKeeper<S> as Keeper>⟧ S.Start (λ keeper. keeper.conn)).closed_at path result }
    {
        ClosedBook::copied(keeper.into_connection(), lock).release()
    }

    fn fault(refused: &Unopened<S>) -> FileFault {
        refused.fault()
    }

    fn what_a_session_leaves(desk: &Desk<FileKeeper<S>>) {
        crate::stored_desk::laws::what_a_session_leaves(desk);
    }
}
