//! What is left of a book's file that was closed.
ghost use Rattle.std.specs.Prelude.{◌≡◌, ◌↔◌, None, IsTrue};
ghost use Rattle.rtgs_book_file.specs.Closed.{LeavesClosed};

use crate::closed_files::ClosedFiles;
use crate::files_gone::FilesGone;
use crate::held_lock::HeldLock;
use crate::released::Released;
use sqlite::{Connection, FileFrom, FileStore, Start};

/// What is left of a book's file that was closed, and its lock. As the lock cannot be dropped, it ends by `release`
/// alone.
pub struct ClosedBook<S: Start> {
    files: ClosedFiles<FileFrom<S>>,
    lock: HeldLock,
}

impl<S: Start> ClosedBook<S> {
    /// Copies the log into the file. Where that fails, what was committed stands in the log.
    pub(crate) fn copied(conn: Connection<FileStore<FileFrom<S>>>, lock: HeldLock) -> ClosedBook<S>
        ensures closed { LeavesClosed conn result.files }
        ensures held { result.lock ≡ lock }
    {
        let files = ClosedFiles::of(conn);
        ClosedBook { files, lock }
    }

    /// Whether the log was copied into the file. What was committed stands in the log where it was not.
    pub fn is_copied(&self) -> bool
        ensures { IsTrue result ↔ (self.now.files.uncopied ≡ None) }
    {
        self.files.are_copied()
    }

    /// Lets the files go, and then the lock.
    pub fn release(self) -> Released<S>
        ensures files { result.files.value ≡ self.files }
        ensures name { result.name.value ≡ self.lock.locked.name }
    {
        let ClosedBook { files, lock } = self;
        let gone = FilesGone::of(files);
        let name = lock.release(&gone);
        Released::of(gone, name)
    }
}
