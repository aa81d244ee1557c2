//! A book's file that was abandoned.
ghost use Rattle.rtgs_book_file.specs.Closed.{LeavesNoMore};

use crate::files_gone::FilesGone;
use crate::held_lock::HeldLock;
use sqlite::{Connection, FileFrom, FileStore, Files, Start};
use std::snapshot::Snapshot;

/// A book's file that was abandoned and released with its lock, as its store was left: over it no desk was opened, no
/// book made in it, and its tables not brought to the newest version. It has no bytes: it is there for contracts, which
/// name by it what was left of the files. Only abandoning a connection makes one, and only copying its log makes what a
/// book is closed to: so neither stands for the other.
#[derive(Drop)]
pub struct AbandonedBook<S: Start> {
    files: Snapshot<Files<FileFrom<S>>>,
}

impl<S: Start> AbandonedBook<S> {
    /// Leaves the files of a connection as they are, and releases them, and then the lock.
    pub(crate) fn of(conn: Connection<FileStore<FileFrom<S>>>, lock: HeldLock) -> AbandonedBook<S>
        ensures { LeavesNoMore conn result.files.value }
    {
        let gone = FilesGone::of(abandoned_files(conn));
        let _name = lock.release(&gone);
        AbandonedBook {
            files: gone.files(),
        }
    }
}

// The files of a store, as they are.
fn abandoned_files<S: Start>(conn: Connection<FileStore<FileFrom<S>>>) -> Files<FileFrom<S>>
    ensures { LeavesNoMore conn result }
{
    conn.into_store().close()
}
