//! The files of a store that was closed.
ghost use Rattle.std.specs.Prelude.{◌≡◌, ◌↔◌, None, IsTrue};
ghost use Rattle.rtgs_book_file.specs.Closed.{LeavesClosed};

use sqlite::{Connection, Error, FileStore, Files};
use sqlite_disk::Disk;

/// The files of a store that was closed, and the error that kept its log from being copied into the database file, if
/// it was not copied: what was committed then stands in the log.
#[derive(Drop)]
pub struct ClosedFiles<D: Disk + Drop> {
    files: Files<D>,
    uncopied: Option<Error>,
}

impl<D: Disk + Drop> ClosedFiles<D> {
    /// Copies the log of a connection into the file, and closes it.
    pub(crate) fn of(conn: Connection<FileStore<D>>) -> ClosedFiles<D>
        ensures { LeavesClosed conn result }
    {
        match conn.close_files() {
            Ok(files) => ClosedFiles {
                files,
                uncopied: None,
            },
            Err((error, store)) => ClosedFiles {
                files: store.close(),
                uncopied: Some(error),
            },
        }
    }

    /// Whether the log was copied into the file.
    pub(crate) fn are_copied(&self) -> bool
        ensures { IsTrue result ↔ (self.now.uncopied ≡ None) }
    {
        self.uncopied.is_none()
    }
}
