//! A book's file that was closed and released.
ghost use Rattle.std.specs.Prelude.{◌≡◌};

use crate::closed_files::ClosedFiles;
use crate::files_gone::FilesGone;
use sqlite::{FileFrom, Start};
use std::snapshot::Snapshot;

/// A book's file that was closed and released, with its lock. It has no bytes: it is there for contracts, which name by
/// it what was left of the files, and the lock's own file. Only a book that was closed makes one.
#[derive(Drop)]
pub struct Released<S: Start> {
    files: Snapshot<ClosedFiles<FileFrom<S>>>,
    name: Snapshot<String>,
}

impl<S: Start> Released<S> {
    /// What was left of these files, whose lock had this name.
    pub(crate) fn of(
        gone: FilesGone<ClosedFiles<FileFrom<S>>>,
        name: Snapshot<String>,
    ) -> Released<S>
        ensures files { result.files ≡ gone.files }
        ensures name { result.name ≡ name }
    {
        Released {
            files: gone.files(),
            name,
        }
    }
}
