//! Files that were released.
ghost use Rattle.std.specs.Prelude.{◌≡◌};

use crate::closed_files::ClosedFiles;
use crate::unopened_store::UnopenedStore;
use sqlite::{FileFrom, Files, Start};
use std::snapshot::Snapshot;

/// What a store leaves of a book's files. Each is made of what the store gave alone, and nothing else can be said to be
/// gone: so no value that never had files can.
pub(crate) trait StoreFiles: Drop {}

/// The files of a store that was abandoned.
impl<S: Start> StoreFiles for Files<FileFrom<S>> {}

/// A store that did not open, with what is left of its files, if anything is.
impl<S: Start> StoreFiles for UnopenedStore<FileFrom<S>> {}

/// The files of a store that was closed.
impl<S: Start> StoreFiles for ClosedFiles<FileFrom<S>> {}

/// Files that were released, or what was left of them, as contracts see them. Only to drop them makes one. The lock of
/// a book's file is released for such a value alone, and so after the files.
#[derive(Drop)]
pub(crate) struct FilesGone<F: StoreFiles> {
    files: Snapshot<F>,
}

impl<F: StoreFiles> FilesGone<F> {
    /// Lets these files go.
    pub(crate) fn of(files: F) -> FilesGone<F>
        ensures { result.files.value ≡ files }
    {
        let gone = FilesGone {
            files: Snapshot::of(&files),
        };
        drop(files);
        gone
    }

    /// The files, as contracts see them.
    pub(crate) fn files(self) -> Snapshot<F>
        ensures { result ≡ self.files }
    {
        self.files
    }
}
