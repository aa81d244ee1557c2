//! The pages of a new book's file.
ghost use Rattle.std.specs.Prelude.{◌≡◌, IfOk, IfErr, OnOk};
ghost use Rattle.sqlite.specs.Files.{image_of};
ghost use Rattle.sqlite.specs.WalFiles.{image_at};
ghost use Rattle.rtgs_book_file.specs.Starting.{IsMadeIn, IsCopied, HoldMore, IsStarted, IsNotStarted};

use crate::not_started::NotStarted;
use crate::schema_size::over;
use sqlite::{FileFrom, FileStore, Files, Start};
use sqlite_disk::Disk;
use sqlite_store::OpenError;
use sqlite_wal::PageSize;
use std::alloc::Global;

// How many bytes a page of a new book has. An order changes a few bytes of some five pages, and the store writes each
// of them whole. The format has no smaller ones. Books with other pages are read as well.
const SMALL_SIZE: usize = 512;

/// Makes an empty database with small pages in a file that is missing or empty, since the store would make larger ones.
/// If the file and its log hold a database, none is made, and the store that is then opened judges it.
pub(crate) fn make_database<S: Start>(
    rt: &HostRuntime,
    path: &str,
    start: S,
) -> Result<(), NotStarted>
    ensures started { OnOk result (IsStarted ⟦<FileFrom<S> as Disk>⟧ (image_at S.Start)) }
    ensures refused { IfErr result (λ unstarted. IsNotStarted unstarted.fault) }
{
    match sqlite_std_file::open(rt, path, start) {
        Ok(files) => make_in(rt.alloc(), files),
        Err(error) => Err(NotStarted::of_path(&error)),
    }
}

fn make_in<D: Disk + Drop>(alloc: Global, files: Files<D>) -> Result<(), NotStarted>
    ensures started { OnOk result (IsStarted D.Disk (image_of D.Disk files)) }
    ensures refused { IfErr result (λ unstarted. IsNotStarted unstarted.fault) }
{
    match created(alloc, files) {
        Ok(store) => copy_log(store),
        Err(error) => NotStarted::unless_made(error),
    }
}

// The store that made a database in these files.
fn created<D: Disk + Drop>(alloc: Global, files: Files<D>) -> Result<FileStore<D>, OpenError>
    ensures made { IfOk result (IsMadeIn (image_of D.Disk files)) }
    ensures more { IfErr result (λ error. error ≡ OpenError.Refused → HoldMore D.Disk (image_of D.Disk files)) }
{
    if !files.may_be_used() {
        return Err(OpenError::Io);
    }
    let Some(size) = PageSize::new(SMALL_SIZE) else {
        return Err(OpenError::Io);
    };
    // (it asks for memory alone, and reads nothing)
    let Some(unopened) = over(alloc, files, size, false) else {
        return Err(OpenError::OutOfMemory);
    };
    match unopened.create() {
        Ok(store) => Ok(store),
        Err((error, _)) => Err(error),
    }
}

// Copies the log into the file.
fn copy_log<D: Disk + Drop>(mut store: FileStore<D>) -> Result<(), NotStarted>
    ensures copied { OnOk result (IsCopied store) }
    ensures refused { IfErr result (λ unstarted. IsNotStarted unstarted.fault) }
{
    match store.checkpoint() {
        Ok(()) => Ok(()),
        Err(error) => Err(NotStarted::of_copying(error)),
    }
}
