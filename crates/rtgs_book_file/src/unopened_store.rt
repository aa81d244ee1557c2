//! A store over a book's file that did not open.
ghost use Rattle.std.specs.Prelude.{◌≡◌, false, IfOk, IfErr};
ghost use Rattle.sqlite.specs.Files.{file_state, IsOpened};
ghost use Rattle.sqlite.specs.Start.{FindsIn};
ghost use Rattle.sqlite.specs.State.{HasCleanDisk};
ghost use Rattle.sqlite.specs.WalFiles.{image_at};
ghost use Rattle.rtgs_book_file.specs.Files.{fault_of_store};
ghost use Rattle.rtgs_book_file.specs.Refused.{IsNoBook};

use crate::not_reached::NotReached;
use sqlite::{Connection, Error, FileFrom, FileStore, Leftover, Start};
use sqlite_disk::Disk;

/// A store over a book's file that did not open: its error, and what is left of the files, if they were opened. Only
/// `open_store` makes one, and nobody takes it apart: so the files are gone no sooner than this value, unless they were
/// before there was one.
#[derive(Drop)]
pub(crate) struct UnopenedStore<D: Disk + Drop> {
    error: Error,
    left: Option<Leftover<D>>,
}

impl<D: Disk + Drop> UnopenedStore<D> {
    /// Why it did not open.
    pub(crate) fn why(&self) -> NotReached
        ensures { result.fault ≡ fault_of_store self.now.error }
    {
        NotReached::of(&self.error)
    }
}

/// Opens the store over the file at this path, which is made where there is none. Where it does not open, what is left
/// of its files is in the error.
pub(crate) fn open_store<S: Start>(
    rt: &HostRuntime,
    path: &str,
    start: S,
) -> Result<Connection<FileStore<FileFrom<S>>>, UnopenedStore<FileFrom<S>>>
    ensures opened { IfOk result (λ conn. HasCleanDisk (file_state conn) → IsOpened conn) }
    ensures found { IfOk result (λ conn. HasCleanDisk (file_state conn)
        → FindsIn (image_at S.Start) (file_state conn)) }
    ensures idle { IfOk result (λ conn. conn.in_transaction ≡ false) }
    ensures refused { IfErr result (λ it. IsNoBook ⟦<FileFrom<S> as Disk>⟧ (image_at S.Start)
        (fault_of_store it.error)) }
{
    match Connection::open_from(rt, path, false, start) {
        Ok(conn) => Ok(conn),
        Err((error, left)) => Err(UnopenedStore { error, left }),
    }
}
