//! The store over a file, and the keeper over it.
ghost use Rattle.std.specs.Prelude.{◌≡◌, false, IfOk, IfErr};
ghost use Rattle.sqlite.specs.Files.{file_state, IsOpened};
ghost use Rattle.sqlite.specs.Start.{FindsIn};
ghost use Rattle.sqlite.specs.State.{HasCleanDisk};
ghost use Rattle.sqlite.specs.WalFiles.{image_at};
ghost use Rattle.rtgs_book_file.specs.Refused.{IsNoBook};

use crate::files_gone::FilesGone;
use crate::held_lock::HeldLock;
use crate::looked_at::LookedAt;
use crate::not_reached::NotReached;
use crate::unopened_store::open_store;
use rtgs_tables::SqlKeeper;
use sqlite::{Connection, FileFrom, FileStore, Start};
use sqlite_disk::Disk;

/// The keeper over a file that held what `S` says.
pub type FileKeeper<S> = SqlKeeper<FileStore<FileFrom<S>>>;

/// The store over a file that held what `S` says, which is made where there is none, and the lock of the file. The file
/// was locked and looked at before. Where it does not open, the lock is released.
pub(crate) fn connect<S: Start>(
    rt: &HostRuntime,
    file: LookedAt<'_, S>,
) -> Result<(Connection<FileStore<FileFrom<S>>>, HeldLock), NotReached>
    ensures opened { IfOk result (λ (conn, _). HasCleanDisk (file_state conn) → IsOpened conn) }
    ensures found { IfOk result (λ (conn, _). HasCleanDisk (file_state conn)
        → FindsIn (image_at S.Start) (file_state conn)) }
    ensures idle { IfOk result (λ (conn, _). conn.in_transaction ≡ false) }
    ensures held { IfOk result (λ (_, lock). lock.locked ≡ file.entry.lock.locked) }
    ensures refused { IfErr result (λ it. IsNoBook ⟦<FileFrom<S> as Disk>⟧ (image_at S.Start) it.fault) }
{
    let (path, locked, start) = file.into_parts();
    let lock = HeldLock::of(locked);
    match open_store(rt, path, start) {
        Ok(conn) => Ok((conn, lock)),
        Err(unopened) => {
            let why = unopened.why();
            let _name = lock.release(&FilesGone::of(unopened));
            Err(why)
        }
    }
}
