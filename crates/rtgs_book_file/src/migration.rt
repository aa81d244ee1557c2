//! Bringing the tables of a book's file to the newest version.
ghost use Rattle.std.specs.Prelude.{◌≡◌, Some, IfOk, IfErr};
ghost use Rattle.sqlite.specs.WalFiles.{image_at};
ghost use Rattle.rtgs_book_file.specs.Causes.{fault_of_cause, BarsMigration};
ghost use Rattle.rtgs_book_file.specs.Opened.{WasMigrated};

use crate::abandoned_book::AbandonedBook;
use crate::book_lock::BookLock;
use crate::cause::Cause;
use crate::closed_book::ClosedBook;
use crate::looked_at::LookedAt;
use crate::released::Released;
use crate::store::connect;
use crate::unopened::Unopened;
use sqlite::{FileFrom, Start};
use sqlite_disk::Disk;

impl<S: Start> BookLock<'_, S> {
    /// Brings the tables of the book in the file, which held what `S` says, to the newest version, closes the file, and
    /// releases the lock. Whether anything was written: tables of the newest version stay as they are. A fault where
    /// there is no book, or none that is sound, or where the store fails. No desk is opened: that could be refused when
    /// the tables were written.
    pub fn migrate(self, rt: &HostRuntime) -> Result<(Released<S>, bool), Unopened<S>>
        ensures migrated { IfOk result (λ (migrated, wrote).
            WasMigrated ⟦<FileFrom<S> as Disk>⟧ (image_at S.Start) wrote migrated.files.value) }
        ensures held { IfOk result (λ (migrated, _). migrated.name.value ≡ self.entry.locked.name) }
        ensures cause { IfErr result (λ unmigrated. BarsMigration ⟦<FileFrom<S> as Disk>⟧ (image_at S.Start)
            (λ closed. closed.files.value) unmigrated.cause) }
        ensures reported { IfErr result (λ unmigrated. unmigrated.fault ≡ fault_of_cause unmigrated.cause) }
        ensures of { IfErr result (λ unmigrated. (name : _) × (unmigrated.name ≡ Some name)
            × (name.value ≡ self.entry.locked.name)) }
    {
        let name = self.name();
        match migrate_book(rt, self) {
            Ok(migrated) => Ok(migrated),
            Err(cause) => Err(Unopened::of(Some(name), cause)),
        }
    }
}

// Brings the tables of the book in a file whose lock was taken to the newest version, and closes it.
fn migrate_book<S: Start>(
    rt: &HostRuntime,
    lock: BookLock<'_, S>,
) -> Result<(Released<S>, bool), Cause<AbandonedBook<S>>>
    ensures migrated { IfOk result (λ (migrated, wrote).
        WasMigrated ⟦<FileFrom<S> as Disk>⟧ (image_at S.Start) wrote migrated.files.value) }
    ensures held { IfOk result (λ (migrated, _). migrated.name.value ≡ lock.entry.locked.name) }
    ensures refused { IfErr result (BarsMigration ⟦<FileFrom<S> as Disk>⟧ (image_at S.Start)
        (λ closed. closed.files.value)) }
{
    let file = lock.with_database(rt)?;
    migrate_tables(rt, file)
}

// Brings the tables of the book in a file that was looked at to the newest version, and closes it.
fn migrate_tables<S: Start>(
    rt: &HostRuntime,
    file: LookedAt<'_, S>,
) -> Result<(Released<S>, bool), Cause<AbandonedBook<S>>>
    ensures migrated { IfOk result (λ (migrated, wrote).
        WasMigrated ⟦<FileFrom<S> as Disk>⟧ (image_at S.Start) wrote migrated.files.value) }
    ensures held { IfOk result (λ (migrated, _). migrated.name.value ≡ file.entry.lock.locked.name) }
    ensures refused { IfErr result (BarsMigration ⟦<FileFrom<S> as Disk>⟧ (image_at S.Start)
        (λ closed. closed.files.value)) }
{
    let (mut conn, lock) = connect(rt, file)?;
    match crate::stored_desk::migrate(rt.alloc(), &mut conn) {
        Ok(wrote) => Ok((ClosedBook::copied(conn, lock).release(), wrote)),
        Err(fault) => Err(Cause::Abandoned(fault, AbandonedBook::of(conn, lock))),
    }
}
