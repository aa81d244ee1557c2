//! The book in a file.
ghost use Rattle.std.specs.Prelude.{◌≡◌, ◌⊎◌, Some, IfOk, IfErr, OnOk};
ghost use Rattle.std.specs.Borrow.{sem};
ghost use Rattle.sqlite.specs.Files.{file_state};
ghost use Rattle.sqlite.specs.State.{HasCleanDisk};
ghost use Rattle.sqlite.specs.WalFiles.{image_at};
ghost use Rattle.rtgs_book.specs.declared.fault.Fault.{Fault as FaultSpec};
ghost use Rattle.rtgs_book_file.specs.declared.file_fault.FileFault.TheVariants.{Book};
ghost use Rattle.rtgs_book_file.specs.Lending.{LendsDesk};
ghost use Rattle.rtgs_book_file.specs.Opened.{WasOpened, WasMade};
ghost use Rattle.rtgs_book_file.specs.Refused.{HasNoBook, IsNotMade, IsUnopened, IsUnmadeIn};
ghost use Rattle.rtgs_book_file.specs.Causes.{fault_of_cause, ShowsNoBook, BarsBook};
ghost use Rattle.rtgs_book_file.specs.Starting.{IsStarted};

use crate::abandoned_book::AbandonedBook;
use crate::book_lock::BookLock;
use crate::cause::Cause;
use crate::closed_book::ClosedBook;
use crate::finished_book::FinishedBook;
use crate::held_lock::HeldLock;
use crate::looked_at::LookedAt;
use crate::released::Released;
use crate::small_pages::make_database;
use crate::store::{FileKeeper, connect};
use crate::unopened::Unopened;
use rtgs_desk::Desk;
use rtgs_keeper::Keeper;
use sqlite::{FileFrom, Start, Unknown};
use sqlite_disk::Disk;

/// A desk over the book in a file, and the lock of the file. Only a lock makes one, and as it cannot be dropped, it
/// ends by `finish` alone.
pub struct OpenBook<K: Keeper> {
    desk: Desk<K>,
    lock: HeldLock,
}

impl<S: Start> BookLock<'_, S> {
    /// Opens the book in the file, which held what `S` says. A fault where there is no book, or none that is sound and
    /// calm; the lock is then released with the refusal.
    pub fn open(self, rt: &HostRuntime) -> Result<OpenBook<FileKeeper<S>>, Unopened<S>>
        ensures opened { IfOk result (λ book. HasCleanDisk (file_state book.desk.keeper.conn)
            → WasOpened ⟦<FileKeeper<S> as Keeper>⟧ (image_at S.Start) book.desk book.desk.keeper.conn) }
        ensures held { IfOk result (λ book. book.lock.locked ≡ self.entry.locked) }
        ensures refused { IfErr result (λ unopened. (fault : FaultSpec) × (unopened.fault ≡ Book fault)
            × HasNoBook ⟦<FileKeeper<S> as Keeper>⟧ (λ keeper. keeper.conn) (image_at S.Start) fault) }
        ensures cause { IfErr result (λ unopened. ShowsNoBook ⟦<FileKeeper<S> as Keeper>⟧ (λ keeper. keeper.conn)
            (image_at S.Start) (λ closed. closed.files.value) unopened.cause) }
        ensures reported { IfErr result (λ unopened. unopened.fault ≡ fault_of_cause unopened.cause) }
        ensures of { IfErr result (λ unopened. (name : _) × (unopened.name ≡ Some name)
            × (name.value ≡ self.entry.locked.name)) }
        ensures unopened { IfErr result (λ unopened.
            IsUnopened ⟦<FileKeeper<S> as Keeper>⟧ (λ keeper. keeper.conn) (image_at S.Start) unopened.fault) }
    {
        let name = self.name();
        match open_book(rt, self) {
            Ok(book) => Ok(book),
            Err(cause) => Err(Unopened::of(Some(name), cause)),
        }
    }

    /// Makes the tables of a new book in the file, closes it, and releases the lock. `FileExists` where the file holds
    /// anything, and a fault of the book where the file cannot be looked at, or the store fails. First the database is
    /// made; the clauses that name `S` speak of the files as they are then.
    pub fn make(self, rt: &HostRuntime) -> Result<Released<S>, Unopened<S>>
        ensures made { IfOk result (λ made. WasMade ⟦<FileKeeper<S> as Keeper>⟧ (λ keeper. keeper.conn)
            (image_at S.Start) made.files.value) }
        ensures started { OnOk result (IsStarted ⟦<FileFrom<Unknown> as Disk>⟧ (image_at ⟦<Unknown as Start>⟧)) }
        ensures held { IfOk result (λ made. made.name.value ≡ self.entry.locked.name) }
        ensures refused { IfErr result (λ unopened.
            IsNotMade ⟦<FileKeeper<S> as Keeper>⟧ (λ keeper. keeper.conn) (image_at S.Start) unopened.fault) }
        ensures cause { IfErr result (λ unopened. BarsBook ⟦<FileKeeper<S> as Keeper>⟧ (λ keeper. keeper.conn)
            (image_at S.Start) (λ closed. closed.files.value) unopened.cause) }
        ensures reported { IfErr result (λ unopened. unopened.fault ≡ fault_of_cause unopened.cause) }
        ensures of { IfErr result (λ unopened. (name : _) × (unopened.name ≡ Some name)
            × (name.value ≡ self.entry.locked.name)) }
        ensures unmade { IfErr result (λ unopened.
            IsUnmadeIn ⟦<FileKeeper<S> as Keeper>⟧ (λ keeper. keeper.conn) (image_at S.Start) unopened.fault) }
    {
        let name = self.name();
        match make_book(rt, self) {
            Ok(made) => Ok(made),
            Err(cause) => Err(Unopened::of(Some(name), cause)),
        }
    }
}

impl<K: Keeper> OpenBook<K> {
    /// The desk over the book.
    pub fn desk(&mut self) -> &mut Desk<K>
        ensures* lends { sem 𝓛 (LendsDesk K.row K.Keeper self.entry result) }
        ensures value { result.now ≡ self.old.desk }
    {
        &mut self.desk
    }

    /// The book, when nothing more is done with it.
    pub fn finish(self) -> FinishedBook<K>
        ensures desk { result.desk ≡ self.desk }
        ensures held { result.lock ≡ self.lock }
    {
        let OpenBook { desk, lock } = self;
        FinishedBook::of(desk, lock)
    }
}

// Opens the book in a file whose lock was taken.
fn open_book<S: Start>(
    rt: &HostRuntime,
    lock: BookLock<'_, S>,
) -> Result<OpenBook<FileKeeper<S>>, Cause<AbandonedBook<S>>>
    ensures opened { IfOk result (λ book. HasCleanDisk (file_state book.desk.keeper.conn)
        → WasOpened ⟦<FileKeeper<S> as Keeper>⟧ (image_at S.Start) book.desk book.desk.keeper.conn) }
    ensures held { IfOk result (λ book. book.lock.locked ≡ lock.entry.locked) }
    ensures refused { IfErr result (ShowsNoBook ⟦<FileKeeper<S> as Keeper>⟧ (λ keeper. keeper.conn)
        (image_at S.Start) (λ closed. closed.files.value)) }
{
    let file = lock.with_database(rt)?;
    open_desk(rt, file)
}

// The desk over the book in a file that was looked at.
fn open_desk<S: Start>(
    rt: &HostRuntime,
    file: LookedAt<'_, S>,
) -> Result<OpenBook<FileKeeper<S>>, Cause<AbandonedBook<S>>>
    ensures opened { IfOk result (λ book. HasCleanDisk (file_state book.desk.keeper.conn)
        → WasOpened ⟦<FileKeeper<S> as Keeper>⟧ (image_at S.Start) book.desk book.desk.keeper.conn) }
    ensures held { IfOk result (λ book. book.lock.locked ≡ file.entry.lock.locked) }
    ensures refused { IfErr result (ShowsNoBook ⟦<FileKeeper<S> as Keeper>⟧ (λ keeper. keeper.conn)
        (image_at S.Start) (λ closed. closed.files.value)) }
{
    let (conn, lock) = connect(rt, file)?;
    match crate::stored_desk::open(rt.alloc(), conn) {
        Ok(desk) => Ok(OpenBook { desk, lock }),
        Err((fault, keeper)) => {
            let left = AbandonedBook::of(keeper.into_connection(), lock);
            Err(Cause::Abandoned(fault, left))
        }
    }
}

// Makes a database and the tables of a new book in a file whose lock was taken, and closes it. The clauses that name `S`
// speak of the files as they are once the database is made.
fn make_book<S: Start>(
    rt: &HostRuntime,
    lock: BookLock<'_, S>,
) -> Result<Released<S>, Cause<AbandonedBook<S>>>
    ensures made { IfOk result (λ closed.
        WasMade ⟦<FileKeeper<S> as Keeper>⟧ (λ keeper. keeper.conn) (image_at S.Start) closed.files.value) }
    ensures started { OnOk result (IsStarted ⟦<FileFrom<Unknown> as Disk>⟧ (image_at ⟦<Unknown as Start>⟧)) }
    ensures held { IfOk result (λ closed. closed.name.value ≡ lock.entry.locked.name) }
    ensures refused { IfErr result (BarsBook ⟦<FileKeeper<S> as Keeper>⟧ (λ keeper. keeper.conn)
        (image_at S.Start) (λ closed. closed.files.value)) }
{
    let path = lock.path();
    let file = lock.with_nothing(rt)?;
    make_database(rt, path, Unknown)?;
    make_tables(rt, file)
}

// Makes the tables of a new book in a file that has none, and closes it.
fn make_tables<S: Start>(
    rt: &HostRuntime,
    file: LookedAt<'_, S>,
) -> Result<Released<S>, Cause<AbandonedBook<S>>>
    ensures made { IfOk result (λ closed.
        WasMade ⟦<FileKeeper<S> as Keeper>⟧ (λ keeper. keeper.conn) (image_at S.Start) closed.files.value) }
    ensures held { IfOk result (λ closed. closed.name.value ≡ file.entry.lock.locked.name) }
    ensures refused { IfErr result (BarsBook ⟦<FileKeeper<S> as Keeper>⟧ (λ keeper. keeper.conn)
        (image_at S.Start) (λ closed. closed.files.value)) }
{
    let (conn, lock) = connect(rt, file)?;
    match crate::stored_desk::make(conn) {
        Ok(made) => Ok(ClosedBook::copied(made, lock).release()),
        Err((fault, left)) => Err(Cause::Abandoned(fault, AbandonedBook::of(left, lock))),
    }
}
