//! The lock of a book's file.
ghost use Rattle.std.specs.Prelude.{◌≡◌, string_bytes, IfOk, IfErr};
ghost use Rattle.sqlite.specs.WalFiles.{image_at};
ghost use Rattle.rtgs_book_file.specs.LockName.{lock_name, IsOfLock};
ghost use Rattle.rtgs_book_file.specs.Refused.{IsNotLocked, IsUnopened, IsUnmadeIn};
ghost use Rattle.rtgs_book_file.specs.Causes.{IsOfItsLock, fault_of_cause};

use crate::cause::Cause;
use crate::locked::Locked;
use crate::not_locked::NotLocked;
use crate::store::FileKeeper;
use crate::unopened::Unopened;
use rtgs_keeper::Keeper;
use sqlite::Start;
use std::alloc::{AllocError, Global};
use std::fs::{File, OpenOptions};
use std::io;
use std::snapshot::Snapshot;

/// The lock of a book's file, which held what `S` says. It stands beside the file and is held until the value is
/// dropped, and only `take` makes one: who has the value holds the lock. It keeps the only `Start` of its run, so that
/// at most one desk is opened by it.
#[derive(Drop)]
pub struct BookLock<'a, S: Start> {
    path: &'a str,
    locked: Locked,
    start: S,
}

impl<'a, S: Start> BookLock<'a, S> {
    /// Takes the lock of the book's file at this path. `InUse` where another run holds it, or where it cannot be made,
    /// and a fault of the book for lack of memory alone.
    pub fn take(rt: &HostRuntime, path: &'a str, start: S) -> Result<BookLock<'a, S>, Unopened<S>>
        ensures refused { IfErr result (λ unopened. IsNotLocked unopened.fault) }
        ensures cause { IfErr result (λ unopened. IsOfItsLock unopened.cause) }
        ensures reported { IfErr result (λ unopened. unopened.fault ≡ fault_of_cause unopened.cause) }
        ensures of { IfErr result (λ unopened.
            IsOfLock (λ name. string_bytes name.value) path.now unopened.name unopened.fault) }
        ensures unopened { IfErr result (λ unopened. IsUnopened ⟦<FileKeeper<S> as Keeper>⟧ (λ keeper. keeper.conn)
            (image_at S.Start) unopened.fault) }
        ensures unmade { IfErr result (λ unopened. IsUnmadeIn ⟦<FileKeeper<S> as Keeper>⟧ (λ keeper. keeper.conn)
            (image_at S.Start) unopened.fault) }
        ensures at { IfOk result (λ lock. lock.path.now ≡ path.now) }
        ensures named { IfOk result (λ lock. string_bytes lock.locked.name ≡ lock_name path.now) }
    {
        match locked(rt, path) {
            Ok(locked) => Ok(BookLock {
                path,
                locked,
                start,
            }),
            Err((name, refused)) => Err(Unopened::of(name, Cause::NotLocked(refused))),
        }
    }

    /// Where the book's file is.
    pub fn path(&self) -> &'a str
        ensures { result.now ≡ self.now.path.now }
    {
        self.path
    }

    /// The name of the lock's own file, as contracts see it.
    pub(crate) fn name(&self) -> Snapshot<String>
        ensures { result.value ≡ self.now.locked.name }
    {
        self.locked.name()
    }

    /// Where the book's file is, the lock's own file, and what the book's file held.
    pub(crate) fn into_parts(self) -> (&'a str, Locked, S)
        ensures path { result.0.now ≡ self.entry.path.now }
        ensures locked { result.1 ≡ self.entry.locked }
    {
        let BookLock {
            path,
            locked,
            start,
        } = self;
        (path, locked, start)
    }
}

// The lock's own file, locked; or why it is not, and its name, where memory was had for that.
fn locked(rt: &HostRuntime, path: &str) -> Result<Locked, (Option<Snapshot<String>>, NotLocked)>
    ensures named { IfOk result (λ locked. string_bytes locked.name ≡ lock_name path.now) }
    ensures refused { IfErr result (λ (_, refused). IsNotLocked refused.fault) }
    ensures of { IfErr result (λ (name, refused).
        IsOfLock (λ name. string_bytes name.value) path.now name refused.fault) }
{
    let name = match lock_name(rt.alloc(), path) {
        Ok(name) => name,
        Err(error) => return Err((None, NotLocked::from(error))),
    };
    let named = Snapshot::of(&name);
    match locked_as(rt, name) {
        Ok(locked) => Ok(locked),
        Err(refused) => Err((Some(named), refused)),
    }
}

// The lock's own file, which has this name, locked.
fn locked_as(rt: &HostRuntime, name: String) -> Result<Locked, NotLocked>
    ensures named { IfOk result (λ locked. locked.name ≡ name) }
    ensures refused { IfErr result (λ refused. IsNotLocked refused.fault) }
{
    let file = open_lock(rt, name.as_str())?;
    let answer = file.try_lock();
    Locked::taken(name, file, answer)
}

// The name of the lock's own file, which stands beside the book's.
fn lock_name(alloc: Global, path: &str) -> Result<String, AllocError>
    ensures { IfOk result (λ name. string_bytes name ≡ lock_name path.now) }
{
    format!(in alloc; "{path}.lock")
}

// The lock's own file, which is made where it is missing.
fn open_lock(rt: &HostRuntime, name: &str) -> io::Result<File> {
    OpenOptions::new()
        .read(true)
        .write(true)
        .create(true)
        .open(rt, name)
}
