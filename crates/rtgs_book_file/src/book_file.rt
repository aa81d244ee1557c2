//! The file of a book, as a run uses it.
ghost use Rattle.std.specs.Prelude.{◌≡◌, ℕ, List, IfOk, IfErr, string_bytes};
ghost use Rattle.rtgs_book.specs.Calm.{IsCalm};
ghost use Rattle.rtgs_book.specs.Outcome.{Reply};
ghost use Rattle.rtgs_book.specs.Session.{IsSession};
ghost use Rattle.rtgs_book.specs.declared.book.Book.{Book};
ghost use Rattle.rtgs_book.specs.declared.command.Command.{Command};
ghost use Rattle.rtgs_book_file.specs.LockName.{lock_name};
ghost use Rattle.rtgs_book_file.specs.OverFile.{FileFacts};

use crate::file_fault::FileFault;
use crate::finished_book::FinishedBook;
use crate::held_lock::HeldLock;
use crate::open_book::OpenBook;
use rtgs_desk::Desk;
use rtgs_keeper::Keeper;

/// The file of a book, as a run uses it: the value is what the file is opened with, so that a run opens at most one
/// desk by it. What is done over the file is said of a file of any kind, so that runs need not know the store.
pub trait BookFile: Sized {
    /// What keeps the book in the file.
    type Kept: Keeper;

    /// The file, where it was refused: no desk was opened over it, no book made in it, or its tables not brought to the
    /// newest version.
    type Refused: Drop;

    /// The file, where it was closed and released, with its lock.
    type Released: Drop;

    // What is so of the file.
    ghost facts: { FileFacts Self.Kept Self.Refused Self.Released };

    /// Makes a new book in the file at this path, which is missing or empty. Refused where there is another file, where
    /// it is in use, or where it fails.
    fn make(self, rt: &HostRuntime, path: &str) -> Result<Self::Released, Self::Refused>
        ensures made { IfOk result facts.was_made }
        ensures refused { IfErr result facts.was_unmade }
        ensures at { IfOk result (facts.closed_at path.now) }
        ensures of { IfErr result (facts.refused_at path.now) };

    /// Brings the tables of the book in the file at this path to the newest version, and says whether anything was
    /// written. Refused where the file is in use, holds no sound book, or where it fails.
    fn migrate(self, rt: &HostRuntime, path: &str) -> Result<(Self::Released, bool), Self::Refused>
        ensures migrated { IfOk result (λ (migrated, wrote). facts.was_migrated wrote migrated) }
        ensures refused { IfErr result facts.was_unmigrated }
        ensures at { IfOk result (λ (migrated, _). facts.closed_at path.now migrated) }
        ensures of { IfErr result (facts.refused_at path.now) };

    /// Opens the book in the file at this path. Refused where the file is in use, or holds no sound book.
    fn open(self, rt: &HostRuntime, path: &str) -> Result<OpenBook<Self::Kept>, Self::Refused>
        ensures opened { IfOk result (λ book. Self.Kept.is_honest book.desk.keeper → facts.was_opened book.desk) }
        ensures refused { IfErr result facts.was_unopened }
        ensures at { IfOk result (λ book. string_bytes book.lock.locked.name ≡ lock_name path.now) }
        ensures of { IfErr result (facts.refused_at path.now) };

    /// Closes the file under the keeper, and releases it, and then its lock. Only `close` has the two to give.
    fn release(keeper: Self::Kept, lock: HeldLock) -> Self::Released
        ensures closed { facts.was_closed keeper result }
        ensures at { (path : List ℕ) → string_bytes lock.locked.name ≡ lock_name path → facts.closed_at path result };

    /// How it is reported that the file was refused.
    fn fault(refused: &Self::Refused) -> FileFault
        ensures { result ≡ facts.fault_of refused.now };

    /// If commands with these replies were a session whatever a crash leaves, and what it leaves is whole and calm,
    /// then the tables that a crash leaves hold a book that the session may find. The function does nothing: its
    /// contract is the law.
    fn what_a_session_leaves(desk: &Desk<Self::Kept>)
        ensures { (start : Book) (commands : List Command) (replies : List Reply)
            → Self.Kept.is_whole desk.now.keeper
            → ((found : Book) → Self.Kept.leaves desk.now.keeper found
            → IsSession (record { start = start; commands = commands; replies = replies; found = found }))
            → ((found : Book) → Self.Kept.leaves desk.now.keeper found → IsCalm found)
            → facts.stop_leaves desk.now start commands replies };

    /// Closes the book, and releases its file. Rattle proves no impl whose method takes a `FinishedBook` by value
    /// (PROVING.md, entry 19), so an impl gives `release` for its parts.
    final fn close(book: FinishedBook<Self::Kept>) -> Self::Released
        ensures closed { facts.was_closed book.desk.keeper result }
        ensures at { (path : List ℕ) → string_bytes book.lock.locked.name ≡ lock_name path
            → facts.closed_at path result }
    {
        let (keeper, lock) = book.into_parts();
        Self::release(keeper, lock)
    }
}
