//! What refused a book's file.
ghost use Rattle.std.specs.Prelude.{◌≡◌};
ghost use Rattle.rtgs_book_file.specs.Causes.{fault_of_cause};
ghost use Rattle.rtgs_book_file.specs.declared.cause.Cause.TheVariants as cause;

use crate::file_fault::FileFault;
use crate::not_locked::NotLocked;
use crate::not_reached::NotReached;
use crate::not_readable::NotReadable;
use crate::not_started::NotStarted;
use crate::not_vacant::NotVacant;
use rtgs_book::Fault;

/// What refused a book's file. All but the last are made of the system's answers alone. `B` is what is left of a file
/// that was abandoned.
#[derive(Drop)]
pub(crate) enum Cause<B> {
    /// The lock was not taken.
    NotLocked(NotLocked),
    /// A book was to be made where something stands, or where no look could be taken.
    NotVacant(NotVacant),
    /// The file does not begin as a database does, or its beginning could not be read.
    NotReadable(NotReadable),
    /// No database was made in the file of a new book.
    NotStarted(NotStarted),
    /// The store did not open.
    NotReached(NotReached),
    /// The store opened, and was abandoned with this fault.
    Abandoned(Fault, B),
}

impl<B> Cause<B> {
    /// The fault that it is reported as.
    pub(crate) fn fault(&self) -> FileFault
        ensures { result ≡ fault_of_cause self.now }
    {
        match self {
            Cause::NotLocked(refused) => refused.fault(),
            Cause::NotVacant(taken) => taken.fault(),
            Cause::NotReadable(unread) => FileFault::from(unread.fault()),
            Cause::NotStarted(unstarted) => FileFault::from(unstarted.fault()),
            Cause::NotReached(unreached) => FileFault::from(unreached.fault()),
            Cause::Abandoned(fault, _) => FileFault::from(*fault),
        }
    }
}

impl<B> From<NotVacant> for Cause<B> {
    ghost from_gives = { λ taken answer. answer ≡ cause.NotVacant taken };

    fn from(taken: NotVacant) -> Cause<B> {
        Cause::NotVacant(taken)
    }
}

impl<B> From<NotReadable> for Cause<B> {
    ghost from_gives = { λ unread answer. answer ≡ cause.NotReadable unread };

    fn from(unread: NotReadable) -> Cause<B> {
        Cause::NotReadable(unread)
    }
}

impl<B> From<NotStarted> for Cause<B> {
    ghost from_gives = { λ unstarted answer. answer ≡ cause.NotStarted unstarted };

    fn from(unstarted: NotStarted) -> Cause<B> {
        Cause::NotStarted(unstarted)
    }
}

impl<B> From<NotReached> for Cause<B> {
    ghost from_gives = { λ unreached answer. answer ≡ cause.NotReached unreached };

    fn from(unreached: NotReached) -> Cause<B> {
        Cause::NotReached(unreached)
    }
}
