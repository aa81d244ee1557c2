//! A book's file that was refused.
ghost use Rattle.std.specs.Prelude.{◌≡◌};
ghost use Rattle.rtgs_book_file.specs.Causes.{fault_of_cause};

use crate::abandoned_book::AbandonedBook;
use crate::cause::Cause;
use crate::file_fault::FileFault;
use sqlite::Start;
use std::fmt;
use std::snapshot::Snapshot;

/// A book's file that was refused: no desk was opened over it, no book made in it, or its tables not brought to the
/// newest version; with the fault that is reported, and its cause. Only a lock that was not taken, or that did not lead
/// to a desk, makes one, and each of them took the only `Start` of its run: so a run that has this value has opened no
/// desk over the file, and opens none. Where the store was opened, its files were let go, and then its lock. Contracts
/// name the file by the name of its lock, as far as memory was had for that.
#[derive(Drop)]
pub struct Unopened<S: Start> {
    fault: FileFault,
    cause: Cause<AbandonedBook<S>>,
    name: Option<Snapshot<String>>,
}

impl<S: Start> Unopened<S> {
    /// No desk was opened over the file whose lock has this name, for this.
    pub(crate) fn of(name: Option<Snapshot<String>>, cause: Cause<AbandonedBook<S>>) -> Unopened<S>
        ensures cause { result.cause ≡ cause }
        ensures reported { result.fault ≡ fault_of_cause cause }
        ensures name { result.name ≡ name }
    {
        let fault = cause.fault();
        Unopened { fault, cause, name }
    }

    /// The fault that the file is refused with, as a run reports it.
    pub fn fault(&self) -> FileFault
        ensures { result ≡ self.now.fault }
    {
        self.fault
    }
}

impl<S: Start> fmt::Debug for Unopened<S> {
    fn fmt<W: fmt::Write>(&self, f: &mut fmt::Formatter<W>) -> fmt::Result {
        fmt::Debug::fmt(&self.fault, f)
    }
}
