//! Why the store over a book's file did not open.
ghost use Rattle.std.specs.Prelude.{◌≡◌};
ghost use Rattle.rtgs_book_file.specs.Files.{fault_of_store};

use rtgs_book::Fault;
use sqlite::{Error, ErrorCode};

/// Why the store over a book's file did not open. Only an error of the store's opening makes one.
#[derive(Drop)]
pub(crate) struct NotReached {
    fault: Fault,
}

impl NotReached {
    /// What this error of the store's opening says of the file.
    pub(crate) fn of(error: &Error) -> NotReached
        ensures { result.fault ≡ fault_of_store error.now }
    {
        NotReached {
            fault: fault_of(error),
        }
    }

    /// The fault that it is reported as.
    pub(crate) fn fault(&self) -> Fault
        ensures { result ≡ self.now.fault }
    {
        self.fault
    }
}

// What an error of the store's opening says of a file.
fn fault_of(error: &Error) -> Fault
    ensures { result ≡ fault_of_store error.now }
{
    match error {
        Error::SqliteFailure(ErrorCode::OutOfMemory) => Fault::OutOfMemory,
        Error::SqliteFailure(ErrorCode::NotADatabase) => Fault::NotADeskFile,
        _ => Fault::StoreFault,
    }
}
