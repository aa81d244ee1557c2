//! Why no database was made in the file of a new book.
ghost use Rattle.std.specs.Prelude.{◌≡◌, Some, IfErr, OnOk};
ghost use Rattle.rtgs_book_file.specs.Starting.{fault_of_path, fault_of_making, fault_of_copying};

use rtgs_book::Fault;
use sqlite_std_file::OpenError as PathError;
use sqlite_store::OpenError;
use sqlite_trees::error::StoreError;
use std::io::ErrorKind;

/// Why no database was made in the file of a new book. Only an error of the store makes one.
#[derive(Drop)]
pub(crate) struct NotStarted {
    fault: Fault,
}

impl NotStarted {
    /// What this error says as the files are opened.
    pub(crate) fn of_path(error: &PathError) -> NotStarted
        ensures { result.fault ≡ fault_of_path error.now }
    {
        NotStarted {
            fault: fault_of_path(error),
        }
    }

    /// What this error says as a database is made in them: nothing, if they hold one.
    pub(crate) fn unless_made(error: OpenError) -> Result<(), NotStarted>
        ensures made { OnOk result (error ≡ OpenError.Refused) }
        ensures refused { IfErr result (λ unstarted. fault_of_making error ≡ Some unstarted.fault) }
    {
        match error {
            OpenError::Refused => Ok(()),
            OpenError::OutOfMemory => Err(NotStarted {
                fault: Fault::OutOfMemory,
            }),
            OpenError::Io | OpenError::Full => Err(NotStarted {
                fault: Fault::StoreFault,
            }),
        }
    }

    /// What this error says as its log is copied into the file.
    pub(crate) fn of_copying(error: StoreError) -> NotStarted
        ensures { result.fault ≡ fault_of_copying error }
    {
        NotStarted {
            fault: fault_of_copying(error),
        }
    }

    /// The fault that it is reported as.
    pub(crate) fn fault(&self) -> Fault
        ensures { result ≡ self.now.fault }
    {
        self.fault
    }
}

// What an error of opening the files says.
fn fault_of_path(error: &PathError) -> Fault
    ensures { result ≡ fault_of_path error.now }
{
    match error {
        PathError::OutOfMemory => Fault::OutOfMemory,
        PathError::Io(error) => match error.kind() {
            ErrorKind::OutOfMemory => Fault::OutOfMemory,
            _ => Fault::StoreFault,
        },
        PathError::Busy | PathError::HotJournal => Fault::StoreFault,
    }
}

// What an error of copying the log says.
fn fault_of_copying(error: StoreError) -> Fault
    ensures { result ≡ fault_of_copying error }
{
    match error {
        StoreError::OutOfMemory => Fault::OutOfMemory,
        _ => Fault::StoreFault,
    }
}
