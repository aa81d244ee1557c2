//! Why the lock of a book's file is not taken.
ghost use Rattle.std.specs.Prelude.{◌≡◌};
ghost use Rattle.std.specs.IoError.{error_kind};
ghost use Rattle.rtgs_book_file.specs.Files.{fault_of_lock, fault_of_trying};
ghost use Rattle.rtgs_book_file.specs.Refused.{IsNotLocked};
ghost use Rattle.rtgs_book_file.specs.declared.file_fault.FileFault.TheVariants.{Book};
ghost use Rattle.rtgs_book.specs.declared.fault.Fault.TheVariants.{OutOfMemory};

use crate::file_fault::FileFault;
use rtgs_book::Fault;
use std::alloc::AllocError;
use std::fs::TryLockError;
use std::io;
use std::io::ErrorKind;

/// Why the lock of a book's file is not taken. Only lack of memory for its name, and an answer of the system that its
/// own file is not opened or not locked, make one.
#[derive(Drop)]
pub(crate) struct NotLocked {
    fault: FileFault,
}

impl NotLocked {
    /// The fault that it is reported as.
    pub(crate) fn fault(&self) -> FileFault
        ensures { result ≡ self.now.fault }
    {
        self.fault
    }
}

impl From<AllocError> for NotLocked {
    ghost from_gives = { λ _ refused. refused.fault ≡ Book OutOfMemory };

    fn from(_: AllocError) -> NotLocked {
        NotLocked {
            fault: FileFault::Book(Fault::OutOfMemory),
        }
    }
}

impl From<io::Error> for NotLocked {
    ghost from_gives = { λ error refused. (refused.fault ≡ fault_of_lock (error_kind error))
        × IsNotLocked refused.fault };

    fn from(error: io::Error) -> NotLocked {
        NotLocked {
            fault: fault_of(error.kind()),
        }
    }
}

impl From<TryLockError> for NotLocked {
    ghost from_gives = { λ error refused. (refused.fault ≡ fault_of_trying error) × IsNotLocked refused.fault };

    fn from(error: TryLockError) -> NotLocked {
        match error {
            TryLockError::WouldBlock => NotLocked {
                fault: FileFault::InUse,
            },
            TryLockError::Error(error) => NotLocked::from(error),
        }
    }
}

// Why a lock cannot be taken.
fn fault_of(kind: ErrorKind) -> FileFault
    ensures is { result ≡ fault_of_lock kind }
    ensures cause { IsNotLocked result }
{
    match kind {
        ErrorKind::OutOfMemory => FileFault::Book(Fault::OutOfMemory),
        _ => FileFault::InUse,
    }
}
