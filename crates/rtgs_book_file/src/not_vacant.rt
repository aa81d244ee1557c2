//! Why no book is made at a path, by what stands there.
ghost use Rattle.std.specs.Prelude.{◌≡◌, true, Ok, IfOk, IfErr};
ghost use Rattle.rtgs_book_file.specs.Files.{vacancy_of};
ghost use Rattle.rtgs_book_file.specs.Refused.{IsBarredBy};

use crate::file_fault::FileFault;
use rtgs_book::Fault;
use std::fs::Metadata;
use std::io;
use std::io::ErrorKind;

/// Why no book is made at a path, by what stands there. Only an answer to a look at a path makes one.
#[derive(Drop)]
pub(crate) struct NotVacant {
    fault: FileFault,
}

impl NotVacant {
    /// Whether a file at which this look was taken is missing or empty, or why no book is made there.
    pub(crate) fn unless_vacant(looked: io::Result<Metadata>) -> Result<(), NotVacant>
        ensures vacant { IfOk result (λ _. vacancy_of looked ≡ Ok true) }
        ensures refused { IfErr result (λ taken. IsBarredBy looked taken.fault) }
    {
        match vacancy(looked) {
            Ok(true) => Ok(()),
            Ok(false) => Err(NotVacant {
                fault: FileFault::FileExists,
            }),
            Err(fault) => Err(NotVacant {
                fault: FileFault::Book(fault),
            }),
        }
    }

    /// The fault that it is reported as.
    pub(crate) fn fault(&self) -> FileFault
        ensures { result ≡ self.now.fault }
    {
        self.fault
    }
}

// Whether a file at which this look was taken is missing or empty.
fn vacancy(looked: io::Result<Metadata>) -> Result<bool, Fault>
    ensures { result ≡ vacancy_of looked }
{
    match looked {
        Ok(metadata) => Ok(metadata.len() == 0),
        Err(error) => match error.kind() {
            ErrorKind::NotFound => Ok(true),
            ErrorKind::OutOfMemory => Err(Fault::OutOfMemory),
            _ => Err(Fault::StoreFault),
        },
    }
}
