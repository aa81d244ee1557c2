//! Why a book's file was not opened, no book was made in it, or its tables were not brought to the newest version.
use rtgs_book::Fault;
use std::alloc::AllocError;

/// Why a book's file was not opened, no book was made in it, or its tables were not brought to the newest version.
#[derive(Clone, Copy, Debug, PartialEq, Eq)]
pub enum FileFault {
    /// Another run holds the lock of the file, or the lock cannot be made.
    InUse,
    /// A book is made only where there is no file, or an empty one.
    FileExists,
    /// The book could not be read or made.
    Book(Fault),
}

impl From<Fault> for FileFault {
    ghost use Rattle.std.specs.Prelude.{◌≡◌};
    ghost use Rattle.rtgs_book_file.specs.declared.file_fault.FileFault.TheVariants.{Book};

    ghost from_gives = { λ fault answer. answer ≡ Book fault };

    fn from(fault: Fault) -> FileFault {
        FileFault::Book(fault)
    }
}

impl From<AllocError> for FileFault {
    ghost use Rattle.std.specs.Prelude.{◌≡◌};
    ghost use Rattle.rtgs_book.specs.declared.fault.Fault.TheVariants.{OutOfMemory};
    ghost use Rattle.rtgs_book_file.specs.declared.file_fault.FileFault.TheVariants.{Book};

    ghost from_gives = { λ _ answer. answer ≡ Book OutOfMemory };

    fn from(_: AllocError) -> FileFault {
        FileFault::Book(Fault::OutOfMemory)
    }
}
