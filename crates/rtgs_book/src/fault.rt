//! Faults of a book, or of what keeps it.
ghost use Rattle.std.specs.Prelude.{◌≡◌};
ghost use Rattle.rtgs_book.specs.Refusals.{fault_kind_of};

use crate::rule::Rule;
use rtgs_refusals::RefusalKind;
use std::alloc::{AllocError, AllocFailed};

/// Why there is no book.
#[derive(Clone, Copy, Debug, PartialEq, Eq)]
pub enum Fault {
    OutOfMemory,
    StoreFault,
    /// What is stored is no desk's tables.
    NotADeskFile,
    /// The book breaks this rule of soundness, the lowest that it breaks.
    Inconsistent { rule: Rule },
}

impl Fault {
    /// What the fault is known by: its number, its name and its statuses.
    pub fn kind(self) -> RefusalKind
        ensures { result ≡ fault_kind_of self }
    {
        match self {
            Fault::OutOfMemory => RefusalKind::OutOfMemory,
            Fault::StoreFault => RefusalKind::StoreFault,
            Fault::NotADeskFile => RefusalKind::NotADeskFile,
            Fault::Inconsistent { .. } => RefusalKind::Inconsistent,
        }
    }
}

impl From<AllocError> for Fault {
    ghost use Rattle.rtgs_book.specs.declared.fault.Fault.TheVariants.{OutOfMemory};

    ghost from_gives = { λ _ fault. fault ≡ OutOfMemory };

    fn from(_error: AllocError) -> Fault {
        Fault::OutOfMemory
    }
}

impl<T: Drop> From<AllocFailed<T>> for Fault {
    ghost use Rattle.rtgs_book.specs.declared.fault.Fault.TheVariants.{OutOfMemory};

    ghost from_gives = { λ _ fault. fault ≡ OutOfMemory };

    fn from(_error: AllocFailed<T>) -> Fault {
        Fault::OutOfMemory
    }
}
