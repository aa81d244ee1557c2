//! Faults of order files.
ghost use Rattle.std.specs.Prelude.{◌≡◌, true};
ghost use Rattle.csv.specs.Reading.{error_kind, stops_reader};
ghost use Rattle.rtgs_order_files.specs.BatchFaults.{batch_kind_of};

use csv::ErrorKind;
use rtgs_refusals::RefusalKind;
use std::alloc::AllocFailed;

/// Why an order file was refused. A refused file has no orders.
#[derive(Clone, Copy, Debug, PartialEq, Eq)]
pub enum BatchFault {
    /// The first record is not the header, or there is none.
    BadHeader,
    /// This row, from 1 after the header, is the first that is no order.
    BadRow { row: u64 },
    /// There is no row, or there are more than `MOST_ROWS`.
    BadCount,
    OutOfMemory,
}

impl BatchFault {
    /// What the fault is known by: its number, its name and its statuses.
    pub fn kind(self) -> RefusalKind
        ensures { result ≡ batch_kind_of self }
    {
        match self {
            BatchFault::BadHeader => RefusalKind::BadHeader,
            BatchFault::BadRow { .. } => RefusalKind::BadRow,
            BatchFault::BadCount => RefusalKind::BadCount,
            BatchFault::OutOfMemory => RefusalKind::OutOfMemory,
        }
    }

    /// What an error of a reader of bytes in memory means. Such a reader wants memory, and nothing else can fail,
    /// but its contract leaves open that it may call that an error of what it reads from.
    pub(crate) fn of_reader(error: &csv::Error) -> BatchFault
        requires { stops_reader (error_kind error.now) ≡ true }
        ensures { result ≡ BatchFault.OutOfMemory }
    {
        match error.kind() {
            ErrorKind::Io(_) | ErrorKind::OutOfMemory => BatchFault::OutOfMemory,
            _ => unreachable!(),
        }
    }
}

impl<T: Drop> From<AllocFailed<T>> for BatchFault {
    ghost use Rattle.rtgs_order_files.specs.declared.batch_fault.BatchFault.TheVariants.{OutOfMemory};

    ghost from_gives = { λ _ fault. fault ≡ OutOfMemory };

    fn from(_error: AllocFailed<T>) -> BatchFault {
        BatchFault::OutOfMemory
    }
}
