//! The bytes of a file of orders.
ghost use Rattle.std.specs.Prelude.{◌≡◌, ◌+◌, IfOk, IfSome, take};
ghost use Rattle.rtgs_order_files.specs.declared.limits.TheConstants.{MOST_BYTES};
ghost use Rattle.rtgs_cli.specs.imports.Causes.{failure_of_reading, IsFileTaken};

use rtgs_book::Refusal;
use rtgs_cli_lines::Failure;
use rtgs_order_files::MOST_BYTES;
use std::alloc::Global;
use std::fs::File;
use std::io;
use std::io::{ErrorKind, Read};

/// What reading a file of orders answered. Only to read one makes it.
#[derive(Drop)]
pub struct OrderFile {
    answer: io::Result<Vec<u8>>,
}

impl OrderFile {
    /// Reads the file at this path.
    pub(in crate::imports) fn read(rt: &HostRuntime, path: &str) -> OrderFile {
        OrderFile {
            answer: read_file(rt, path),
        }
    }

    /// The bytes that were read, if they are no more than a file of orders may have.
    pub(in crate::imports) fn taken(self) -> Result<Vec<u8>, Failure>
        ensures { IsFileTaken (λ bytes. bytes.items) self.answer result }
    {
        match self.answer {
            Ok(bytes) if bytes.len() > MOST_BYTES => Err(Failure::OrdersTooLong),
            Ok(bytes) => Ok(bytes),
            Err(error) => Err(failure_of(error.kind())),
        }
    }
}

// The bytes of the file at this path.
fn read_file(rt: &HostRuntime, path: &str) -> io::Result<Vec<u8>> {
    read_bytes(rt.alloc(), File::open(rt, path)?)
}

/// The bytes that a reader gives until its end, and no more than one above the most that a file of orders may have.
/// Where a read fails, its error is the answer, whatever was read before.
pub fn read_bytes<R: Read + Drop>(alloc: Global, reader: R) -> io::Result<Vec<u8>>
    ensures { IfOk result (λ bytes. IfSome (R.remaining reader) (λ left. bytes.items ≡ take (MOST_BYTES + 1) left)) }
{
    let mut bytes = Vec::new(alloc);
    reader.take(MOST_BYTES as u64 + 1).read_to_end(&mut bytes)?;
    Ok(bytes)
}

// What an error of reading a file of orders means.
fn failure_of(kind: ErrorKind) -> Failure
    ensures { result ≡ failure_of_reading kind }
{
    match kind {
        ErrorKind::OutOfMemory => Failure::Refused(Refusal::OutOfMemory),
        _ => Failure::NoOrders,
    }
}
