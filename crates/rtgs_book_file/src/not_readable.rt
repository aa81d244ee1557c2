//! Why a book's file is not opened, by its beginning, or by how many objects it lists.
ghost use Rattle.std.specs.Prelude.{◌≡◌, Ok, Err, IfOk, IfErr, OnOk};
ghost use Rattle.rtgs_book_file.specs.Files.{opening_of, MayBeADesks};
ghost use Rattle.rtgs_book_file.specs.Refused.{IsCrowded};

use crate::limits::MOST_OBJECTS;
use crate::object_count::ObjectCount;
use crate::schema_size::SchemaSize;
use rtgs_book::Fault;
use std::io;
use std::io::ErrorKind;

/// How each file of the `sqlite` crate begins.
const MAGIC: &[u8; 16] = b"SQLite format 3\0";

/// Why a book's file is not opened, by its beginning, or by how many objects it lists. Only an answer to reading a
/// beginning, or a count of what the store read, makes one.
#[derive(Drop)]
pub(crate) struct NotReadable {
    fault: Fault,
}

impl NotReadable {
    /// Whether a file that was read to begin so begins as a database does, or why it is not opened.
    pub(crate) fn unless_database(beginning: io::Result<[u8; 16]>) -> Result<(), NotReadable>
        ensures database { IfOk result (λ _. opening_of beginning ≡ Ok tt) }
        ensures refused { IfErr result (λ unread. opening_of beginning ≡ Err unread.fault) }
    {
        match opening(beginning) {
            Ok(()) => Ok(()),
            Err(fault) => Err(NotReadable { fault }),
        }
    }

    /// Whether a file of which this was read may be a desk's, or why it is not opened.
    pub(crate) fn unless_crowded(size: SchemaSize) -> Result<(), NotReadable>
        ensures few { OnOk result (MayBeADesks size.listed) }
        ensures refused { IfErr result (λ unread. IsCrowded size.listed unread.fault) }
    {
        match size.listed() {
            ObjectCount::Unknown => Ok(()),
            ObjectCount::Objects(count) if count <= MOST_OBJECTS => Ok(()),
            ObjectCount::Objects(_) | ObjectCount::WithoutSums => Err(NotReadable {
                fault: Fault::NotADeskFile,
            }),
        }
    }

    /// The fault that it is reported as.
    pub(crate) fn fault(&self) -> Fault
        ensures { result ≡ self.now.fault }
    {
        self.fault
    }
}

// What it means for a book that its file begins so.
fn opening(beginning: io::Result<[u8; 16]>) -> Result<(), Fault>
    ensures { result ≡ opening_of beginning }
{
    match beginning {
        Ok(beginning) if beginning == *MAGIC => Ok(()),
        Ok(_) => Err(Fault::NotADeskFile),
        Err(error) => match error.kind() {
            ErrorKind::NotFound | ErrorKind::UnexpectedEof => Err(Fault::NotADeskFile),
            ErrorKind::OutOfMemory => Err(Fault::OutOfMemory),
            _ => Err(Fault::StoreFault),
        },
    }
}
