//! A book's file that was looked at.
ghost use Rattle.std.specs.Prelude.{◌≡◌, true, Ok, Err, IfOk, IfErr, OnOk};
ghost use Rattle.rtgs_book_file.specs.Files.{vacancy_of, opening_of, MayBeADesks};
ghost use Rattle.rtgs_book_file.specs.Refused.{IsBarredBy, IsCrowded};

use crate::book_lock::BookLock;
use crate::locked::Locked;
use crate::not_readable::NotReadable;
use crate::not_vacant::NotVacant;
use crate::schema_size::SchemaSize;
use sqlite::Start;
use std::fs::Metadata;
use std::io;

/// The lock of a book's file that was looked at, and may be opened: it begins as a database does, or there is none, or
/// an empty one. Only an answer that says so makes one.
#[derive(Drop)]
pub struct LookedAt<'a, S: Start> {
    lock: BookLock<'a, S>,
}

impl<'a, S: Start> LookedAt<'a, S> {
    /// The lock of a file at which this look was taken, where the file is missing or empty.
    pub(crate) fn if_vacant(
        lock: BookLock<'a, S>,
        looked: io::Result<Metadata>,
    ) -> Result<LookedAt<'a, S>, NotVacant>
        ensures vacant { IfOk result (λ _. vacancy_of looked ≡ Ok true) }
        ensures refused { IfErr result (λ taken. IsBarredBy looked taken.fault) }
        ensures same { IfOk result (λ file. file.lock ≡ lock.entry) }
    {
        match NotVacant::unless_vacant(looked) {
            Ok(()) => Ok(LookedAt { lock }),
            Err(taken) => Err(taken),
        }
    }

    /// The lock of a file that was read to begin so, where a database begins so.
    pub(crate) fn if_database(
        lock: BookLock<'a, S>,
        beginning: io::Result<[u8; 16]>,
    ) -> Result<LookedAt<'a, S>, NotReadable>
        ensures database { IfOk result (λ _. opening_of beginning ≡ Ok tt) }
        ensures refused { IfErr result (λ unread. opening_of beginning ≡ Err unread.fault) }
        ensures same { IfOk result (λ file. file.lock ≡ lock.entry) }
    {
        match NotReadable::unless_database(beginning) {
            Ok(()) => Ok(LookedAt { lock }),
            Err(unread) => Err(unread),
        }
    }

    /// The same, where this was read of what the file lists, and a desk's file may list that.
    pub(crate) fn if_few(self, size: SchemaSize) -> Result<LookedAt<'a, S>, NotReadable>
        ensures few { OnOk result (MayBeADesks size.listed) }
        ensures refused { IfErr result (λ unread. IsCrowded size.listed unread.fault) }
        ensures same { IfOk result (λ file. file.lock ≡ self.entry.lock) }
    {
        match NotReadable::unless_crowded(size) {
            Ok(()) => Ok(self),
            Err(unread) => Err(unread),
        }
    }

    /// Where the book's file is, the lock's own file, and what the book's file held.
    pub(crate) fn into_parts(self) -> (&'a str, Locked, S)
        ensures path { result.0.now ≡ self.entry.lock.path.now }
        ensures locked { result.1 ≡ self.entry.lock.locked }
    {
        let LookedAt { lock } = self;
        lock.into_parts()
    }
}
