//! A lock's own file, locked.
ghost use Rattle.std.specs.Prelude.{◌≡◌, Ok, Err, IfOk, IfErr};
ghost use Rattle.rtgs_book_file.specs.Files.{fault_of_trying};
ghost use Rattle.rtgs_book_file.specs.Refused.{IsNotLocked};

use crate::not_locked::NotLocked;
use std::fs::{File, TryLockError};
use std::snapshot::Snapshot;

/// A lock's own file, locked, and the name by which it was opened. Only an answer of the system that it is locked makes
/// one. Nobody has the file itself, so it is unlocked as this value is dropped, and not before.
#[derive(Drop)]
pub(crate) struct Locked {
    name: String,
    file: File,
}

impl Locked {
    /// The file of this name, where the system gave this answer as it was to be locked.
    pub(crate) fn taken(
        name: String,
        file: File,
        answer: Result<(), TryLockError>,
    ) -> Result<Locked, NotLocked>
        ensures locked { IfOk result (λ locked. (answer ≡ Ok tt) × (locked.name ≡ name) × (locked.file ≡ file)) }
        ensures refused { IfErr result (λ refused. (error : _) × (answer ≡ Err error)
            × (refused.fault ≡ fault_of_trying error)) }
        ensures cause { IfErr result (λ refused. IsNotLocked refused.fault) }
    {
        match answer {
            Ok(()) => Ok(Locked { name, file }),
            Err(error) => Err(NotLocked::from(error)),
        }
    }

    /// Its name, as contracts see it.
    pub(crate) fn name(&self) -> Snapshot<String>
        ensures { result.value ≡ self.now.name }
    {
        Snapshot::of(&self.name)
    }
}
