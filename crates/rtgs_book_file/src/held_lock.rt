//! The lock of a book's file whose store is opened.
ghost use Rattle.std.specs.Prelude.{◌≡◌};

use crate::files_gone::{FilesGone, StoreFiles};
use crate::locked::Locked;
use std::snapshot::Snapshot;

/// The lock of a book's file whose store is opened. It cannot be dropped: it ends by `release` alone, which takes files
/// that are gone. So the lock is held until then.
pub struct HeldLock {
    locked: Locked,
}

impl HeldLock {
    /// This lock, which is held from here on until the files are gone.
    pub(crate) fn of(locked: Locked) -> HeldLock
        ensures { result.locked ≡ locked }
    {
        HeldLock { locked }
    }

    /// Lets the lock go, now that the files are gone. Its name, as contracts see it.
    pub(crate) fn release<F: StoreFiles>(self, _gone: &FilesGone<F>) -> Snapshot<String>
        ensures { result.value ≡ self.locked.name }
    {
        let HeldLock { locked } = self;
        let name = locked.name();
        drop(locked);
        name
    }
}
