//! Looks at what stands at a path, before anything opens it that could write into it.
ghost use Rattle.std.specs.Prelude.{◌≡◌, IfOk, IfErr};
ghost use Rattle.rtgs_book_file.specs.Refused.{IsNotVacant, ShowsFault};

use crate::book_lock::BookLock;
use crate::looked_at::LookedAt;
use crate::not_readable::NotReadable;
use crate::not_vacant::NotVacant;
use crate::schema_size::listed;
use sqlite::{Start, Unknown};
use std::fs::File;
use std::io::Read;
use std::{fs, io};

impl<'a, S: Start> BookLock<'a, S> {
    /// Looks whether there is no file, or an empty one. `FileExists` where it has anything, and a fault where the path
    /// cannot be looked at.
    pub(crate) fn with_nothing(self, rt: &HostRuntime) -> Result<LookedAt<'a, S>, NotVacant>
        ensures refused { IfErr result (λ taken. IsNotVacant taken.fault) }
        ensures same { IfOk result (λ file. file.lock ≡ self.entry) }
    {
        let looked = fs::metadata(rt, self.path());
        LookedAt::if_vacant(self, looked)
    }

    /// Looks whether the file begins as a database does, and whether it lists no more objects than a desk's may: a
    /// fault where it does not, is missing or shorter, or cannot be read.
    pub(crate) fn with_database(self, rt: &HostRuntime) -> Result<LookedAt<'a, S>, NotReadable>
        ensures refused { IfErr result (λ unread. ShowsFault unread.fault) }
        ensures same { IfOk result (λ file. file.lock ≡ self.entry) }
    {
        let path = self.path();
        let file = LookedAt::if_database(self, read_beginning(rt, path))?;
        file.if_few(listed(rt, path, Unknown))
    }
}

// The first bytes of a file, as many as a database begins with.
fn read_beginning(rt: &HostRuntime, file: &str) -> io::Result<[u8; 16]> {
    let mut beginning = [0u8; 16];
    File::open(rt, file)?.read_exact(&mut beginning)?;
    Ok(beginning)
}
