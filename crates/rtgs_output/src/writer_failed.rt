//! Writes that failed.
ghost use Rattle.std.specs.Prelude.{◌≡◌, ◌≤◌, ◌⊎◌, Ok, Err, IfOk, IfErr, length};
ghost use Rattle.std.specs.Io.KnownBytes.{WriteAppends};
ghost use Rattle.std.specs.IoError.{error_kind};

use std::error::Error;
use std::io::{ErrorKind, Write};
use std::{fmt, io};

/// A writer answered an error, or took no byte. Such a value is made where a call of `write` did so, and nowhere else:
/// the type shows no way to make one.
#[derive(Debug, Drop)]
pub struct WriterFailed {
    error: io::Error,
}

impl WriterFailed {
    /// The kind of the writer's error, which is `WriteZero` where the writer took no byte.
    pub fn kind(&self) -> ErrorKind
        ensures { result ≡ error_kind self.now.error }
    {
        self.error.kind()
    }
}

impl fmt::Display for WriterFailed {
    fn fmt<W: fmt::Write>(&self, f: &mut fmt::Formatter<W>) -> fmt::Result {
        fmt::Display::fmt(&self.error, f)
    }
}

impl Error for WriterFailed {}

/// Writes a beginning of the bytes, which has at least one, and tells how many were taken. On an error none was.
pub(crate) fn write_some<W: Write>(out: &mut W, bytes: &[u8]) -> Result<usize, WriterFailed>
    ensures some { IfOk result (λ taken. (1 ≤ taken) × (taken ≤ length bytes.now)) }
    ensures bytes { WriteAppends (W.contents out.old) (W.contents out.new) result bytes.now }
{
    // The contract is by cases of the result, and the prover sees them where it is taken apart.
    match taken_of(out.write(bytes)) {
        Ok(taken) => Ok(taken),
        Err(failed) => Err(failed),
    }
}

// How many bytes a writer took, by its answer. It failed where the answer is an error, or that no byte was taken, and
// no other answer is called so.
fn taken_of(answer: io::Result<usize>) -> Result<usize, WriterFailed>
    ensures taken { IfOk result (λ taken. (answer ≡ Ok taken) × (1 ≤ taken)) }
    ensures failed { IfErr result (λ failed. (answer ≡ Ok 0) × (error_kind failed.error ≡ ErrorKind.WriteZero)
        ⊎ (answer ≡ Err failed.error)) }
{
    match answer {
        Ok(0) => Err(WriterFailed {
            error: io::Error::from(ErrorKind::WriteZero),
        }),
        Ok(taken) => Ok(taken),
        Err(error) => Err(WriterFailed { error }),
    }
}
