//! Reads that failed.
ghost use Rattle.std.specs.Prelude.{◌≡◌, Ok, IfOk, OnErr, IsErr};
ghost use Rattle.std.specs.Io.{ReadsAtMost};
ghost use Rattle.std.specs.Io.KnownBytes.{ReadConsumes};

use crate::input::piece::PIECE;
use std::io;
use std::io::Read;

/// A reader answered an error. Such a value is made where a call of `read` did so, and nowhere else: the type shows no
/// way to make one.
#[derive(Clone, Copy, Debug, PartialEq, Eq)]
pub struct ReaderFailed(());

/// Reads the next bytes, and tells how many they are. With none the input is at its end.
pub(in crate::input) fn read_bytes<R: Read>(
    reader: &mut R,
    bytes: &mut [u8; PIECE],
) -> Result<usize, ReaderFailed>
    ensures bound { ReadsAtMost result bytes.new }
    ensures bytes { ReadConsumes (R.remaining reader.old) (R.remaining reader.new) result bytes.new }
{
    // The contract is by cases of the result, and the prover sees them where it is taken apart.
    match given_of(reader.read(&mut bytes[..])) {
        Ok(count) => Ok(count),
        Err(failed) => Err(failed),
    }
}

// How many bytes a reader gave, by its answer. It failed where the answer is an error, and none else is called so.
fn given_of(answer: io::Result<usize>) -> Result<usize, ReaderFailed>
    ensures given { IfOk result (λ count. answer ≡ Ok count) }
    ensures failed { OnErr result (IsErr answer) }
{
    match answer {
        Ok(count) => Ok(count),
        Err(_) => Err(ReaderFailed(())),
    }
}
