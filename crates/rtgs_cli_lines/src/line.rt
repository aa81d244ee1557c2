//! Lines that take no memory.
ghost use Rattle.std.specs.Prelude.{◌≡◌, ◌+◌, ◌<◌, ◌≤◌, ◌++◌, ◌∷◌, [], length};
ghost use Rattle.arrayvec.specs.ArrayString.{array_string_len};
ghost use Rattle.rtgs_cli_lines.specs.SentTo.{IsSentTo};

use arrayvec::ArrayString;
use itoa::{Buffer, Integer};
use rtgs_output::{WriterFailed, send_all};
use std::io::Write;

/// How many bytes what a run says may have, a line or two, with the ends.
pub(crate) const ROOM: usize = 192;

/// The beginning of a line. It has its room in itself, and takes no memory.
#[derive(Clone, Copy)]
pub(crate) struct LineBuffer {
    text: ArrayString<ROOM>,
}

impl LineBuffer {
    /// A line that begins with this text.
    pub(crate) fn of(text: &str) -> LineBuffer
        requires { length text.now ≤ ROOM }
        ensures text { result.text.bytes ≡ text.now }
        ensures room { array_string_len result.text ≡ length text.now }
    {
        let line = LineBuffer {
            text: ArrayString::new(),
        };
        line.then(text)
    }

    /// The line with this text behind it.
    pub(crate) fn then(self, text: &str) -> LineBuffer
        requires { array_string_len self.text + length text.now ≤ ROOM }
        ensures text { result.text.bytes ≡ self.text.bytes ++ text.now }
        ensures room { array_string_len result.text ≡ array_string_len self.text + length text.now }
    {
        let mut line = self;
        line.text.push_str(text);
        line
    }

    /// The line with this number behind it, in decimals.
    pub(crate) fn number<N: Integer>(self, number: N) -> LineBuffer
        requires { array_string_len self.text + N.MAX_STR_LEN ≤ ROOM }
        ensures text { result.text.bytes ≡ self.text.bytes ++ N.text number }
        ensures room { array_string_len result.text ≤ array_string_len self.text + N.MAX_STR_LEN }
    {
        let mut digits = Buffer::new();
        self.then(digits.format(number))
    }

    /// The line's text, without its end.
    pub(crate) fn as_str(&self) -> &str
        ensures text { result.now ≡ self.now.text.bytes }
        ensures room { length result.now ≤ ROOM }
    {
        self.text.as_str()
    }

    /// Writes the line with its end, in one piece. Where the writer fails, a beginning of that is written, and not all.
    pub(crate) fn send<W: Write>(self, out: &mut W) -> Result<(), WriterFailed>
        requires { array_string_len self.text < ROOM }
        ensures { IsSentTo result (W.contents out.old) (W.contents out.new) (self.text.bytes ++ 10 ∷ []) }
    {
        let line = self.then("\n");
        // The contract is by cases of the result, and the prover sees them where it is taken apart.
        match send_all(out, line.as_str().as_bytes()) {
            Ok(()) => Ok(()),
            Err(failed) => Err(failed),
        }
    }
}
