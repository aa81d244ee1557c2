//! A piece of the input.
ghost use Rattle.std.specs.Prelude.{◌≡◌, [], OnOk, OnErr, drop, length, ◌≤◌};
ghost use Rattle.std.specs.Io.KnownBytes.{Consumes, IsAtEnd, Keeps};

use crate::input::reader_failed::{ReaderFailed, read_bytes};
use std::io::Read;
use std::marker::Model;

/// The most bytes that a reader is asked for at once.
pub(crate) const PIECE: usize = 4096;

/// What a reader gave last, except what was taken of it. A clause sees these bytes.
#[derive(Drop)]
pub(in crate::input) struct Piece {
    bytes: [u8; PIECE],
    from: usize,
    to: usize,
}

impl Model for Piece {
    ghost use Rattle.std.specs.Prelude.{◌≤◌, ℕ, List, drop, take};
    ghost use Rattle.rtgs_http_server.specs.declared.input.piece.TheConstants.{PIECE};

    ghost Value = { List ℕ };

    ghost view = { λ piece. drop piece.from (take piece.to piece.bytes) };

    ghost invariant = { λ piece. (piece.from ≤ piece.to) × (piece.to ≤ PIECE) };
}

impl Piece {
    /// A piece of no bytes.
    pub(in crate::input) fn new() -> Piece
        ensures { result ≡ [] }
    {
        Piece {
            bytes: [0; PIECE],
            from: 0,
            to: 0,
        }
    }

    /// The bytes that were not taken.
    pub(in crate::input) fn rest(&self) -> &[u8]
        ensures { result.now ≡ self.now }
    {
        let given = &self.bytes[..self.to];
        &given[self.from..]
    }

    /// Reads the next piece in the place of this one. If it has no byte, the input is at its end.
    pub(in crate::input) fn read<R: Read>(&mut self, reader: &mut R) -> Result<(), ReaderFailed>
        ensures given { OnOk result (Consumes (R.remaining reader.old) (R.remaining reader.new) self.new) }
        ensures ended { OnOk result (self.new ≡ [] → IsAtEnd (R.remaining reader.new)) }
        ensures failed { OnErr result (Keeps (R.remaining reader.old) (R.remaining reader.new)) }
    {
        self.from = 0;
        self.to = 0;
        match read_bytes(reader, &mut self.bytes) {
            Ok(count) => {
                self.to = count;
                Ok(())
            }
            Err(failed) => Err(failed),
        }
    }

    /// Takes this many bytes.
    pub(in crate::input) fn take(&mut self, count: usize)
        requires { count ≤ length self.old }
        ensures { self.new ≡ drop count self.old }
    {
        self.from += count;
    }
}
