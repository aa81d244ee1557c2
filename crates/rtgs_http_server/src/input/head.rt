//! The region of a request's head, from a reader.
ghost use Rattle.std.specs.Prelude.{◌++◌, Err, IfOk, IfErr};
ghost use Rattle.std.specs.Io.KnownBytes.{Consumes};
ghost use Rattle.rtgs_http_requests.specs.feeds.Region.{IsRegion};
ghost use Rattle.rtgs_http_server.specs.input.Input.{StepFails, OfInput};
ghost use Rattle.rtgs_http_requests.specs.Exchange.{HasRegion};

use crate::input::piece::Piece;
use crate::input::unread::Unread;
use rtgs_http_requests::feeds::limits::LONGEST_HEAD;
use rtgs_http_requests::{HeadFeed, HeadStep, HttpFault};
use std::alloc::Global;
use std::io::Read;

/// The region. The piece is left with what came behind it.
pub fn read_region<R: Read>(
    alloc: Global,
    reader: &mut R,
    piece: &mut Piece,
) -> Result<HeadFeed, Unread>
    ensures region { IfOk result (λ region. IsRegion region) }
    ensures taken { IfOk result (λ region.
        Consumes (R.remaining reader.old) (R.remaining reader.new) (region ++ piece.new)) }
    ensures fault { IfErr result (λ unread. OfInput (R.remaining reader.old)
        (λ input. StepFails (λ fault. HasRegion input (Err fault)) unread)) }
{
    let Ok(mut feed) = HeadFeed::new(alloc) else {
        return Err(Unread::Faulty(HttpFault::OutOfMemory));
    };
    // Each piece has a byte at least.
    for _turn in 0..LONGEST_HEAD {
        if let Err(failed) = piece.read(reader) {
            return Err(Unread::Reader(failed));
        }
        if piece.rest().is_empty() {
            return Err(Unread::Faulty(HttpFault::Truncated));
        }
        match feed.feed(piece.rest()) {
            HeadStep::Region { taken } => {
                piece.take(taken);
                return Ok(feed);
            }
            HeadStep::TooLong => return Err(Unread::Faulty(HttpFault::HeadTooLong)),
            HeadStep::More => {}
        }
    }
    unreachable!()
}
