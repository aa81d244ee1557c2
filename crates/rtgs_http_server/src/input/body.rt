//! The body of a request, from a reader.
ghost use Rattle.std.specs.Prelude.{◌≤◌, ◌<◌, length, Ok, Err, IfOk, IfErr, OnOk};
ghost use Rattle.rtgs_http_requests.specs.declared.feeds.limits.TheConstants.{LONGEST_BODY};
ghost use Rattle.rtgs_http_server.specs.input.Input.{StepFails, Behind};
ghost use Rattle.rtgs_http_requests.specs.Exchange.{HasBody};

use crate::input::piece::Piece;
use crate::input::unread::Unread;
use rtgs_http_requests::feeds::limits::LONGEST_BODY;
use rtgs_http_requests::{BodyFeed, BodyStep, HttpFault};
use std::alloc::Global;
use std::io::Read;

/// The body of this many bytes, which begins with the piece.
pub fn read_body<R: Read>(
    alloc: Global,
    reader: &mut R,
    piece: &mut Piece,
    size: usize,
) -> Result<BodyFeed, Unread>
    requires size { size ≤ LONGEST_BODY }
    ensures body { IfOk result (λ body. Behind piece.old (R.remaining reader.old)
        (λ rest. HasBody rest size (Ok body.bytes))) }
    ensures fault { IfErr result (λ unread. Behind piece.old (R.remaining reader.old)
        (λ rest. StepFails (λ fault. HasBody rest size (Err fault)) unread)) }
{
    let Ok(mut feed) = BodyFeed::new(alloc, size) else {
        return Err(Unread::Faulty(HttpFault::OutOfMemory));
    };
    match feed.feed(piece.rest()) {
        BodyStep::Full { taken: _ } => Ok(feed),
        BodyStep::More => match fill(reader, piece, &mut feed) {
            Ok(()) => Ok(feed),
            Err(unread) => Err(unread),
        },
    }
}

// Takes pieces until the body is whole.
fn fill<R: Read>(reader: &mut R, piece: &mut Piece, feed: &mut BodyFeed) -> Result<(), Unread>
    requires begun { length feed.old.bytes < feed.old.wanted }
    requires size { feed.old.wanted ≤ LONGEST_BODY }
    ensures body { OnOk result (Behind feed.old.bytes (R.remaining reader.old)
        (λ rest. HasBody rest feed.old.wanted (Ok feed.new.bytes))) }
    ensures fault { IfErr result (λ unread. Behind feed.old.bytes (R.remaining reader.old)
        (λ rest. StepFails (λ fault. HasBody rest feed.old.wanted (Err fault)) unread)) }
{
    // Each piece has a byte at least.
    for _turn in 0..LONGEST_BODY {
        if let Err(failed) = piece.read(reader) {
            return Err(Unread::Reader(failed));
        }
        if piece.rest().is_empty() {
            return Err(Unread::Faulty(HttpFault::Truncated));
        }
        match feed.feed(piece.rest()) {
            BodyStep::Full { taken: _ } => return Ok(()),
            BodyStep::More => {}
        }
    }
    unreachable!()
}
