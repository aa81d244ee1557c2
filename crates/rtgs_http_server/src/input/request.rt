//! A whole request, from a reader.
ghost use Rattle.std.specs.Prelude.{◌≡◌, ℕ, List, true, Err};
ghost use Rattle.rtgs_http_requests.specs.Plans.{AfterCaller};
ghost use Rattle.rtgs_http_requests.specs.feeds.Region.{StartsWith};
ghost use Rattle.rtgs_http_server.specs.input.Input.{Says, FindsCaller, Requests, OfInput, Behind};

use crate::input::body::read_body;
use crate::input::directory::Directory;
use crate::input::head::read_region;
use crate::input::piece::Piece;
use crate::input::unread::Unread;
use rtgs_http_requests::{Admitted, Asked, HttpFault, Plan, body_length, read_asked};
use rtgs_money::{Code, KeyDigest};
use std::alloc::Global;
use std::io::Read;

/// What the whole input asks for, however the reader cuts it, or the fault of the first step that fails. It is read in
/// pieces (RFC 9112, sections 2 and 6). Once the answer is decided none is asked for, which is tested, and no clause.
/// Where the reader's bytes are not known, there is an input for which the same holds.
pub fn read_request<R: Read, D: Directory>(
    alloc: Global,
    reader: &mut R,
    operator: &KeyDigest,
    directory: &D,
) -> Result<Asked, Unread>
    ensures asked { OfInput (R.remaining reader.old)
        (λ input. Requests (D.knows directory.now) operator.now input result) }
    ensures failed { result ≡ Err Unread.DirectoryFailed → D.has_failed directory.now ≡ true }
{
    let mut piece = Piece::new();
    let feed = match read_region(alloc, reader, &mut piece) {
        Ok(feed) => feed,
        Err(unread) => return Err(unread),
    };
    let region = feed.bytes();
    read_behind(alloc, reader, operator, directory, region, &mut piece)
}

// What an input asks for that is this region, then the piece, and then what the reader has left.
fn read_behind<R: Read, D: Directory>(
    alloc: Global,
    reader: &mut R,
    operator: &KeyDigest,
    directory: &D,
    region: &[u8],
    piece: &mut Piece,
) -> Result<Asked, Unread>
    ensures asked { Behind piece.old (R.remaining reader.old)
        (λ rest. (input : List ℕ) → StartsWith input region.now rest
        → Requests (D.knows directory.now) operator.now input result) }
    ensures failed { result ≡ Err Unread.DirectoryFailed → D.has_failed directory.now ≡ true }
{
    let plan = match Plan::read(alloc, operator, region) {
        Ok(plan) => plan,
        Err(fault) => return Err(Unread::Faulty(fault)),
    };
    let caller = match caller_of(directory, plan.caller) {
        Ok(caller) => caller,
        Err(unread) => return Err(unread),
    };
    read_content(alloc, reader, &plan, caller, piece)
}

fn caller_of<D: Directory>(
    directory: &D,
    bearer: Admitted<KeyDigest>,
) -> Result<Admitted<Code>, Unread>
    ensures caller { FindsCaller (D.knows directory.now) bearer result }
    ensures failed { result ≡ Err Unread.DirectoryFailed → D.has_failed directory.now ≡ true }
{
    match bearer {
        Admitted::Operator { route } => Ok(Admitted::Operator { route }),
        Admitted::Bank {
            route,
            caller: digest,
        } => match directory.code_of(&digest) {
            Ok(Some(caller)) => Ok(Admitted::Bank { route, caller }),
            Ok(None) => Err(Unread::Faulty(HttpFault::NoKey)),
            Err(_) => Err(Unread::DirectoryFailed),
        },
    }
}

// What a caller asks for, where the piece comes behind the region, and then what the reader has left.
fn read_content<R: Read>(
    alloc: Global,
    reader: &mut R,
    plan: &Plan,
    caller: Admitted<Code>,
    piece: &mut Piece,
) -> Result<Asked, Unread>
    ensures { Behind piece.old (R.remaining reader.old)
        (λ rest. Says (AfterCaller plan.now rest caller) result) }
{
    let size = match body_length(plan.posts, plan.length) {
        Ok(size) => size as usize,
        Err(fault) => return Err(Unread::Faulty(fault)),
    };
    let body = match read_body(alloc, reader, piece, size) {
        Ok(body) => body,
        Err(unread) => return Err(unread),
    };
    match read_asked(alloc, caller, plan.parameters, body.bytes()) {
        Ok(asked) => Ok(asked),
        Err(fault) => Err(Unread::Faulty(fault)),
    }
}
