//! A head that the desk serves.
ghost use Rattle.std.specs.Prelude.{◌≡◌, ℕ, Option, None, length, IfSome, IsSomeAnd};
ghost use Rattle.httparse.specs.Grammar.{RequestHead};
ghost use Rattle.httparse.specs.Spans.{IsRequestAt, IsRequestWithin};
ghost use Rattle.rtgs_http_requests.specs.heads.Heads.{IsWholeHead, IsGoodHead};
ghost use Rattle.rtgs_http_requests.specs.heads.Targets.{is_post, GivesRoute};

use crate::heads::fields::{key_of, length_of};
use crate::heads::head_fault::HeadFault;
use crate::heads::limits::MOST_FIELDS;
use crate::heads::parameters::Parameters;
use crate::heads::route::Route;
use crate::heads::routing::route_of;
use httparse::Status;
use httparse::spans::{EMPTY_HEADER_SPAN, HeaderSpan, RequestSpans, parse_request};
use rtgs_money::KeyDigest;
use std::alloc::Global;

/// The parts of a good head (RFC 9112, section 2.1) that matter.
#[derive(Clone, Copy, Debug)]
pub struct Head<'a> {
    pub method: &'a [u8],
    pub target: &'a [u8],
    /// The declared length of the body.
    pub length: Option<u32>,
    /// The digest of the key, where there is exactly one key field and its value is a key.
    pub key: Option<KeyDigest>,
}

impl<'a> Head<'a> {
    ghost use Rattle.rtgs_http_requests.specs.heads.Requests.{HasParts};

    /// What the region says, where it is one head of HTTP/1.1 with `MOST_FIELDS` fields at most (RFC 9112, sections 3
    /// and 5), and nothing else, with good fields.
    pub fn read(region: &'a [u8]) -> Option<Head<'a>>
        ensures request { IfSome result (λ request.
            (head : RequestHead) × IsGoodHead region.now head request.length × HasParts head request) }
        ensures none { result ≡ None → (head : RequestHead) (length : Option ℕ)
            → ¬ IsGoodHead region.now head length }
    {
        let mut room = [EMPTY_HEADER_SPAN; MOST_FIELDS];
        let spans = parse_whole(region, &mut room)?;
        if spans.version != 1 {
            return None;
        }
        let fields = &room[..spans.headers];
        let method = spans.method.of(region);
        let length = length_of(region, fields, method).ok()?;
        Some(Head {
            method,
            target: spans.path.of(region),
            length,
            key: key_of(region, fields),
        })
    }

    /// The row of the routes that it asks for, and what the route's parameters took of the target. `NoSuchRoute` where
    /// no row has its method and target. `OutOfMemory` where the routes found no room.
    pub fn route(&self, alloc: Global) -> Result<(Route, Parameters<'a>), HeadFault>
        ensures { GivesRoute self.now.method.now self.now.target.now result }
    {
        route_of(alloc, self.method, self.target)
    }

    /// Whether the method is POST.
    pub fn posts(&self) -> bool
        ensures { result ≡ is_post self.now.method.now }
    {
        self.method == b"POST".as_slice()
    }
}

// The head that the whole region is, with at most `MOST_FIELDS` fields and no empty line before it.
fn parse_whole(region: &[u8], room: &mut [HeaderSpan; MOST_FIELDS]) -> Option<RequestSpans>
    ensures within { IfSome result (λ spans. IsRequestWithin region.now room.new spans) }
    ensures len { IfSome result (λ spans. spans.len ≡ length region.now) }
    ensures head { IfSome result (λ spans.
        (head : RequestHead) × IsWholeHead region.now head × IsRequestAt region.now room.new spans head) }
    ensures found { (head : RequestHead) → IsWholeHead region.now head
        → IsSomeAnd result (λ spans. IsRequestAt region.now room.new spans head) }
{
    if matches!(region.first(), Some(b'\r' | b'\n')) {
        return None;
    }
    match parse_request(region, room) {
        Ok(Status::Complete(spans)) if spans.len == region.len() => Some(spans),
        _ => None,
    }
}
