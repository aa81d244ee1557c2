//! A request's body, from pieces of the input.
ghost use Rattle.std.specs.Prelude.{◌≡◌, ◌<◌, ◌≤◌, length, vec_capacity, IfOk, OnOk, OnErr};
ghost use Rattle.rtgs_http_requests.specs.feeds.Body.{no_bytes_of, TakesBody};

use crate::feeds::body_step::BodyStep;
use crate::feeds::limits::LONGEST_BODY;
use crate::feeds::truncated::Truncated;
use std::alloc::{AllocError, Global};
use std::marker::Model;

/// The bytes of a body that have come so far, of a known number (RFC 9112, section 6.2). Contracts see both.
#[derive(Drop)]
pub struct BodyFeed {
    wanted: usize,
    seen: Vec<u8>,
}

impl Model for BodyFeed {
    ghost use Rattle.std.specs.Prelude.{◌≤◌, length, vec_capacity};
    ghost use Rattle.rtgs_http_requests.specs.feeds.Body.{Body};

    ghost Value = { Body };

    ghost view = { λ feed. record { wanted = feed.wanted; bytes = feed.seen.items } };

    ghost invariant = { λ feed. (length feed.seen.items ≤ feed.wanted) × (feed.wanted ≤ vec_capacity feed.seen) };
}

impl BodyFeed {
    /// A feed with no bytes, and all the room that a body of this many bytes needs. The error is a lack of memory.
    pub fn new(alloc: Global, length: usize) -> Result<BodyFeed, AllocError>
        requires { length ≤ LONGEST_BODY }
        ensures { IfOk result (λ feed. feed ≡ no_bytes_of length) }
    {
        let seen = Vec::with_capacity(alloc, length)?;
        Ok(BodyFeed {
            wanted: length,
            seen,
        })
    }

    /// Takes the next piece of the input, as far as the body goes; what comes behind it is left. It takes no memory.
    pub fn feed(&mut self, piece: &[u8]) -> BodyStep
        ensures { TakesBody self.old piece.now result self.new }
    {
        let missing = self.wanted - self.seen.len();
        let taken = piece.len().min(missing);
        let Ok(()) = self.seen.extend_from_slice(&piece[..taken]) else {
            unreachable!();
        };
        if taken < missing {
            return BodyStep::More;
        }
        BodyStep::Full { taken }
    }

    /// What the end of the input means: `Truncated` where the body is not whole.
    pub fn end(&self) -> Result<(), Truncated>
        ensures whole { OnOk result (length self.now.bytes ≡ self.now.wanted) }
        ensures truncated { OnErr result (length self.now.bytes < self.now.wanted) }
    {
        if self.seen.len() < self.wanted {
            return Err(Truncated);
        }
        Ok(())
    }

    /// The bytes so far: the body itself once it is whole.
    pub fn bytes(&self) -> &[u8]
        ensures value { result.now ≡ self.now.bytes }
        ensures fits { length self.now.bytes ≤ self.now.wanted }
    {
        self.seen.as_slice()
    }
}
