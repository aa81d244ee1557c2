//! The region of a request's head, from pieces of the input.
ghost use Rattle.std.specs.Prelude.{◌≡◌, ◌≤◌, ◌++◌, ◌∷◌, ℕ, List, [], true, false, vec_capacity, IfOk, OnOk, OnErr};
ghost use Rattle.rtgs_http_requests.specs.feeds.Region.{ends_region, IsOpen, TakesHead};

use crate::feeds::head_step::HeadStep;
use crate::feeds::limits::LONGEST_HEAD;
use crate::feeds::truncated::Truncated;
use std::alloc::{AllocError, Global};
use std::marker::Model;

/// The bytes of a request's head that have come so far, up to the empty line that ends it (RFC 9112, section 2.1).
/// Contracts see these bytes.
#[derive(Drop)]
pub struct HeadFeed {
    seen: Vec<u8>,
}

impl Model for HeadFeed {
    ghost use Rattle.std.specs.Prelude.{◌≤◌, ℕ, List, vec_capacity};
    ghost use Rattle.rtgs_http_requests.specs.declared.feeds.limits.TheConstants.{LONGEST_HEAD};

    ghost Value = { List ℕ };

    ghost view = { λ feed. feed.seen.items };

    ghost invariant = { λ feed. LONGEST_HEAD ≤ vec_capacity feed.seen };
}

impl HeadFeed {
    /// A feed with no bytes, and all the room that a head may need. The error is a lack of memory.
    pub fn new(alloc: Global) -> Result<HeadFeed, AllocError>
        ensures { IfOk result (λ feed. feed ≡ []) }
    {
        let seen = Vec::with_capacity(alloc, LONGEST_HEAD)?;
        Ok(HeadFeed { seen })
    }

    /// Takes the next piece of the input, as far as the region's end, and looks at each byte of it once. It takes no
    /// memory. After `Region` and `TooLong` nothing more is to be fed.
    pub fn feed(&mut self, piece: &[u8]) -> HeadStep
        requires { IsOpen self.old }
        ensures { TakesHead self.old piece.now result self.new }
    {
        take_head(&mut self.seen, piece)
    }

    /// What the end of the input means: `Truncated` where the region is not whole.
    pub fn end(&self) -> Result<(), Truncated>
        ensures whole { OnOk result (ends_region self.now ≡ true) }
        ensures truncated { OnErr result (ends_region self.now ≡ false) }
    {
        if !ends_region(&self.seen) {
            return Err(Truncated);
        }
        Ok(())
    }

    /// The bytes so far: the region itself once it is whole.
    pub fn bytes(&self) -> &[u8]
        ensures { result.now ≡ self.now }
    {
        self.seen.as_slice()
    }
}

// Takes the next piece, where there is room for all bytes of a region.
fn take_head(seen: &mut Vec<u8>, piece: &[u8]) -> HeadStep
    requires open { IsOpen seen.old.items }
    requires room { LONGEST_HEAD ≤ vec_capacity seen.old }
    ensures step { TakesHead seen.old.items piece.now result seen.new.items }
    ensures room { LONGEST_HEAD ≤ vec_capacity seen.new }
{
    for (index, byte) in piece.iter().enumerate() {
        let Ok(()) = seen.push(*byte) else {
            unreachable!();
        };
        if is_end(*byte, seen) {
            return HeadStep::Region { taken: index + 1 };
        }
        if seen.len() == LONGEST_HEAD {
            return HeadStep::TooLong;
        }
    }
    HeadStep::More
}

// Whether these bytes, of which this is the last, end a region. All but line feeds tell at once that they do not.
#[tactic(auto, using(crate::proofs::feeds::LastByte::line_feed_ends))]
fn is_end(last: u8, seen: &[u8]) -> bool
    requires { (front : List ℕ) × (seen.now ≡ front ++ last ∷ []) }
    ensures { result ≡ ends_region seen.now }
{
    last == b'\n' && ends_region(seen)
}

// Whether these bytes end a region.
fn ends_region(bytes: &[u8]) -> bool
    ensures { result ≡ ends_region bytes.now }
{
    bytes.ends_with(b"\r\n\r\n")
}
