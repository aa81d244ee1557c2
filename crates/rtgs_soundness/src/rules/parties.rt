//! Whether the parties of orders and postings are participants.
ghost use Rattle.std.specs.Prelude.{◌≡◌, ◌↔◌, ◌&&◌, not, map, IfOk, IsTrue};
ghost use Rattle.std.specs.BTreeSet.{contains, IsFromIterResult};
ghost use Rattle.std.specs.Cmp.Lexicographic.{slice_cmp};
ghost use Rattle.std.specs.List.{list_all};
ghost use Rattle.std.specs.Ordering.{nat_cmp};
ghost use Rattle.std.specs.Str.{bytes_eq};
ghost use Rattle.rtgs_book.specs.declared.order.Order.{Order};
ghost use Rattle.rtgs_book.specs.declared.participant.Participant.{Participant};
ghost use Rattle.rtgs_book.specs.declared.posting.Posting.{Posting};
ghost use Rattle.rtgs_book.specs.Soundness.{PartiesAreKnown};

use crate::rules::names::set_of;
use rtgs_book::{Book, Order, Participant, Posting};
use rtgs_money::Code;
use std::alloc::{AllocError, Global};
use std::collections::BTreeSet;

/// Whether each code in an order or a posting is a participant's, and no order is to its sender.
pub fn parties_are_known(alloc: Global, book: &Book) -> Result<bool, AllocError>
    ensures { IfOk result (λ yes. IsTrue yes ↔ PartiesAreKnown book.now) }
{
    let codes = set_of(alloc, codes_of(alloc, book.participants.as_slice())?)?;
    Ok(are_among(&codes, book))
}

/// The codes of the participants, in their order. The only error is lack of memory.
pub fn codes_of(alloc: Global, participants: &[Participant]) -> Result<Vec<Code>, AllocError>
    ensures { IfOk result (λ codes. codes.items ≡ map (λ (p : Participant). p.code) participants.now) }
{
    participants
        .iter()
        .map(|participant| participant.code)
        .collect(alloc)
}

// Whether all parties are among the codes.
fn are_among(codes: &BTreeSet<Code>, book: &Book) -> bool
    ensures { result ≡ (list_all (λ (o : Order). contains (slice_cmp nat_cmp) codes.now o.sender
        && contains (slice_cmp nat_cmp) codes.now o.receiver && not (bytes_eq o.sender o.receiver)) book.now.orders
        && list_all (λ (p : Posting). contains (slice_cmp nat_cmp) codes.now p.code) book.now.postings) }
{
    are_between(codes, book.orders.as_slice()) && are_made_to(codes, book.postings.as_slice())
}

// Whether each order is between two of the codes.
fn are_between(codes: &BTreeSet<Code>, orders: &[Order]) -> bool
    ensures { result ≡ list_all (λ (o : Order). contains (slice_cmp nat_cmp) codes.now o.sender
        && contains (slice_cmp nat_cmp) codes.now o.receiver && not (bytes_eq o.sender o.receiver)) orders.now }
{
    orders.iter().all(|order| {
        codes.contains(&order.sender)
            && codes.contains(&order.receiver)
            && order.sender != order.receiver
    })
}

// Whether each posting is to one of the codes.
fn are_made_to(codes: &BTreeSet<Code>, postings: &[Posting]) -> bool
    ensures { result ≡ list_all (λ (p : Posting). contains (slice_cmp nat_cmp) codes.now p.code) postings.now }
{
    postings.iter().all(|posting| codes.contains(&posting.code))
}
