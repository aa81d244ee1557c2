//! Whether names are in order, or are distinct.
ghost use Rattle.std.specs.Prelude.{◌≡◌, ◌↔◌, IfOk, IsTrue, map};
ghost use Rattle.std.specs.BTreeSet.{IsFromIterResult};
ghost use Rattle.std.specs.List.{IsDistinct};
ghost use Rattle.std.specs.Ordering.{eq_by_cmp};
ghost use Rattle.std.specs.Str.{bytes_eq};
ghost use Rattle.rtgs_book.specs.declared.order.Order.{Order};
ghost use Rattle.rtgs_book.specs.declared.participant.Participant.{Participant};
ghost use Rattle.rtgs_book.specs.declared.posting.Posting.{Posting};
ghost use Rattle.rtgs_book.specs.Soundness.{AreCodes, is_same_name};

use rtgs_book::{MOST_PARTICIPANTS, Order, Participant, Posting};
use rtgs_money::{Code, KeyDigest, Reference};
use std::alloc::{AllocError, Global};
use std::collections::BTreeSet;

/// Whether the participants' codes rise strictly, and are at most `MOST_PARTICIPANTS`.
pub fn codes_rise(participants: &[Participant]) -> bool
    ensures { IsTrue result ↔ AreCodes (map (λ (p : Participant). p.code) participants.now) }
{
    let mut previous: Option<Code> = None;
    for participant in participants {
        let code = participant.code;
        if let Some(before) = previous
            && before >= code
        {
            return false;
        }
        previous = Some(code);
    }
    participants.len() <= MOST_PARTICIPANTS
}

/// Whether no two participants have one key.
pub fn keys_are_distinct(alloc: Global, participants: &[Participant]) -> Result<bool, AllocError>
    ensures { IfOk result (λ yes. IsTrue yes ↔ IsDistinct bytes_eq
        (map (λ (p : Participant). p.key) participants.now)) }
{
    are_distinct(alloc, keys_of(alloc, participants)?)
}

/// Whether no sender gave two orders one reference.
pub fn order_references_are_distinct(alloc: Global, orders: &[Order]) -> Result<bool, AllocError>
    ensures { IfOk result (λ yes. IsTrue yes ↔ IsDistinct is_same_name
        (map (λ (o : Order). (o.sender, o.reference)) orders.now)) }
{
    are_distinct(alloc, names_of(alloc, orders)?)
}

/// Whether no two postings have one reference.
pub fn posting_references_are_distinct(
    alloc: Global,
    postings: &[Posting],
) -> Result<bool, AllocError>
    ensures { IfOk result (λ yes. IsTrue yes ↔ IsDistinct bytes_eq (map (λ (p : Posting). p.reference) postings.now)) }
{
    are_distinct(alloc, references_of(alloc, postings)?)
}

fn keys_of(alloc: Global, participants: &[Participant]) -> Result<Vec<KeyDigest>, AllocError>
    ensures { IfOk result (λ keys. keys.items ≡ map (λ (p : Participant). p.key) participants.now) }
{
    participants
        .iter()
        .map(|participant| participant.key)
        .collect(alloc)
}

fn names_of(alloc: Global, orders: &[Order]) -> Result<Vec<(Code, Reference)>, AllocError>
    ensures { IfOk result (λ names. names.items ≡ map (λ (o : Order). (o.sender, o.reference)) orders.now) }
{
    orders
        .iter()
        .map(|order| (order.sender, order.reference))
        .collect(alloc)
}

fn references_of(alloc: Global, postings: &[Posting]) -> Result<Vec<Reference>, AllocError>
    ensures { IfOk result (λ references. references.items ≡ map (λ (p : Posting). p.reference) postings.now) }
{
    postings
        .iter()
        .map(|posting| posting.reference)
        .collect(alloc)
}

// Whether no two of the keys are equal.
fn are_distinct<K: Ord + Drop>(alloc: Global, keys: Vec<K>) -> Result<bool, AllocError>
    ensures { IfOk result (λ yes. IsTrue yes ↔ IsDistinct (eq_by_cmp K.cmp) keys.items) }
{
    let count = keys.len();
    let distinct = set_of(alloc, keys)?;
    Ok(distinct.len() == count)
}

/// The keys, once each.
pub fn set_of<K: Ord + Drop>(alloc: Global, keys: Vec<K>) -> Result<BTreeSet<K>, AllocError>
    ensures { IfOk result (λ set. IsFromIterResult K.cmp keys.items set) }
{
    keys.into_iter().collect(alloc)
}
