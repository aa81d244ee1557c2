//! The test of soundness, and the balances of a sound book.
ghost use Rattle.std.specs.Prelude.{◌≡◌, ◌≢◌, ◌↔◌, Err, IfOk, OnOk, IfErr, IsTrue};
ghost use Rattle.std.specs.Cmp.Lexicographic.{slice_cmp};
ghost use Rattle.std.specs.Ordering.{nat_cmp};
ghost use Rattle.rtgs_book.specs.Balance.{balance};
ghost use Rattle.rtgs_book.specs.Lookup.{codes_of};
ghost use Rattle.rtgs_book.specs.Totals.{Totals};
ghost use Rattle.rtgs_book.specs.Judgement.{Keeps, KeepsBefore, Explains};
ghost use Rattle.rtgs_book.specs.Ranges.{Fits};
ghost use Rattle.rtgs_book.specs.Soundness.{IsSound, OrdersAreNumbered, PostingsAreNumbered};

use crate::rules::balances::{balances as summed, floors_hold, is_issue_small};
use crate::rules::dates::{automatic_fits, dates_fit};
use crate::rules::marks::marks_fit;
use crate::rules::names::{
    codes_rise, keys_are_distinct, order_references_are_distinct, posting_references_are_distinct,
};
use crate::rules::numbers::are_numbered;
use crate::rules::parties::parties_are_known;
use crate::rules::queues::queues_fit;
use rtgs_book::laws::total_is_issued;
use rtgs_book::{Book, Fault, Rule};
use rtgs_money::Code;
use std::alloc::AllocError;
use std::collections::BTreeMap;

/// The rules about a book, by number. That on stored balances is no such rule, since a book has none; nor is the last,
/// which is about what an automatic day has left.
pub const RULES_OF_A_BOOK: [Rule; 14] = [
    Rule::OrderNumbers,
    Rule::PostingNumbers,
    Rule::MarkNumbers,
    Rule::ParticipantCodes,
    Rule::Keys,
    Rule::OrderReferences,
    Rule::PostingReferences,
    Rule::Parties,
    Rule::Marks,
    Rule::Queues,
    Rule::Dates,
    Rule::Floors,
    Rule::Total,
    Rule::AutomaticDay,
];

/// Tests whether the book is sound. Else the fault names the first rule that it breaks, or memory was refused.
pub fn check(book: &Book) -> Result<(), Fault>
    ensures sound { OnOk result (IsSound book.now) }
    ensures fits { OnOk result (Fits book.now) }
    ensures fault { IfErr result (Explains book.now) }
    ensures of_a_book { result ≢ Err (Fault.Inconsistent Rule.Calm) }
{
    for rule in RULES_OF_A_BOOK {
        if !keeps(book, rule)? {
            return Err(Fault::Inconsistent { rule });
        }
    }
    Ok(())
}

/// The balance of each participant of a book whose postings and orders are numbered, in cents.
pub fn balances(book: &Book) -> Result<BTreeMap<Code, i128>, AllocError>
    requires postings { PostingsAreNumbered book.now }
    requires orders { OrdersAreNumbered book.now }
    ensures { IfOk result (Totals (slice_cmp nat_cmp) (codes_of book.now) (balance book.now)) }
{
    summed(book.orders.allocator(), book)
}

// Whether the book keeps the rule, which is one about a book, where it keeps those before it.
fn keeps(book: &Book, rule: Rule) -> Result<bool, AllocError>
    requires before { KeepsBefore book.now rule }
    requires of_a_book { rule ≢ Rule.Calm }
    ensures kept { IfOk result (λ yes. IsTrue yes ↔ Keeps book.now rule) }
    ensures fits { rule ≡ Rule.Floors → IfOk result (λ yes. IsTrue yes → Fits book.now) }
{
    total_is_issued();
    let alloc = book.orders.allocator();
    let participants = book.participants.as_slice();
    let postings = book.postings.as_slice();
    let orders = book.orders.as_slice();
    match rule {
        Rule::OrderNumbers => Ok(are_numbered(orders)),
        Rule::PostingNumbers => Ok(are_numbered(postings)),
        Rule::MarkNumbers => Ok(are_numbered(book.marks.as_slice())),
        Rule::ParticipantCodes => Ok(codes_rise(participants)),
        Rule::Keys => keys_are_distinct(alloc, participants),
        Rule::OrderReferences => order_references_are_distinct(alloc, orders),
        Rule::PostingReferences => posting_references_are_distinct(alloc, postings),
        Rule::Parties => parties_are_known(alloc, book),
        Rule::Marks => marks_fit(alloc, book),
        Rule::Queues => queues_fit(alloc, book),
        Rule::Dates => Ok(dates_fit(book)),
        Rule::Floors => floors_hold(alloc, book),
        Rule::Total => Ok(is_issue_small(postings)),
        Rule::AutomaticDay => Ok(automatic_fits(&book.day)),
        Rule::StoredBalances => Ok(true),
        // It is none of a book's.
        Rule::Calm => Ok(false),
    }
}
