//! What the records of a date come to, summed as they are read.
ghost use Rattle.std.specs.Prelude.{◌≡◌, ℕ, List, IfOk, length};
ghost use Rattle.rtgs_book.specs.declared.book.Book.{Book};
ghost use Rattle.rtgs_book.specs.Lookup.{codes_of};
ghost use Rattle.rtgs_statements.specs.Days.{GathersOrders};
ghost use Rattle.rtgs_statements.specs.Reads.{LeavesRead, refused_by};
ghost use Rattle.rtgs_statements.specs.Records.{postings_on, orders_on, marks_on};
ghost use Rattle.rtgs_statements.specs.Sums.{posted, sum_at};

use crate::next_records::{later_mark, later_order, later_posting};
use crate::ordered::Ordered;
use crate::source::Source;
use crate::totals::add;
use rtgs_book::cores::laws::records_are_listed;
use rtgs_book::{MOST_PARTICIPANTS, Refusal};
use rtgs_money::{BusinessDate, Code};
use std::alloc::{AllocError, Global};
use std::collections::BTreeMap;

/// What was posted to each participant on the date.
pub fn posted_on<S: Source>(
    alloc: Global,
    source: &mut S,
    date: BusinessDate,
) -> Result<BTreeMap<Code, i128>, Refusal>
    ensures sums { S.is_honest source.new → (book : Book) → S.holds source.old book → IfOk result
        (λ totals. (code : List ℕ) → sum_at totals code ≡ posted code (postings_on date book.postings)) }
    ensures read { LeavesRead S.holds S.leaves S.is_honest S.has_failed source.old source.new (refused_by result) }
{
    source.reads_a_sound_book();
    records_are_listed();
    let mut totals = BTreeMap::new(alloc);
    let mut last = 0;
    loop {
        let next = match later_posting(source, date, last) {
            Ok(next) => next,
            Err(refusal) => return Err(refusal),
        };
        let Some(posting) = next else {
            return Ok(totals);
        };
        last = posting.number;
        add(&mut totals, posting.code, i128::from(posting.cents.cents()))?;
    }
}

/// What each participant sent and received by settled orders of the date, and its orders by where they stand.
pub fn ordered_on<S: Source>(
    alloc: Global,
    source: &mut S,
    date: BusinessDate,
) -> Result<Ordered, Refusal>
    ensures sums { S.is_honest source.new → (book : Book) → S.holds source.old book
        → IfOk result (λ ordered. GathersOrders ordered (orders_on date book.orders)) }
    ensures read { LeavesRead S.holds S.leaves S.is_honest S.has_failed source.old source.new (refused_by result) }
{
    source.reads_a_sound_book();
    records_are_listed();
    let mut ordered = Ordered::none(alloc);
    let mut last = 0;
    loop {
        let next = match later_order(source, date, last) {
            Ok(next) => next,
            Err(refusal) => return Err(refusal),
        };
        let Some(order) = next else {
            return Ok(ordered);
        };
        last = order.number;
        ordered.add(&order)?;
    }
}

/// How many marks the date has.
pub fn marks_on<S: Source>(source: &mut S, date: BusinessDate) -> Result<usize, Refusal>
    ensures count { S.is_honest source.new → (book : Book) → S.holds source.old book
        → IfOk result (λ count. count ≡ length (marks_on date book.marks)) }
    ensures read { LeavesRead S.holds S.leaves S.is_honest S.has_failed source.old source.new (refused_by result) }
{
    source.reads_a_sound_book();
    records_are_listed();
    let mut count = 0;
    let mut last = 0;
    loop {
        let next = match later_mark(source, date, last) {
            Ok(next) => next,
            Err(refusal) => return Err(refusal),
        };
        let Some(mark) = next else {
            return Ok(count);
        };
        last = mark.number;
        count += 1;
    }
}

/// The participants' codes in their order.
pub fn codes_of<S: Source>(alloc: Global, source: &S) -> Result<Vec<Code>, AllocError>
    ensures { (book : Book) → S.holds source.now book → IfOk result (λ codes. codes.items ≡ codes_of book) }
{
    source.reads_a_sound_book();
    let mut codes = Vec::new(alloc);
    for index in 0..MOST_PARTICIPANTS {
        let Some(code) = source.code_at(index) else {
            return Ok(codes);
        };
        codes.push(code)?;
    }
    Ok(codes)
}
