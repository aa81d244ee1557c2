//! The next records of a date, by rising numbers whatever they are read from.
ghost use Rattle.std.specs.Prelude.{◌≡◌, ◌<◌, IfOk, IfSome};
ghost use Rattle.rtgs_book.specs.declared.book.Book.{Book};
ghost use Rattle.rtgs_book.specs.cores.Nexts.{posting_after, order_after, mark_after};
ghost use Rattle.rtgs_statements.specs.Reads.{LeavesRead, refused_by};

use crate::source::Source;
use rtgs_book::{Mark, Order, Posting, Refusal};
use rtgs_money::BusinessDate;

/// The posting of this date with the least number above the given one. One whose number is not above it is taken for
/// the end, so that reading ends over any source.
pub fn later_posting<S: Source>(
    source: &mut S,
    date: BusinessDate,
    number: u64,
) -> Result<Option<Posting>, Refusal>
    ensures read { LeavesRead S.holds S.leaves S.is_honest S.has_failed source.old source.new (refused_by result) }
    ensures above { IfOk result (λ next. IfSome next (λ posting. number < posting.number)) }
    ensures found { S.is_honest source.new → (book : Book) → S.holds source.old book
        → IfOk result (λ next. next ≡ posting_after book date number) }
{
    match source.next_posting(date, number) {
        Ok(Some(posting)) => {
            if number < posting.number {
                Ok(Some(posting))
            } else {
                Ok(None)
            }
        }
        Ok(None) => Ok(None),
        Err(refusal) => Err(refusal),
    }
}

/// The order of this date with the least number above the given one. One whose number is not above it is taken for
/// the end.
pub fn later_order<S: Source>(
    source: &mut S,
    date: BusinessDate,
    number: u64,
) -> Result<Option<Order>, Refusal>
    ensures read { LeavesRead S.holds S.leaves S.is_honest S.has_failed source.old source.new (refused_by result) }
    ensures above { IfOk result (λ next. IfSome next (λ order. number < order.number)) }
    ensures found { S.is_honest source.new → (book : Book) → S.holds source.old book
        → IfOk result (λ next. next ≡ order_after book date number) }
{
    match source.next_order(date, number) {
        Ok(Some(order)) => {
            if number < order.number {
                Ok(Some(order))
            } else {
                Ok(None)
            }
        }
        Ok(None) => Ok(None),
        Err(refusal) => Err(refusal),
    }
}

/// The mark of this date with the least number above the given one. One whose number is not above it is taken for the
/// end.
pub fn later_mark<S: Source>(
    source: &mut S,
    date: BusinessDate,
    number: u64,
) -> Result<Option<Mark>, Refusal>
    ensures read { LeavesRead S.holds S.leaves S.is_honest S.has_failed source.old source.new (refused_by result) }
    ensures above { IfOk result (λ next. IfSome next (λ mark. number < mark.number)) }
    ensures found { S.is_honest source.new → (book : Book) → S.holds source.old book
        → IfOk result (λ next. next ≡ mark_after book date number) }
{
    match source.next_mark(date, number) {
        Ok(Some(mark)) => {
            if number < mark.number {
                Ok(Some(mark))
            } else {
                Ok(None)
            }
        }
        Ok(None) => Ok(None),
        Err(refusal) => Err(refusal),
    }
}
