//! The orders and the marks of a date, as a desk's book has them.
ghost use Rattle.std.specs.Prelude.{◌≡◌, ◌≢◌, ◌⊎◌, true, false, Err};
ghost use Rattle.rtgs_book.specs.declared.book.Book.{Book};
ghost use Rattle.rtgs_book.specs.declared.refusal.Refusal.{Refusal};
ghost use Rattle.rtgs_desk.specs.Holding.{Holds, TellsFaults};
ghost use Rattle.rtgs_desk.specs.Readings.{Tells};
ghost use Rattle.rtgs_statements.specs.Reads.{LeavesLines};
ghost use Rattle.rtgs_statements.specs.declared.book_text_fault.BookTextFault.{BookTextFault};
ghost use Rattle.rtgs_http_bodies.specs.desks.Written.{IsLost, LeavesBook, Writes, orders_wanted, marks_wanted};

use crate::desks::readings::refusal_of;
use rtgs_book::Refusal;
use rtgs_desk::Desk;
use rtgs_keeper::Keeper;
use rtgs_money::BusinessDate;
use rtgs_statements::BookTextFault;
use std::alloc::Global;
use std::io::Write;

/// Writes the orders of a date as CSV, as the book that the desk holds has them, each line once the next order was
/// read. It is refused before a byte is written where the store has failed. Lack of memory and a fault of the store
/// leave a beginning of the text that is made of whole lines, and a fault of the writer leaves any beginning.
pub fn write_orders<K: Keeper, W: Write>(
    alloc: Global,
    out: &mut W,
    desk: &mut Desk<K>,
    date: BusinessDate,
) -> Result<(), BookTextFault>
    ensures written { K.is_honest desk.new.keeper → (book : Book) → Holds K.Keeper desk.old book
        → Writes (W.contents out.old) (orders_wanted book date) result (W.contents out.new) }
    ensures failed { K.has_failed desk.old.keeper ≡ true
        → (result ≡ Err (BookTextFault.Refused Refusal.Failed)) × (out.new ≡ out.old) × (desk.new ≡ desk.old) }
    ensures only_failed { result ≡ Err (BookTextFault.Refused Refusal.Failed) → K.has_failed desk.old.keeper ≡ true }
    // Whole lines were written, whatever the store gave back, unless the writer failed.
    ensures lines { LeavesLines result (W.contents out.old) (W.contents out.new) }
    ensures leaves { LeavesBook K.Keeper desk.old desk.new }
    ensures fault { result ≡ Err (BookTextFault.Refused Refusal.StoreFault)
        → (K.has_failed desk.old.keeper ≡ false) × (K.has_failed desk.new.keeper ≡ true) }
    ensures only_fault { result ≢ Err (BookTextFault.Refused Refusal.StoreFault)
        → K.has_failed desk.new.keeper ≡ K.has_failed desk.old.keeper }
{
    desk.holds_a_sound_book();
    if desk.failed() {
        return Err(BookTextFault::Refused(Refusal::Failed));
    }
    rtgs_statements::write_orders(alloc, out, desk, date)
}

/// Writes the marks of a date as CSV, as `write_orders` writes its orders.
pub fn write_marks<K: Keeper, W: Write>(
    alloc: Global,
    out: &mut W,
    desk: &mut Desk<K>,
    date: BusinessDate,
) -> Result<(), BookTextFault>
    ensures written { K.is_honest desk.new.keeper → (book : Book) → Holds K.Keeper desk.old book
        → Writes (W.contents out.old) (marks_wanted book date) result (W.contents out.new) }
    ensures failed { K.has_failed desk.old.keeper ≡ true
        → (result ≡ Err (BookTextFault.Refused Refusal.Failed)) × (out.new ≡ out.old) × (desk.new ≡ desk.old) }
    ensures only_failed { result ≡ Err (BookTextFault.Refused Refusal.Failed) → K.has_failed desk.old.keeper ≡ true }
    // Whole lines were written, whatever the store gave back, unless the writer failed.
    ensures lines { LeavesLines result (W.contents out.old) (W.contents out.new) }
    ensures leaves { LeavesBook K.Keeper desk.old desk.new }
    ensures fault { result ≡ Err (BookTextFault.Refused Refusal.StoreFault)
        → (K.has_failed desk.old.keeper ≡ false) × (K.has_failed desk.new.keeper ≡ true) }
    ensures only_fault { result ≢ Err (BookTextFault.Refused Refusal.StoreFault)
        → K.has_failed desk.new.keeper ≡ K.has_failed desk.old.keeper }
{
    desk.holds_a_sound_book();
    if desk.failed() {
        return Err(BookTextFault::Refused(Refusal::Failed));
    }
    rtgs_statements::write_marks(alloc, out, desk, date)
}

/// The orders of a date as CSV, gathered in memory. The book stays as it is.
pub fn orders_text<K: Keeper>(
    alloc: Global,
    desk: &mut Desk<K>,
    date: BusinessDate,
) -> Result<Vec<u8>, Refusal>
    ensures answered { K.is_honest desk.new.keeper → (book : Book) → Holds K.Keeper desk.old book
        → Tells (λ text. text.items) (orders_wanted book date) result ⊎ IsLost K.Keeper desk.new result }
    ensures faults { TellsFaults K.Keeper desk.old desk.new result }
    ensures leaves { LeavesBook K.Keeper desk.old desk.new }
{
    let mut text = Vec::new(alloc);
    match write_orders(alloc, &mut text, desk, date) {
        Ok(()) => Ok(text),
        Err(fault) => Err(refusal_of(fault)),
    }
}

/// The marks of a date as CSV, gathered in memory. The book stays as it is.
pub fn marks_text<K: Keeper>(
    alloc: Global,
    desk: &mut Desk<K>,
    date: BusinessDate,
) -> Result<Vec<u8>, Refusal>
    ensures answered { K.is_honest desk.new.keeper → (book : Book) → Holds K.Keeper desk.old book
        → Tells (λ text. text.items) (marks_wanted book date) result ⊎ IsLost K.Keeper desk.new result }
    ensures faults { TellsFaults K.Keeper desk.old desk.new result }
    ensures leaves { LeavesBook K.Keeper desk.old desk.new }
{
    let mut text = Vec::new(alloc);
    match write_marks(alloc, &mut text, desk, date) {
        Ok(()) => Ok(text),
        Err(fault) => Err(refusal_of(fault)),
    }
}
