//! Texts of a desk's book.
ghost use Rattle.std.specs.Prelude.{◌≡◌, ◌≢◌, true, false, Ok, Err};
ghost use Rattle.rtgs_book.specs.declared.book.Book.{Book};
ghost use Rattle.rtgs_book.specs.declared.refusal.Refusal.{Refusal};
ghost use Rattle.rtgs_desk.specs.Holding.{Holds};
ghost use Rattle.rtgs_output.specs.declared.text_fault.TextFault.{TextFault};
ghost use Rattle.rtgs_statements.specs.Reads.{LeavesLines};
ghost use Rattle.rtgs_statements.specs.declared.book_text_fault.BookTextFault.{BookTextFault};
ghost use Rattle.rtgs_http_bodies.specs.desks.Written.{LeavesBook, Writes, statement_wanted, report_wanted};

use rtgs_book::Refusal;
use rtgs_desk::Desk;
use rtgs_keeper::Keeper;
use rtgs_money::{BusinessDate, Code};
use rtgs_statements::BookTextFault;
use rtgs_statements::laws::texts_have_bytes;
use std::alloc::Global;
use std::io::Write;

/// Writes the statement of a participant for a date, as the book that the desk holds has it, each row as its record is
/// read. It is refused before a byte is written where the store has failed, and else where nobody has the code. Lack of
/// memory and a fault of the store leave a beginning of the text that is made of whole lines, and a fault of the writer
/// leaves any beginning.
pub fn write_statement<K: Keeper, W: Write>(
    alloc: Global,
    out: &mut W,
    desk: &mut Desk<K>,
    code: &Code,
    date: BusinessDate,
) -> Result<(), BookTextFault>
    ensures written { K.is_honest desk.new.keeper → (book : Book) → Holds K.Keeper desk.old book
        → Writes (W.contents out.old) (statement_wanted book code.now date) result (W.contents out.new) }
    ensures failed { K.has_failed desk.old.keeper ≡ true
        → (result ≡ Err (BookTextFault.Refused Refusal.Failed)) × (out.new ≡ out.old) × (desk.new ≡ desk.old) }
    ensures only_failed { result ≡ Err (BookTextFault.Refused Refusal.Failed) → K.has_failed desk.old.keeper ≡ true }
    // For a code that nobody has, neither the writer nor the store is asked for anything.
    ensures unknown { result ≡ Err (BookTextFault.Refused Refusal.UnknownParticipant)
        → (out.new ≡ out.old) × (desk.new ≡ desk.old) }
    // Whole lines were written, whatever the store gave back, unless the writer failed.
    ensures lines { LeavesLines result (W.contents out.old) (W.contents out.new) }
    ensures leaves { LeavesBook K.Keeper desk.old desk.new }
    ensures fault { result ≡ Err (BookTextFault.Refused Refusal.StoreFault)
        → (K.has_failed desk.old.keeper ≡ false) × (K.has_failed desk.new.keeper ≡ true) }
    ensures only_fault { result ≢ Err (BookTextFault.Refused Refusal.StoreFault)
        → K.has_failed desk.new.keeper ≡ K.has_failed desk.old.keeper }
{
    desk.holds_a_sound_book();
    texts_have_bytes();
    match desk.account(code) {
        Ok(_) => rtgs_statements::write_statement(alloc, out, desk, code, date),
        Err(refusal) => Err(BookTextFault::Refused(refusal)),
    }
}

/// Writes the report of a day, as the book that the desk holds has it. It is refused before a byte is written where
/// the store has failed; lack of memory and a fault of the store leave the writer as it was, and a fault of the writer
/// leaves a beginning of the text.
pub fn write_report<K: Keeper, W: Write>(
    alloc: Global,
    out: &mut W,
    desk: &mut Desk<K>,
    date: BusinessDate,
) -> Result<(), BookTextFault>
    ensures written { K.is_honest desk.new.keeper → (book : Book) → Holds K.Keeper desk.old book
        → Writes (W.contents out.old) (report_wanted book date) result (W.contents out.new) }
    ensures failed { K.has_failed desk.old.keeper ≡ true
        → (result ≡ Err (BookTextFault.Refused Refusal.Failed)) × (out.new ≡ out.old) × (desk.new ≡ desk.old) }
    ensures only_failed { result ≡ Err (BookTextFault.Refused Refusal.Failed) → K.has_failed desk.old.keeper ≡ true }
    ensures memory { result ≢ Err (BookTextFault.Text TextFault.OutOfMemory) }
    ensures refused { (refusal : Refusal) → result ≡ Err (BookTextFault.Refused refusal) → out.new ≡ out.old }
    ensures leaves { LeavesBook K.Keeper desk.old desk.new }
    ensures fault { result ≡ Err (BookTextFault.Refused Refusal.StoreFault)
        → (K.has_failed desk.old.keeper ≡ false) × (K.has_failed desk.new.keeper ≡ true) }
    ensures only_fault { result ≢ Err (BookTextFault.Refused Refusal.StoreFault)
        → K.has_failed desk.new.keeper ≡ K.has_failed desk.old.keeper }
{
    desk.holds_a_sound_book();
    if desk.failed() {
        return Err(BookTextFault::Refused(Refusal::Failed));
    }
    rtgs_statements::write_report(alloc, out, desk, date)
}
