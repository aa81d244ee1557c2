//! Day reports.
ghost use Rattle.std.specs.Prelude.{◌≡◌, ◌≢◌, IfErr, IfOk, OnOk, OnErr, string_bytes};
ghost use Rattle.std.specs.Io.KnownBytes.{Appends};
ghost use Rattle.rtgs_book.specs.declared.book.Book.{Book};
ghost use Rattle.rtgs_book.specs.declared.refusal.Refusal.{Refusal};
ghost use Rattle.rtgs_output.specs.Sent.{AppendsPart};
ghost use Rattle.rtgs_statements.specs.Reads.{LeavesRead, refused_by, read_refused_by};
ghost use Rattle.rtgs_statements.specs.Texts.{report};

use crate::book_text_fault::BookTextFault;
use crate::day_sums::DaySums;
use crate::source::Source;
use rtgs_book::Refusal;
use rtgs_money::BusinessDate;
use rtgs_output::{TextFault, send_all};
use std::alloc::Global;
use std::io::Write;

/// Writes the day report: its title, a line of sums for each participant, how many orders stand where and their value,
/// and the number of marks. Amounts are in units. Each record of the date is read once, and summed as it is read. Where
/// the writer fails or takes no byte, a beginning of the text was written, and not the whole; where a read is refused
/// or memory ran out, nothing was asked of the writer.
pub fn write_report<S: Source, W: Write>(
    alloc: Global,
    out: &mut W,
    source: &mut S,
    date: BusinessDate,
) -> Result<(), BookTextFault>
    ensures written { S.is_honest source.new → (book : Book) → S.holds source.old book
        → OnOk result (Appends (W.contents out.old) (W.contents out.new) (report book date)) }
    ensures begun { S.is_honest source.new → (book : Book) → S.holds source.old book
        → OnErr result (AppendsPart (W.contents out.old) (W.contents out.new) (report book date)) }
    ensures refused { (refusal : Refusal) → IfErr result (λ fault. fault ≡ BookTextFault.Refused refusal
        → out.new ≡ out.old) }
    ensures memory { IfErr result (λ fault. fault ≢ BookTextFault.Text TextFault.OutOfMemory) }
    ensures read { LeavesRead S.holds S.leaves S.is_honest S.has_failed source.old source.new (read_refused_by result) }
{
    let text = match text_of(alloc, source, date) {
        Ok(text) => text,
        Err(refusal) => return Err(BookTextFault::Refused(refusal)),
    };
    match send_all(out, text.as_bytes()) {
        Ok(()) => Ok(()),
        Err(failed) => Err(BookTextFault::Text(TextFault::from(failed))),
    }
}

fn text_of<S: Source>(alloc: Global, source: &mut S, date: BusinessDate) -> Result<String, Refusal>
    ensures made { S.is_honest source.new → (book : Book) → S.holds source.old book
        → IfOk result (λ text. string_bytes text ≡ report book date) }
    ensures read { LeavesRead S.holds S.leaves S.is_honest S.has_failed source.old source.new (refused_by result) }
{
    let day = match DaySums::read(alloc, source, date) {
        Ok(day) => day,
        Err(refusal) => return Err(refusal),
    };
    match day.text(alloc, date) {
        Ok(text) => Ok(text),
        Err(refused) => Err(Refusal::from(refused)),
    }
}
