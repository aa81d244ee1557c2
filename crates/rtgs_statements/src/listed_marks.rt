//! The marks of a date, written row by row, as they are read.
ghost use Rattle.std.specs.Prelude.{◌≡◌, OnOk, OnErr};
ghost use Rattle.std.specs.Io.KnownBytes.{Appends};
ghost use Rattle.rtgs_book.specs.declared.book.Book.{Book};
ghost use Rattle.rtgs_output.specs.Sent.{AppendsPart};
ghost use Rattle.rtgs_statements.specs.Listings.{marks_text};
ghost use Rattle.rtgs_statements.specs.Reads.{LeavesLines, LeavesRead, read_refused_by};

use crate::book_text_fault::BookTextFault;
use crate::line::Line;
use crate::lines::write_line;
use crate::next_records::later_mark;
use crate::source::Source;
use rtgs_book::cores::laws::records_are_listed;
use rtgs_money::BusinessDate;
use std::alloc::Global;
use std::io::Write;

/// Writes the marks of a date as CSV: a header, and then a line for each mark by rising number. Amounts are in
/// cents. Where a read is refused, a line finds no memory, or the writer fails or takes no byte, a beginning of the
/// text was written, and not the whole; unless the writer failed, it is one of whole lines.
pub fn write_marks<S: Source, W: Write>(
    alloc: Global,
    out: &mut W,
    source: &mut S,
    date: BusinessDate,
) -> Result<(), BookTextFault>
    ensures written { S.is_honest source.new → (book : Book) → S.holds source.old book
        → OnOk result (Appends (W.contents out.old) (W.contents out.new) (marks_text book date)) }
    ensures begun { S.is_honest source.new → (book : Book) → S.holds source.old book
        → OnErr result (AppendsPart (W.contents out.old) (W.contents out.new) (marks_text book date)) }
    // Whatever was read, and of whatever source, unless the writer failed.
    ensures lines { LeavesLines result (W.contents out.old) (W.contents out.new) }
    ensures read { LeavesRead S.holds S.leaves S.is_honest S.has_failed source.old source.new (read_refused_by result) }
{
    source.reads_a_sound_book();
    records_are_listed();
    let mut line = Line::MarksHeader;
    let mut last = 0;
    loop {
        // A line is written once the next mark was read, so that a text whose last read was refused is not whole.
        let next = match later_mark(source, date, last) {
            Ok(next) => next,
            Err(refusal) => return Err(BookTextFault::Refused(refusal)),
        };
        if let Err(fault) = write_line(alloc, out, &line) {
            return Err(BookTextFault::Text(fault));
        }
        let Some(mark) = next else {
            return Ok(());
        };
        last = mark.number;
        line = Line::ListedMark(mark);
    }
}
