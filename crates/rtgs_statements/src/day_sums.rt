//! What a day report tells.
ghost use Rattle.std.specs.Prelude.{◌≡◌, map, IfOk, string_bytes};
ghost use Rattle.rtgs_book.specs.declared.book.Book.{Book};
ghost use Rattle.rtgs_statements.specs.declared.line.Line.{Line};
ghost use Rattle.rtgs_statements.specs.Days.{IsDayOf};
ghost use Rattle.rtgs_statements.specs.Reads.{LeavesRead, refused_by};
ghost use Rattle.rtgs_statements.specs.Sums.{sums_at};
ghost use Rattle.rtgs_statements.specs.Texts.{report};

use crate::line::Line;
use crate::ordered::Ordered;
use crate::parts::text_of_parts;
use crate::records_of_date::{codes_of, marks_on, ordered_on, posted_on};
use crate::source::Source;
use crate::sums::Sums;
use crate::totals::total_at;
use rtgs_book::Refusal;
use rtgs_money::{BusinessDate, Code};
use std::alloc::{AllocError, Global};
use std::collections::BTreeMap;

/// The participants' codes, and what the records of a date come to, in cents.
#[derive(Debug, Drop)]
pub struct DaySums {
    pub codes: Vec<Code>,
    pub posted: BTreeMap<Code, i128>,
    pub ordered: Ordered,
    pub marks: usize,
}

impl DaySums {
    /// Sums up the records of the date, each read once.
    pub fn read<S: Source>(
        alloc: Global,
        source: &mut S,
        date: BusinessDate,
    ) -> Result<DaySums, Refusal>
        ensures summed { S.is_honest source.new → (book : Book) → S.holds source.old book
            → IfOk result (λ day. IsDayOf day book date) }
        ensures read { LeavesRead S.holds S.leaves S.is_honest S.has_failed source.old source.new (refused_by result) }
    {
        let posted = match posted_on(alloc, source, date) {
            Ok(posted) => posted,
            Err(refusal) => return Err(refusal),
        };
        let ordered = match ordered_on(alloc, source, date) {
            Ok(ordered) => ordered,
            Err(refusal) => return Err(refusal),
        };
        let marks = match marks_on(source, date) {
            Ok(marks) => marks,
            Err(refusal) => return Err(refusal),
        };
        match codes_of(alloc, &*source) {
            Ok(codes) => Ok(DaySums {
                codes,
                posted,
                ordered,
                marks,
            }),
            Err(refused) => Err(Refusal::from(refused)),
        }
    }

    /// The text of the report. The only error is lack of memory.
    pub fn text(&self, alloc: Global, date: BusinessDate) -> Result<String, AllocError>
        ensures { (book : Book) → IsDayOf self.now book date
            → IfOk result (λ text. string_bytes text ≡ report book date) }
    {
        let title = [Line::ReportOf(date)];
        let accounts = self.account_lines(alloc)?;
        let standings = self.ordered.tallies.lines();
        let marks = [Line::Marks(self.marks)];
        text_of_parts(alloc, &title, &accounts, &standings, &marks)
    }

    // A line for each participant.
    fn account_lines(&self, alloc: Global) -> Result<Vec<Line>, AllocError>
        ensures { IfOk result (λ lines. lines.items ≡ map (λ code. Line.Account code
            (sums_at self.now.posted self.now.ordered.sent self.now.ordered.received code)) self.now.codes.items) }
    {
        self.codes
            .iter()
            .map(|code| Line::Account(*code, self.sums(code)))
            .collect(alloc)
    }

    // The sums of the participant with this code.
    fn sums(&self, code: &Code) -> Sums
        ensures { result ≡ sums_at self.now.posted self.now.ordered.sent self.now.ordered.received code.now }
    {
        Sums {
            posted: total_at(&self.posted, code),
            sent: total_at(&self.ordered.sent, code),
            received: total_at(&self.ordered.received, code),
        }
    }
}
