//! Statements that are written row by row, as their records are read.
ghost use Rattle.std.specs.Prelude.{◌≡◌, IfOk, IfErr, OnOk, OnErr};
ghost use Rattle.std.specs.Io.KnownBytes.{Appends};
ghost use Rattle.rtgs_book.specs.declared.book.Book.{Book};
ghost use Rattle.rtgs_output.specs.Sent.{AppendsPart};
ghost use Rattle.rtgs_statements.specs.Reads.{LeavesRead, AppendsBeginning, read_refused_by};
ghost use Rattle.rtgs_statements.specs.Reads.{AppendsWholeLines, LeavesLines, LeavesWholeLines};
ghost use Rattle.rtgs_statements.specs.Records.{postings_on, orders_on};
ghost use Rattle.rtgs_statements.specs.Rows.{posting_row, order_row, posting_rows, order_rows, cents_posted_to};
ghost use Rattle.rtgs_statements.specs.Rows.{settled_by};
ghost use Rattle.rtgs_statements.specs.Rows.{is_shown_to};
ghost use Rattle.rtgs_statements.specs.Sums.{IsSmall, posted, sent, received};
ghost use Rattle.rtgs_statements.specs.Texts.{statement};

use crate::book_text_fault::BookTextFault;
use crate::line::Line;
use crate::lines::{write_four, write_line};
use crate::next_records::{later_order, later_posting};
use crate::party::Party;
use crate::row::Row;
use crate::source::Source;
use crate::sums::{Sums, sum_lines};
use rtgs_book::cores::laws::records_are_listed;
use rtgs_book::{Order, OrderState, Posting};
use rtgs_money::{BusinessDate, Code};
use rtgs_output::TextFault;
use std::alloc::Global;
use std::io::Write;

/// Writes the statement of a participant for a date, each row as its record is read: its title, a line for each posting
/// and then for each order, and four sums. Amounts are in units. Where a read is refused, a line finds no memory, or
/// the writer fails or takes no byte, a beginning of the text was written, and not the whole; unless the writer failed,
/// it is one of whole lines.
pub fn write_statement<S: Source, W: Write>(
    alloc: Global,
    out: &mut W,
    source: &mut S,
    code: &Code,
    date: BusinessDate,
) -> Result<(), BookTextFault>
    ensures written { S.is_honest source.new → (book : Book) → S.holds source.old book
        → OnOk result (Appends (W.contents out.old) (W.contents out.new) (statement book code.now date)) }
    ensures begun { S.is_honest source.new → (book : Book) → S.holds source.old book
        → OnErr result (AppendsPart (W.contents out.old) (W.contents out.new) (statement book code.now date)) }
    // Whatever was read, and of whatever source, unless the writer failed.
    ensures lines { LeavesLines result (W.contents out.old) (W.contents out.new) }
    ensures read { LeavesRead S.holds S.leaves S.is_honest S.has_failed source.old source.new (read_refused_by result) }
{
    if let Err(fault) = write_line(alloc, out, &Line::StatementOf(*code, date)) {
        return Err(BookTextFault::Text(fault));
    }
    let posted = match write_postings(alloc, out, source, code, date) {
        Ok(posted) => posted,
        Err(fault) => return Err(fault),
    };
    let (sent, received) = match write_orders(alloc, out, source, code, date) {
        Ok(sums) => sums,
        Err(fault) => return Err(fault),
    };
    let sums = sum_lines(Sums {
        posted,
        sent,
        received,
    });
    match write_four(alloc, out, &sums) {
        Ok(()) => Ok(()),
        Err(fault) => Err(BookTextFault::Text(fault)),
    }
}

// Writes the rows of the participant's postings of the date, and gives their sum.
fn write_postings<S: Source, W: Write>(
    alloc: Global,
    out: &mut W,
    source: &mut S,
    code: &Code,
    date: BusinessDate,
) -> Result<i128, BookTextFault>
    ensures written { S.is_honest source.new → (book : Book) → S.holds source.old book → OnOk result
        (Appends (W.contents out.old) (W.contents out.new) (posting_rows code.now (postings_on date book.postings))) }
    ensures begun { S.is_honest source.new → (book : Book) → S.holds source.old book → OnErr result
        (AppendsBeginning (W.contents out.old) (W.contents out.new)
        (posting_rows code.now (postings_on date book.postings))) }
    ensures sum { S.is_honest source.new → (book : Book) → S.holds source.old book
        → IfOk result (λ sum. sum ≡ posted code.now (postings_on date book.postings)) }
    ensures small { IfOk result IsSmall }
    ensures lines { OnOk result (AppendsWholeLines (W.contents out.old) (W.contents out.new)) }
    ensures whole { IfErr result (λ fault. LeavesWholeLines fault (W.contents out.old) (W.contents out.new)) }
    ensures read { LeavesRead S.holds S.leaves S.is_honest S.has_failed source.old source.new (read_refused_by result) }
{
    source.reads_a_sound_book();
    records_are_listed();
    let mut last = 0;
    let mut sum = 0i128;
    loop {
        let next = match later_posting(source, date, last) {
            Ok(next) => next,
            Err(refusal) => return Err(BookTextFault::Refused(refusal)),
        };
        let Some(posting) = next else {
            return Ok(sum);
        };
        last = posting.number;
        match write_posting(alloc, out, code, &posting) {
            Ok(cents) => sum += cents,
            Err(fault) => return Err(BookTextFault::Text(fault)),
        }
    }
}

// Writes the rows of the orders of the date that the participant is shown, and gives what it sent and received.
fn write_orders<S: Source, W: Write>(
    alloc: Global,
    out: &mut W,
    source: &mut S,
    code: &Code,
    date: BusinessDate,
) -> Result<(i128, i128), BookTextFault>
    ensures written { S.is_honest source.new → (book : Book) → S.holds source.old book → OnOk result
        (Appends (W.contents out.old) (W.contents out.new) (order_rows code.now (orders_on date book.orders))) }
    ensures begun { S.is_honest source.new → (book : Book) → S.holds source.old book → OnErr result
        (AppendsBeginning (W.contents out.old) (W.contents out.new)
        (order_rows code.now (orders_on date book.orders))) }
    ensures sums { S.is_honest source.new → (book : Book) → S.holds source.old book
        → IfOk result (λ (out, back). (out ≡ sent code.now (orders_on date book.orders))
        × (back ≡ received code.now (orders_on date book.orders))) }
    ensures small { IfOk result (λ (out, back). IsSmall out × IsSmall back) }
    ensures lines { OnOk result (AppendsWholeLines (W.contents out.old) (W.contents out.new)) }
    ensures whole { IfErr result (λ fault. LeavesWholeLines fault (W.contents out.old) (W.contents out.new)) }
    ensures read { LeavesRead S.holds S.leaves S.is_honest S.has_failed source.old source.new (read_refused_by result) }
{
    source.reads_a_sound_book();
    records_are_listed();
    let mut last = 0;
    let mut sent = 0i128;
    let mut received = 0i128;
    loop {
        let next = match later_order(source, date, last) {
            Ok(next) => next,
            Err(refusal) => return Err(BookTextFault::Refused(refusal)),
        };
        let Some(order) = next else {
            return Ok((sent, received));
        };
        last = order.number;
        if let Err(fault) = write_order(alloc, out, code, &order) {
            return Err(BookTextFault::Text(fault));
        }
        sent += settled_cents(Party::Sender, code, &order);
        received += settled_cents(Party::Receiver, code, &order);
    }
}

// Writes the row of a posting to the participant, and gives what it adds to the sum.
fn write_posting<W: Write>(
    alloc: Global,
    out: &mut W,
    code: &Code,
    posting: &Posting,
) -> Result<i128, TextFault>
    ensures written { OnOk result (Appends (W.contents out.old) (W.contents out.new)
        (posting_row code.now posting.now)) }
    ensures begun { OnErr result (AppendsBeginning (W.contents out.old) (W.contents out.new)
        (posting_row code.now posting.now)) }
    ensures memory { IfErr result (λ fault. fault ≡ TextFault.OutOfMemory → out.new ≡ out.old) }
    ensures sum { IfOk result (λ cents. cents ≡ cents_posted_to code.now posting.now) }
{
    if posting.code != *code {
        return Ok(0);
    }
    match write_line(alloc, out, &Line::Record(Row::of_posting(posting))) {
        Ok(()) => Ok(i128::from(posting.cents.cents())),
        Err(fault) => Err(fault),
    }
}

// Writes the row of an order that the participant is shown.
fn write_order<W: Write>(
    alloc: Global,
    out: &mut W,
    code: &Code,
    order: &Order,
) -> Result<(), TextFault>
    ensures written { OnOk result (Appends (W.contents out.old) (W.contents out.new) (order_row code.now order.now)) }
    ensures begun { OnErr result (AppendsBeginning (W.contents out.old) (W.contents out.new)
        (order_row code.now order.now)) }
    ensures memory { IfErr result (λ fault. fault ≡ TextFault.OutOfMemory → out.new ≡ out.old) }
{
    if !is_shown_to(code, order) {
        return Ok(());
    }
    // The contract is by cases of the result, and the prover sees them where it is taken apart.
    match write_line(alloc, out, &Line::Record(Row::of_order(code, order))) {
        Ok(()) => Ok(()),
        Err(fault) => Err(fault),
    }
}

// Whether the participant sent the order, or it is settled and was sent to it.
fn is_shown_to(code: &Code, order: &Order) -> bool
    ensures { result ≡ is_shown_to code.now order.now }
{
    let is_settled = matches!(order.state, OrderState::Settled(_));
    order.sender == *code || (is_settled && order.receiver == *code)
}

// What a settled order adds to the sum of the participant that is this party of it.
fn settled_cents(party: Party, code: &Code, order: &Order) -> i128
    ensures { result ≡ settled_by party code.now order.now }
{
    match order.state {
        OrderState::Settled(_) if party.code(order) == *code => i128::from(order.amount.cents()),
        _ => 0,
    }
}
