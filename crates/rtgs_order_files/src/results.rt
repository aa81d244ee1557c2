//! Result files: what came of each row of a batch.
ghost use Rattle.std.specs.Io.KnownBytes.{Appends, Keeps};
ghost use Rattle.std.specs.Prelude.{◌≡◌, ◌++◌, ℕ, List, IfOk, IfErr, OnOk, OnErr, decimal};
ghost use Rattle.rtgs_order_files.specs.Results.{line, reply_line, stop_line, result_lines, results_text, Wrote};
ghost use Rattle.rtgs_output.specs.Sent.{AppendsPart};

use crate::batch_result::{BatchResult, RowReply};
use csv::Writer;
use itoa::Buffer;
use rtgs_book::{NewOrder, Refusal, Standing};
use rtgs_money::Reference;
use rtgs_output::{TextFault, send_all};
use std::alloc::{AllocError, Global};
use std::io::Write;

/// Writes the result file of a batch as CSV (RFC 4180, but with a line feed alone at the end of each line): a header,
/// then for each row that has a reply its reference, what became of it, the order's number and a detail, and last the
/// row at which the batch stopped. On a fault of the writer a beginning of that was written.
pub fn write_results<W: Write>(
    alloc: Global,
    out: &mut W,
    rows: &[NewOrder],
    batch: &BatchResult,
) -> Result<(), TextFault>
    ensures written { OnOk result (Appends (W.contents out.old) (W.contents out.new)
        (results_text rows.now batch.now.replies.items batch.now.stopped)) }
    ensures begun { OnErr result (AppendsPart (W.contents out.old) (W.contents out.new)
        (results_text rows.now batch.now.replies.items batch.now.stopped)) }
    ensures memory { IfErr result (λ fault. fault ≡ TextFault.OutOfMemory → out.new ≡ out.old) }
{
    let text = match text_of(alloc, rows, batch) {
        Ok(text) => text,
        Err(refused) => return Err(TextFault::from(refused)),
    };
    match send_all(out, text.as_slice()) {
        Ok(()) => Ok(()),
        Err(failed) => Err(TextFault::from(failed)),
    }
}

// The text of a result file.
fn text_of(alloc: Global, rows: &[NewOrder], batch: &BatchResult) -> Result<Vec<u8>, AllocError>
    ensures { IfOk result (λ text. text.items ≡ results_text rows.now batch.now.replies.items batch.now.stopped) }
{
    let mut lines = Writer::from_writer(Vec::new(alloc));
    put_line(&mut lines, "reference", "result", "number", "detail")?;
    put_rows(&mut lines, rows, batch)?;
    match lines.into_inner() {
        Ok(text) => Ok(text),
        Err(_) => Err(AllocError),
    }
}

// Adds a line for each row that has a reply, and one for the row at which the batch stopped.
fn put_rows<W: Write + Drop>(
    lines: &mut Writer<W>,
    rows: &[NewOrder],
    batch: &BatchResult,
) -> Result<(), AllocError>
    ensures { OnOk result ((text : List ℕ) → Wrote W.contents lines.old text
        → Wrote W.contents lines.new (text ++ result_lines rows.now batch.now.replies.items batch.now.stopped)) }
{
    let replies = batch.replies.as_slice();
    for (row, reply) in rows.iter().zip(replies.iter()) {
        put_reply(lines, &row.reference, *reply)?;
    }
    let Some(refusal) = batch.stopped else {
        return Ok(());
    };
    match rows.get(replies.len()) {
        Some(row) => put_stop(lines, &row.reference, refusal),
        None => Ok(()),
    }
}

// Adds the line of a row that has a reply.
fn put_reply<W: Write + Drop>(
    lines: &mut Writer<W>,
    reference: &Reference,
    reply: RowReply,
) -> Result<(), AllocError>
    ensures { OnOk result ((text : List ℕ) → Wrote W.contents lines.old text
        → Wrote W.contents lines.new (text ++ reply_line reference.now reply)) }
{
    let reference = reference.as_str();
    match reply {
        RowReply::Settled { number, mark } => {
            put_numbers(lines, reference, Standing::Settled.word(), number, mark)
        }
        RowReply::Queued { number, place } => {
            put_numbers(lines, reference, Standing::Queued.word(), number, place)
        }
        RowReply::Held { number, due } => put_number(
            lines,
            reference,
            Standing::Held.word(),
            number,
            due.text().as_str(),
        ),
        RowReply::Repeated { number, state } => {
            put_number(lines, reference, "repeated", number, state.word())
        }
        RowReply::Refused(refusal) => {
            let mut digits = Buffer::new();
            let detail = digits.format(refusal.kind().number());
            put_line(lines, reference, "refused", "", detail)
        }
    }
}

// Adds a line with an order's number, and another number as the detail.
fn put_numbers<W: Write + Drop>(
    lines: &mut Writer<W>,
    reference: &str,
    word: &str,
    number: u64,
    detail: u64,
) -> Result<(), AllocError>
    ensures { OnOk result ((text : List ℕ) → Wrote W.contents lines.old text
        → Wrote W.contents lines.new (text ++ line reference.now word.now (decimal number) (decimal detail))) }
{
    let mut digits = Buffer::new();
    put_number(lines, reference, word, number, digits.format(detail))
}

// Adds a line with an order's number.
fn put_number<W: Write + Drop>(
    lines: &mut Writer<W>,
    reference: &str,
    word: &str,
    number: u64,
    detail: &str,
) -> Result<(), AllocError>
    ensures { OnOk result ((text : List ℕ) → Wrote W.contents lines.old text
        → Wrote W.contents lines.new (text ++ line reference.now word.now (decimal number) detail.now)) }
{
    let mut digits = Buffer::new();
    put_line(lines, reference, word, digits.format(number), detail)
}

// Adds the line of the row at which the batch stopped.
fn put_stop<W: Write + Drop>(
    lines: &mut Writer<W>,
    reference: &Reference,
    refusal: Refusal,
) -> Result<(), AllocError>
    ensures { OnOk result ((text : List ℕ) → Wrote W.contents lines.old text
        → Wrote W.contents lines.new (text ++ stop_line reference.now refusal)) }
{
    let mut detail = Buffer::new();
    put_line(
        lines,
        reference.as_str(),
        "stopped",
        "",
        detail.format(refusal.kind().number()),
    )
}

// Adds a line of four fields.
fn put_line<W: Write + Drop>(
    lines: &mut Writer<W>,
    reference: &str,
    word: &str,
    number: &str,
    detail: &str,
) -> Result<(), AllocError>
    ensures { OnOk result ((text : List ℕ) → Wrote W.contents lines.old text
        → Wrote W.contents lines.new (text ++ line reference.now word.now number.now detail.now)) }
{
    let fields = [
        reference.as_bytes(),
        word.as_bytes(),
        number.as_bytes(),
        detail.as_bytes(),
    ];
    match lines.write_fields(&fields) {
        Ok(()) => Ok(()),
        Err(_) => Err(AllocError),
    }
}
