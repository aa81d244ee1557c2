//! The text of result files, and writers that fail.
use super::super::setting::is_same;
use super::cut_writer::CutWriter;
use super::{THREE_ROWS, open_desk, results_text, rows_of, submitted, written};
use rtgs_book::{NewOrder, OrderState, Refusal};
use rtgs_desk::Desk;
use rtgs_keeper::Keeper;
use rtgs_order_files::{BatchResult, RowReply, write_results};
use rtgs_tests_desks::ensure;
use std::alloc::Global;
use std::test::Fail;

const FIRST: &str = "reference,result,number,detail
A-1,settled,1,1
A-2,settled,2,2
A-3,queued,3,1
";

const AGAIN: &str = "reference,result,number,detail
A-1,repeated,1,settled
A-2,repeated,2,settled
A-3,repeated,3,queued
";

// Fails unless this is the result file of the three rows.
fn results_are<K: Keeper>(alloc: Global, desk: &mut Desk<K>, wanted: &str) -> Result<(), Fail> {
    let text = results_text(alloc, desk, THREE_ROWS)?;
    is_same(text.as_str(), wanted)
}

#[test]
fn a_line_tells_what_became_of_a_row(rt: HostRuntime) -> Result<(), Fail> {
    let mut desk = open_desk(rt.alloc())?;
    results_are(rt.alloc(), &mut desk, FIRST)?;
    results_are(rt.alloc(), &mut desk, AGAIN)
}

// Two orders that came before, and were withdrawn and rejected; then the batch stopped.
fn stopped_batch(alloc: Global) -> Result<BatchResult, Fail> {
    let mut replies = Vec::new(alloc);
    replies.push(RowReply::Repeated {
        number: 7,
        state: OrderState::Withdrawn,
    })?;
    replies.push(RowReply::Repeated {
        number: 999_999_999,
        state: OrderState::Rejected,
    })?;
    Ok(BatchResult {
        replies,
        stopped: Some(Refusal::OutOfMemory),
    })
}

const STOPPED: &str = "reference,result,number,detail
A-1,repeated,7,withdrawn
A-2,repeated,999999999,rejected
A-3,stopped,,90
";

// The text of the result file of that batch.
fn stopped_text(alloc: Global) -> Result<String, Fail> {
    let rows = rows_of(alloc, THREE_ROWS)?;
    let batch = stopped_batch(alloc)?;
    written(alloc, rows.as_slice(), &batch)
}

#[test]
fn a_repeat_tells_each_state(rt: HostRuntime) -> Result<(), Fail> {
    let text = stopped_text(rt.alloc())?;
    is_same(text.as_str(), STOPPED)
}

// Whether a writer that stops after this many writes is said to have the whole text exactly if it has, and has what it
// took of it.
fn has_a_beginning(
    alloc: Global,
    rows: &[NewOrder],
    batch: &BatchResult,
    whole: &str,
    (writes, fails): (usize, bool),
) -> bool {
    let mut writer = CutWriter::new(alloc, writes, fails);
    let is_written = write_results(alloc, &mut writer, rows, batch).is_ok();
    let enough = whole.len().div_ceil(5);
    let length = whole.len().min(writes.saturating_mul(5));
    is_written == (writes == enough) && writer.taken.as_slice() == &whole.as_bytes()[..length]
}

// Fails unless each writer that stops before the end, or at it, has a beginning of the text.
fn writers_have_beginnings(
    alloc: Global,
    rows: &[NewOrder],
    batch: &BatchResult,
    whole: &str,
) -> Result<(), Fail> {
    for writes in 0..=whole.len().div_ceil(5) {
        let fails = has_a_beginning(alloc, rows, batch, whole, (writes, true));
        let is_full = has_a_beginning(alloc, rows, batch, whole, (writes, false));
        ensure(fails && is_full)?;
    }
    Ok(())
}

#[test]
fn a_writer_that_fails_has_a_beginning(rt: HostRuntime) -> Result<(), Fail> {
    let rows = rows_of(rt.alloc(), THREE_ROWS)?;
    let mut desk = open_desk(rt.alloc())?;
    let batch = submitted(rt.alloc(), &mut desk, rows.as_slice())?;
    let whole = written(rt.alloc(), rows.as_slice(), &batch)?;
    writers_have_beginnings(rt.alloc(), rows.as_slice(), &batch, whole.as_str())
}
