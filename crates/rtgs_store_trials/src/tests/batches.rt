//! Batches of orders, and their result files.
mod cut_writer;
mod replies;
mod results;
mod sessions;

use super::scripts::desks::desk_after;
use super::setting::code;
use rtgs_book::NewOrder;
use rtgs_desk::{Desk, submit_batch};
use rtgs_keeper::Keeper;
use rtgs_order_files::{BatchResult, read_orders, write_results};
use rtgs_tests_desks::MemoryKeeper;
use std::alloc::Global;
use std::test::Fail;

// ALFA can pay the first two of them from 150 cents.
const THREE_ROWS: &str = "reference,to,amount
A-1,BETA,100
A-2,GAMA,50
A-3,BETA,25
";

// ALFA has 150 cents, and the day is open.
const OPEN: &str = "
post ALFA P-1 150 => Posted { number: 1 }
open 2024-03-04 => Opened
";

// The rows of an order file.
fn rows_of(alloc: Global, file: &str) -> Result<Vec<NewOrder>, Fail> {
    Ok(read_orders(alloc, file.as_bytes())?)
}

// A desk with three banks on an open day, of which ALFA has 150 cents.
fn open_desk(alloc: Global) -> Result<Desk<MemoryKeeper>, Fail> {
    desk_after(alloc, OPEN)
}

// Submits the rows of ALFA.
fn submitted<K: Keeper>(
    alloc: Global,
    desk: &mut Desk<K>,
    rows: &[NewOrder],
) -> Result<BatchResult, Fail> {
    let sender = code("ALFA")?;
    Ok(submit_batch(alloc, desk, sender, rows)?)
}

// What a batch was replied.
fn batch_text(alloc: Global, batch: &BatchResult) -> Result<String, Fail> {
    Ok(format!(in alloc; "{batch:?}")?)
}

// What the desk replies to an order file of ALFA.
fn replies_text<K: Keeper>(alloc: Global, desk: &mut Desk<K>, file: &str) -> Result<String, Fail> {
    let rows = rows_of(alloc, file)?;
    let batch = submitted(alloc, desk, rows.as_slice())?;
    batch_text(alloc, &batch)
}

// The text of the result file of this batch.
fn written(alloc: Global, rows: &[NewOrder], batch: &BatchResult) -> Result<String, Fail> {
    let mut text = Vec::new(alloc);
    write_results(alloc, &mut text, rows, batch)?;
    Ok(String::from_utf8(text)?)
}

// The text of the result file of an order file of ALFA.
fn results_text<K: Keeper>(alloc: Global, desk: &mut Desk<K>, file: &str) -> Result<String, Fail> {
    let rows = rows_of(alloc, file)?;
    let batch = submitted(alloc, desk, rows.as_slice())?;
    written(alloc, rows.as_slice(), &batch)
}
