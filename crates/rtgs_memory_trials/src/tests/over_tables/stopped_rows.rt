//! A batch that stops at a later row for lack of memory, and what its file of results says.
use super::super::scarce::setting::{code, seen_of};
use super::super::scarce::{Held, Store, in_a_process, is_limited, orders_desk, same};
use super::over_sql::OverSql;
use rtgs_book::{NewOrder, Refusal};
use rtgs_desk::{Desk, submit_batch};
use rtgs_keeper::Keeper;
use rtgs_order_files::{BatchResult, read_orders, write_results};
use rtgs_tests_desks::ensure;
use std::alloc::Global;
use std::fmt::Write;
use std::test::Fail;

/// The number of the first row's order.
const FIRST: u64 = 1;

/// The number of the last row's order. The first order that a desk takes has the connection keep more statements than
/// it had room for. It asks for one large block then, and the block that it gives up does for what is kept of many
/// rows: so an amount of memory that does for the first row may do for dozens. These rows are more than that.
const LAST: u64 = 64;

/// At how many rows the batch has to stop at least, with one amount of memory or another.
const LEAST_MET: usize = 4;

/// By how many small blocks of memory a step has more than the one before it. A few rows are kept in this many.
const BLOCKS: usize = 128;

/// How many steps there are at most.
const MOST_STEPS: usize = 128;

/// The first line of results.
const HEADER: &str = "reference,result,number,detail\n";

// The rows: orders of ALFA, which has the cents for all of them.
fn read_rows(alloc: Global) -> Result<Vec<NewOrder>, Fail> {
    let mut file = String::from_str(alloc, "reference,to,amount\n")?;
    for number in FIRST..=LAST {
        write!(file, "A-{number},BETA,1\n")?;
    }
    Ok(read_orders(alloc, file.as_str().as_bytes())?)
}

// The results where the row of this number is refused for lack of memory.
fn results_to(alloc: Global, refused: u64) -> Result<String, Fail> {
    let mut results = String::from_str(alloc, HEADER)?;
    for number in FIRST..refused {
        write!(results, "A-{number},settled,{number},{number}\n")?;
    }
    write!(results, "A-{refused},stopped,,90\n")?;
    Ok(results)
}

// The results where all rows are answered. Those before this number are sent again.
fn results_from(alloc: Global, refused: u64) -> Result<String, Fail> {
    let mut results = String::from_str(alloc, HEADER)?;
    for number in FIRST..=LAST {
        if number < refused {
            write!(results, "A-{number},repeated,{number},settled\n")?;
        } else {
            write!(results, "A-{number},settled,{number},{number}\n")?;
        }
    }
    Ok(results)
}

// The file of these results is this one.
fn has_file(
    alloc: Global,
    rows: &[NewOrder],
    batch: &BatchResult,
    wanted: &str,
) -> Result<(), Fail> {
    let mut text = Vec::new(alloc);
    write_results(alloc, &mut text, rows, batch)?;
    same(alloc, std::str::from_utf8(text.as_slice())?, wanted)
}

// Submits the rows with this many small blocks of memory. There are no results where the memory does for no reply.
fn with_little<K: Keeper>(
    alloc: Global,
    desk: &mut Desk<K>,
    rows: &[NewOrder],
    given: usize,
) -> Result<Option<BatchResult>, Fail> {
    let sender = code("ALFA")?;
    let held = Held::all_but(alloc, given)?;
    let batch = submit_batch(alloc, desk, sender, rows);
    held.free();
    match batch {
        Ok(batch) => Ok(Some(batch)),
        Err(_) => Ok(None),
    }
}

// How many rows are answered before one is refused for lack of memory, or all are. Where the store fails, none counts.
fn count_of(batch: &BatchResult) -> usize {
    match batch.stopped {
        None | Some(Refusal::OutOfMemory) => batch.replies.len(),
        Some(_) => 0,
    }
}

// The rows are all answered. The desk is then seen like one that was sent them once.
fn is_completed<K: Keeper>(
    alloc: Global,
    desk: &mut Desk<K>,
    rows: &[NewOrder],
    refused: u64,
    once: &str,
) -> Result<(), Fail> {
    let batch = submit_batch(alloc, desk, code("ALFA")?, rows)?;
    has_file(alloc, rows, &batch, results_from(alloc, refused)?.as_str())?;
    same(alloc, seen_of(alloc, desk)?.as_str(), once)
}

// What is seen of a desk that was sent these rows.
fn seen_after<S: Store>(alloc: Global, store: &S, rows: &[NewOrder]) -> Result<String, Fail>
where
    S::Kept: Keeper + Drop,
{
    let mut desk = orders_desk(alloc, store.keeper(alloc)?)?;
    submit_batch(alloc, &mut desk, code("ALFA")?, rows)?;
    seen_of(alloc, &mut desk)
}

// How many rows are answered with this many small blocks of memory. Where the next one is refused, what is answered and
// seen then, and when the rows are sent again, is as it should be.
fn answered<S: Store>(
    alloc: Global,
    store: &S,
    rows: &[NewOrder],
    once: &str,
    given: usize,
) -> Result<usize, Fail>
where
    S::Kept: Keeper + Drop,
{
    let mut desk = orders_desk(alloc, store.keeper(alloc)?)?;
    let Some(batch) = with_little(alloc, &mut desk, rows, given)? else {
        return Ok(0);
    };
    let count = count_of(&batch);
    if count == 0 || count == rows.len() {
        return Ok(count);
    }
    let refused = FIRST.saturating_add(count as u64);
    has_file(alloc, rows, &batch, results_to(alloc, refused)?.as_str())?;
    let done = rows.get(..count).ok_or("so many rows")?;
    let wanted = seen_after(alloc, store, done)?;
    same(alloc, seen_of(alloc, &mut desk)?.as_str(), wanted.as_str())?;
    is_completed(alloc, &mut desk, rows, refused, once)?;
    Ok(count)
}

// What is seen of a desk that was sent the rows once.
fn seen_once<S: Store>(alloc: Global, store: &S, rows: &[NewOrder]) -> Result<String, Fail>
where
    S::Kept: Keeper + Drop,
{
    let mut desk = orders_desk(alloc, store.keeper(alloc)?)?;
    let batch = submit_batch(alloc, &mut desk, code("ALFA")?, rows)?;
    has_file(alloc, rows, &batch, results_from(alloc, FIRST)?.as_str())?;
    seen_of(alloc, &mut desk)
}

// With more and more memory until all rows are answered: how many steps that takes, and at how many rows the batch
// stops.
fn rows_met<S: Store>(alloc: Global, store: &S, rows: &[NewOrder]) -> Result<(usize, usize), Fail>
where
    S::Kept: Keeper + Drop,
{
    let once = seen_once(alloc, store, rows)?;
    let (mut met, mut most) = (0usize, 0usize);
    for step in 0..MOST_STEPS {
        let given = step.saturating_mul(BLOCKS);
        let count = answered(alloc, store, rows, once.as_str(), given)?;
        if count == rows.len() {
            return Ok((step, met));
        }
        if count > most {
            met = met.saturating_add(1);
            most = count;
        }
    }
    Err(Fail::from("not all rows are answered"))
}

#[test]
fn a_later_row(rt: HostRuntime) -> Result<(), Fail> {
    if !is_limited(&rt) {
        return in_a_process(&rt, "tests::over_tables::stopped_rows::a_later_row");
    }
    let rows = read_rows(rt.alloc())?;
    let (steps, met) = rows_met(rt.alloc(), &OverSql, rows.as_slice())?;
    rt.println(format_args!(
        "the batch stops at {met} of {} rows, in {steps} steps of {BLOCKS} blocks",
        rows.len()
    ))?;
    ensure(met >= LEAST_MET)
}
