//! A batch whose store fails, and its result files before and after the desk is opened again.
use rtgs_desk::{Desk, submit_batch};
use rtgs_keeper::Keeper;
use rtgs_money::Code;
use rtgs_order_files::write_results;
use rtgs_tests_desks::{FailingKeeper, Trouble, begun, desk_over, failing, orders};
use std::alloc::Global;
use std::test::Fail;

// How many calls of its keeper a desk makes before the second order, and before that one is kept. It makes seven until
// it is open and has three banks, a posting and a day, and then two for each order, which is looked up and kept.
const AT_THE_SECOND: [usize; 2] = [9, 10];

// The same for the third order.
const AT_THE_THIRD: [usize; 2] = [11, 12];

// What ALFA has before its orders.
const BEFORE: &str = "\
post ALFA P-1 150 => Ok(Posted { number: 1 })
open 2024-03-04 => Ok(Opened)";

// ALFA can pay the first two of them from 150 cents.
const ROWS: &str = "\
order ALFA A-1 BETA 100
order ALFA A-2 GAMA 50
order ALFA A-3 BETA 25";

/// The result file of a batch that stopped at its second row.
const STOPPED: &str = "reference,result,number,detail\nA-1,settled,1,1\nA-2,stopped,,91\n";

/// The result file of one that was sent to a desk whose store had failed.
const FAILED: &str = "reference,result,number,detail\nA-1,stopped,,92\n";

/// The result file of one that stopped at its third row.
const STOPPED_LATER: &str =
    "reference,result,number,detail\nA-1,settled,1,1\nA-2,settled,2,2\nA-3,stopped,,91\n";

/// The result file of that one, sent again.
const SENT_AGAIN: &str =
    "reference,result,number,detail\nA-1,repeated,1,settled\nA-2,repeated,2,settled\nA-3,queued,3,1\n";

// Sends the rows to the desk in a batch as often as there are result files of them, and fails where one is another.
fn sent_to<K: Keeper + Drop>(alloc: Global, desk: Desk<K>, expected: &[&str]) -> Result<K, Fail> {
    let mut desk = desk;
    let rows = orders(alloc, ROWS, usize::MAX)?;
    for expected in expected {
        let batch = submit_batch(alloc, &mut desk, Code::read(b"ALFA")?, rows.as_slice())?;
        let mut text = Vec::new(alloc);
        write_results(alloc, &mut text, rows.as_slice(), &batch)?;
        if text.as_slice() != expected.as_bytes() {
            return Err(Fail::new("another result file"));
        }
    }
    Ok(desk.into_keeper())
}

// Fails unless these result files come of the rows over this keeper of a new book, and these others after a restart.
fn stop_once<K: Keeper + Drop>(
    alloc: Global,
    keeper: FailingKeeper<K>,
    expected: &[&str],
    again: &[&str],
) -> Result<(), Fail> {
    let kept = sent_to(alloc, begun(alloc, keeper, BEFORE)?, expected)?;
    let keeper = kept.restarted(usize::MAX, Trouble::Lost);
    sent_to(alloc, desk_over(alloc, keeper)?, again)?;
    Ok(())
}

// Fails unless these result files come of the rows, where the store fails at each of these calls. It may be asked for
// one more result file, after a restart.
fn stop(alloc: Global, calls: [usize; 2], expected: &[&str], again: &[&str]) -> Result<(), Fail> {
    for calls in calls {
        stop_once(alloc, failing(alloc, calls, Trouble::Lost), expected, again)?;
    }
    Ok(())
}

#[test]
fn a_batch_stops_where_the_store_fails(rt: HostRuntime) -> Result<(), Fail> {
    stop(rt.alloc(), AT_THE_SECOND, &[STOPPED, FAILED], &[])
}

#[test]
fn a_stopped_batch_is_sent_again_after_a_restart(rt: HostRuntime) -> Result<(), Fail> {
    stop(rt.alloc(), AT_THE_THIRD, &[STOPPED_LATER], &[SENT_AGAIN])
}

#[test]
fn no_line_follows_a_stop(rt: HostRuntime) -> Result<(), Fail> {
    stop(rt.alloc(), AT_THE_SECOND, &[STOPPED], &[])
}
