//! Batches over a keeper in memory.
use super::super::setting::is_same;
use super::{THREE_ROWS, open_desk, replies_text, results_text};
use std::test::Fail;

const REPLIED: &str =
    "BatchResult { replies: [Settled { number: 1, mark: 1 }, Settled { number: 2, mark: 2 }, \
    Queued { number: 3, place: 1 }], stopped: None }";

#[test]
fn rows_are_replied_to_in_order(rt: HostRuntime) -> Result<(), Fail> {
    let mut desk = open_desk(rt.alloc())?;
    let replied = replies_text(rt.alloc(), &mut desk, THREE_ROWS)?;
    is_same(replied.as_str(), REPLIED)
}

const REPEATED: &str = "BatchResult { replies: [Repeated { number: 1, state: Settled(1) }, \
    Repeated { number: 2, state: Settled(2) }, Repeated { number: 3, state: Queued }], stopped: None }";

#[test]
fn a_batch_that_comes_again_changes_nothing(rt: HostRuntime) -> Result<(), Fail> {
    let mut desk = open_desk(rt.alloc())?;
    replies_text(rt.alloc(), &mut desk, THREE_ROWS)?;
    let again = replies_text(rt.alloc(), &mut desk, THREE_ROWS)?;
    is_same(again.as_str(), REPEATED)
}

// The second row is to its sender, the third to nobody, and the fourth has the first's reference.
const WITH_BAD_ROWS: &str = "reference,to,amount
A-1,BETA,100
A-2,ALFA,5
A-3,ZETA,5
A-1,BETA,99
";

const THEIR_RESULTS: &str = "reference,result,number,detail
A-1,settled,1,1
A-2,refused,,3
A-3,refused,,2
A-1,refused,,4
";

#[test]
fn a_refused_row_stops_no_other(rt: HostRuntime) -> Result<(), Fail> {
    let mut desk = open_desk(rt.alloc())?;
    let text = results_text(rt.alloc(), &mut desk, WITH_BAD_ROWS)?;
    is_same(text.as_str(), THEIR_RESULTS)
}
