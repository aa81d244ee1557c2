//! A batch of orders that is submitted.
use super::call::{Call, Outcome};
use super::setting::{FUNDED_DAY, desk_after, seen_of};
use super::store::Store;
use rtgs_book::{NewOrder, Refusal};
use rtgs_desk::{Desk, submit_batch};
use rtgs_keeper::Keeper;
use rtgs_money::Code;
use rtgs_order_files::{BatchResult, RowReply};
use rtgs_tests_desks::desk_over;
use std::alloc::{AllocError, Global};
use std::test::Fail;

/// Three orders of ALFA, which has 150 cents.
pub const ORDERS: &str = "reference,to,amount\nA-1,BETA,100\nA-2,GAMA,50\nA-3,BETA,25\n";

/// What the desk replies to each of them.
const REPLIES: [RowReply; 3] = [
    RowReply::Settled { number: 1, mark: 1 },
    RowReply::Settled { number: 2, mark: 2 },
    RowReply::Queued {
        number: 3,
        place: 1,
    },
];

/// A desk with three banks on an open day, of which ALFA has 150 cents.
pub fn orders_desk<K: Keeper + Drop>(alloc: Global, keeper: K) -> Result<Desk<K>, Fail> {
    desk_after(alloc, keeper, FUNDED_DAY)
}

/// The rows of these orders, submitted to such a desk over this store.
#[derive(Clone, Copy)]
pub struct Sends<'a, S> {
    pub store: S,
    pub sender: Code,
    pub rows: &'a [NewOrder],
}

impl<S: Store> Call for Sends<'_, S>
where
    S::Kept: Keeper + Drop,
{
    type State = Desk<S::Kept>;

    type Answer = Result<BatchResult, AllocError>;

    fn begin(&self, alloc: Global) -> Result<Desk<S::Kept>, Fail> {
        orders_desk(alloc, self.store.keeper(alloc)?)
    }

    fn call(&self, alloc: Global, desk: &mut Desk<S::Kept>) -> Result<BatchResult, AllocError> {
        submit_batch(alloc, desk, self.sender, self.rows)
    }

    fn outcome(&self, answer: &Result<BatchResult, AllocError>) -> Outcome {
        match answer {
            Ok(batch) => outcome_of(batch, self.store.may_fail()),
            Err(_) => Outcome::Refused,
        }
    }

    fn reopened(&self, alloc: Global, desk: Desk<S::Kept>) -> Result<Desk<S::Kept>, Fail> {
        let keeper = self.store.restarted(alloc, desk.into_keeper())?;
        desk_over(alloc, keeper)
    }

    fn seen(&self, alloc: Global, desk: &mut Desk<S::Kept>) -> Result<String, Fail> {
        seen_of(alloc, desk)
    }

    fn parts(
        &self,
        alloc: Global,
        answer: &Result<BatchResult, AllocError>,
    ) -> Result<Vec<String>, Fail> {
        match answer {
            Ok(batch) => parts_of(alloc, self, batch),
            Err(_) => Err(Fail::from("no row is answered")),
        }
    }
}

// What is seen of the desk after this many of the rows.
fn seen_after<S: Store>(alloc: Global, sends: &Sends<'_, S>, count: usize) -> Result<String, Fail>
where
    S::Kept: Keeper + Drop,
{
    let mut desk = orders_desk(alloc, sends.store.keeper(alloc)?)?;
    let rows = sends.rows.get(..count).ok_or("so many rows")?;
    submit_batch(alloc, &mut desk, sends.sender, rows)?;
    seen_of(alloc, &mut desk)
}

// What is seen after a batch that stopped: the rows that are answered are done, and no others.
fn parts_of<S: Store>(
    alloc: Global,
    sends: &Sends<'_, S>,
    batch: &BatchResult,
) -> Result<Vec<String>, Fail>
where
    S::Kept: Keeper + Drop,
{
    let count = batch.replies.len();
    Ok(vec![in alloc; seen_after(alloc, sends, count)?]?)
}

// What a batch came to that stopped.
fn outcome_of(batch: &BatchResult, may_fail: bool) -> Outcome {
    if !REPLIES.starts_with(batch.replies.as_slice()) {
        return Outcome::Other;
    }
    match batch.stopped {
        Some(Refusal::OutOfMemory) if batch.replies.is_empty() => Outcome::Refused,
        Some(Refusal::OutOfMemory) => Outcome::Stopped,
        Some(Refusal::StoreFault) if may_fail => Outcome::Faulted,
        _ => Outcome::Other,
    }
}
