//! Orders of a batch, in words.
use crate::scripts::{command, is_expected_by_itself};
use rtgs_book::{Answer, Command, Known, NewOrder, Refusal};
use rtgs_desk::{Desk, submit_batch};
use rtgs_keeper::Keeper;
use rtgs_money::{BusinessDate, Code};
use rtgs_order_files::RowReply;
use std::alloc::Global;
use std::test::Fail;

/// The orders of the first of these lines.
pub fn orders(alloc: Global, script: &str, most: usize) -> Result<Vec<NewOrder>, Fail> {
    // Names the type of due dates for the borrow checker, which finds it nowhere else in this function.
    let _no_date: Option<BusinessDate> = None;
    let mut orders = Vec::new(alloc);
    for line in script.lines().take(most) {
        let Command::Order { order, .. } = command(line)? else {
            return Err(Fail::new("no order"));
        };
        orders.push(order)?;
    }
    Ok(orders)
}

/// Sends the first of ALFA's orders of a script in one batch, of which this many come again, and counts those that are
/// replied to before a fault of the store, and nothing else, stops them.
pub fn sent<K: Keeper>(
    alloc: Global,
    desk: &mut Desk<K>,
    script: &str,
    known: usize,
    most: usize,
) -> Result<usize, Fail> {
    let sender = Code::read(b"ALFA")?;
    let orders = orders(alloc, script, most)?;
    let batch = submit_batch(alloc, desk, sender, orders.as_slice())?;
    if !matches!(batch.stopped, None | Some(Refusal::StoreFault)) {
        return Err(Fail::new("another stop"));
    }
    replied(alloc, batch.replies.as_slice(), script, known)
}

// Counts the replies, of which this many are to orders that come again. Each is as the script says of its order, except
// for what was resolved after it, which no reply to a row tells.
fn replied(alloc: Global, replies: &[RowReply], script: &str, known: usize) -> Result<usize, Fail> {
    let mut count = 0usize;
    for (line, reply) in script.lines().zip(replies) {
        let own: Result<Answer, Refusal> = match *reply {
            RowReply::Settled { number, mark } => Ok(Answer::Settled { number, mark }),
            RowReply::Queued { number, place } => Ok(Answer::Queued { number, place }),
            RowReply::Held { number, due } => Ok(Answer::Held { number, due }),
            RowReply::Repeated { number, state } => {
                Ok(Answer::Repeated(Known::Order { number, state }))
            }
            RowReply::Refused(refusal) => Err(refusal),
        };
        if !is_expected_by_itself(alloc, &own, line, count < known)? {
            return Err(Fail::new("another row reply"));
        }
        count = count.saturating_add(1);
    }
    Ok(count)
}
