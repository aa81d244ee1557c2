//! What a row does to limits below which nothing that is queued can settle.
ghost use Rattle.std.specs.Prelude.{◌≡◌, IfSome, None, false};
ghost use Rattle.std.specs.List.{AllByRecursion};
ghost use Rattle.rtgs_book.specs.declared.order_state.OrderState.{OrderState as OrderStateSpec};
ghost use Rattle.rtgs_book.specs.cores.Following.{core_after, core_after_row};
ghost use Rattle.rtgs_records.specs.Records.{core_in};
ghost use Rattle.rtgs_ledger.specs.Limits.{KeepsQueues, Lowers};

use rtgs_book::{Order, RowChange};
use rtgs_gridlock::{appended_within_slack, last_withdrawn_keeps_limits, withdrawn_within_slack};
use rtgs_records::Records;

/// What a row does to limits: that of the account at the index falls by the cents.
#[derive(Clone, Copy, Debug)]
pub(super) struct Lowering {
    pub(super) index: usize,
    pub(super) cents: u64,
    /// The account whose queue the row begins, if one does. Its limit is the cents at most.
    pub(super) begins: Option<usize>,
    /// The account whose queue the row empties, if one does.
    pub(super) empties: Option<usize>,
}

/// What the rows do to the limits of these records, where this is known: of one row, or of rows that leave the queues.
pub(super) fn lowering_by_rows(records: &Records, rows: &[RowChange]) -> Option<Lowering>
    ensures { IfSome result (Lowers (core_in records.now) (core_after (core_in records.now) rows.now)) }
{
    if rows.len() == 1 {
        return lowering_by(records, &rows[0]);
    }
    if change_queues(rows) {
        return None;
    }
    Some(nothing())
}

/// What the row does to the limits of these records, where this is known.
pub(super) fn lowering_by(records: &Records, row: &RowChange) -> Option<Lowering>
    ensures { IfSome result (Lowers (core_in records.now) (core_after_row (core_in records.now) row.now)) }
{
    match row {
        RowChange::AddOrder(order) if order.state.is_queued() => appending(records, order),
        RowChange::SetState { number, .. } => leaving(records, *number),
        _ => {
            if changes_queues(row) {
                return None;
            }
            Some(nothing())
        }
    }
}

// A queued order is appended: the receiver's limit falls by the amount. Where its queue was empty, the sender's limit
// is the amount.
fn appending(records: &Records, order: &Order) -> Option<Lowering>
    ensures { IfSome result (Lowers (core_in records.now)
        (core_after_row (core_in records.now) (RowChange.AddOrder order.now))) }
{
    appended_within_slack();
    let accounts = records.accounts.as_slice().len();
    let sender = records.accounts.index_of(&order.sender);
    let receiver = records.accounts.index_of(&order.receiver);
    if !order.state.is_queued() || sender >= accounts || sender == receiver {
        return None;
    }
    let cents = order.amount.cents();
    if records.orders.queue(&order.sender).is_empty() {
        return Some(Lowering {
            index: receiver,
            cents,
            begins: Some(sender),
            empties: None,
        });
    }
    Some(Lowering {
        index: receiver,
        cents,
        begins: None,
        empties: None,
    })
}

// The order with this number waits no more. Held, or the last of its queue, it leaves all limits. Otherwise its
// sender's falls by the amount.
fn leaving(records: &Records, number: u64) -> Option<Lowering>
    ensures { (state : OrderStateSpec) → IfSome result (Lowers (core_in records.now)
        (core_after_row (core_in records.now) (RowChange.SetState number state))) }
{
    last_withdrawn_keeps_limits();
    withdrawn_within_slack();
    records.orders.have_rising_numbers();
    let accounts = records.accounts.as_slice().len();
    let Some(order) = records.orders.numbered(number) else {
        return None;
    };
    if !order.state.is_queued() {
        return Some(nothing());
    }
    let sender = records.accounts.index_of(&order.sender);
    let queue = records.orders.queue(&order.sender);
    if sender >= accounts || queue.is_empty() {
        return None;
    }
    if queue.len() == 1 {
        return Some(Lowering {
            index: 0,
            cents: 0,
            begins: None,
            empties: Some(sender),
        });
    }
    if queue[queue.len() - 1] == number {
        return Some(nothing());
    }
    Some(Lowering {
        index: sender,
        cents: order.amount.cents(),
        begins: None,
        empties: None,
    })
}

// No limit falls.
fn nothing() -> Lowering
    ensures { result ≡ record { index = 0; cents = 0; begins = None; empties = None } }
{
    Lowering {
        index: 0,
        cents: 0,
        begins: None,
        empties: None,
    }
}

// Whether one of the rows may change a queue.
fn change_queues(rows: &[RowChange]) -> bool
    ensures { result ≡ false → AllByRecursion KeepsQueues rows.now }
{
    for row in rows {
        if changes_queues(row) {
            return true;
        }
    }
    false
}

fn changes_queues(row: &RowChange) -> bool
    ensures { result ≡ false → KeepsQueues row.now }
{
    match row {
        RowChange::AddPosting(_)
        | RowChange::AddMark(_)
        | RowChange::SetCredit { .. }
        | RowChange::SetBalance { .. }
        | RowChange::SetDay(_) => false,
        RowChange::AddOrder(order) => order.state.is_queued(),
        RowChange::AddParticipant(_) | RowChange::SetState { .. } | RowChange::EnterQueue { .. } =>
            true,
    }
}
