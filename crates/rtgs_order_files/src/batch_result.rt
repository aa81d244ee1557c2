//! What came of a batch of orders.
use rtgs_book::{OrderState, Refusal};
use rtgs_money::BusinessDate;

/// What the desk replied to a row of a batch.
#[derive(Clone, Copy, Debug, PartialEq, Eq)]
pub enum RowReply {
    /// The order has settled under the mark.
    Settled { number: u64, mark: u64 },
    /// The order waits, at this place of its sender's queue, counted from 1.
    Queued { number: u64, place: u64 },
    /// The order waits in no queue as yet.
    Held { number: u64, due: BusinessDate },
    /// The order was taken before, and this is its state now.
    Repeated { number: u64, state: OrderState },
    Refused(Refusal),
}

/// The replies to the first rows of a batch, in order, and why no row after them was judged, if it stopped there.
#[derive(Debug, Drop)]
pub struct BatchResult {
    pub replies: Vec<RowReply>,
    pub stopped: Option<Refusal>,
}
