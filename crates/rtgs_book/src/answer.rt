//! Answers to commands.
use crate::order_state::OrderState;
use rtgs_money::{BusinessDate, Cents};

/// What is known now of a command that was done before.
#[derive(Clone, Copy, Debug, PartialEq, Eq)]
pub enum Known {
    Nothing,
    Posting { number: u64 },
    Order { number: u64, state: OrderState },
}

/// What a resolution settled: how many orders, of what value in all, and under which mark.
#[derive(Clone, Copy, Debug, PartialEq, Eq)]
pub struct Resolution {
    pub mark: u64,
    pub count: u64,
    pub value: Cents,
}

/// The whole answer to a command that was not refused: its own, as if nothing followed, and what was resolved after it
/// in the same step, if anything was.
#[derive(Clone, Copy, Debug, PartialEq, Eq)]
pub struct WholeAnswer {
    pub own: Answer,
    pub auto: Option<Resolution>,
}

/// What a command by itself is answered, where it was not refused.
#[derive(Clone, Copy, Debug, PartialEq, Eq)]
pub enum Answer {
    Added,
    CreditSet,
    Posted { number: u64 },
    Opened,
    Settled { number: u64, mark: u64 },
    /// The order waits, at this place of its sender's queue, counted from 1.
    Queued { number: u64, place: u64 },
    /// The order waits in no queue as yet, with this due date.
    Held { number: u64, due: BusinessDate },
    Withdrawn { number: u64 },
    /// This number of orders, of this value in all, were settled under the mark.
    Resolved { mark: u64, count: u64, value: Cents },
    /// There was nothing that could be settled.
    Nothing,
    CutOffDone,
    Closed { rejected: u64 },
    /// The command was done before, and changed nothing now.
    Repeated(Known),
}
