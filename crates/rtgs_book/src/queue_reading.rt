//! What is read of a queue.
use crate::order::Order;
use crate::receiver_reading::ReceiverReading;
use crate::rows::Rows;
use rtgs_money::{Cents, Code, Units};

/// A participant's queue that has orders: the first of them, whom they pay, and how far they can be settled now.
#[derive(Debug, Drop)]
pub struct QueueReading {
    pub code: Code,
    pub first: Order,
    /// Its balance less its floor.
    pub headroom: Cents,
    pub queued: usize,
    pub queued_value: Units,
    /// Whom the queue pays, in the order of their codes.
    pub receivers: Rows<ReceiverReading>,
    /// How many orders, from the beginning of the queue, a resolution would settle now.
    pub settling: usize,
    pub settling_value: Units,
    /// By how many cents the amount of the first order exceeds the headroom, else 0.
    pub short: u64,
}
