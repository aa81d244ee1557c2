//! What is read of one receiver of a queue.
use rtgs_money::{Code, Units};

/// How many orders of a queue pay this participant, and how much they pay it together.
#[derive(Clone, Copy, Debug, PartialEq, Eq)]
pub struct ReceiverReading {
    pub queued: usize,
    pub queued_value: Units,
    pub to: Code,
}
