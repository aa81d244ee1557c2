//! What is read of the orders that wait for a participant.
use crate::order::Order;
use crate::tally::Tally;
use rtgs_money::Units;

/// Why a participant's orders wait: the first of its queue, how far its balance is above its floor, by how much that
/// order exceeds this, and what is queued and held.
#[derive(Clone, Copy, Debug, PartialEq, Eq)]
pub struct WaitingReading {
    pub first: Option<Order>,
    pub headroom: Units,
    /// Nothing where the first order has cover, and where no order is queued.
    pub short: Units,
    pub queued: Tally,
    pub held: Tally,
}
