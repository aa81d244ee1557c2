//! What the desk needs of a book in memory.
use crate::{Account, Day, Order, Rows};

/// What the desk needs of a book in memory: each participant with its balance, the orders that are queued or held, the
/// day, and the number that the next record of each kind gets.
#[derive(Debug, Drop)]
pub struct Core {
    pub accounts: Rows<Account>,
    pub waiting: Rows<Order>,
    pub day: Day,
    pub next_posting: u64,
    pub next_order: u64,
    pub next_mark: u64,
}
