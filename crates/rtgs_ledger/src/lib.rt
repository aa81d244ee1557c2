//! What the desk has of a book in memory: accounts with their running balances, queued orders in the queues of their
//! senders, held orders, the day, and the numbers of the next records. A command is decided on, which changes none of
//! it; then every growth that its change needs is made; and then the change is adopted, which takes no memory.
#![tactic(auto)]

mod ledger;

pub use crate::ledger::Ledger;
