//! What a ledger has of a book in memory: accounts (`accounts`), orders that are queued or held (`queues`), the day and
//! the numbers of the next records. It makes one row of a change at a time, in the room that was made for it.
#![tactic(auto)]

pub mod accounts;
pub mod queues;
mod records;

pub use crate::accounts::Accounts;
pub use crate::queues::Orders;
pub use crate::records::Records;
