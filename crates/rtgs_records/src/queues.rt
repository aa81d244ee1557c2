//! Queued orders in memory: by their numbers, and in the queues of their senders.

pub mod laws;
mod orders;
mod queues;

pub use crate::queues::orders::Orders;
