//! The desk: a ledger in memory, and a keeper that stores each change before it is answered. And the rows of an order
//! file, submitted to it one after another (`batches`).
#![tactic(auto)]

pub mod batches;
mod desk;
mod held;
pub mod laws;
mod payments;
pub mod queue_laws;
mod queues;
mod tallies;
mod value;

pub use crate::batches::submit_batch;
pub use crate::desk::Desk;
