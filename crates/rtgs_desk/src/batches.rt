//! Batches of orders: the rows of an order file, submitted to a desk one after another.

mod batch;
pub mod laws;

pub use crate::batches::batch::submit_batch;
