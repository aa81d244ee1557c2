//! Files of orders: what comes in as one, and the file that tells what came of it.
#![tactic(auto)]

mod batch_fault;
mod batch_result;
mod columns;
pub mod laws;
mod limits;
mod order_file;
mod order_row;
mod results;

pub use crate::batch_fault::BatchFault;
pub use crate::batch_result::{BatchResult, RowReply};
pub use crate::limits::{MOST_BYTES, MOST_ROWS};
pub use crate::order_file::read_orders;
pub use crate::results::write_results;
