//! Looking up one record: by its name, and the next of a date.
#![tactic(auto)]

mod finding;
mod leaping;
mod listing;
mod next_orders;
mod orders;
mod seeking;
mod skipping;

pub use crate::finding::find_posting;
pub use crate::next_orders::next_order;
pub use crate::orders::find_order;
pub use crate::seeking::{Listed, next_of};
