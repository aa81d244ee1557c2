//! The rows of a book: what the tables of the desk hold, and how a change of the book changes them.
#![tactic(auto)]

mod desk_row;
mod forward;
pub mod laws;
pub mod numbers;
mod resolution_row;

pub use crate::desk_row::DeskRow;
pub use crate::forward::Forward;
pub use crate::resolution_row::ResolutionRow;
