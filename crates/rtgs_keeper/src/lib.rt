//! What each keeper of a book promises.
#![tactic(auto)]

mod commit_fault;
mod keeper;

pub use crate::commit_fault::CommitFault;
pub use crate::keeper::Keeper;
