//! Files that the desk may refuse, and what it must hold for each: a refusal by its number or a report, and no byte of
//! the file changed.
mod changed;
mod crowds;
mod edits;
mod listed;
mod making;
mod views;

pub use making::made;
