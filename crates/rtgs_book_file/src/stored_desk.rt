//! A desk over the tables of a store: made in an empty database, opened over one, driven, and found again
//! after a stop. And tables of an earlier version, which are brought to the newest.

mod commands;
pub mod laws;
mod migration;
mod new_book;
mod opening;

pub use crate::stored_desk::commands::run;
pub use crate::stored_desk::migration::migrate;
pub use crate::stored_desk::new_book::make;
pub use crate::stored_desk::opening::{create, open};
