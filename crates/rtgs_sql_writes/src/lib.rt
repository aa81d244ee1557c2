//! What is written to the tables: they are made, and their rows are changed, each time in a transaction of its own.
#![tactic(auto)]

mod create;
mod staging;
mod statements;
mod upgrade;

pub use crate::create::create_tables;
pub use crate::staging::{Stopped, write};
pub use crate::upgrade::{is_name_taken, upgrade_tables};
