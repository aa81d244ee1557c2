//! Which version tables are of, and reading the book of the tables of a version, and judging it.
#![tactic(auto)]

mod balances;
mod desk;
mod faults;
mod from_tables;
pub mod laws;
mod loading;
mod one_row;
mod orders;

pub use crate::desk::version_of;
pub use crate::loading::load_book;
