//! The command line of the desk, as a call over two writers. Each kind of run is a module (`commands`, `imports`,
//! `readings` and `serving`); `files` has what a run did with the book's file.
#![tactic(auto)]

mod actions;
pub mod commands;
pub mod files;
pub mod imports;
pub mod readings;
mod run;
pub mod serving;

pub use crate::run::run_words;
