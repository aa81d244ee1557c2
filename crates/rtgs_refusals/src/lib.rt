//! What a refusal is known by outside: its number, its name, and the statuses of an HTTP reply and of the program.
#![tactic(auto)]

pub mod exit_status;
pub mod laws;
mod refusal_kind;

pub use crate::refusal_kind::RefusalKind;
