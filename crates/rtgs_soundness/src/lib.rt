//! Whether a book is sound, and what is worked out from the whole of a sound book: its balances and its core.
#![tactic(auto)]

mod cores;
mod recorded;
mod rules;
mod soundness;

pub use crate::cores::core_of;
pub use crate::soundness::{RULES_OF_A_BOOK, balances, check};
