//! What is said of each refusal, for people: what it means, what it comes from, and what to do.
#![tactic(auto)]

mod kinds;
pub mod laws;
mod printing;
mod texts;

pub use crate::kinds::{KINDS, kind_numbered};
pub use crate::printing::print_texts;
pub use crate::texts::text_of;
