//! What the desk needs of a book in memory, and what it looks up in the rest.

mod cores;
mod found;
pub mod laws;

pub use crate::cores::cores::Core;
pub use crate::cores::found::Found;
