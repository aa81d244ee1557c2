//! What the desk promises, in sixteen sentences. Each is the contract of one function, or of a few. A law's function
//! does nothing, and its contract is the law; the others make the calls that the promise is about. Whoever wants to
//! know what is proved of the desk reads the public modules, and the definitions that they name:
//!
//! - `headline`: the main theorem, which is promise 1;
//! - `program`: promise 1 of the runs of the program;
//! - `requests`: promises 2, 12 and 13, on requests over HTTP;
//! - `desks`: promises 3, 4, 6, 7, 11 and 15, as far as they are about a desk's calls, its tables and what a crash
//!   leaves;
//! - `books`: promises 3, 5 to 11 and 14, as laws of the definitions;
//! - `numbers`: promise 16, the limits and the numbers by which things are known.
#![tactic(auto)]

mod batching;
pub mod books;
pub mod desks;
pub mod headline;
mod living;
mod making;
mod memory;
pub mod numbers;
pub mod program;
pub mod requests;
mod serving;
mod sessions;
mod stopping;

pub use crate::sessions::{NoSession, PlannedSession, Stop, Unfinished};
