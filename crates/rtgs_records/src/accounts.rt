//! Accounts in memory: participants in the order of their codes, each with its running balance.

mod accounts;
pub mod sums;

pub use crate::accounts::accounts::Accounts;
