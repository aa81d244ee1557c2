//! The tests of the rules of soundness.
pub mod balances;
pub mod dates;
pub mod mark_tally;
pub mod marks;
pub mod names;
pub mod numbers;
pub mod parties;
pub mod queues;
pub mod totals;
