//! What is read of the whole desk.
use crate::day::Day;
use crate::tally::Tally;
use rtgs_money::Units;

/// How the desk stands: the day, the participants, what is queued and held of all of them together, the sum of their
/// balances, and the number that the next record of each kind gets.
#[derive(Clone, Copy, Debug, PartialEq, Eq)]
pub struct Status {
    pub day: Day,
    pub participants: usize,
    pub queued: Tally,
    pub held: Tally,
    pub sum: Units,
    pub next_posting: u64,
    pub next_order: u64,
    pub next_mark: u64,
}
