//! What is read of an account.
use crate::day::Day;
use crate::participant::Participant;
use rtgs_money::{Cents, Units};

/// A participant with its balance, the day, and how many of its orders are queued, of which value.
#[derive(Clone, Copy, Debug, PartialEq, Eq)]
pub struct AccountReading {
    pub participant: Participant,
    pub balance: Cents,
    pub day: Day,
    pub queued: usize,
    pub queued_value: Units,
}
