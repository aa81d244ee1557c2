//! Participants.
use rtgs_money::{Code, Credit, KeyDigest, Name};

/// A bank with an account. The credit is how far its balance may go below zero until the day is closed.
#[derive(Clone, Copy, Debug, PartialEq, Eq)]
pub struct Participant {
    pub code: Code,
    pub name: Name,
    /// The digest of the key that the bank's requests carry.
    pub key: KeyDigest,
    pub credit: Credit,
}
