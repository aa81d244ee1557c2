//! Where payment orders stand.
ghost use Rattle.std.specs.Prelude.{◌≡◌};
ghost use Rattle.std.specs.Str.{IsAscii};
ghost use Rattle.rtgs_book.specs.Books.{is_queued_state, is_held_state, is_waiting_state};
ghost use Rattle.rtgs_book.specs.Standings.{standing_of, word_of};

use crate::standing::Standing;

/// Where a payment order stands.
#[derive(Clone, Copy, Debug, PartialEq, Eq)]
pub enum OrderState {
    Queued,
    /// In no queue as yet: it enters its sender's as a day on or after its due date is opened.
    Held,
    /// Paid for good, under the mark with this number.
    Settled(u64),
    /// Taken back by its sender.
    Withdrawn,
    /// Left in its queue when the day was closed.
    Rejected,
}

impl OrderState {
    /// Whether the order is in its sender's queue.
    pub fn is_queued(self) -> bool
        ensures { result ≡ is_queued_state self }
    {
        self == OrderState::Queued
    }

    /// Whether the order is held until its due date.
    pub fn is_held(self) -> bool
        ensures { result ≡ is_held_state self }
    {
        self == OrderState::Held
    }

    /// Whether the order is queued or held.
    pub fn is_waiting(self) -> bool
        ensures { result ≡ is_waiting_state self }
    {
        self.is_queued() || self.is_held()
    }

    /// Where the order stands, whatever its mark.
    pub fn standing(self) -> Standing
        ensures { result ≡ standing_of self }
    {
        match self {
            OrderState::Queued => Standing::Queued,
            OrderState::Held => Standing::Held,
            OrderState::Settled(_) => Standing::Settled,
            OrderState::Withdrawn => Standing::Withdrawn,
            OrderState::Rejected => Standing::Rejected,
        }
    }

    /// Its word in texts.
    pub fn word(self) -> &'static str
        ensures value { result.now ≡ word_of (standing_of self) }
        ensures ascii { IsAscii result.now }
    {
        self.standing().word()
    }
}
