//! Where orders stand.
ghost use Rattle.std.specs.Prelude.{◌≡◌};
ghost use Rattle.std.specs.Str.{IsAscii};
ghost use Rattle.rtgs_book.specs.Standings.{stands, word_of};

use crate::order_state::OrderState;

/// Where an order stands, whatever its mark.
#[derive(Clone, Copy, Debug, PartialEq, Eq)]
pub enum Standing {
    Settled,
    Queued,
    Held,
    Withdrawn,
    Rejected,
}

impl Standing {
    /// Whether an order in this state stands so.
    pub fn holds(self, state: OrderState) -> bool
        ensures { result ≡ stands self state }
    {
        match state {
            OrderState::Queued => self == Standing::Queued,
            OrderState::Held => self == Standing::Held,
            OrderState::Settled(_) => self == Standing::Settled,
            OrderState::Withdrawn => self == Standing::Withdrawn,
            OrderState::Rejected => self == Standing::Rejected,
        }
    }

    /// Its word in texts.
    pub fn word(self) -> &'static str
        ensures value { result.now ≡ word_of self }
        ensures ascii { IsAscii result.now }
    {
        match self {
            Standing::Settled => "settled",
            Standing::Queued => "queued",
            Standing::Held => "held",
            Standing::Withdrawn => "withdrawn",
            Standing::Rejected => "rejected",
        }
    }
}
