//! What a row of a statement is about.
ghost use Rattle.std.specs.Prelude.{◌≡◌};
ghost use Rattle.std.specs.Str.{IsAscii};
ghost use Rattle.rtgs_statements.specs.Lines.{kind_of_sent, kind_text};

use rtgs_book::{OrderState, Standing};

/// What a row of a statement is about: a posting, an order that the participant sent, by where it stands, or one that
/// it received.
#[derive(Clone, Copy, Debug, PartialEq, Eq)]
pub enum Kind {
    Posting,
    Sent,
    Queued,
    Held,
    Withdrawn,
    Rejected,
    Received,
}

impl Kind {
    /// How an order is shown to its sender.
    pub fn of_sent(state: OrderState) -> Kind
        ensures { result ≡ kind_of_sent state }
    {
        match state {
            OrderState::Queued => Kind::Queued,
            OrderState::Held => Kind::Held,
            OrderState::Settled(_) => Kind::Sent,
            OrderState::Withdrawn => Kind::Withdrawn,
            OrderState::Rejected => Kind::Rejected,
        }
    }

    /// The word that stands for the kind.
    pub fn text(self) -> &'static str
        ensures value { result.now ≡ kind_text self }
        ensures ascii { IsAscii result.now }
    {
        match self {
            Kind::Posting => "posting",
            Kind::Sent => "sent",
            Kind::Queued => Standing::Queued.word(),
            Kind::Held => Standing::Held.word(),
            Kind::Withdrawn => Standing::Withdrawn.word(),
            Kind::Rejected => Standing::Rejected.word(),
            Kind::Received => "received",
        }
    }
}
