//! Rules of soundness.
ghost use Rattle.std.specs.Prelude.{◌≡◌};
ghost use Rattle.rtgs_book.specs.Judgement.{rule_number};

/// What a sound book keeps, in the order in which a check names what is broken.
#[derive(Clone, Copy, Debug, PartialEq, Eq)]
pub enum Rule {
    /// Orders are numbered 1, 2, 3 and so on, up to 999999999.
    OrderNumbers,
    /// So are postings.
    PostingNumbers,
    /// So are marks.
    MarkNumbers,
    /// Codes rise strictly, and there are at most 100 participants.
    ParticipantCodes,
    /// No two participants have one key.
    Keys,
    /// No sender gives two orders one reference.
    OrderReferences,
    /// No two postings have one reference.
    PostingReferences,
    /// Each code in an order or a posting is a participant's, and no order is to its sender.
    Parties,
    /// Each settled order has a mark of its date, and each mark counts its orders, at least one, and their value.
    Marks,
    /// Nothing is queued while the desk is closed, at most 500 orders of a sender are queued or held, and queued orders
    /// are of the day.
    Queues,
    /// A day that is not closed has a date, and neither this nor the date of an order or a mark is on a weekend. The
    /// dates of marks, of postings and of orders without a due date never fall along their lists, and none is after the
    /// day's. The date of an order with a due date is not before that date; it is the due date, later than the day's,
    /// while the order is held, and not after the day's once it has entered its queue.
    Dates,
    /// Every balance is at least its floor.
    Floors,
    /// All balances together are at most 10^15 cents.
    Total,
    /// A stored balance is the sum of what is recorded. A book stores none.
    StoredBalances,
    /// A day is automatic only while it is in progress.
    AutomaticDay,
    /// On an automatic day nothing that is queued could be settled.
    Calm,
}

impl Rule {
    /// The number by which the rule is known, from 1.
    pub fn number(self) -> u8
        ensures { result ≡ rule_number self }
    {
        match self {
            Rule::OrderNumbers => 1,
            Rule::PostingNumbers => 2,
            Rule::MarkNumbers => 3,
            Rule::ParticipantCodes => 4,
            Rule::Keys => 5,
            Rule::OrderReferences => 6,
            Rule::PostingReferences => 7,
            Rule::Parties => 8,
            Rule::Marks => 9,
            Rule::Queues => 10,
            Rule::Dates => 11,
            Rule::Floors => 12,
            Rule::Total => 13,
            Rule::StoredBalances => 14,
            Rule::AutomaticDay => 15,
            Rule::Calm => 16,
        }
    }
}
