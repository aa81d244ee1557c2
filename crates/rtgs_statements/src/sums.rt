//! What records add up to for a participant.
ghost use Rattle.std.specs.Prelude.{◌≡◌};
ghost use Rattle.rtgs_statements.specs.Sums.{IsSmall, net};
ghost use Rattle.rtgs_statements.specs.Texts.{sum_lines};

use crate::line::Line;
use crate::total::Total;
use rtgs_money::Units;

/// Sums of cents of one participant: what was posted to it, and its settled orders, sent and received.
#[derive(Clone, Copy, Debug, PartialEq, Eq)]
pub struct Sums {
    pub posted: i128,
    pub sent: i128,
    pub received: i128,
}

impl Sums {
    /// What was posted, less what was sent, and what was received.
    pub fn net(self) -> i128
        requires posted { IsSmall self.posted }
        requires sent { IsSmall self.sent }
        requires received { IsSmall self.received }
        ensures { result ≡ net self }
    {
        self.posted - self.sent + self.received
    }
}

/// The four sums.
pub fn sum_lines(sums: Sums) -> [Line; 4]
    requires posted { IsSmall sums.posted }
    requires sent { IsSmall sums.sent }
    requires received { IsSmall sums.received }
    ensures { result ≡ sum_lines sums }
{
    [
        Line::Sum(Total::Posted, Units::new(sums.posted)),
        Line::Sum(Total::Sent, Units::new(sums.sent)),
        Line::Sum(Total::Received, Units::new(sums.received)),
        Line::Sum(Total::Net, Units::new(sums.net())),
    ]
}
