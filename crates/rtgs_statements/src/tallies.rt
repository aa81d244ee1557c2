//! The orders of a day by where they stand.
ghost use Rattle.std.specs.Prelude.{◌≡◌, map};
ghost use Rattle.rtgs_book.specs.declared.standing.Standing.{Standing};
ghost use Rattle.rtgs_statements.specs.declared.line.Line.{Line};
ghost use Rattle.rtgs_statements.specs.Tallies.{tally_of, tally_with, no_orders, HaveRoom, reported_standings};

use crate::line::Line;
use crate::tally::Tally;
use rtgs_book::{Order, Standing};
use rtgs_money::Units;

/// The orders of a day by where they stand.
#[derive(Clone, Copy, Debug, PartialEq, Eq)]
pub struct Tallies {
    pub settled: Tally,
    pub queued: Tally,
    pub held: Tally,
    pub withdrawn: Tally,
    pub rejected: Tally,
}

impl Tallies {
    /// Of no order.
    pub fn none() -> Tallies
        ensures { (standing : Standing) → tally_of result standing ≡ no_orders }
    {
        let none = Tally { count: 0, cents: 0 };
        Tallies {
            settled: none,
            queued: none,
            held: none,
            withdrawn: none,
            rejected: none,
        }
    }

    /// With this order too.
    pub fn with(self, order: &Order) -> Tallies
        requires { HaveRoom self }
        ensures { (standing : Standing) → tally_of result standing
            ≡ tally_with (tally_of self standing) standing order.now }
    {
        Tallies {
            settled: self.settled.with(Standing::Settled, order),
            queued: self.queued.with(Standing::Queued, order),
            held: self.held.with(Standing::Held, order),
            withdrawn: self.withdrawn.with(Standing::Withdrawn, order),
            rejected: self.rejected.with(Standing::Rejected, order),
        }
    }

    /// A line for each standing, in the order in which a report tells them.
    pub fn lines(&self) -> [Line; 5]
        ensures { result ≡ map (λ standing. Line.Orders standing (tally_of self.now standing).count
            (tally_of self.now standing).cents) reported_standings }
    {
        [
            line(Standing::Settled, self.settled),
            line(Standing::Queued, self.queued),
            line(Standing::Held, self.held),
            line(Standing::Withdrawn, self.withdrawn),
            line(Standing::Rejected, self.rejected),
        ]
    }
}

fn line(standing: Standing, tally: Tally) -> Line
    ensures { result ≡ Line.Orders standing tally.count tally.cents }
{
    Line::Orders(standing, tally.count, Units::new(tally.cents))
}
