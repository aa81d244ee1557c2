//! How many orders stand so, and their value.
ghost use Rattle.std.specs.Prelude.{◌≡◌};
ghost use Rattle.rtgs_statements.specs.Tallies.{tally_with, HasRoomForOrder};

use rtgs_book::{Order, Standing};

/// How many orders stand so, and their value in cents.
#[derive(Clone, Copy, Debug, PartialEq, Eq)]
pub struct Tally {
    pub count: usize,
    pub cents: i128,
}

impl Tally {
    /// With this order too, where it stands so.
    pub fn with(self, standing: Standing, order: &Order) -> Tally
        requires { HasRoomForOrder self }
        ensures { result ≡ tally_with self standing order.now }
    {
        if !standing.holds(order.state) {
            return self;
        }
        Tally {
            count: self.count + 1,
            cents: self.cents + i128::from(order.amount.cents()),
        }
    }
}
