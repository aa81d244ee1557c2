//! What the orders of a mark add up to.
ghost use Rattle.std.specs.Prelude.{◌≡◌, ◌↔◌, ◌≤◌, ◌^◌, IsTrue};
ghost use Rattle.rtgs_money.specs.declared.amount.TheConstants.Amount as Amount;
ghost use Rattle.rtgs_soundness.specs.Tallies.{IsCounted, IsTallyWithin, with_amount};

use rtgs_book::Mark;
use rtgs_money::Amount;

/// How many orders a mark settled, and their value in cents.
#[derive(Clone, Copy)]
pub struct MarkTally {
    pub count: i128,
    pub value: i128,
}

impl MarkTally {
    /// Adds an order of this amount.
    pub fn add(&mut self, amount: Amount)
        requires { IsTallyWithin (10 ^ 28) self.old }
        ensures added { self.new ≡ with_amount amount self.old }
        ensures in_range { amount ≤ Amount.MAX }
    {
        self.count += 1;
        self.value += i128::from(amount.cents());
    }

    /// Whether the mark has at least one order, and counts its orders and their value.
    pub fn agrees_with(&self, mark: &Mark) -> bool
        ensures { IsTrue result ↔ IsCounted mark.now self.now }
    {
        mark.count > 0
            && self.count == i128::from(mark.count)
            && self.value == i128::from(mark.value.cents())
    }
}
