//! Payment orders.
ghost use Rattle.std.specs.Prelude.{◌≡◌};
ghost use Rattle.rtgs_book.specs.Commands.{as_sent, is_same_due, says_the_same};

use crate::new_order::NewOrder;
use crate::order_state::OrderState;
use rtgs_money::{Amount, BusinessDate, Code, Reference};

/// A payment order of one participant to another. Orders are numbered from 1.
#[derive(Clone, Copy, Debug, PartialEq, Eq)]
pub struct Order {
    pub number: u64,
    pub sender: Code,
    /// Names the order for good, among the orders of its sender.
    pub reference: Reference,
    pub receiver: Code,
    pub amount: Amount,
    /// Its business date. An order with a due date has that date until it enters its queue, and then the date on
    /// which it entered. Any other order has the date on which it was accepted.
    pub date: BusinessDate,
    /// The business date before which it does not enter its queue, where its sender named one.
    pub due: Option<BusinessDate>,
    pub state: OrderState,
}

impl Order {
    /// Whether its sender said the same of it, whatever the references.
    pub fn was_sent_as(&self, order: &NewOrder) -> bool
        ensures { result ≡ says_the_same (as_sent self.now) order.now }
    {
        self.receiver == order.receiver
            && self.amount == order.amount
            && is_same_due(&self.due, &order.due)
    }
}

// Whether these are the same due date, or both times none.
fn is_same_due(one: &Option<BusinessDate>, other: &Option<BusinessDate>) -> bool
    ensures { result ≡ is_same_due one.now other.now }
{
    match one {
        None => other.is_none(),
        Some(one) => match other {
            None => false,
            Some(other) => *one == *other,
        },
    }
}
