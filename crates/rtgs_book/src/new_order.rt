//! What an order says.
ghost use Rattle.std.specs.Prelude.{◌≡◌};
ghost use Rattle.rtgs_book.specs.Commands.{order_numbered};

use crate::order::Order;
use crate::order_state::OrderState;
use rtgs_money::{Amount, BusinessDate, Code, Reference};

/// What a participant says of an order that it sends: all but its sender.
#[derive(Clone, Copy, Debug, PartialEq, Eq)]
pub struct NewOrder {
    /// Names the order for good, among the orders of its sender.
    pub reference: Reference,
    pub receiver: Code,
    pub amount: Amount,
    /// The business date before which it is not to enter its queue, where its sender names one.
    pub due: Option<BusinessDate>,
}

impl NewOrder {
    /// The order that its sender's words become, under this number and of this date: queued, or held where it has a due
    /// date.
    pub fn numbered(&self, number: u64, sender: Code, date: BusinessDate) -> Order
        ensures { result ≡ order_numbered number sender self.now date }
    {
        Order {
            number,
            sender,
            reference: self.reference,
            receiver: self.receiver,
            amount: self.amount,
            date,
            due: self.due,
            state: match self.due {
                None => OrderState::Queued,
                Some(_) => OrderState::Held,
            },
        }
    }
}
