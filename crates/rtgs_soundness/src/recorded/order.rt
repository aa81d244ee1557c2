//! The number and the date of an order.
use crate::recorded::Recorded;
use rtgs_book::Order;

impl Recorded for Order {
    ghost number_of = { λ order. order.number };

    ghost date_of = { λ order. order.date };

    fn number(&self) -> u64 {
        self.number
    }

    fn date_number(&self) -> u32 {
        self.date.number()
    }
}
