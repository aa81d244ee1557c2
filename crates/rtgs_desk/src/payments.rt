//! Orders by their receivers.
ghost use Rattle.std.specs.Prelude.{◌≡◌, ◌++◌, ◌∷◌, [], ℕ, List, if◌then◌else◌, IfOk, OnOk};
ghost use Rattle.std.specs.Str.{bytes_eq};
ghost use Rattle.rtgs_desk.specs.Payments.{paid_in, paid_to};

use rtgs_book::Order;
use rtgs_money::{BusinessDate, Code};
use std::alloc::{AllocError, Global};
use std::collections::BTreeMap;

/// Orders in their order, those to one receiver together.
#[derive(Debug, Drop)]
pub(crate) struct Payments {
    orders: BTreeMap<Code, Vec<Order>>,
}

impl Payments {
    /// These orders by their receivers.
    pub(crate) fn of(alloc: Global, orders: &[Order]) -> Result<Payments, AllocError>
        ensures { IfOk result (λ payments. (code : List ℕ) → paid_in payments code ≡ paid_to code orders.now) }
    {
        let mut payments = Payments {
            orders: BTreeMap::new(alloc),
        };
        for order in orders {
            payments.add(order)?;
        }
        Ok(payments)
    }

    /// The orders to this receiver.
    pub(crate) fn to(&self, code: &Code) -> &[Order]
        ensures { result.now ≡ paid_in self.now code.now }
    {
        match self.orders.get(code) {
            Some(orders) => orders.as_slice(),
            None => &[],
        }
    }

    // One order more.
    fn add(&mut self, order: &Order) -> Result<(), AllocError>
        ensures { OnOk result ((code : List ℕ) → paid_in self.new code ≡ (if bytes_eq order.now.receiver code
            then paid_in self.old code ++ order.now ∷ [] else paid_in self.old code)) }
    {
        // Names the type of due dates for the borrow checker, which finds it nowhere else in this function.
        let _no_date: Option<BusinessDate> = None;
        let orders = self.orders.entry(order.receiver)?.or_default();
        orders.push(*order)?;
        Ok(())
    }
}
