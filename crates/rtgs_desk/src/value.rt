//! The value of queued orders.
ghost use Rattle.std.specs.Prelude.{◌≡◌, pos};
ghost use Rattle.rtgs_desk.specs.Readings.{value_of};

use rtgs_book::Order;
use rtgs_money::Units;

/// What the orders pay together.
pub(crate) fn value_of(orders: &[Order]) -> Units
    ensures { result ≡ pos (value_of orders.now) }
{
    let mut cents = 0i128;
    for order in orders {
        cents += i128::from(order.amount.cents());
    }
    Units::new(cents)
}
