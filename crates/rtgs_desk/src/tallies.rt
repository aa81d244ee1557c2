//! How many orders are queued and held, and what they pay.
ghost use Rattle.std.specs.Prelude.{◌≡◌, ◌+◌, ◌+ℤ◌, ◌<◌, ◌^◌, pos, filter, length, if◌then◌else◌, FitsSigned};
ghost use Rattle.std.specs.Int.{w128};
ghost use Rattle.rtgs_book.specs.Books.{is_queued, is_held};
ghost use Rattle.rtgs_desk.specs.Readings.{tally_of};

use crate::value::value_of;
use rtgs_book::{Order, Tally};
use rtgs_money::Units;

/// What is queued and held among orders.
#[derive(Clone, Copy)]
pub(crate) struct Tallies {
    pub queued: Tally,
    pub held: Tally,
}

/// How many these are, and what they pay together.
pub(crate) fn tally_of(orders: &[Order]) -> Tally
    ensures { result ≡ tally_of orders.now }
{
    Tally {
        count: orders.len(),
        value: value_of(orders),
    }
}

/// What is queued and held among these.
pub(crate) fn tallies_of(orders: &[Order]) -> Tallies
    ensures queued { result.queued ≡ tally_of (filter is_queued orders.now) }
    ensures held { result.held ≡ tally_of (filter is_held orders.now) }
{
    let mut queued = tally_of(&[]);
    let mut held = tally_of(&[]);
    for order in orders {
        let cents = order.amount.cents();
        queued = with_order_if(queued, cents, order.state.is_queued());
        held = with_order_if(held, cents, order.state.is_held());
    }
    Tallies { queued, held }
}

// The tally with an order of this many cents too, if it is one of them.
fn with_order_if(tally: Tally, cents: u64, is_one: bool) -> Tally
    requires count { tally.count + 1 < 2 ^ 64 }
    requires value { FitsSigned w128 (tally.value +ℤ pos cents) }
    ensures { result ≡ (if is_one
        then record { count = tally.count + 1; value = tally.value +ℤ pos cents } else tally) }
{
    if !is_one {
        return tally;
    }
    Tally {
        count: tally.count + 1,
        value: Units::new(tally.value.cents() + i128::from(cents)),
    }
}
