//! Held orders, in the order of their due dates.
ghost use Rattle.std.specs.Prelude.{◌≡◌, ◌≤◌, ◌&&◌, length, insert, IfOk, OnOk};
ghost use Rattle.std.specs.Str.{bytes_eq};
ghost use Rattle.rtgs_book.specs.Books.{is_held};
ghost use Rattle.rtgs_book.specs.declared.order.Order.{Order};
ghost use Rattle.rtgs_desk.specs.Readings.{by_date, held_among, placed};

use rtgs_book::Order;
use rtgs_money::{BusinessDate, Code};
use std::alloc::{AllocError, Global};

/// The sender's held orders among these, in the order of their dates, which are their due dates. Orders of one date
/// stay in their order.
pub(crate) fn held_among(
    alloc: Global,
    orders: &[Order],
    sender: &Code,
) -> Result<Vec<Order>, AllocError>
    ensures { IfOk result (λ held. held.items ≡ by_date (held_among orders.now sender.now)) }
{
    let mut held = Vec::new(alloc);
    for order in orders {
        if is_held_of(order, sender) {
            place(&mut held, *order)?;
        }
    }
    Ok(held)
}

// Whether the order is the sender's, and is held.
fn is_held_of(order: &Order, sender: &Code) -> bool
    ensures { result ≡ (is_held order.now && bytes_eq order.now.sender sender.now) }
{
    order.state.is_held() && order.sender == *sender
}

// Puts the order behind those that are not dated after it.
fn place(orders: &mut Vec<Order>, order: Order) -> Result<(), AllocError>
    ensures { OnOk result (orders.new.items ≡ placed orders.old.items order) }
{
    let index = place_behind(orders.as_slice(), order.date);
    orders.insert(index, order)?;
    Ok(())
}

// The place behind those that are not dated after this.
fn place_behind(orders: &[Order], date: BusinessDate) -> usize
    ensures within { result ≤ length orders.now }
    ensures place { (order : Order) → order.date ≡ date
        → insert orders.now result order ≡ placed orders.now order }
{
    for (index, order) in orders.iter().enumerate() {
        if date < order.date {
            return index;
        }
    }
    orders.len()
}
