//! Orders and their due dates, which are read from two tables.
ghost use Rattle.std.specs.Prelude.{◌≡◌, ◌≤◌, ◌<◌, ◌+◌, true, false, List, None, ◌∷◌, drop, length};
ghost use Rattle.std.specs.Prelude.{IfOk, IfErr, IfSome};
ghost use Rattle.rtgs_book.specs.declared.order.Order.{Order as OrderSpec};
ghost use Rattle.rtgs_sql_loading.specs.Joining.{IsNotNext, Takes, TakesNone, AreJoined};

use rtgs_book::{Fault, Order};
use rtgs_money::BusinessDate;
use rtgs_rows::Forward;

/// The due date at this place, where it is that of the order.
fn own_due(order: &Order, forwards: &[Forward], place: usize) -> Option<BusinessDate>
    ensures within { IfSome result (λ due. place < length forwards.now) }
    ensures own { IfSome result (λ due. drop place forwards.now
        ≡ record { number = order.now.number; due = due } ∷ drop (place + 1) forwards.now) }
    ensures none { result ≡ None → IsNotNext order.now.number (drop place forwards.now) }
{
    let forward = forwards.get(place)?;
    if forward.number == order.number {
        Some(forward.due)
    } else {
        None
    }
}

/// Gives the order the due date at this place, where it is that of the order, and answers the place of the next one.
/// None where the order is held and has no due date there.
fn take_due(order: &mut Order, forwards: &[Forward], place: usize) -> Option<usize>
    requires { place ≤ length forwards.now }
    ensures within { IfSome result (λ next. next ≤ length forwards.now) }
    ensures took { IfSome result (λ next. Takes order.old (drop place forwards.now) order.new
        (drop next forwards.now)) }
    ensures lacks { result ≡ None → TakesNone order.old (drop place forwards.now) }
{
    match own_due(order, forwards, place) {
        Some(due) => {
            order.due = Some(due);
            Some(place + 1)
        }
        None if order.state.is_held() => None,
        None => Some(place),
    }
}

/// Gives each order its due date, where it has one. False where a due date is of no order, or a held order has none.
fn join(orders: &mut [Order], forwards: &[Forward]) -> bool
    ensures joined { result ≡ true → AreJoined orders.old forwards.now orders.new }
    ensures apart { result ≡ false → (all : List OrderSpec) → ¬ AreJoined orders.old forwards.now all }
{
    let mut place = 0;
    for order in orders.iter_mut() {
        match take_due(order, forwards, place) {
            Some(next) => place = next,
            None => return false,
        }
    }
    place == forwards.len()
}

/// The orders with their due dates. Where a due date is of no order, or a held order has none, it is `NotADeskFile`.
pub(crate) fn joined(orders: Vec<Order>, forwards: &[Forward]) -> Result<Vec<Order>, Fault>
    ensures joined { IfOk result (λ all. AreJoined orders.items forwards.now all.items) }
    ensures apart { IfErr result (λ fault. (all : List OrderSpec) → ¬ AreJoined orders.items forwards.now all) }
    ensures kinds { IfErr result (λ fault. fault ≡ Fault.NotADeskFile) }
{
    let mut orders = orders;
    if join(orders.as_mut_slice(), forwards) {
        Ok(orders)
    } else {
        Err(Fault::NotADeskFile)
    }
}
