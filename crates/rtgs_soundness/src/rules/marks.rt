//! Whether marks and settled orders fit each other.
ghost use Rattle.std.specs.Prelude.{◌≡◌, ◌↔◌, ◌≤◌, ◌<◌, ◌+◌, ◌^◌, ◌&&◌, ◌==◌, ◌∷◌, ◌++◌, [], ℕ, List, map, length, All};
ghost use Rattle.std.specs.Prelude.{if◌then◌else◌, IfOk, IsTrue};
ghost use Rattle.std.specs.List.{AllByRecursion, list_any};
ghost use Rattle.rtgs_money.specs.declared.amount.TheConstants.Amount as Amount;
ghost use Rattle.rtgs_book.specs.declared.mark.Mark.{Mark};
ghost use Rattle.rtgs_book.specs.declared.limits.TheConstants.{LARGEST_NUMBER};
ghost use Rattle.rtgs_book.specs.declared.order.Order.{Order};
ghost use Rattle.rtgs_book.specs.Soundness.{AreNumbered, MarksAreNumbered, MarksFitOrders, HasMark};
ghost use Rattle.rtgs_soundness.specs.Tallies.{AreTallies, IsCounted, IsTallyWithin, tally_at, tally_of_mark};
ghost use Rattle.rtgs_soundness.specs.Tallies.{with_amount};

use crate::rules::mark_tally::MarkTally;
use rtgs_book::{Book, Mark, Order, OrderState};
use rtgs_money::{Amount, BusinessDate};
use std::alloc::{AllocError, Global};

/// Whether each settled order's mark is there and has its date, and each mark counts its orders, at least one, and
/// their value.
pub fn marks_fit(alloc: Global, book: &Book) -> Result<bool, AllocError>
    requires few { length book.now.orders ≤ LARGEST_NUMBER }
    requires numbered { MarksAreNumbered book.now }
    ensures { IfOk result (λ yes. IsTrue yes ↔ MarksFitOrders book.now) }
{
    let marks = book.marks.as_slice();
    let orders = book.orders.as_slice();
    if !have_marks(marks, orders) {
        return Ok(false);
    }
    let tallies = tallied(alloc, marks.len(), orders)?;
    Ok(are_counted(tallies.as_slice(), marks))
}

// Whether each settled order's mark is there, with the order's date.
fn have_marks(marks: &[Mark], orders: &[Order]) -> bool
    requires { AreNumbered (map (λ (m : Mark). m.number) marks.now) }
    ensures { IsTrue result ↔ AllByRecursion (λ (o : Order). HasMark marks.now o.date o.state) orders.now }
{
    for order in orders {
        if !has_mark(marks, order) {
            return false;
        }
    }
    true
}

// Whether the order's mark is there, with the order's date, if the order is settled.
fn has_mark(marks: &[Mark], order: &Order) -> bool
    requires { AreNumbered (map (λ (m : Mark). m.number) marks.now) }
    ensures { IsTrue result ↔ HasMark marks.now order.now.date order.now.state }
{
    match order.state {
        OrderState::Settled(mark) => is_dated(marks, mark, order.date),
        _ => true,
    }
}

// Whether the mark with this number is there, with the date. It stands at the place of its number.
fn is_dated(marks: &[Mark], number: u64, date: BusinessDate) -> bool
    requires { AreNumbered (map (λ (m : Mark). m.number) marks.now) }
    ensures { result ≡ list_any (λ (m : Mark). (m.number == number) && (m.date == date)) marks.now }
{
    if (1..=marks.len() as u64).contains(&number) {
        marks[number as usize - 1].date == date
    } else {
        false
    }
}

// The tallies of this many marks. The mark with a number stands at its place.
fn tallied(alloc: Global, marks: usize, orders: &[Order]) -> Result<Vec<MarkTally>, AllocError>
    requires { length orders.now ≤ LARGEST_NUMBER }
    ensures { IfOk result (λ tallies. (length tallies.items ≡ marks) × AreTallies orders.now tallies.items) }
{
    let mut tallies = vec![in alloc; MarkTally { count: 0, value: 0 }; marks]?;
    add_orders(tallies.as_mut_slice(), orders);
    Ok(tallies)
}

// Adds each settled order to the tally of its mark.
fn add_orders(tallies: &mut [MarkTally], orders: &[Order])
    requires few { length orders.now ≤ LARGEST_NUMBER }
    requires none { AreTallies [] tallies.old }
    requires zeros { All (IsTallyWithin 0) tallies.old }
    ensures length { length tallies.new ≡ length tallies.old }
    ensures sums { AreTallies orders.now tallies.new }
{
    for order in orders {
        add_order(tallies, order);
    }
}

// Adds the order, if it is settled, to the tally of its mark, if there is one.
fn add_order(tallies: &mut [MarkTally], order: &Order)
    requires { All (IsTallyWithin (10 ^ 28)) tallies.old }
    ensures length { length tallies.new ≡ length tallies.old }
    ensures sums { (earlier : List Order) → AreTallies earlier tallies.old
        → AreTallies (earlier ++ order.now ∷ []) tallies.new }
    ensures within { (bound : ℕ) → All (IsTallyWithin bound) tallies.old
        → All (IsTallyWithin (bound + Amount.MAX)) tallies.new }
{
    if let OrderState::Settled(mark) = order.state {
        add_under(tallies, mark, order.amount);
    }
}

// Adds an order of this amount to the tally of the mark with this number, if there is one.
fn add_under(tallies: &mut [MarkTally], mark: u64, amount: Amount)
    requires { All (IsTallyWithin (10 ^ 28)) tallies.old }
    ensures length { length tallies.new ≡ length tallies.old }
    ensures added { (place : ℕ) → place < length tallies.old → tally_at tallies.new place
        ≡ (if mark == place + 1 then with_amount amount (tally_at tallies.old place) else tally_at tallies.old place) }
    ensures within { (bound : ℕ) → All (IsTallyWithin bound) tallies.old
        → All (IsTallyWithin (bound + Amount.MAX)) tallies.new }
{
    if (1..=tallies.len() as u64).contains(&mark) {
        let tally = &mut tallies[mark as usize - 1];
        tally.add(amount);
    }
}

// Whether each mark has at least one order, and counts its orders and their value.
fn are_counted(tallies: &[MarkTally], marks: &[Mark]) -> bool
    requires length { length tallies.now ≡ length marks.now }
    requires numbered { AreNumbered (map (λ (m : Mark). m.number) marks.now) }
    ensures { (orders : List Order) → AreTallies orders tallies.now → (IsTrue result
        ↔ AllByRecursion (λ (m : Mark). IsCounted m (tally_of_mark orders m.number)) marks.now) }
{
    for (place, mark) in marks.iter().enumerate() {
        if !tallies[place].agrees_with(mark) {
            return false;
        }
    }
    true
}
