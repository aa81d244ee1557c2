//! Whether dates are in order and on weekdays, and fit due dates.
ghost use Rattle.std.specs.Prelude.{◌≡◌, ◌↔◌, map, filter, unwrap_or, true, false, not, if◌then◌else◌, is_some, IsTrue};
ghost use Rattle.std.specs.List.{AllByRecursion, list_all};
ghost use Rattle.rtgs_money.specs.Date.{is_weekend};
ghost use Rattle.rtgs_book.specs.declared.mark.Mark.{Mark};
ghost use Rattle.rtgs_book.specs.declared.order.Order.{Order};
ghost use Rattle.rtgs_book.specs.Books.{is_closed, has_due};
ghost use Rattle.rtgs_book.specs.Soundness.{AreWeekdays, NeverFall, FitsDue, IsDatedBy, DatesFit};

use crate::recorded::Recorded;
use rtgs_book::{Book, Day, Mark, Order, OrderState, Phase};

/// Whether the dates of a book are in order and on weekdays, each order's date fits its due date, and a day that is not
/// closed has a date.
pub fn dates_fit(book: &Book) -> bool
    ensures { IsTrue result ↔ DatesFit book.now }
{
    let orders = book.orders.as_slice();
    let marks = book.marks.as_slice();
    let last = match book.day.date {
        Some(date) => date.number(),
        None => 0,
    };
    day_fits(&book.day)
        && are_order_weekdays(orders)
        && are_mark_weekdays(marks)
        && plain_never_fall(orders, last)
        && dues_fit(orders, last)
        && never_fall(marks, last)
        && never_fall(book.postings.as_slice(), last)
}

/// Whether the day is automatic only while it is in progress.
pub fn automatic_fits(day: &Day) -> bool
    ensures { IsTrue result ↔ (IsTrue (is_closed day.now.phase) → day.now.automatic ≡ false) }
{
    match day.phase {
        Phase::Closed => !day.automatic,
        Phase::Open | Phase::CutOff => true,
    }
}

// Whether the day has a date or is closed, and its date is a weekday.
fn day_fits(day: &Day) -> bool
    ensures { IsTrue result ↔ ((is_closed day.now.phase ≡ false → IsTrue (is_some day.now.date))
        × (is_some day.now.date ≡ true → is_weekend (unwrap_or day.now.date 0) ≡ false)) }
{
    match day.date {
        Some(date) => !date.is_weekend(),
        None => day.phase == Phase::Closed,
    }
}

// Whether no order has a date of a weekend.
fn are_order_weekdays(orders: &[Order]) -> bool
    ensures { IsTrue result ↔ AreWeekdays (map (λ (o : Order). o.date) orders.now) }
{
    each_order_is_on_a_weekday(orders)
}

fn each_order_is_on_a_weekday(orders: &[Order]) -> bool
    ensures { result ≡ list_all (λ (o : Order). not (is_weekend o.date)) orders.now }
{
    orders.iter().all(|order| !order.date.is_weekend())
}

// Whether no mark does.
fn are_mark_weekdays(marks: &[Mark]) -> bool
    ensures { IsTrue result ↔ AreWeekdays (map (λ (m : Mark). m.date) marks.now) }
{
    each_mark_is_on_a_weekday(marks)
}

fn each_mark_is_on_a_weekday(marks: &[Mark]) -> bool
    ensures { result ≡ list_all (λ (m : Mark). not (is_weekend m.date)) marks.now }
{
    marks.iter().all(|mark| !mark.date.is_weekend())
}

// Whether the dates of the orders without a due date never fall, and none is after the last.
fn plain_never_fall(orders: &[Order], last: u32) -> bool
    ensures { IsTrue result
        ↔ NeverFall last (map (λ (o : Order). o.date) (filter (λ o. not (has_due o)) orders.now)) }
{
    let mut reached = 0;
    for order in orders {
        let date = date_after(order, reached);
        if date < reached {
            return false;
        }
        reached = date;
    }
    reached <= last
}

// The order's date, or the latest one before it where it has a due date.
fn date_after(order: &Order, latest: u32) -> u32
    ensures { result ≡ (if not (has_due order.now) then order.now.date else latest) }
{
    match order.due {
        Some(_) => latest,
        None => order.date.number(),
    }
}

// Whether each order's due date is on a weekday and fits its date and its state.
fn dues_fit(orders: &[Order], today: u32) -> bool
    ensures { IsTrue result
        ↔ AllByRecursion (λ (o : Order). FitsDue today o.due o.date o.state) orders.now }
{
    for order in orders {
        if !fits_due(order, today) {
            return false;
        }
    }
    true
}

// Whether this order's does, and it has one where it is held.
fn fits_due(order: &Order, today: u32) -> bool
    ensures { IsTrue result ↔ FitsDue today order.now.due order.now.date order.now.state }
{
    match order.due {
        Some(due) => {
            !due.is_weekend()
                && due.number() <= order.date.number()
                && is_dated_by(order.state, due.number(), order.date.number(), today)
        }
        None => order.state != OrderState::Held,
    }
}

// Whether an order with this due date has a date that fits its state.
fn is_dated_by(state: OrderState, due: u32, date: u32, today: u32) -> bool
    ensures { IsTrue result ↔ IsDatedBy today due date state }
{
    match state {
        OrderState::Held => date == due && today < date,
        OrderState::Withdrawn => date == due || date <= today,
        OrderState::Queued => date <= today,
        OrderState::Settled(_) => date <= today,
        OrderState::Rejected => date <= today,
    }
}

// Whether the dates never fall along the records, and none is after the last.
fn never_fall<T: Recorded>(rows: &[T], last: u32) -> bool
    ensures { IsTrue result ↔ NeverFall last (map T.date_of rows.now) }
{
    let mut latest = 0;
    for row in rows {
        let date = row.date_number();
        if date < latest {
            return false;
        }
        latest = date;
    }
    latest <= last
}
