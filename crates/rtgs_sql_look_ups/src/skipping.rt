//! Passing over orders that are not of a date, by looks at single rows. The dates of plain orders, those without a due
//! date, never fall along their numbers. Any other order may have a later date than the orders after it.
ghost use Rattle.std.specs.Prelude.{◌≡◌, ◌<◌, ◌≤◌, ◌-◌, ◌*◌, Some, true, false, IfOk};
ghost use Rattle.rtgs_book.specs.declared.book.Book.{Book};
ghost use Rattle.rtgs_book.specs.Books.{has_due};
ghost use Rattle.rtgs_book.specs.Soundness.{IsSound};
ghost use Rattle.rtgs_rows.specs.Keeping.{HoldsBook};
ghost use Rattle.rtgs_sql_look_ups.specs.Finding.{IsLook};
ghost use Rattle.rtgs_sql_look_ups.specs.Skipping.{first_order_above, Between, IsOff, IsPlainOff, IsDueOff};
ghost use Rattle.sqlite.specs.State.{HasCleanDisk};
ghost use Rattle.sqlite.specs.Held.{state};

use crate::listing::{forward_above, undated_above};
use crate::orders::order_above;
use rtgs_book::cores::laws::records_are_listed;
use rtgs_book::{Fault, LARGEST_NUMBER, Order};
use rtgs_money::BusinessDate;
use sqlite::{Alter, Connection};

/// This many orders with due dates, one after another, end the look for a plain one.
const MOST_IN_A_ROW: u32 = 16;

/// The engine passes over this many orders in the time in which one order with a due date is looked at.
const ORDERS_FOR_A_LOOK: u64 = 8;

/// This many orders with due dates are looked at, however close they stand.
const LOOKS_AT_LEAST: u64 = 64;

/// How far plain orders are of other dates, where this plain order is the first order above `at`: above the first
/// number, and up to the second. An early order tells it of all plain orders before it, and a late one of all after it.
fn passed_plain(order: &Order, date: BusinessDate, number: u64, at: u64) -> (u64, u64)
    ensures right { (book : Book) → IsSound book → first_order_above at book.orders ≡ Some order.now
        → has_due order.now ≡ false → Between (IsPlainOff date) number at book.orders
        → Between (IsPlainOff date) result.0 result.1 book.orders }
{
    records_are_listed();
    if order.date.number() < date.number() {
        (0, order.number)
    } else if order.date == date {
        (number, at)
    } else {
        (number, LARGEST_NUMBER as u64)
    }
}

/// How far plain orders are of other dates, by the first plain order above this number: above the first number that is
/// given, and up to the second. The first is 0 where that order is of an earlier date, and else this number.
pub(crate) fn pass_plain<S: Alter>(
    conn: &mut Connection<S>,
    date: BusinessDate,
    number: u64,
) -> Result<(u64, u64), Fault>
    ensures looks { IsLook S.Store conn.old conn.new result }
    ensures found { HasCleanDisk (state S.Store conn.new) → (book : Book) → HoldsBook S.Store conn.old book
        → IfOk result (λ (from, upto). Between (IsPlainOff date) from upto book.orders) }
{
    records_are_listed();
    let mut at = number;
    for _look in 0..MOST_IN_A_ROW {
        match order_above(conn, at) {
            Ok(Some(order)) => {
                if order.due.is_none() {
                    return Ok(passed_plain(&order, date, number, at));
                }
                at = order.number;
            }
            Ok(None) => return Ok((number, LARGEST_NUMBER as u64)),
            Err(fault) => return Err(fault),
        }
    }
    Ok((number, at))
}

/// How far the order with the next number is of another date, and whether it is.
fn pass_dated<S: Alter>(
    conn: &mut Connection<S>,
    date: BusinessDate,
    below: u64,
) -> Result<(u64, bool), Fault>
    ensures looks { IsLook S.Store conn.old conn.new result }
    ensures found { HasCleanDisk (state S.Store conn.new) → (book : Book) → HoldsBook S.Store conn.old book
        → IfOk result (λ (upto, passed). Between (IsOff date) below upto book.orders) }
{
    records_are_listed();
    match undated_above(conn, below) {
        Ok(Some(order)) => {
            if order.date == date {
                Ok((below, false))
            } else {
                Ok((order.number, true))
            }
        }
        Ok(None) => Ok((below, false)),
        Err(fault) => Err(fault),
    }
}

/// How far orders with due dates are of other dates, by the first one above `at`, and whether there may be more up to
/// `high`. No order is of a date before its due date.
fn pass_due<S: Alter>(
    conn: &mut Connection<S>,
    date: BusinessDate,
    at: u64,
    high: u64,
) -> Result<(u64, bool), Fault>
    ensures looks { IsLook S.Store conn.old conn.new result }
    ensures found { HasCleanDisk (state S.Store conn.new) → (book : Book) → HoldsBook S.Store conn.old book
        → IfOk result (λ (upto, more). Between (IsDueOff date) at upto book.orders) }
{
    records_are_listed();
    match forward_above(conn, at) {
        Ok(Some(forward)) => {
            if forward.number > high {
                Ok((high, false))
            } else if forward.due.number() > date.number() {
                Ok((forward.number, true))
            } else if forward.number > 0 {
                pass_dated(conn, date, forward.number - 1)
            } else {
                Ok((at, false))
            }
        }
        Ok(None) => Ok((high, false)),
        Err(fault) => Err(fault),
    }
}

/// Whether orders with due dates stand so close that a pass over all orders is faster than to look at each: more than
/// one in eight of those that were passed, the first 64 aside.
fn is_dense(looks: u32, low: u64, at: u64) -> bool
    ensures dense { result ≡ true → at - low < 8 * (looks - 64) }
    ensures sparse { result ≡ false → 8 * (looks - 64) ≤ at - low }
{
    (looks as u64)
        .saturating_sub(LOOKS_AT_LEAST)
        .saturating_mul(ORDERS_FOR_A_LOOK)
        > at.saturating_sub(low)
}

/// How far orders with due dates are of other dates, above `low` and perhaps up to `high`.
pub(crate) fn pass_dues<S: Alter>(
    conn: &mut Connection<S>,
    date: BusinessDate,
    low: u64,
    high: u64,
) -> Result<u64, Fault>
    ensures looks { IsLook S.Store conn.old conn.new result }
    ensures found { HasCleanDisk (state S.Store conn.new) → (book : Book) → HoldsBook S.Store conn.old book
        → IfOk result (λ at. Between (IsDueOff date) low at book.orders) }
{
    let mut at = low;
    for looks in 0..LARGEST_NUMBER as u32 {
        if is_dense(looks, low, at) {
            return Ok(at);
        }
        match pass_due(conn, date, at, high) {
            Ok((upto, more)) => {
                at = upto;
                if !more {
                    return Ok(at);
                }
            }
            Err(fault) => return Err(fault),
        }
    }
    Ok(at)
}
