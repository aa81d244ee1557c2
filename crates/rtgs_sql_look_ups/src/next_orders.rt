//! The next order of a date.
ghost use Rattle.std.specs.Prelude.{◌≡◌, IfOk, IfSome};
ghost use Rattle.rtgs_book.specs.declared.book.Book.{Book};
ghost use Rattle.rtgs_book.specs.cores.Nexts.{order_after};
ghost use Rattle.rtgs_rows.specs.Dues.{IsHeldByDue};
ghost use Rattle.rtgs_rows.specs.Keeping.{HoldsBook};
ghost use Rattle.rtgs_sql_look_ups.specs.Finding.{IsLook};
ghost use Rattle.sqlite.specs.State.{HasCleanDisk};
ghost use Rattle.sqlite.specs.Held.{state};

use crate::leaping::pass_over;
use crate::orders::{order_above, order_by_pass};
use rtgs_book::cores::laws::records_are_listed;
use rtgs_book::{Fault, LARGEST_NUMBER, Order};
use rtgs_money::BusinessDate;
use sqlite::{Alter, Connection};

/// The order of the date with the least number above this one, by a pass that begins past orders of other dates. None
/// that is given is held without a due date.
fn later_order<S: Alter>(
    conn: &mut Connection<S>,
    date: BusinessDate,
    number: u64,
) -> Result<Option<Order>, Fault>
    ensures looks { IsLook S.Store conn.old conn.new result }
    ensures found { HasCleanDisk (state S.Store conn.new) → (book : Book) → HoldsBook S.Store conn.old book
        → IfOk result (λ found. found ≡ order_after book date number) }
    ensures dues { IfOk result (λ found. IfSome found IsHeldByDue) }
{
    match pass_over(conn, date, number) {
        Ok(at) => order_by_pass(conn, date, at),
        Err(fault) => Err(fault),
    }
}

/// The order of the date with the least number above this one. None that is given is held without a due date.
pub fn next_order<S: Alter>(
    conn: &mut Connection<S>,
    date: BusinessDate,
    number: u64,
) -> Result<Option<Order>, Fault>
    ensures looks { IsLook S.Store conn.old conn.new result }
    ensures found { HasCleanDisk (state S.Store conn.new) → (book : Book) → HoldsBook S.Store conn.old book
        → IfOk result (λ found. found ≡ order_after book date number) }
    ensures dues { IfOk result (λ found. IfSome found IsHeldByDue) }
{
    records_are_listed();
    if number >= LARGEST_NUMBER as u64 {
        return Ok(None);
    }
    // where orders of the date stand in a row, it takes no search to go from one to the next
    match order_above(conn, number) {
        Ok(Some(order)) => {
            if order.date == date {
                Ok(Some(order))
            } else {
                later_order(conn, date, number)
            }
        }
        Ok(None) => Ok(None),
        Err(fault) => Err(fault),
    }
}
