//! Looking up orders. An order is two rows: one without its due date, and one with it where it has one.
ghost use Rattle.std.specs.Prelude.{◌≡◌, Bool, Some, Ok, IfOk, IfErr, IfSome, option_map};
ghost use Rattle.std.specs.List.{find};
ghost use Rattle.rtgs_book.specs.declared.book.Book.{Book};
ghost use Rattle.rtgs_book.specs.declared.order.Order.{Order as OrderSpec};
ghost use Rattle.rtgs_book.specs.Lookup.{order_named};
ghost use Rattle.rtgs_book.specs.Soundness.{IsSound};
ghost use Rattle.rtgs_book.specs.cores.Nexts.{order_after};
ghost use Rattle.rtgs_rows.specs.Dues.{without_due, forwards_of, IsHeldByDue};
ghost use Rattle.rtgs_rows.specs.Keeping.{HoldsBook};
ghost use Rattle.rtgs_sql_look_ups.specs.Finding.{IsLook, due_under};
ghost use Rattle.rtgs_sql_look_ups.specs.Skipping.{first_order_above};
ghost use Rattle.sqlite.specs.State.{HasCleanDisk};
ghost use Rattle.sqlite.specs.Held.{state};

use crate::finding::named_undated;
use crate::listing::{first_record, undated_above, undated_after};
use rtgs_book::cores::laws::records_are_listed;
use rtgs_book::{Fault, LARGEST_NUMBER, Order};
use rtgs_money::{BusinessDate, Code, Reference};
use rtgs_rows::Forward;
use rtgs_rows::laws::records_stand_in_order;
use rtgs_sql_columns::columns::number_value;
use rtgs_sql_columns::laws::one_table_answers;
use rtgs_sql_queries::laws::records_are_read;
use sqlite::{Alter, Connection};

/// The due date of the order with this number, where it has one. No order has a number above the greatest.
fn due_date<S: Alter>(conn: &mut Connection<S>, number: u64) -> Result<Option<BusinessDate>, Fault>
    ensures looks { IsLook S.Store conn.old conn.new result }
    ensures found { HasCleanDisk (state S.Store conn.new) → (book : Book) → HoldsBook S.Store conn.old book
        → IfOk result (λ due. due ≡ due_under number (forwards_of book.orders)) }
{
    records_are_listed();
    if number > LARGEST_NUMBER as u64 {
        return Ok(None);
    }
    records_stand_in_order();
    one_table_answers();
    records_are_read::<Forward>();
    let found = first_record::<Forward, S>(
        conn,
        "SELECT number, due FROM forward WHERE number = ?1 ORDER BY number LIMIT 1",
        &[number_value(number)],
    );
    match found {
        Ok(Some(forward)) => Ok(Some(forward.due)),
        Ok(None) => Ok(None),
        Err(fault) => Err(fault),
    }
}

/// The order of a row, with this due date. No order of a sound book is held without one: that is a fault of the store.
fn dated(undated: Order, due: Option<BusinessDate>) -> Result<Option<Order>, Fault>
    ensures right { (book : Book) → IsSound book → (is_it : OrderSpec → Bool)
        → Some (record undated { due = due }) ≡ find is_it book.orders → result ≡ Ok (find is_it book.orders) }
    ensures dues { IfOk result (λ found. IfSome found IsHeldByDue) }
    ensures fault { IfErr result (λ fault. fault ≡ Fault.StoreFault) }
{
    if due.is_none() && undated.state.is_held() {
        return Err(Fault::StoreFault);
    }
    let mut order = undated;
    order.due = due;
    Ok(Some(order))
}

/// The order of a row with its due date, where there is a row.
fn with_due<S: Alter>(
    conn: &mut Connection<S>,
    undated: Option<Order>,
) -> Result<Option<Order>, Fault>
    ensures looks { IsLook S.Store conn.old conn.new result }
    ensures found { HasCleanDisk (state S.Store conn.new) → (book : Book) → HoldsBook S.Store conn.old book
        → (is_it : OrderSpec → Bool) → undated ≡ option_map without_due (find is_it book.orders)
        → IfOk result (λ found. found ≡ find is_it book.orders) }
    ensures dues { IfOk result (λ found. IfSome found IsHeldByDue) }
{
    records_are_listed();
    let Some(order) = undated else {
        return Ok(None);
    };
    match due_date(conn, order.number) {
        Ok(due) => dated(order, due),
        Err(fault) => Err(fault),
    }
}

/// The order that the sender gave this reference, where the tables have one. None that is given is held without a due
/// date.
pub fn find_order<S: Alter>(
    conn: &mut Connection<S>,
    sender: &Code,
    reference: &Reference,
) -> Result<Option<Order>, Fault>
    ensures looks { IsLook S.Store conn.old conn.new result }
    ensures found { HasCleanDisk (state S.Store conn.new) → (book : Book) → HoldsBook S.Store conn.old book
        → IfOk result (λ found. found ≡ order_named book sender.now reference.now) }
    ensures dues { IfOk result (λ found. IfSome found IsHeldByDue) }
{
    match named_undated(conn, sender, reference) {
        Ok(undated) => with_due(conn, undated),
        Err(fault) => Err(fault),
    }
}

/// The order with the least number above this one, whatever its date. None that is given is held without a due date.
pub(crate) fn order_above<S: Alter>(
    conn: &mut Connection<S>,
    number: u64,
) -> Result<Option<Order>, Fault>
    ensures looks { IsLook S.Store conn.old conn.new result }
    ensures found { HasCleanDisk (state S.Store conn.new) → (book : Book) → HoldsBook S.Store conn.old book
        → IfOk result (λ found. found ≡ first_order_above number book.orders) }
    ensures dues { IfOk result (λ found. IfSome found IsHeldByDue) }
{
    match undated_above(conn, number) {
        Ok(undated) => with_due(conn, undated),
        Err(fault) => Err(fault),
    }
}

/// The order of the date with the least number above this one, by a pass over all orders above it. None that is given
/// is held without a due date.
pub(crate) fn order_by_pass<S: Alter>(
    conn: &mut Connection<S>,
    date: BusinessDate,
    number: u64,
) -> Result<Option<Order>, Fault>
    ensures looks { IsLook S.Store conn.old conn.new result }
    ensures found { HasCleanDisk (state S.Store conn.new) → (book : Book) → HoldsBook S.Store conn.old book
        → IfOk result (λ found. found ≡ order_after book date number) }
    ensures dues { IfOk result (λ found. IfSome found IsHeldByDue) }
{
    match undated_after(conn, date, number) {
        Ok(undated) => with_due(conn, undated),
        Err(fault) => Err(fault),
    }
}
