//! Looking up one record by its name.
ghost use Rattle.std.specs.Prelude.{ℕ, ◌≡◌, ◌⊎◌, Option, None, [], map, false, Ok, IfOk, IfErr, IsTrue};
ghost use Rattle.std.specs.Prelude.{option_map};
ghost use Rattle.std.specs.List.{AllByRecursion};
ghost use Rattle.rtgs_book.specs.declared.book.Book.{Book};
ghost use Rattle.rtgs_book.specs.Lookup.{order_named, posting_named};
ghost use Rattle.rtgs_rows.specs.Dues.{without_due};
ghost use Rattle.rtgs_rows.specs.Keeping.{HoldsBook};
ghost use Rattle.rtgs_rows.specs.Rows.{shown_posting, shown_order};
ghost use Rattle.rtgs_sql_queries.specs.Answering.{IsQuery, KeepsTables};
ghost use Rattle.rtgs_sql_queries.specs.Faults.{LookFailed};
ghost use Rattle.rtgs_sql_look_ups.specs.Finding.{one_of, IsLook};
ghost use Rattle.rtgs_sql_columns.specs.Numbers.{AreReadAs};
ghost use Rattle.sqlite.specs.State.{HasCleanDisk, IsUnchanged, Survives};
ghost use Rattle.sqlite.specs.Held.{state};

use rtgs_book::{Fault, Order, Posting};
use rtgs_money::{Code, Reference};
use rtgs_sql_columns::columns::text;
use rtgs_sql_columns::laws::one_table_answers;
use rtgs_sql_queries::alive::is_alive;
use rtgs_sql_queries::asked::asked_rows;
use rtgs_sql_queries::laws::records_are_read;
use rtgs_sql_queries::table_row::TableRow;
use sqlite::{Alter, Connection, Error, ErrorCode, Row};

/// The rows of the order that the sender gave this reference.
fn order_rows<S: Alter>(
    conn: &mut Connection<S>,
    sender: &Code,
    reference: &Reference,
) -> Result<Vec<Row>, Error>
    ensures asks { IsQuery S.Store conn.old conn.new result }
    ensures rows { HasCleanDisk (state S.Store conn.new) → (book : Book) → HoldsBook S.Store conn.old book
        → IfOk result (λ rows. rows.items ≡ map shown_order (one_of (order_named book sender.now reference.now))) }
{
    one_table_answers();
    asked_rows(
        conn,
        "SELECT number, sender, reference, receiver, amount, date, state, mark FROM payment \
         WHERE sender = ?1 AND reference = ?2",
        &[text(sender.as_bytes()), text(reference.as_bytes())],
    )
}

/// The rows of the posting with this reference.
fn posting_rows<S: Alter>(
    conn: &mut Connection<S>,
    reference: &Reference,
) -> Result<Vec<Row>, Error>
    ensures asks { IsQuery S.Store conn.old conn.new result }
    ensures rows { HasCleanDisk (state S.Store conn.new) → (book : Book) → HoldsBook S.Store conn.old book
        → IfOk result (λ rows. rows.items ≡ map shown_posting (one_of (posting_named book reference.now))) }
{
    one_table_answers();
    asked_rows(
        conn,
        "SELECT number, code, reference, cents, date FROM posting WHERE reference = ?1",
        &[text(reference.as_bytes())],
    )
}

/// What the failure of a look means: lack of memory, where the connection is seen to be open still, and else a fault
/// of the store, also where the text was not understood.
pub(crate) fn fault_of<S: Alter>(conn: &mut Connection<S>, error: &Error) -> Fault
    ensures kinds { (result ≡ Fault.OutOfMemory) ⊎ (result ≡ Fault.StoreFault) }
    ensures cause { result ≡ Fault.OutOfMemory → error.now ≡ Error.SqliteFailure ErrorCode.OutOfMemory }
    ensures must { HasCleanDisk (state S.Store conn.new) → error.now ≡ Error.SqliteFailure ErrorCode.OutOfMemory
        → (result ≡ Fault.OutOfMemory) ⊎ LookFailed (state S.Store conn.old) (state S.Store conn.new) }
    ensures same { result ≡ Fault.OutOfMemory → HasCleanDisk (state S.Store conn.new)
        → IsUnchanged (state S.Store conn.old) (state S.Store conn.new) }
    ensures kept { result ≡ Fault.OutOfMemory → HasCleanDisk (state S.Store conn.new)
        → IsTrue (state S.Store conn.old).is_open
        × KeepsTables (state S.Store conn.old) (state S.Store conn.new) }
    ensures mode { conn.old.in_transaction ≡ false → conn.new.in_transaction ≡ false }
    ensures survives { Survives (state S.Store conn.old) (state S.Store conn.new) (λ _. ⊥) }
{
    match error {
        Error::SqliteFailure(ErrorCode::OutOfMemory) if is_alive(conn) => Fault::OutOfMemory,
        _ => Fault::StoreFault,
    }
}

/// The record of the only row, and none where there is no row. A row in no form, or one row more, is a fault of the
/// store.
pub(crate) fn only_record<T: TableRow + Drop>(rows: &[Row]) -> Result<Option<T>, Fault>
    ensures found { (found : Option T) → AllByRecursion T.records.fits (one_of found)
        → AreReadAs T.records rows.now (one_of found) → result ≡ Ok found }
    ensures none { result ≡ Ok None → rows.now ≡ [] }
    ensures kinds { IfErr result (λ fault. fault ≡ Fault.StoreFault) }
{
    match rows {
        [] => Ok(None),
        [row] => match T::from_row(row) {
            Some(record) => Ok(Some(record)),
            None => Err(Fault::StoreFault),
        },
        _ => Err(Fault::StoreFault),
    }
}

/// The order that the sender gave this reference, where the tables have one, without its due date.
pub(crate) fn named_undated<S: Alter>(
    conn: &mut Connection<S>,
    sender: &Code,
    reference: &Reference,
) -> Result<Option<Order>, Fault>
    ensures looks { IsLook S.Store conn.old conn.new result }
    ensures found { HasCleanDisk (state S.Store conn.new) → (book : Book) → HoldsBook S.Store conn.old book
        → IfOk result (λ found. found ≡ option_map without_due (order_named book sender.now reference.now)) }
{
    records_are_read::<Order>();
    match order_rows(conn, sender, reference) {
        Ok(rows) => only_record(rows.as_slice()),
        Err(error) => Err(fault_of(conn, &error)),
    }
}

/// The posting with this reference, where the tables have one.
pub fn find_posting<S: Alter>(
    conn: &mut Connection<S>,
    reference: &Reference,
) -> Result<Option<Posting>, Fault>
    ensures looks { IsLook S.Store conn.old conn.new result }
    ensures found { HasCleanDisk (state S.Store conn.new) → (book : Book) → HoldsBook S.Store conn.old book
        → IfOk result (λ found. found ≡ posting_named book reference.now) }
{
    records_are_read::<Posting>();
    match posting_rows(conn, reference) {
        Ok(rows) => only_record(rows.as_slice()),
        Err(error) => Err(fault_of(conn, &error)),
    }
}
