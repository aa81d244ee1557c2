//! The first record above a number: of all postings, marks, orders or due dates, and of the orders of a date.
ghost use Rattle.std.specs.Prelude.{◌≡◌, ◌<◌, ◌^◌, List, Option, IfOk, length, option_map};
ghost use Rattle.std.specs.List.{AllByRecursion};
ghost use Rattle.rtgs_book.specs.declared.book.Book.{Book};
ghost use Rattle.rtgs_book.specs.cores.Nexts.{date_of_posting, order_after};
ghost use Rattle.rtgs_rows.specs.Content.{Content, Rests};
ghost use Rattle.rtgs_rows.specs.Dues.{without_due};
ghost use Rattle.rtgs_rows.specs.Keeping.{HoldsBook};
ghost use Rattle.rtgs_sql_look_ups.specs.Finding.{one_of, IsLook, IsFirstQuery, ShowsFirst};
ghost use Rattle.rtgs_sql_look_ups.specs.Skipping.{first_order_above, first_due_above};
ghost use Rattle.sqlite.specs.State.{HasCleanDisk};
ghost use Rattle.sqlite.specs.Held.{state};
ghost use Rattle.sqlite.specs.Term.{Term};
ghost use Rattle.sqlite.specs.Values.{bound};

use crate::finding::{fault_of, only_record};
use crate::seeking::Listed;
use rtgs_book::cores::laws::records_are_listed;
use rtgs_book::{Fault, LARGEST_NUMBER, Mark, Order, Posting};
use rtgs_money::BusinessDate;
use rtgs_money::laws::dates_have_distinct_texts;
use rtgs_rows::Forward;
use rtgs_rows::laws::records_stand_in_order;
use rtgs_sql_columns::columns::{number_value, text_of, text_or_null};
use rtgs_sql_columns::laws::one_table_answers;
use rtgs_sql_queries::asked::asked_rows;
use rtgs_sql_queries::laws::records_are_read;
use rtgs_sql_queries::table_row::TableRow;
use sqlite::types::ValueRef;
use sqlite::{Alter, Connection};

/// The record that the text's query finds first with these parameters, and none where there is no such row.
pub(crate) fn first_record<T: TableRow + Drop, S: Alter>(
    conn: &mut Connection<S>,
    text: &str,
    params: &[ValueRef<'_>],
) -> Result<Option<T>, Fault>
    ensures looks { (tests : List Term) → IsFirstQuery T.records.table tests text.now (length (bound params.now))
        → IsLook S.Store conn.old conn.new result }
    ensures found { HasCleanDisk (state S.Store conn.new) → (content : Content) → Rests content (state S.Store conn.old)
        → (tests : List Term) → IsFirstQuery T.records.table tests text.now (length (bound params.now))
        → (found : Option T) → AllByRecursion T.records.fits (one_of found)
        → ShowsFirst T.records tests (state S.Store conn.old).now.trees (bound params.now) found
        → IfOk result (λ it. it ≡ found) }
{
    match asked_rows(conn, text, params) {
        Ok(rows) => only_record(rows.as_slice()),
        Err(error) => Err(fault_of(conn, &error)),
    }
}

impl Listed for Posting {
    ghost use Rattle.rtgs_book.specs.declared.book.Book.{Book};
    ghost use Rattle.rtgs_book.specs.cores.Nexts.{date_of_posting};

    ghost listed = { λ (book : Book). book.postings };

    ghost number_of = { λ p. p.number };

    ghost date_of = { date_of_posting };

    fn first_after<S: Alter>(
        conn: &mut Connection<S>,
        number: u64,
    ) -> Result<Option<Posting>, Fault> {
        records_stand_in_order();
        one_table_answers();
        records_are_read::<Posting>();
        first_record::<Posting, S>(
            conn,
            "SELECT number, code, reference, cents, date FROM posting WHERE number > ?1 ORDER BY number LIMIT 1",
            &[number_value(number)],
        )
    }

    fn date_number(&self) -> u32 {
        match self.date {
            Some(date) => date.number(),
            None => 0,
        }
    }
}

impl Listed for Mark {
    ghost use Rattle.rtgs_book.specs.declared.book.Book.{Book};

    ghost listed = { λ (book : Book). book.marks };

    ghost number_of = { λ m. m.number };

    ghost date_of = { λ m. m.date };

    fn first_after<S: Alter>(conn: &mut Connection<S>, number: u64) -> Result<Option<Mark>, Fault> {
        records_stand_in_order();
        one_table_answers();
        records_are_read::<Mark>();
        first_record::<Mark, S>(
            conn,
            "SELECT number, date, many, value FROM mark WHERE number > ?1 ORDER BY number LIMIT 1",
            &[number_value(number)],
        )
    }

    fn date_number(&self) -> u32 {
        self.date.number()
    }
}

/// The order of the date with the least number above this one, without its due date. The query names the date, so
/// nothing is asked of the dates of other orders.
pub(crate) fn undated_after<S: Alter>(
    conn: &mut Connection<S>,
    date: BusinessDate,
    number: u64,
) -> Result<Option<Order>, Fault>
    ensures looks { IsLook S.Store conn.old conn.new result }
    ensures found { HasCleanDisk (state S.Store conn.new) → (book : Book) → HoldsBook S.Store conn.old book
        → IfOk result (λ found. found ≡ option_map without_due (order_after book date number)) }
{
    records_are_listed();
    if number >= LARGEST_NUMBER as u64 {
        return Ok(None);
    }
    records_stand_in_order();
    one_table_answers();
    records_are_read::<Order>();
    dates_have_distinct_texts();
    let day = text_of(Some(date));
    first_record::<Order, S>(
        conn,
        "SELECT number, sender, reference, receiver, amount, date, state, mark FROM payment \
         WHERE date = ?1 AND number > ?2 ORDER BY number LIMIT 1",
        &[text_or_null(&day), number_value(number)],
    )
}

/// The order with the least number above this one, whatever its date, without its due date.
pub(crate) fn undated_above<S: Alter>(
    conn: &mut Connection<S>,
    number: u64,
) -> Result<Option<Order>, Fault>
    ensures looks { IsLook S.Store conn.old conn.new result }
    ensures found { HasCleanDisk (state S.Store conn.new) → (book : Book) → HoldsBook S.Store conn.old book
        → IfOk result (λ found. found ≡ option_map without_due (first_order_above number book.orders)) }
{
    records_are_listed();
    if number > LARGEST_NUMBER as u64 {
        return Ok(None);
    }
    records_stand_in_order();
    one_table_answers();
    records_are_read::<Order>();
    first_record::<Order, S>(
        conn,
        "SELECT number, sender, reference, receiver, amount, date, state, mark FROM payment \
         WHERE number > ?1 ORDER BY number LIMIT 1",
        &[number_value(number)],
    )
}

/// The due date with the least number above this one.
pub(crate) fn forward_above<S: Alter>(
    conn: &mut Connection<S>,
    number: u64,
) -> Result<Option<Forward>, Fault>
    ensures looks { IsLook S.Store conn.old conn.new result }
    ensures found { HasCleanDisk (state S.Store conn.new) → (book : Book) → HoldsBook S.Store conn.old book
        → IfOk result (λ found. found ≡ first_due_above number book.orders) }
{
    records_are_listed();
    if number > LARGEST_NUMBER as u64 {
        return Ok(None);
    }
    records_stand_in_order();
    one_table_answers();
    records_are_read::<Forward>();
    first_record::<Forward, S>(
        conn,
        "SELECT number, due FROM forward WHERE number > ?1 ORDER BY number LIMIT 1",
        &[number_value(number)],
    )
}
