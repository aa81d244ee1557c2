//! The record of a table that has one row.
ghost use Rattle.std.specs.Prelude.{◌≡◌, ◌≢◌, ℕ, false, Ok, Err, [], ◌∷◌, IfOk, IfErr, OnOk};
ghost use Rattle.rtgs_book.specs.declared.rule.Rule.{Rule};
ghost use Rattle.rtgs_rows.specs.Querying.{as_shown};
ghost use Rattle.rtgs_rows.specs.Tables.{HasTable, IsVersion};
ghost use Rattle.rtgs_sql_columns.specs.Numbers.{AreReadAs};
ghost use Rattle.rtgs_sql_columns.specs.Tables.{query_text};
ghost use Rattle.rtgs_sql_loading.specs.Accounts.{IsOneRow};
ghost use Rattle.rtgs_sql_loading.specs.Displaying.{IsUnread};
ghost use Rattle.rtgs_sql_loading.specs.Loading.{ReadsOne, ReadsOn, Stops};
ghost use Rattle.sqlite.specs.State.{HasCleanDisk};
ghost use Rattle.sqlite.specs.Held.{state};

use crate::faults::fault_of;
use rtgs_book::Fault;
use rtgs_sql_queries::table_row::OneRow;
use rtgs_sql_queries::whole_table::table_rows;
use sqlite::{Alter, Connection, Row};
use std::alloc::Global;

/// What the only row says. Any other rows are `NotADeskFile`.
fn only_row<T: OneRow>(rows: &[Row]) -> Result<T, Fault>
    ensures given { (it : T) → T.records.fits it → AreReadAs T.records rows.now (it ∷ []) → result ≡ Ok it }
    ensures is { IfOk result (λ it. T.records.fits it × AreReadAs T.records rows.now (it ∷ [])) }
    ensures wrong { IfErr result (λ fault. (fault ≡ Fault.NotADeskFile) × ¬ IsOneRow T.records rows.now) }
{
    let [row] = rows else {
        return Err(Fault::NotADeskFile);
    };
    match T::from_row(row) {
        Some(it) => Ok(it),
        None => Err(Fault::NotADeskFile),
    }
}

/// The record of a table that has one row. Any other rows are `NotADeskFile`.
pub(crate) fn read_one<T: OneRow, S: Alter>(
    alloc: Global,
    conn: &mut Connection<S>,
) -> Result<T, Fault>
    ensures read { HasCleanDisk (state S.Store conn.new) → IfOk result (ReadsOne T.records (state S.Store conn.old)) }
    ensures stops { (version : ℕ) → (IsVersion version → HasTable version T.records.table)
        → Stops version (state S.Store conn.old) (state S.Store conn.new) result
        (λ trees. ¬ IsOneRow T.records (as_shown T.records.table trees))
        (λ db. IsUnread db (query_text T.records.table) (IsOneRow T.records)) }
    ensures on { OnOk result (ReadsOn (state S.Store conn.old) (state S.Store conn.new)) }
    ensures kinds { (rule : Rule) → result ≢ Err (Fault.Inconsistent rule) }
    ensures mode { conn.old.in_transaction ≡ false → conn.new.in_transaction ≡ false }
    ensures honest { HasCleanDisk (state S.Store conn.new) → HasCleanDisk (state S.Store conn.old) }
{
    match table_rows::<T, S>(alloc, conn) {
        Ok(rows) => only_row(rows.as_slice()),
        Err(error) => Err(fault_of(conn, &error)),
    }
}
