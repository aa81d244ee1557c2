//! What a table's row says.
ghost use Rattle.std.specs.Prelude.{◌≡◌, ◌≢◌, ◌≤◌, ◌<◌, ℕ, List, [], ◌∷◌, Some, Err, IfOk, IfSome};
ghost use Rattle.std.specs.List.{AllByRecursion};
ghost use Rattle.rtgs_book.specs.declared.book.Book.{Book};
ghost use Rattle.rtgs_book.specs.declared.rule.Rule.{Rule};
ghost use Rattle.rtgs_book.specs.declared.account.Account.{Account as AccountSpec};
ghost use Rattle.rtgs_rows.specs.TableRecords.{TableRecords, HasNoMoreBeyond, at_first};
ghost use Rattle.rtgs_rows.specs.Tables.{HasTable, IsVersion};
ghost use Rattle.rtgs_sql_columns.specs.Numbers.{as_read, AreReadAs, IsFormed};
ghost use Rattle.rtgs_sql_columns.specs.Tables.{query_text};
ghost use Rattle.rtgs_sql_queries.specs.TableQueries.{IsTableQuery, ShowsOwn};

use rtgs_book::Fault;
use sqlite::Row;
use std::alloc::Global;

/// A record that is read from a row of one table.
pub trait TableRow: Sized {
    // The records of its table: how a row shows one, and which of them a book has.
    ghost records: { TableRecords Self };

    /// The text of the query of all rows.
    fn query() -> &'static str
        ensures is { result.now ≡ query_text records.table }
        ensures asks { IsTableQuery records.table }
        ensures shows { ShowsOwn records }
        ensures own { (it : Self) → as_read records.counted (records.shown it) ≡ records.shown it };

    /// The first version of the tables that has this one.
    fn first_version() -> u64
        ensures is { HasTable result records.table }
        ensures has { (version : ℕ) → IsVersion version → result ≤ version → HasTable version records.table }
        ensures lacks { (version : ℕ) → IsVersion version → version < result → ¬ HasTable version records.table }
        ensures first { (version : ℕ) → IsVersion version → version < result → (accounts : List AccountSpec)
            (book : Book) → HasNoMoreBeyond version accounts book
            → records.of_book version accounts book ≡ at_first version records };

    /// The record, where each value of the row is in its form and range, and there are no more values.
    fn from_row(row: &Row) -> Option<Self>
        ensures found { (it : Self) → records.fits it → as_read records.counted row.now ≡ records.shown it
            → result ≡ Some it }
        ensures is { IfSome result (λ it. records.fits it
            × (as_read records.counted row.now ≡ records.shown it)) };
}

/// A record of a table that has a row for each record of a list. A new desk has none there.
pub trait ListRow: TableRow {
    ghost none_at_first: { (version : ℕ) → at_first version Self.records ≡ [] };
}

/// The record of a table that has one row.
pub trait OneRow: TableRow {
    // The one that a book has, in tables of a version.
    ghost of_day: { ℕ → Book → Self };

    ghost one: { (version : ℕ) (accounts : List AccountSpec) (book : Book)
        → Self.records.of_book version accounts book ≡ of_day version book ∷ [] };
}

/// The records of the rows, in their order. A malformed row is `NotADeskFile`, also where memory runs out.
pub fn decode<T: TableRow + Drop>(alloc: Global, rows: &[Row]) -> Result<Vec<T>, Fault>
    ensures given { (all : List T) → AllByRecursion T.records.fits all
        → AreReadAs T.records rows.now all → IfOk result (λ v. v.items ≡ all) }
    ensures is { IfOk result (λ v. AllByRecursion T.records.fits v.items
        × AreReadAs T.records rows.now v.items) }
    ensures wrong { result ≡ Err Fault.NotADeskFile
        → ¬ AllByRecursion (IsFormed T.records) rows.now }
    ensures memory { result ≡ Err Fault.OutOfMemory
        → AllByRecursion (IsFormed T.records) rows.now }
    ensures kinds { (result ≢ Err Fault.StoreFault) × ((rule : Rule) → result ≢ Err (Fault.Inconsistent rule)) }
{
    let Ok(mut records) = Vec::with_capacity(alloc, rows.len()) else {
        return Err(without_room::<T>(rows));
    };
    for row in rows {
        match T::from_row(row) {
            Some(record) => records.push_reserved(record),
            None => return Err(Fault::NotADeskFile),
        }
    }
    Ok(records)
}

/// What rows come to for whose records there is no memory.
fn without_room<T: TableRow + Drop>(rows: &[Row]) -> Fault
    ensures wrong { result ≡ Fault.NotADeskFile → ¬ AllByRecursion (IsFormed T.records) rows.now }
    ensures memory { result ≡ Fault.OutOfMemory → AllByRecursion (IsFormed T.records) rows.now }
    ensures kinds { (result ≢ Fault.StoreFault) × ((rule : Rule) → result ≢ Fault.Inconsistent rule) }
{
    for row in rows {
        if T::from_row(row).is_none() {
            return Fault::NotADeskFile;
        }
    }
    Fault::OutOfMemory
}
