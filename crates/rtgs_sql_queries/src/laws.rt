//! A law of the records of a table. Its contract is the law; its body calls `query` for its promise alone.
ghost use Rattle.rtgs_sql_queries.specs.Laws.{RecordsAreRead};

use crate::table_row::TableRow;

/// A record's own row is read as it is, for no number of it is below zero.
pub fn records_are_read<T: TableRow>()
    ensures { RecordsAreRead T.records }
{
    T::query();
}
