//! All rows of a table.
ghost use Rattle.std.specs.Prelude.{◌≡◌, ◌⊎◌, ℕ, List, IfOk, IfErr};
ghost use Rattle.rtgs_book.specs.declared.book.Book.{Book};
ghost use Rattle.rtgs_book.specs.declared.account.Account.{Account as AccountSpec};
ghost use Rattle.rtgs_rows.specs.Querying.{IsFileIn};
ghost use Rattle.rtgs_rows.specs.Tables.{HasTable, schema_in};
ghost use Rattle.rtgs_sql_columns.specs.Numbers.{as_read};
ghost use Rattle.rtgs_sql_columns.specs.Tables.{query_text};
ghost use Rattle.rtgs_sql_queries.specs.Answering.{IsQuery};
ghost use Rattle.rtgs_sql_queries.specs.Records.{HasRecords, GivesRecords};
ghost use Rattle.rtgs_sql_queries.specs.Displaying.{Displays, HasNoAnswer};
ghost use Rattle.rtgs_sql_queries.specs.Faults.{IsOfStore};
ghost use Rattle.rtgs_sql_queries.specs.TableQueries.{ShowsSorted};
ghost use Rattle.sqlite.specs.State.{HasCleanDisk};
ghost use Rattle.sqlite.specs.Held.{state};
ghost use Rattle.sqlite.specs.Tree.{Trees};

use crate::answer::all_rows;
use crate::table_row::TableRow;
use rtgs_sql_columns::laws::one_table_answers;
use sqlite::{Alter, Connection, Error, Row};
use std::alloc::Global;

/// All rows of a table, in the order of its query.
pub fn table_rows<T: TableRow, S: Alter>(
    alloc: Global,
    conn: &mut Connection<S>,
) -> Result<Vec<Row>, Error>
    ensures given { HasCleanDisk (state S.Store conn.new) → (version : ℕ) → HasTable version T.records.table
        → (accounts : List AccountSpec) (book : Book) → HasRecords version accounts book (state S.Store conn.old)
        → GivesRecords T.records (T.records.of_book version accounts book) result }
    ensures own { (it : T) → as_read T.records.counted (T.records.shown it) ≡ T.records.shown it }
    ensures raw { HasCleanDisk (state S.Store conn.new) → (version : ℕ) → HasTable version T.records.table
        → (trees : Trees) → IsFileIn version trees (state S.Store conn.old)
        → IfOk result (λ rows. ShowsSorted T.records.table trees rows.items) }
    ensures refused { HasCleanDisk (state S.Store conn.new) → (version : ℕ) → HasTable version T.records.table
        → (state S.Store conn.old).now.schema ≡ schema_in version → IfErr result IsOfStore }
    ensures answered { HasCleanDisk (state S.Store conn.new) → IfOk result (λ rows.
        Displays (state S.Store conn.old).now (query_text T.records.table) rows.items
        × ((state S.Store conn.new).now ≡ (state S.Store conn.old).now)) }
    ensures unanswered { HasCleanDisk (state S.Store conn.new) → IfErr result (λ error.
        IsOfStore error ⊎ HasNoAnswer (state S.Store conn.old).now (query_text T.records.table)) }
    ensures asks { IsQuery S.Store conn.old conn.new result }
    ensures honest { HasCleanDisk (state S.Store conn.new) → HasCleanDisk (state S.Store conn.old) }
{
    one_table_answers();
    all_rows(alloc, conn, T::query())
}
