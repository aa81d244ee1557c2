//! The rows of a query with parameters.
ghost use Rattle.std.specs.Prelude.{◌≡◌, ℕ, List, [], length, IfOk};
ghost use Rattle.rtgs_rows.specs.Tables.{desk_schema};
ghost use Rattle.rtgs_sql_queries.specs.Answering.{IsQuery, Returnless};
ghost use Rattle.rtgs_sql_queries.specs.TableQueries.{Seeks};
ghost use Rattle.sqlite.specs.Values.{bound};
ghost use Rattle.sqlite.specs.Query.{Query, IsAnswer};
ghost use Rattle.sqlite.specs.State.{HasCleanDisk};
ghost use Rattle.sqlite.specs.Held.{state};
ghost use Rattle.sqlite_resolve.specs.Compile.{first};
ghost use Rattle.sqlite_sql.specs.Program.{overlay};

use sqlite::types::ValueRef;
use sqlite::{Alter, Connection, Error, Row};

/// The rows that a query of one table shows, with these parameters. Nothing is written.
pub fn asked_rows<S: Alter>(
    conn: &mut Connection<S>,
    text: &str,
    params: &[ValueRef<'_>],
) -> Result<Vec<Row>, Error>
    ensures asks { Returnless (first text.now) → IsQuery S.Store conn.old conn.new result }
    ensures rows { HasCleanDisk (state S.Store conn.new) → (query : Query) (names : List (List ℕ))
        → Seeks text.now (length (bound params.now)) query names → (state S.Store conn.old).now.schema ≡ desk_schema
        → IfOk result (λ rows. IsAnswer query (overlay (state S.Store conn.old).now.trees []) (bound params.now)
        rows.items) }
{
    conn.query_all(text, params)
}
