//! The rows of a query, read one at a time.
ghost use Rattle.std.specs.Prelude.{◌≡◌, [], false, IfOk, IfErr};
ghost use Rattle.rtgs_sql_queries.specs.Answering.{Returnless, FailsAmid};
ghost use Rattle.sqlite.specs.Held.{state};
ghost use Rattle.sqlite.specs.State.{HasCleanDisk, Shown, Survives};
ghost use Rattle.sqlite_resolve.specs.Compile.{first};

use sqlite::{Alter, Connection, Error, Row};
use std::alloc::Global;

/// All rows of a query. They are read one at a time: a connection that gives them all at once keeps memory for as many.
pub(crate) fn all_rows<S: Alter>(
    alloc: Global,
    conn: &mut Connection<S>,
    text: &str,
) -> Result<Vec<Row>, Error>
    requires { Returnless (first text.now) }
    ensures ok { HasCleanDisk (state S.Store conn.new) → IfOk result (λ rows.
        Shown text.now [] (state S.Store conn.old) (state S.Store conn.new) rows.items) }
    ensures err { HasCleanDisk (state S.Store conn.new) → IfErr result (λ error.
        FailsAmid text.now (state S.Store conn.old) (state S.Store conn.new) error) }
    ensures mode { conn.old.in_transaction ≡ false → conn.new.in_transaction ≡ false }
    ensures survives { Survives (state S.Store conn.old) (state S.Store conn.new) (λ _. ⊥) }
{
    let mut all = Vec::new(alloc);
    let mut rows = conn.query(text, &[])?;
    // No list has as many rows as this loop has turns.
    'rows: for _row in 0..u64::MAX {
        let Some(row) = rows.next()? else {
            return Ok(all);
        };
        all.push(row.copy()?)?;
    }
    unreachable!()
}
