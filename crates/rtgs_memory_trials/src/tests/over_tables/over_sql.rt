//! A desk's tables in a database in memory.
ghost use Rattle.std.specs.Prelude.{◌≡◌, false, IfOk};
ghost use Rattle.sqlite.specs.Steps.{IsFresh};
ghost use Rattle.sqlite_trees.specs.View.{IsClean};

use super::super::scarce::Store;
use rtgs_tables::SqlKeeper;
use sqlite::{Alter, Connection, MemStore};
use sqlite_trees::store::Reopen;
use std::alloc::Global;
use std::test::Fail;

/// By how many blocks a step grows.
pub const BLOCKS: usize = 1;

/// The tables of a database in memory.
#[derive(Clone, Copy)]
pub struct OverSql;

impl Store for OverSql {
    type Kept = SqlKeeper<MemStore>;

    fn keeper(&self, alloc: Global) -> Result<SqlKeeper<MemStore>, Fail> {
        match SqlKeeper::create(Connection::open_in_memory(alloc)?) {
            Ok(keeper) => Ok(keeper),
            Err((fault, _)) => Err(Fail::from(fault)),
        }
    }

    fn restarted(
        &self,
        alloc: Global,
        keeper: SqlKeeper<MemStore>,
    ) -> Result<SqlKeeper<MemStore>, Fail> {
        let store = stopped(keeper.into_connection())?;
        Ok(SqlKeeper::open(connected(alloc, store)?))
    }

    fn may_fail(&self) -> bool {
        true
    }
}

/// Stops a store in the middle of whatever is under way, and opens it again.
pub fn stopped<S: Alter + Reopen + Drop>(conn: Connection<S>) -> Result<S, Fail>
    ensures fresh { IfOk result (λ store. IsClean (S.Store.view store) → IsFresh (S.Store.view store)) }
{
    let mut store = conn.into_store();
    store.crash_and_reopen()?;
    Ok(store)
}

/// Opens a database over a store that was opened just now.
pub fn connected<S: Alter + Drop>(alloc: Global, store: S) -> Result<Connection<S>, Fail>
    requires { IsClean (S.Store.view store) → IsFresh (S.Store.view store) }
    ensures idle { IfOk result (λ conn. conn.in_transaction ≡ false) }
{
    match Connection::over(alloc, store) {
        Ok(conn) => Ok(conn),
        Err((error, _)) => Err(Fail::from(error)),
    }
}
