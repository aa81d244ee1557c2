//! A database in memory with the tables of a new book.
ghost use Rattle.std.specs.Prelude.{◌≡◌, false, IfOk, IfErr, IsTrue};
ghost use Rattle.sqlite.specs.Held.{state};
ghost use Rattle.sqlite.specs.Steps.{over_memory, IsEmpty};
ghost use Rattle.rtgs_book.specs.Books.{new_book};
ghost use Rattle.rtgs_promises.specs.Headline.{IsForced};
ghost use Rattle.rtgs_book_file.specs.stored_desk.Stored.{AreTablesOf};

use crate::making::tables_made;
use crate::sessions::{NoSession, Unfinished};
use rtgs_book::{Refusal, WholeAnswer};
use sqlite::{Connection, MemStore};
use std::alloc::Global;

// An empty database in memory.
fn empty_in_memory(alloc: Global) -> Result<Connection<MemStore>, NoSession>
    ensures empty { IfOk result (λ conn. IsEmpty (state over_memory conn)) }
    ensures idle { IfOk result (λ conn. conn.in_transaction ≡ false) }
    ensures cause { IfErr result IsForced }
{
    match Connection::open_in_memory(alloc) {
        Ok(conn) => Ok(conn),
        Err(_) => Err(NoSession::OutOfMemory),
    }
}

/// A database in memory with the tables of a new book.
pub(crate) fn made_in_memory(alloc: Global) -> Result<Connection<MemStore>, NoSession>
    ensures held { IfOk result (λ made. IsTrue (state over_memory made).is_open
        × AreTablesOf new_book (state over_memory made).committed.trees) }
    ensures idle { IfOk result (λ made. made.in_transaction ≡ false) }
    ensures cause { IfErr result IsForced }
{
    let conn = empty_in_memory(alloc)?;
    match tables_made(alloc, conn) {
        Ok(made) => Ok(made),
        Err(unfinished) => {
            let Unfinished {
                said: _,
                cause,
                store: _,
            } = unfinished;
            Err(cause)
        }
    }
}

/// The replies of sessions in memory that ended early, and why there were no more.
pub(crate) fn told(
    unfinished: Unfinished<MemStore>,
) -> (Vec<Vec<Result<WholeAnswer, Refusal>>>, NoSession)
    ensures { (result.0 ≡ unfinished.said) × (result.1 ≡ unfinished.cause) }
{
    let Unfinished {
        said,
        cause,
        store: _,
    } = unfinished;
    (said, cause)
}
