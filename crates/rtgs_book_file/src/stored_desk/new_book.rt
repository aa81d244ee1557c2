//! The tables of a new book.
ghost use Rattle.std.specs.Prelude.{◌≡◌, ◌≢◌, ◌↔◌, false, Err, IsTrue, IfOk, IfErr};
ghost use Rattle.sqlite.specs.Held.{state};
ghost use Rattle.sqlite.specs.State.{HasCleanDisk};
ghost use Rattle.rtgs_book.specs.Books.{new_book};
ghost use Rattle.rtgs_rows.specs.Keeping.{HoldsBook};
ghost use Rattle.rtgs_rows.specs.Tables.{no_schema};
ghost use Rattle.rtgs_tables.specs.Building.{IsBlank, StaysBlank};
ghost use Rattle.rtgs_book_file.specs.stored_desk.Stored.{IsMade, IsUnmade};

use rtgs_book::Fault;
use rtgs_rows::laws::first_rows_are_the_new_book;
use rtgs_tables::{SqlKeeper, fault_of_commit};
use sqlite::{Alter, Connection};

/// Makes the tables of a new book in an empty database, in one transaction. On a fault, which is lack of memory or the
/// store's, the connection comes back: lack of memory leaves the database empty, and a fault of the store leaves it
/// empty or with all tables of the new book. A database that has tables already is no desk's to be, and is left alone.
pub fn make<S: Alter + Drop>(conn: Connection<S>) -> Result<Connection<S>, (Fault, Connection<S>)>
    requires { conn.in_transaction ≡ false }
    ensures made { IfOk result (λ made. HasCleanDisk (state S.Store made) → IsBlank (state S.Store conn)
        → HoldsBook S.Store made new_book) }
    ensures stops { IfOk result (λ made. IsMade (state S.Store conn) (state S.Store made)) }
    ensures refused { IfErr result (λ (fault, left). HasCleanDisk (state S.Store left) → IsBlank (state S.Store conn)
        → IsUnmade fault (state S.Store left)) }
    ensures memory { IfErr result (λ (fault, left). fault ≡ Fault.OutOfMemory → HasCleanDisk (state S.Store left)
        → IsBlank (state S.Store conn) → StaysBlank (state S.Store left)) }
    ensures taken { (state S.Store conn).now.schema ≢ no_schema → result ≡ Err (Fault.NotADeskFile, conn) }
    ensures honest { IfErr result (λ (_, left). HasCleanDisk (state S.Store left) → HasCleanDisk (state S.Store conn)) }
    ensures idle { IfOk result (λ made. made.in_transaction ≡ false)
        × IfErr result (λ (_, left). left.in_transaction ≡ false) }
{
    if !has_no_tables(&conn) {
        return Err((Fault::NotADeskFile, conn));
    }
    first_rows_are_the_new_book();
    match SqlKeeper::create(conn) {
        Ok(keeper) => Ok(keeper.into_connection()),
        Err((fault, conn)) => Err((fault_of_commit(fault), conn)),
    }
}

// Whether a database has no table, index or view.
fn has_no_tables<S: Alter>(conn: &Connection<S>) -> bool
    ensures { IsTrue result ↔ ((state S.Store conn.now).now.schema ≡ no_schema) }
{
    let schema = conn.schema();
    schema.tables.is_empty() && schema.indexes.is_empty() && schema.views.is_empty()
}
