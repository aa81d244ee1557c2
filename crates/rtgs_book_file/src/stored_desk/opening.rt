//! The desk over tables.
ghost use Rattle.std.specs.Prelude.{◌≡◌, ◌≢◌, true, false, Err, IsTrue, IfOk, IfErr};
ghost use Rattle.sqlite.specs.Held.{state};
ghost use Rattle.sqlite.specs.State.{HasCleanDisk};
ghost use Rattle.rtgs_book.specs.Books.{new_book};
ghost use Rattle.rtgs_desk.specs.Holding.{Holds};
ghost use Rattle.rtgs_rows.specs.Tables.{no_schema};
ghost use Rattle.rtgs_tables.specs.Building.{IsBlank};
ghost use Rattle.rtgs_book_file.specs.stored_desk.Stored.{IsAtRest, IsOver, IsRefused, IsUnmade};

use crate::stored_desk::new_book::make;
use rtgs_book::Fault;
use rtgs_desk::Desk;
use rtgs_keeper::Keeper;
use rtgs_rows::laws::{no_tables_are_read_as_none, tables_of_a_desk_are_read_as_such};
use rtgs_tables::SqlKeeper;
use sqlite::{Alter, Connection};
use std::alloc::Global;

/// Makes the tables of a new book in an empty database, and opens the desk over them. On a fault, which is lack of
/// memory or the store's, the connection comes back, and the database is empty or has all tables of the new book. A
/// database that has tables already is left alone.
pub fn create<S: Alter + Drop>(
    alloc: Global,
    conn: Connection<S>,
) -> Result<Desk<SqlKeeper<S>>, (Fault, Connection<S>)>
    requires { conn.in_transaction ≡ false }
    ensures made { IfOk result (λ desk. HasCleanDisk (state S.Store desk.keeper.conn) → IsBlank (state S.Store conn)
        → Holds ⟦<SqlKeeper<S> as Keeper>⟧ desk new_book) }
    ensures refused { IfErr result (λ (fault, left). HasCleanDisk (state S.Store left) → IsBlank (state S.Store conn)
        → IsUnmade fault (state S.Store left)) }
    ensures taken { (state S.Store conn).now.schema ≢ no_schema → result ≡ Err (Fault.NotADeskFile, conn) }
    ensures idle { IfErr result (λ (_, left). left.in_transaction ≡ false) }
{
    match make(conn) {
        Ok(made) => match open(alloc, made) {
            Ok(desk) => Ok(desk),
            Err((fault, keeper)) => Err((fault, keeper.into_connection())),
        },
        Err(unmade) => Err(unmade),
    }
}

/// Opens the desk over the tables of a database. The tables stay as they were found, and on a fault the keeper comes
/// back: a fault of the store is answered only where the keeper has failed.
pub fn open<S: Alter + Drop>(
    alloc: Global,
    conn: Connection<S>,
) -> Result<Desk<SqlKeeper<S>>, (Fault, SqlKeeper<S>)>
    requires { conn.in_transaction ≡ false }
    ensures opened { IfOk result (λ desk. HasCleanDisk (state S.Store desk.keeper.conn)
        → IsTrue (state S.Store conn).is_open
        → IsOver ⟦<SqlKeeper<S> as Keeper>⟧ (state S.Store conn) desk (state S.Store desk.keeper.conn)) }
    ensures refused { IfErr result (λ (fault, left). HasCleanDisk (state S.Store left.conn)
        → IsTrue (state S.Store conn).is_open → IsRefused (state S.Store conn) fault (state S.Store left.conn)) }
    ensures honest { IfOk result (λ desk. HasCleanDisk (state S.Store desk.keeper.conn)
        → HasCleanDisk (state S.Store conn)) }
    ensures back { IfErr result (λ (_, left). HasCleanDisk (state S.Store left.conn)
        → HasCleanDisk (state S.Store conn)) }
    ensures fault { IfErr result (λ (fault, left). fault ≡ Fault.StoreFault
        → ⟦<SqlKeeper<S> as Keeper>⟧.has_failed left ≡ true) }
    ensures only_fault { IfErr result (λ (fault, left). fault ≢ Fault.StoreFault
        → ⟦<SqlKeeper<S> as Keeper>⟧.has_failed left ≡ false) }
{
    rests(&conn);
    desk_over(alloc, SqlKeeper::open(conn))
}

/// Outside a transaction a store that is open shows what it has committed, and reads it by its own schema.
pub(in crate::stored_desk) fn rests<S: Alter>(conn: &Connection<S>)
    requires { conn.now.in_transaction ≡ false }
    ensures { IsTrue (state S.Store conn.now).is_open → IsAtRest (state S.Store conn.now) }
{
    // Both calls are for their contracts alone.
    conn.is_autocommit();
    conn.schema();
}

// The desk over a keeper whose connection is at rest.
fn desk_over<S: Alter + Drop>(
    alloc: Global,
    keeper: SqlKeeper<S>,
) -> Result<Desk<SqlKeeper<S>>, (Fault, SqlKeeper<S>)>
    ensures opened { IfOk result (λ desk. HasCleanDisk (state S.Store desk.keeper.conn)
        → IsAtRest (state S.Store keeper.conn)
        → IsOver ⟦<SqlKeeper<S> as Keeper>⟧ (state S.Store keeper.conn) desk (state S.Store desk.keeper.conn)) }
    ensures refused { IfErr result (λ (fault, left). HasCleanDisk (state S.Store left.conn)
        → IsAtRest (state S.Store keeper.conn) → IsRefused (state S.Store keeper.conn) fault
        (state S.Store left.conn)) }
    ensures honest { IfOk result (λ desk. HasCleanDisk (state S.Store desk.keeper.conn)
        → HasCleanDisk (state S.Store keeper.conn)) }
    ensures back { IfErr result (λ (_, left). HasCleanDisk (state S.Store left.conn)
        → HasCleanDisk (state S.Store keeper.conn)) }
    ensures fault { IfErr result (λ (fault, left). fault ≡ Fault.StoreFault
        → ⟦<SqlKeeper<S> as Keeper>⟧.has_failed left ≡ true) }
    ensures only_fault { IfErr result (λ (fault, left). fault ≢ Fault.StoreFault
        → ⟦<SqlKeeper<S> as Keeper>⟧.has_failed left ≡ ⟦<SqlKeeper<S> as Keeper>⟧.has_failed keeper) }
{
    tables_of_a_desk_are_read_as_such();
    no_tables_are_read_as_none();
    match Desk::open(alloc, keeper) {
        Ok(desk) => {
            desk.holds_a_sound_book();
            Ok(desk)
        }
        Err((fault, keeper)) => Err((fault, keeper)),
    }
}
