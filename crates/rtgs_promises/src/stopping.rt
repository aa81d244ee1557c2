//! A stop of a desk, and its opening again.
ghost use Rattle.std.specs.Prelude.{◌≡◌, true, false, IfOk, IfErr, IsTrue};
ghost use Rattle.sqlite.specs.Held.{state};
ghost use Rattle.sqlite.specs.State.{HasCleanDisk};
ghost use Rattle.sqlite.specs.Steps.{IsFresh};
ghost use Rattle.sqlite.specs.Tree.{Trees};
ghost use Rattle.sqlite_trees.specs.View.{IsClean};
ghost use Rattle.rtgs_book.specs.declared.book.Book.{Book};
ghost use Rattle.rtgs_book.specs.Calm.{IsCalm};
ghost use Rattle.rtgs_desk.specs.Holding.{Holds};
ghost use Rattle.rtgs_promises.specs.Headline.{IsForced};
ghost use Rattle.rtgs_promises.specs.Stops.{IsUnopened, LeavesCalm, LeavesNoMore};
ghost use Rattle.rtgs_book_file.specs.stored_desk.Stored.{AreTablesOf};

use crate::sessions::{NoSession, Stop};
use rtgs_book::Fault;
use rtgs_book_file::stored_desk::open;
use rtgs_desk::Desk;
use rtgs_keeper::Keeper;
use rtgs_tables::SqlKeeper;
use sqlite::{Alter, Connection, Error};
use sqlite_trees::error::StoreError;
use sqlite_trees::store::{Reopen, Store};
use std::alloc::Global;

/// The store under a desk.
pub(crate) fn store_of<S: Alter + Drop>(desk: Desk<SqlKeeper<S>>) -> S
    ensures { LeavesNoMore S.Store desk.keeper.conn.store result }
{
    desk.into_keeper().into_connection().into_store()
}

// Whether a store is released as it is: where it is to end in order, and works.
fn is_let_go<S: Alter>(store: &S, stop: Stop) -> bool
    ensures { result ≡ true → IsClean (S.Store.view store.now) → (S.Store.view store.now).is_broken ≡ false }
{
    match stop {
        Stop::Crash => false,
        Stop::Close => !store.is_broken(),
    }
}

// Stops a store. It then has what a crash could leave.
fn stopped<S: Alter + Reopen + Drop>(conn: Connection<S>, stop: Stop) -> Result<S, (StoreError, S)>
    ensures fresh { IfOk result (λ store. IsClean (S.Store.view store) → IsFresh (S.Store.view store)) }
    ensures left { IfOk result (λ store. IsClean (S.Store.view store)
        → (state S.Store conn).may_leave (S.Store.view store).trees) }
    ensures ok { IfOk result (λ store. LeavesNoMore S.Store conn.store store) }
    ensures err { IfErr result (λ (_, store). LeavesNoMore S.Store conn.store store) }
{
    let mut store = conn.into_store();
    if is_let_go(&store, stop) {
        return Ok(store);
    }
    match store.crash_and_reopen() {
        Ok(()) => Ok(store),
        Err(error) => Err((error, store)),
    }
}

// Opens a database over a store that was opened just now.
fn connected<S: Alter + Drop>(alloc: Global, store: S) -> Result<Connection<S>, (Error, S)>
    requires { IsClean (S.Store.view store) → IsFresh (S.Store.view store) }
    ensures idle { IfOk result (λ conn. conn.in_transaction ≡ false) }
    ensures opens { IfOk result (λ conn. HasCleanDisk (state S.Store conn) → IsTrue (state S.Store conn).is_open) }
    ensures found { IfOk result (λ conn. HasCleanDisk (state S.Store conn)
        → (state S.Store conn).committed.trees ≡ (S.Store.view store).trees) }
    ensures honest { IfOk result (λ conn. HasCleanDisk (state S.Store conn) → IsClean (S.Store.view store)) }
    ensures err { IfErr result (λ (_, left). LeavesNoMore S.Store store left) }
{
    // The contract is by cases of the result, and the prover sees them where it is taken apart.
    match Connection::over(alloc, store) {
        Ok(conn) => Ok(conn),
        Err((error, left)) => Err((error, left)),
    }
}

/// Opens a desk over the tables of a database. The book that it then holds is calm. Where none opens, the store comes
/// back.
pub(crate) fn opened<S: Alter + Drop>(
    alloc: Global,
    conn: Connection<S>,
) -> Result<Desk<SqlKeeper<S>>, (Fault, S)>
    requires { conn.in_transaction ≡ false }
    ensures held { IfOk result (λ desk. HasCleanDisk (state S.Store desk.keeper.conn)
        → IsTrue (state S.Store conn).is_open
        → (book : Book) → AreTablesOf book (state S.Store conn).committed.trees
        → Holds ⟦<SqlKeeper<S> as Keeper>⟧ desk book × IsCalm book) }
    ensures honest { IfOk result (λ desk. HasCleanDisk (state S.Store desk.keeper.conn)
        → HasCleanDisk (state S.Store conn)) }
    ensures refused { IfErr result (λ (fault, left). IsClean (S.Store.view left) → IsTrue (state S.Store conn).is_open
        → IsUnopened (state S.Store conn) fault (S.Store.recovers left)) }
    ensures back { IfErr result (λ (_, left). IsClean (S.Store.view left) → HasCleanDisk (state S.Store conn)) }
{
    match open(alloc, conn) {
        Ok(desk) => {
            desk.holds_a_sound_book();
            Ok(desk)
        }
        Err((fault, keeper)) => Err((fault, keeper.into_connection().into_store())),
    }
}

/// Stops a desk, and opens it again over what the stop left. Where that fails, the store comes back.
pub(crate) fn found_again<S: Alter + Reopen + Drop>(
    alloc: Global,
    desk: Desk<SqlKeeper<S>>,
    stop: Stop,
) -> Result<Desk<SqlKeeper<S>>, (NoSession, S)>
    ensures found { IfOk result (λ next. HasCleanDisk (state S.Store next.keeper.conn)
        → (trees : Trees) × (state S.Store desk.keeper.conn).may_leave trees
        × ((book : Book) → AreTablesOf book trees → Holds ⟦<SqlKeeper<S> as Keeper>⟧ next book)) }
    ensures honest { IfOk result (λ next. HasCleanDisk (state S.Store next.keeper.conn)
        → HasCleanDisk (state S.Store desk.keeper.conn)) }
    ensures lost { IfErr result (λ (_, left). LeavesNoMore S.Store desk.keeper.conn.store left) }
    ensures cause { IfErr result (λ (cause, left). IsClean (S.Store.view left)
        → LeavesCalm (state S.Store desk.keeper.conn).may_leave → IsForced cause) }
{
    let store = match stopped(desk.into_keeper().into_connection(), stop) {
        Ok(store) => store,
        Err((error, left)) => return Err((NoSession::NotReopened(error), left)),
    };
    let conn = match connected(alloc, store) {
        Ok(conn) => conn,
        Err((error, left)) => return Err((NoSession::NotConnected(error), left)),
    };
    match opened(alloc, conn) {
        Ok(next) => Ok(next),
        Err((fault, left)) => Err((NoSession::NoDesk(fault), left)),
    }
}
