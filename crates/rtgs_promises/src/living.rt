//! The beginning of sessions with a desk, and their end for lack of memory.
ghost use Rattle.std.specs.Prelude.{◌≡◌, ◌≤◌, false, List, [], length, map, vec_capacity, IfOk, IfErr, IsTrue};
ghost use Rattle.sqlite.specs.Held.{state};
ghost use Rattle.sqlite.specs.State.{HasCleanDisk};
ghost use Rattle.sqlite_trees.specs.View.{IsClean};
ghost use Rattle.rtgs_book.specs.declared.book.Book.{Book};
ghost use Rattle.rtgs_book.specs.declared.command.Command.{Command};
ghost use Rattle.rtgs_book.specs.Calm.{IsCalm};
ghost use Rattle.rtgs_desk.specs.Holding.{Holds};
ghost use Rattle.rtgs_promises.specs.Headline.{EndsEarly};
ghost use Rattle.rtgs_promises.specs.Stops.{LeavesTables};
ghost use Rattle.rtgs_book_file.specs.stored_desk.Stored.{AreTablesOf};

use crate::books::{each_resolution_settles_the_greatest_choice, nothing_settles_early};
use crate::desks::tables_are_exactly_the_book;
use crate::sessions::{NoSession, Unfinished};
use crate::stopping::{opened, store_of};
use rtgs_book::{Refusal, WholeAnswer};
use rtgs_desk::Desk;
use rtgs_keeper::Keeper;
use rtgs_laws::repeats::laws::life_is_a_run;
use rtgs_rows::laws::stored_balances_are_the_postings;
use rtgs_tables::SqlKeeper;
use sqlite::{Alter, Connection};
use std::alloc::Global;

/// Opens a desk, and has room for the replies of this many sessions.
pub(crate) fn begun<S: Alter + Drop>(
    alloc: Global,
    conn: Connection<S>,
    count: usize,
) -> Result<(Vec<Vec<Result<WholeAnswer, Refusal>>>, Desk<SqlKeeper<S>>), Unfinished<S>>
    requires { conn.in_transaction ≡ false }
    ensures none { IfOk result (λ (said, _). (said.items ≡ []) × (count ≤ vec_capacity said)) }
    ensures held { IfOk result (λ (_, desk). HasCleanDisk (state S.Store desk.keeper.conn)
        → IsTrue (state S.Store conn).is_open
        → (book : Book) → AreTablesOf book (state S.Store conn).committed.trees
        → Holds ⟦<SqlKeeper<S> as Keeper>⟧ desk book × IsCalm book) }
    ensures honest { IfOk result (λ (_, desk). HasCleanDisk (state S.Store desk.keeper.conn)
        → HasCleanDisk (state S.Store conn)) }
    ensures ended { IfErr result (λ it. IsClean (S.Store.view it.store) → IsTrue (state S.Store conn).is_open
        → (start : Book) → AreTablesOf start (state S.Store conn).committed.trees → IsCalm start
        → (given : List (List Command))
        → EndsEarly start given (map (λ replies. replies.items) it.said.items) it.cause (S.Store.recovers it.store)) }
    ensures back { IfErr result (λ it. IsClean (S.Store.view it.store) → HasCleanDisk (state S.Store conn)) }
{
    life_is_a_run();
    each_resolution_settles_the_greatest_choice();
    nothing_settles_early();
    stored_balances_are_the_postings();
    let none = Vec::new(alloc);
    let desk = match opened(alloc, conn) {
        Ok(desk) => desk,
        Err((fault, store)) => {
            return Err(Unfinished {
                said: none,
                cause: NoSession::NoDesk(fault),
                store,
            });
        }
    };
    match Vec::with_capacity(alloc, count) {
        Ok(said) => Ok((said, desk)),
        Err(_) => Err(Unfinished {
            said: none,
            cause: NoSession::OutOfMemory,
            store: abandoned(desk),
        }),
    }
}

/// The store of a desk that is abandoned. A crash leaves the tables of its book.
pub(crate) fn abandoned<S: Alter + Drop>(desk: Desk<SqlKeeper<S>>) -> S
    ensures tables { IsClean (S.Store.view result) → (book : Book)
        → Holds ⟦<SqlKeeper<S> as Keeper>⟧ desk book → LeavesTables book (S.Store.recovers result) }
    ensures honest { IsClean (S.Store.view result) → HasCleanDisk (state S.Store desk.keeper.conn) }
{
    tables_are_exactly_the_book(&desk);
    store_of(desk)
}
