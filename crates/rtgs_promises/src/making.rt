//! The tables of a new book, before the first session.
ghost use Rattle.std.specs.Prelude.{◌≡◌, false, List, map, IfOk, IfErr, IsTrue};
ghost use Rattle.sqlite.specs.Held.{state};
ghost use Rattle.sqlite.specs.State.{HasCleanDisk};
ghost use Rattle.sqlite.specs.Steps.{IsEmpty};
ghost use Rattle.sqlite_trees.specs.View.{IsClean};
ghost use Rattle.rtgs_book.specs.declared.command.Command.{Command};
ghost use Rattle.rtgs_book.specs.Books.{new_book};
ghost use Rattle.rtgs_promises.specs.Headline.{EndsEarlyAnew};
ghost use Rattle.rtgs_book_file.specs.stored_desk.Stored.{AreTablesOf};

use crate::books::{each_resolution_settles_the_greatest_choice, nothing_settles_early};
use crate::sessions::{NoSession, Unfinished};
use rtgs_book_file::stored_desk::make;
use rtgs_laws::repeats::laws::life_is_a_run;
use rtgs_rows::laws::stored_balances_are_the_postings;
use sqlite::{Alter, Connection};
use std::alloc::Global;

/// Makes the tables of a new book in an empty database. Where that fails, no session was had.
pub(crate) fn tables_made<S: Alter + Drop>(
    alloc: Global,
    conn: Connection<S>,
) -> Result<Connection<S>, Unfinished<S>>
    requires { conn.in_transaction ≡ false }
    ensures held { IfOk result (λ made. HasCleanDisk (state S.Store made) → IsEmpty (state S.Store conn)
        → IsTrue (state S.Store made).is_open × AreTablesOf new_book (state S.Store made).committed.trees) }
    ensures idle { IfOk result (λ made. made.in_transaction ≡ false) }
    ensures ended { IfErr result (λ it. IsClean (S.Store.view it.store) → IsEmpty (state S.Store conn)
        → (given : List (List Command))
        → EndsEarlyAnew given (map (λ replies. replies.items) it.said.items) it.cause (S.Store.recovers it.store)) }
{
    life_is_a_run();
    each_resolution_settles_the_greatest_choice();
    nothing_settles_early();
    stored_balances_are_the_postings();
    let none = Vec::new(alloc);
    match make(conn) {
        Ok(made) => Ok(made),
        Err((fault, left)) => Err(Unfinished {
            said: none,
            cause: NoSession::NoDesk(fault),
            store: left.into_store(),
        }),
    }
}
