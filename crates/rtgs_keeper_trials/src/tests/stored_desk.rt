//! A desk over tables: made, used, stopped, and found again with the book of what it answered.
ghost use Rattle.std.specs.Prelude.{◌≡◌, false, IfOk, IsTrue};
ghost use Rattle.sqlite.specs.Held.{state};
ghost use Rattle.sqlite.specs.State.{HasCleanDisk};
ghost use Rattle.sqlite.specs.Steps.{IsFresh};
ghost use Rattle.sqlite.specs.Tree.{Trees};
ghost use Rattle.sqlite_trees.specs.View.{IsClean};
ghost use Rattle.rtgs_book.specs.declared.book.Book.{Book};
ghost use Rattle.rtgs_book.specs.Books.{new_book};
ghost use Rattle.rtgs_book.specs.Session.{IsSession};
ghost use Rattle.rtgs_desk.specs.Holding.{Holds};
ghost use Rattle.rtgs_tables.specs.Building.{IsBlank};
ghost use Rattle.rtgs_keeper_trials.specs.Lives.{AreTwoSessions};
ghost use Rattle.rtgs_book_file.specs.stored_desk.Stored.{AreTablesOf};

use super::found::standings;
use rtgs_book::laws::new_book_is_sound;
use rtgs_book::{Answer, Command, Fault, Resolution, WholeAnswer};
use rtgs_book_file::stored_desk::{create, make, open, run};
use rtgs_desk::Desk;
use rtgs_keeper::Keeper;
use rtgs_laws::repeats::laws::life_is_a_run;
use rtgs_tables::SqlKeeper;
use rtgs_tests_desks::{BANKS, Reply, command, commands};
use sqlite::{Alter, Connection, MemStore};
use sqlite_trees::store::Reopen;
use std::alloc::Global;
use std::test::Fail;

// Stops a store in the middle of whatever is under way: what it then has is something that a stop could leave.
fn stopped<S: Alter + Reopen + Drop>(conn: Connection<S>) -> Result<S, Fail>
    ensures fresh { IfOk result (λ store. IsClean (S.Store.view store) → IsFresh (S.Store.view store)) }
    ensures left { IfOk result (λ store. IsClean (S.Store.view store)
        → (state S.Store conn).may_leave (S.Store.view store).trees) }
    ensures honest { IfOk result (λ store. IsClean (S.Store.view store) → HasCleanDisk (state S.Store conn)) }
{
    let mut store = conn.into_store();
    store.crash_and_reopen()?;
    Ok(store)
}

// Opens a database over a store that was opened just now.
fn connected<S: Alter + Drop>(alloc: Global, store: S) -> Result<Connection<S>, Fail>
    requires { IsClean (S.Store.view store) → IsFresh (S.Store.view store) }
    ensures idle { IfOk result (λ conn. conn.in_transaction ≡ false) }
    ensures opens { IfOk result (λ conn. HasCleanDisk (state S.Store conn) → IsTrue (state S.Store conn).is_open) }
    ensures found { IfOk result (λ conn. HasCleanDisk (state S.Store conn)
        → (state S.Store conn).committed.trees ≡ (S.Store.view store).trees) }
    ensures honest { IfOk result (λ conn. HasCleanDisk (state S.Store conn) → IsClean (S.Store.view store)) }
{
    match Connection::over(alloc, store) {
        Ok(conn) => Ok(conn),
        Err((error, _)) => Err(Fail::from(error)),
    }
}

// Opens a desk over the tables of a database.
fn opened<S: Alter + Drop>(alloc: Global, conn: Connection<S>) -> Result<Desk<SqlKeeper<S>>, Fail>
    requires { conn.in_transaction ≡ false }
    ensures held { IfOk result (λ desk. HasCleanDisk (state S.Store desk.keeper.conn)
        → IsTrue (state S.Store conn).is_open
        → (book : Book) → AreTablesOf book (state S.Store conn).committed.trees
        → Holds ⟦<SqlKeeper<S> as Keeper>⟧ desk book) }
    ensures honest { IfOk result (λ desk. HasCleanDisk (state S.Store desk.keeper.conn)
        → HasCleanDisk (state S.Store conn)) }
{
    match open(alloc, conn) {
        Ok(desk) => Ok(desk),
        Err((fault, _)) => Err(Fail::from(fault)),
    }
}

// Stops a desk, and opens it again over what the stop left.
fn found_again<S: Alter + Reopen + Drop>(
    alloc: Global,
    desk: Desk<SqlKeeper<S>>,
) -> Result<Desk<SqlKeeper<S>>, Fail>
    ensures found { IfOk result (λ next. HasCleanDisk (state S.Store next.keeper.conn)
        → (trees : Trees) × (state S.Store desk.keeper.conn).may_leave trees
        × ((book : Book) → AreTablesOf book trees → Holds ⟦<SqlKeeper<S> as Keeper>⟧ next book)) }
    ensures honest { IfOk result (λ next. HasCleanDisk (state S.Store next.keeper.conn)
        → HasCleanDisk (state S.Store desk.keeper.conn)) }
{
    let store = stopped(desk.into_keeper().into_connection())?;
    let conn = connected(alloc, store)?;
    opened(alloc, conn)
}

// Makes a desk in an empty database.
fn created<S: Alter + Drop>(alloc: Global, conn: Connection<S>) -> Result<Desk<SqlKeeper<S>>, Fail>
    requires { conn.in_transaction ≡ false }
    ensures { IfOk result (λ desk. HasCleanDisk (state S.Store desk.keeper.conn) → IsBlank (state S.Store conn)
        → Holds ⟦<SqlKeeper<S> as Keeper>⟧ desk new_book) }
{
    match create(alloc, conn) {
        Ok(desk) => Ok(desk),
        Err((fault, _)) => Err(Fail::from(fault)),
    }
}

// Does commands, stops the desk, and opens it again: it then holds a book that the session of those commands may leave.
fn session<S: Alter + Reopen + Drop>(
    alloc: Global,
    desk: Desk<SqlKeeper<S>>,
    commands: &[Command],
) -> Result<(Vec<Reply>, Desk<SqlKeeper<S>>), Fail>
    ensures found { IfOk result (λ (replies, next). HasCleanDisk (state S.Store next.keeper.conn) → (book : Book)
        → Holds ⟦<SqlKeeper<S> as Keeper>⟧ desk book
        → (found : Book) × Holds ⟦<SqlKeeper<S> as Keeper>⟧ next found × IsSession (record {
          start = book;
          commands = commands.now;
          replies = replies.items;
          found = found;
        })) }
    ensures honest { IfOk result (λ (_, next). HasCleanDisk (state S.Store next.keeper.conn)
        → HasCleanDisk (state S.Store desk.keeper.conn)) }
{
    let mut desk = desk;
    let replies = run(&mut desk, commands)?;
    let next = found_again(alloc, desk)?;
    Ok((replies, next))
}

// Makes a desk in an empty database, and has one session with it.
fn lived<S: Alter + Reopen + Drop>(
    alloc: Global,
    conn: Connection<S>,
    commands: &[Command],
) -> Result<(Vec<Reply>, Desk<SqlKeeper<S>>), Fail>
    requires { conn.in_transaction ≡ false }
    ensures { IfOk result (λ (replies, desk). HasCleanDisk (state S.Store desk.keeper.conn)
        → IsBlank (state S.Store conn)
        → (found : Book) × Holds ⟦<SqlKeeper<S> as Keeper>⟧ desk found × IsSession (record {
          start = new_book;
          commands = commands.now;
          replies = replies.items;
          found = found;
        })) }
{
    let desk = created(alloc, conn)?;
    let (replies, next) = session(alloc, desk, commands)?;
    Ok((replies, next))
}

// Makes a desk in an empty database, and has two sessions with it, of which a stop ends each. They are a life: the book
// found in the end is that of one list of commands, which has every answered command of both in order with its reply,
// and of each at most the one more that nobody heard of.
fn lived_twice<S: Alter + Reopen + Drop>(
    alloc: Global,
    conn: Connection<S>,
    commands: &[Command],
    more: &[Command],
) -> Result<(Vec<Reply>, Vec<Reply>, Desk<SqlKeeper<S>>), Fail>
    requires { conn.in_transaction ≡ false }
    ensures { IfOk result (λ (replies, others, desk). HasCleanDisk (state S.Store desk.keeper.conn)
        → IsBlank (state S.Store conn)
        → (found : Book) × Holds ⟦<SqlKeeper<S> as Keeper>⟧ desk found
        × AreTwoSessions commands.now replies.items more.now others.items found) }
{
    life_is_a_run();
    new_book_is_sound();
    let (replies, desk) = lived(alloc, conn, commands)?;
    let (others, last) = session(alloc, desk, more)?;
    Ok((replies, others, last))
}

// The same in memory, where no premise is left.
fn lived_twice_in_memory(
    alloc: Global,
    commands: &[Command],
    more: &[Command],
) -> Result<(Vec<Reply>, Vec<Reply>, Desk<SqlKeeper<MemStore>>), Fail>
    ensures { IfOk result (λ (replies, others, desk). (found : Book)
        × Holds ⟦<SqlKeeper<MemStore> as Keeper>⟧ desk found
        × AreTwoSessions commands.now replies.items more.now others.items found) }
{
    lived_twice(alloc, Connection::open_in_memory(alloc)?, commands, more)
}

// Fails unless there was a life, and the replies to four commands and then to a posting to BETA, and the desk, are as
// they should be.
fn ends_so<K: Keeper + Drop>(
    lived: Result<(Vec<Reply>, Vec<Reply>, Desk<K>), Fail>,
) -> Result<(), Fail> {
    // Names the type of resolutions for the borrow checker, which finds it nowhere else in this function.
    let _none: Option<Resolution> = None;
    let (replies, others, desk) = lived?;
    let posted: Reply = Ok(WholeAnswer {
        own: Answer::Posted { number: 2 },
        auto: None,
    });
    let are_posted = others.as_slice() == [posted].as_slice();
    let are_standing = standings(&desk)? == [(1000, 0), (5, 0), (0, 0)];
    if replies.len() == 4 && are_posted && are_standing {
        Ok(())
    } else {
        Err(Fail::new("other replies, or another end"))
    }
}

// Why no desk is opened over this database. A desk that is opened and has failed counts as a fault of the store, and
// where one is opened that works there is no fault.
fn fault_of_opening<S: Alter + Drop>(alloc: Global, conn: Connection<S>) -> Option<Fault>
    requires { conn.in_transaction ≡ false }
{
    match open(alloc, conn) {
        Ok(desk) => {
            if desk.failed() {
                Some(Fault::StoreFault)
            } else {
                None
            }
        }
        Err((fault, _)) => Some(fault),
    }
}

// The same over tables that are made in this database.
fn fault_over_made_tables<S: Alter + Drop>(
    alloc: Global,
    conn: Connection<S>,
) -> Result<Option<Fault>, Fail>
    requires { conn.in_transaction ≡ false }
{
    match make(conn) {
        Ok(made) => Ok(fault_of_opening(alloc, made)),
        Err((fault, _)) => Err(Fail::from(fault)),
    }
}

// What is attempted over a new database.
enum Attempt<'a> {
    // two sessions of these commands, which have to end as they should
    Life(&'a [Command], &'a [Command]),
    // a desk is opened over tables that are made, or over none
    Opening { is_made: bool },
}

// Why no desk is opened where this is attempted in memory. Only here and in `lived_twice_in_memory` stands the type of
// a database in memory.
fn fault_in_memory(alloc: Global, attempt: Attempt<'_>) -> Result<Option<Fault>, Fail> {
    match attempt {
        Attempt::Life(commands, more) => {
            ends_so(lived_twice_in_memory(alloc, commands, more))?;
            Ok(None)
        }
        Attempt::Opening { is_made } => {
            let conn = Connection::open_in_memory(alloc)?;
            if is_made {
                fault_over_made_tables(alloc, conn)
            } else {
                Ok(fault_of_opening(alloc, conn))
            }
        }
    }
}

// Fails unless this is the fault that is expected, or none is met and none is expected.
fn is_as_expected(met: Option<Fault>, expected: Option<Fault>) -> Result<(), Fail> {
    if met == expected {
        Ok(())
    } else {
        Err(Fail::new("another fault, or none"))
    }
}

// The banks and a posting, and then another one.
#[test]
fn a_desk_is_found_again_and_again(rt: HostRuntime) -> Result<(), Fail> {
    let mut first = commands(rt.alloc(), BANKS)?;
    first.push(command("post ALFA P-1 1000")?)?;
    let more = commands(rt.alloc(), "post BETA P-2 5")?;
    let life = Attempt::Life(first.as_slice(), more.as_slice());
    is_as_expected(fault_in_memory(rt.alloc(), life)?, None)
}

#[test]
fn a_desk_is_opened_over_tables_that_were_made(rt: HostRuntime) -> Result<(), Fail> {
    let fault = fault_in_memory(rt.alloc(), Attempt::Opening { is_made: true })?;
    is_as_expected(fault, None)
}

#[test]
fn an_empty_database_is_no_desk(rt: HostRuntime) -> Result<(), Fail> {
    let fault = fault_in_memory(rt.alloc(), Attempt::Opening { is_made: false })?;
    is_as_expected(fault, Some(Fault::NotADeskFile))
}
