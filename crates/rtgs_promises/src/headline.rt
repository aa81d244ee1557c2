//! The headline: what a desk answers and keeps over any number of sessions and stops.
//!
//! Each promise of this crate has a sentence, then its contract, and between them what a reader has to judge, as far as
//! the contract reaches it: the files in the `specs/` of each crate, and the types in those of its `src/` (`.rt`).
//!
//! "The files of a command" say what a command does to a book: rtgs_book Balance, Books, Choice, Commands, Lookup,
//! Outcome, Queue, Settle, Step, answer.rt, book.rt, command.rt, day.rt, limits.rt, mark.rt, new_day.rt, new_order.rt,
//! order.rt, order_state.rt, participant.rt, phase.rt, posting.rt, refusal.rt, rows.rt; rtgs_lists IntSum; rtgs_money
//! Date, amount.rt, cents.rt, code.rt, credit.rt, date.rt, key_digest.rt, name.rt, posting_amount.rt, reference.rt,
//! text.rt.
//!
//! What the `sqlite` crate calls a database, and what it may leave after a crash (`may_leave`), is that crate's.
ghost use Rattle.std.specs.Prelude.{◌≡◌, false, map, IfOk, IsTrue, IfErr};
ghost use Rattle.sqlite.specs.Held.{state};
ghost use Rattle.sqlite.specs.State.{HasCleanDisk};
ghost use Rattle.sqlite.specs.Steps.{IsEmpty};
ghost use Rattle.sqlite_trees.specs.View.{IsClean};
ghost use Rattle.rtgs_book.specs.Books.{new_book};
ghost use Rattle.rtgs_book.specs.Calm.{IsCalm};
ghost use Rattle.rtgs_book.specs.declared.book.Book.{Book};
ghost use Rattle.rtgs_desk.specs.Holding.{Holds};
ghost use Rattle.rtgs_promises.specs.Headline.{IsHeadline, EndsEarly, LeavesExactly, EndsEarlyAnew, LeavesRows};
ghost use Rattle.rtgs_promises.specs.Headline.{EndsEarlyInMemory};
ghost use Rattle.rtgs_book_file.specs.stored_desk.Stored.{AreTablesOf};

use crate::books::{each_resolution_settles_the_greatest_choice, nothing_settles_early};
use crate::desks::tables_are_exactly_the_book;
use crate::living::{abandoned, begun};
use crate::making::tables_made;
use crate::memory::{made_in_memory, told};
use crate::sessions::{NoSession, PlannedSession, Unfinished};
use crate::stopping::found_again;
use rtgs_book::{Refusal, WholeAnswer};
use rtgs_book_file::stored_desk::run;
use rtgs_desk::Desk;
use rtgs_keeper::Keeper;
use rtgs_laws::repeats::laws::life_is_a_run;
use rtgs_tables::SqlKeeper;
use sqlite::{Alter, Connection, MemStore};
use sqlite_trees::store::Reopen;
use std::alloc::Global;

/// **Promise 1, the headline.** A desk begins with an empty database. Whatever commands it is then given, and wherever
/// it is stopped, it answers and keeps what the definitions say:
///
/// - The answers of each session are those of the definitions' run over the commands that were answered.
/// - A stop, also a crash in the middle of a write, loses no answered command. It leaves the book to which they lead,
///   or, where the store had failed, perhaps that book after the one command in doubt, whole. So over any number of
///   sessions one list of commands leads from the new book to the last.
/// - In it each resolution, asked for or not, settled the greatest choice of queue beginnings that leaves nobody below
///   its floor, or there was nothing to settle. What was final in the first book, or in one that was found, stands in
///   each that was found later. Nothing settled before its due date, and on an automatic day nothing was left that
///   could settle.
/// - The tables have the rows of the last book and no others. Each stored balance is the sum from scratch, and
///   together these balances are what was posted.
/// - Where a session could not be had, memory ran out or the store failed. All this then holds of the sessions
///   before it, in whatever a crash leaves.
///
/// The function makes the tables, and goes on as `live`, over any store. Premises: nobody else writes the file, and
/// the disk gives back what was written to it (`HasCleanDisk`, `IsClean`); and the database was just opened and has
/// nothing in it (`IsEmpty`).
// To judge it, read these 72 files: the files of a command; rtgs_promises Headline, sessions.rt; rtgs_book Session,
// Run, Calm, Laws, Soundness, Procedure, fault.rt, cores/cores.rt, rule.rt, account.rt; rtgs_laws repeats.Lives;
// rtgs_rows Content, Keeping, Tables, Dues, Rows, forward.rt, numbers.rt, desk_row.rt, resolution_row.rt; rtgs_desk
// Seen, desk.rt; rtgs_keeper Still, keeper.rt; rtgs_records Held, Records, accounts.Accounts, queues.Orders,
// records.rt, accounts/accounts.rt, queues/orders.rt; rtgs_money Digits; rtgs_tables sql_keeper.rt; rtgs_ledger
// ledger.rt.
pub fn make_and_live<S: Alter + Reopen + Drop>(
    alloc: Global,
    conn: Connection<S>,
    sessions: &[PlannedSession],
) -> Result<(Vec<Vec<Result<WholeAnswer, Refusal>>>, Desk<SqlKeeper<S>>), Unfinished<S>>
    requires { conn.in_transaction ≡ false }
    ensures lived { IfOk result (λ (said, desk). HasCleanDisk (state S.Store desk.keeper.conn)
        → IsEmpty (state S.Store conn) → (desk.keeper.failed ≡ false)
        × ((found : Book) × LeavesRows found (state S.Store desk.keeper.conn)
        × IsHeadline new_book (map (λ session. session.commands.items) sessions.now)
        (map (λ replies. replies.items) said.items) found)) }
    ensures ended { IfErr result (λ it. IsClean (S.Store.view it.store) → IsEmpty (state S.Store conn)
        → EndsEarlyAnew (map (λ session. session.commands.items) sessions.now)
        (map (λ replies. replies.items) it.said.items) it.cause (S.Store.recovers it.store)) }
{
    let made = tables_made(alloc, conn)?;
    match live(alloc, made, sessions) {
        Ok((said, desk)) => {
            desk.holds_a_sound_book();
            Ok((said, desk))
        }
        Err(unfinished) => Err(unfinished),
    }
}

/// **Promise 1, from any book.** The same where the tables hold a book already, whichever it is: the sessions lead from
/// it to the book that the desk holds in the end. The tables hold that book exactly.
///
/// The function opens a desk, gives it the commands of a session, ends that in order, or by a crash wherever its store
/// then is (a store may fail from any call on, and so inside any write), opens it again over what this left, and so on.
// To judge it, read these 96 files: the files of a command; rtgs_promises Headline, sessions.rt; rtgs_book_file
// stored_desk.Stored; rtgs_desk Holding, Seen, desk.rt; rtgs_book Calm, Session, Run, Laws, Soundness, Procedure,
// cores.Cores, Ranges, Judgement, fault.rt, cores/cores.rt, rule.rt, account.rt; rtgs_laws repeats.Lives; rtgs_rows
// Content, Keeping, Querying, Fitting, Tables, RowLaws, Settling, TableRecords, Dues, Rows, forward.rt, numbers.rt,
// resolution_row.rt, desk_row.rt; rtgs_keeper Still, keeper.rt; rtgs_sql_columns Blank, Tables, Numbers, OneTable;
// rtgs_tables Loading, Between, sql_keeper.rt; rtgs_records Held, Records, accounts.Accounts, queues.Orders,
// records.rt, accounts/accounts.rt, queues/orders.rt; rtgs_sql_queries Records, Displaying, TableQueries;
// rtgs_sql_loading Accounts, Displaying, Joining; rtgs_money Forms, Amounts, Digits; rtgs_ledger ledger.rt.
pub fn live<S: Alter + Reopen + Drop>(
    alloc: Global,
    conn: Connection<S>,
    sessions: &[PlannedSession],
) -> Result<(Vec<Vec<Result<WholeAnswer, Refusal>>>, Desk<SqlKeeper<S>>), Unfinished<S>>
    requires { conn.in_transaction ≡ false }
    ensures lived { IfOk result (λ (said, desk). HasCleanDisk (state S.Store desk.keeper.conn)
        → IsTrue (state S.Store conn).is_open
        → (start : Book) → AreTablesOf start (state S.Store conn).committed.trees
        → (found : Book) × Holds ⟦<SqlKeeper<S> as Keeper>⟧ desk found
        × LeavesExactly found (state S.Store desk.keeper.conn)
        × IsHeadline start (map (λ session. session.commands.items) sessions.now)
        (map (λ replies. replies.items) said.items) found) }
    ensures honest { IfOk result (λ (_, desk). HasCleanDisk (state S.Store desk.keeper.conn)
        → HasCleanDisk (state S.Store conn)) }
    ensures ended { IfErr result (λ it. IsClean (S.Store.view it.store) → IsTrue (state S.Store conn).is_open
        → (start : Book) → AreTablesOf start (state S.Store conn).committed.trees → IsCalm start
        → EndsEarly start (map (λ session. session.commands.items) sessions.now)
        (map (λ replies. replies.items) it.said.items) it.cause (S.Store.recovers it.store)) }
    ensures back { IfErr result (λ it. IsClean (S.Store.view it.store) → HasCleanDisk (state S.Store conn)) }
{
    life_is_a_run();
    each_resolution_settles_the_greatest_choice();
    nothing_settles_early();
    let (mut said, mut desk) = begun(alloc, conn, sessions.len())?;
    for session in sessions {
        let replies = match run(&mut desk, session.commands.as_slice()) {
            Ok(replies) => replies,
            Err(_) => {
                return Err(Unfinished {
                    said,
                    cause: NoSession::OutOfMemory,
                    store: abandoned(desk),
                });
            }
        };
        said.push_reserved(replies);
        let next = match found_again(alloc, desk, session.stop) {
            Ok(next) => next,
            Err((cause, store)) => return Err(Unfinished { said, cause, store }),
        };
        desk = next;
    }
    tables_are_exactly_the_book(&desk);
    Ok((said, desk))
}

/// **Promise 1, in memory.** The headline over a database in memory, from the empty one: no premise is left.
///
/// Where a session could not be had, memory ran out or the store failed, and it is the headline of those before it.
// To judge it, read these 95 files: the files of a command; rtgs_promises Headline, sessions.rt; rtgs_desk Holding,
// Seen, desk.rt; rtgs_book Session, Run, Calm, Laws, Soundness, Procedure, cores.Cores, Ranges, Judgement, fault.rt,
// rule.rt, cores/cores.rt, account.rt; rtgs_laws repeats.Lives; rtgs_keeper Still, keeper.rt; rtgs_rows Keeping,
// Querying, Content, Tables, RowLaws, Settling, Fitting, TableRecords, Dues, Rows, numbers.rt, forward.rt,
// resolution_row.rt, desk_row.rt; rtgs_sql_columns Blank, Tables, Numbers, OneTable; rtgs_tables Loading, Between,
// sql_keeper.rt; rtgs_records Held, Records, accounts.Accounts, queues.Orders, records.rt, accounts/accounts.rt,
// queues/orders.rt; rtgs_sql_queries Records, Displaying, TableQueries; rtgs_sql_loading Accounts, Displaying, Joining;
// rtgs_money Amounts, Forms, Digits; rtgs_ledger ledger.rt.
pub fn live_in_memory(
    alloc: Global,
    sessions: &[PlannedSession],
) -> Result<
    (
        Vec<Vec<Result<WholeAnswer, Refusal>>>,
        Desk<SqlKeeper<MemStore>>,
    ),
    (Vec<Vec<Result<WholeAnswer, Refusal>>>, NoSession),
>
    ensures lived { IfOk result (λ (said, desk). (found : Book) × Holds ⟦<SqlKeeper<MemStore> as Keeper>⟧ desk found
        × IsHeadline new_book (map (λ session. session.commands.items) sessions.now)
        (map (λ replies. replies.items) said.items) found) }
    ensures ended { IfErr result (λ (said, cause). EndsEarlyInMemory
        (map (λ session. session.commands.items) sessions.now) (map (λ replies. replies.items) said.items) cause) }
{
    let none = Vec::new(alloc);
    let made = match made_in_memory(alloc) {
        Ok(made) => made,
        Err(cause) => return Err((none, cause)),
    };
    match live(alloc, made, sessions) {
        Ok((said, desk)) => Ok((said, desk)),
        Err(unfinished) => Err(told(unfinished)),
    }
}
