//! What a desk answers and keeps: its runs, its tables, a batch that is sent twice, and openings.
//!
//! "The files of a command" say what a command does to a book: rtgs_book Balance, Books, Choice, Commands, Lookup,
//! Outcome, Queue, Settle, Step, answer.rt, book.rt, command.rt, day.rt, limits.rt, mark.rt, new_day.rt, new_order.rt,
//! order.rt, order_state.rt, participant.rt, phase.rt, posting.rt, refusal.rt, rows.rt; rtgs_lists IntSum; rtgs_money
//! Date, amount.rt, cents.rt, code.rt, credit.rt, date.rt, key_digest.rt, name.rt, posting_amount.rt, reference.rt,
//! text.rt.
//!
//! What the `sqlite` crate calls a database, and what it may leave after a crash (`may_leave`), is that crate's.
ghost use Rattle.std.specs.Prelude.{◌≡◌, false, List, IfOk, IsTrue, length, IfErr, OnErr, ◌≢◌, true, None, ◌⊎◌};
ghost use Rattle.std.specs.List.{AllByRecursion};
ghost use Rattle.sqlite.specs.Held.{state};
ghost use Rattle.sqlite.specs.State.{HasCleanDisk};
ghost use Rattle.sqlite.specs.Tree.{Trees};
ghost use Rattle.rtgs_desk.specs.batches.Batches.{orders_of};
ghost use Rattle.rtgs_book.specs.Books.{is_automatic};
ghost use Rattle.rtgs_book.specs.Calm.{IsCalm};
ghost use Rattle.rtgs_book.specs.Outcome.{Reply};
ghost use Rattle.rtgs_book.specs.Run.{Run, once};
ghost use Rattle.rtgs_book.specs.Session.{MayFind, answered, answers, open_command};
ghost use Rattle.rtgs_book.specs.Soundness.{IsSound};
ghost use Rattle.rtgs_book.specs.Step.{Step};
ghost use Rattle.rtgs_book.specs.declared.book.Book.{Book};
ghost use Rattle.rtgs_desk.specs.Holding.{Holds, HasInMemory};
ghost use Rattle.rtgs_desk.specs.Replies.{FailsOnce};
ghost use Rattle.rtgs_order_files.specs.declared.batch_result.RowReply.TheVariants.{Refused};
ghost use Rattle.rtgs_promises.specs.Headline.{LeavesExactly};
ghost use Rattle.rtgs_promises.specs.Openings.{HasOpeningNumber, IsOfABook};
ghost use Rattle.rtgs_rows.specs.Content.{Content, Holds as HoldsRows};
ghost use Rattle.rtgs_rows.specs.Keeping.{AddsUp, IsWhole};
ghost use Rattle.rtgs_rows.specs.declared.numbers.TheConstants.{VERSION};
ghost use Rattle.rtgs_book_file.specs.stored_desk.Stored.{AreTablesOf, IsMemoryOrStore, IsNotCalmAs};
ghost use Rattle.rtgs_tables.specs.Loading.{IsDisplayed, ExplainsDatabase};

use crate::batching::{resumed, send};
use crate::sessions::{NoSession, Stop};
use rtgs_book::{Command, Fault, NewOrder, Refusal, WholeAnswer};
use rtgs_book_file::stored_desk::open;
use rtgs_desk::Desk;
use rtgs_keeper::Keeper;
use rtgs_money::Code;
use rtgs_order_files::BatchResult;
use rtgs_rows::laws::{stored_balances_are_the_postings, what_a_stop_leaves_adds_up};
use rtgs_tables::SqlKeeper;
use sqlite::{Alter, Connection};
use sqlite_trees::store::Reopen;
use std::alloc::{AllocError, Global};

/// **Promise 3. The answers are the definitions' run.** The commands that were answered, one after another, have these
/// replies, and lead to the book that the desk then holds. The store fails once at most, and then nothing more is done.
/// Whatever a crash leaves then is that book, or that book after the one command that met the fault. Without memory for
/// the replies nothing is done. This holds over any keeper with the trait's laws.
// To judge it, read these 61 files: the files of a command; rtgs_desk Holding, Replies, Seen, desk.rt; rtgs_book Run,
// Session, Calm, cores.Cores, Soundness, Ranges, fault.rt, cores/cores.rt, rule.rt, account.rt; rtgs_keeper Still,
// keeper.rt; rtgs_records Held, Records, accounts.Accounts, queues.Orders, records.rt, accounts/accounts.rt,
// queues/orders.rt; rtgs_money Amounts; rtgs_ledger ledger.rt.
pub fn answers_are_the_definitions_run<K: Keeper>(
    desk: &mut Desk<K>,
    commands: &[Command],
) -> Result<Vec<Result<WholeAnswer, Refusal>>, AllocError>
    ensures one_each { IfOk result (λ replies. length replies.items ≡ length commands.now) }
    ensures run { IfOk result (λ replies. K.is_honest desk.new.keeper → (book : Book) → Holds K.Keeper desk.old book
        → (last : Book) × Run book (answered commands.now replies.items) (answers replies.items) last
        × (K.has_failed desk.new.keeper ≡ false → Holds K.Keeper desk.new last)
        × ((found : Book) → K.leaves desk.new.keeper found
        → MayFind last (open_command commands.now replies.items) found)) }
    ensures fails_once { IfOk result (λ replies.
        FailsOnce (K.has_failed desk.old.keeper) replies.items (K.has_failed desk.new.keeper)) }
    ensures no_memory { OnErr result (desk.new ≡ desk.old) }
{
    desk.run(commands)
}

/// **Promise 4. The tables are the book's rows.** Whatever a crash leaves of a desk at rest are the tables of the book
/// that it holds, and nothing else.
// To judge it, read these 81 files: rtgs_promises Headline; rtgs_desk Holding, Seen, desk.rt; rtgs_book Calm,
// cores.Cores, Books, Choice, Balance, Soundness, Ranges, Queue, Lookup, Judgement, Settle, book.rt, rows.rt,
// participant.rt, posting.rt, order.rt, mark.rt, day.rt, fault.rt, order_state.rt, phase.rt, cores/cores.rt, rule.rt,
// account.rt, limits.rt; rtgs_keeper Still, keeper.rt; rtgs_rows Keeping, Querying, Content, Tables, RowLaws, Settling,
// Fitting, TableRecords, Dues, Rows, numbers.rt, forward.rt, resolution_row.rt, desk_row.rt; rtgs_sql_columns Blank,
// Tables, Numbers, OneTable; rtgs_tables Loading, Between, sql_keeper.rt; rtgs_records Held, Records,
// accounts.Accounts, queues.Orders, records.rt, accounts/accounts.rt, queues/orders.rt; rtgs_sql_queries Records,
// Displaying, TableQueries; rtgs_sql_loading Accounts, Displaying, Joining; rtgs_lists IntSum; rtgs_money Amounts,
// Date, Forms, Digits, code.rt, name.rt, key_digest.rt, credit.rt, reference.rt, posting_amount.rt, date.rt, amount.rt,
// cents.rt, text.rt; rtgs_ledger ledger.rt.
pub fn tables_are_exactly_the_book<S: Alter + Drop>(desk: &Desk<SqlKeeper<S>>)
    ensures { (book : Book) → Holds ⟦<SqlKeeper<S> as Keeper>⟧ desk.now book
        → LeavesExactly book (state S.Store desk.now.keeper.conn) }
{
    desk.holds_a_sound_book();
    stored_balances_are_the_postings();
}

/// **Promise 6, as a call: a command and what follows it are one.** Wherever the store fails, a crash leaves the book
/// before the command, or the one after it and after all that it let settle, and never one between them.
// To judge it, read these 58 files: the files of a command; rtgs_desk Holding, Seen, desk.rt; rtgs_book Calm,
// cores.Cores, Soundness, Ranges, fault.rt, cores/cores.rt, rule.rt, account.rt; rtgs_keeper Still, keeper.rt;
// rtgs_records Held, Records, accounts.Accounts, queues.Orders, records.rt, accounts/accounts.rt, queues/orders.rt;
// rtgs_money Amounts; rtgs_ledger ledger.rt.
pub fn a_command_and_what_follows_are_one<K: Keeper>(
    desk: &mut Desk<K>,
    command: Command,
) -> Result<WholeAnswer, Refusal>
    ensures whole { K.is_honest desk.new.keeper → (book found : Book) → Holds K.Keeper desk.old book
        → K.leaves desk.new.keeper found → (found ≡ book) ⊎ ((reply : Reply) × Step book command reply found) }
    ensures calm { K.is_honest desk.new.keeper → (book found : Book) → Holds K.Keeper desk.old book
        → K.leaves desk.new.keeper found → IsCalm found }
{
    desk.submit(command)
}

/// **Promise 7, in whatever a crash leaves.** Whichever book this is, the stored balances add up to the postings'
/// cents.
// To judge it, read these 41 files: rtgs_rows Keeping, Content, Fitting, Tables, Dues, Rows, forward.rt, numbers.rt,
// desk_row.rt, resolution_row.rt; rtgs_lists IntSum; rtgs_book Balance, Soundness, Books, Lookup, Queue, Settle,
// book.rt, day.rt, posting.rt, order.rt, mark.rt, rows.rt, participant.rt, phase.rt, order_state.rt, limits.rt;
// rtgs_money Date, Forms, Amounts, Digits, date.rt, code.rt, reference.rt, posting_amount.rt, amount.rt, cents.rt,
// name.rt, key_digest.rt, credit.rt, text.rt.
pub fn stored_money_is_what_was_posted<S: Alter>(conn: &Connection<S>)
    ensures { IsWhole S.Store conn.now → (trees : Trees) → (state S.Store conn.now).may_leave trees
        → (content : Content) × HoldsRows content trees × AddsUp content }
{
    what_a_stop_leaves_adds_up(conn);
}

/// **Promise 11, as a call.** A batch is sent, the desk stops, is opened again, and the whole batch is sent once more.
/// If this sending reaches its end, the desk holds the book that one sending would have made.
// To judge it, read these 92 files: the files of a command; rtgs_book Run, Calm, cores.Cores, Soundness, Ranges,
// Judgement, fault.rt, rule.rt, cores/cores.rt, account.rt; rtgs_desk Holding, batches.Batches, Seen, desk.rt;
// rtgs_keeper Still, keeper.rt; rtgs_rows Keeping, Querying, Content, Tables, RowLaws, Settling, Fitting, TableRecords,
// Dues, Rows, numbers.rt, forward.rt, resolution_row.rt, desk_row.rt; rtgs_sql_columns Blank, Tables, Numbers,
// OneTable; rtgs_tables Loading, Between, sql_keeper.rt; rtgs_records Held, Records, accounts.Accounts, queues.Orders,
// records.rt, accounts/accounts.rt, queues/orders.rt; rtgs_sql_queries Records, Displaying, TableQueries;
// rtgs_sql_loading Accounts, Displaying, Joining; rtgs_money Amounts, Forms, Digits; rtgs_promises sessions.rt;
// rtgs_order_files batch_result.rt; rtgs_ledger ledger.rt.
pub fn send_a_batch_twice<S: Alter + Reopen + Drop>(
    alloc: Global,
    desk: Desk<SqlKeeper<S>>,
    sender: Code,
    rows: &[NewOrder],
    stop: Stop,
) -> Result<(BatchResult, BatchResult, Desk<SqlKeeper<S>>), NoSession>
    ensures { IfOk result (λ (first, again, last). HasCleanDisk (state S.Store last.keeper.conn) → (start end : Book)
        (once : List Reply) → Holds ⟦<SqlKeeper<S> as Keeper>⟧ desk start
        → (is_automatic start.day ≡ true
        → AllByRecursion (λ row. row ≢ Refused Refusal.QueueFull) first.replies.items)
        → again.stopped ≡ None → Run start (orders_of sender rows.now) once end
        → Holds ⟦<SqlKeeper<S> as Keeper>⟧ last end) }
{
    let mut desk = desk;
    let first = send(alloc, &mut desk, sender, rows)?;
    let mut next = resumed(alloc, desk, stop)?;
    next.holds_a_sound_book();
    let again = send(alloc, &mut next, sender, rows)?;
    Ok((first, again, next))
}

/// **Promise 15. An opening gives a sound book, or names a fault by its number.** The book is the one that the tables
/// show, and if they held a book it is calm. Where there is none, the fault is 90, 91, 93 or 94, and it is explained by
/// what the tables show; tables that hold a calm book are refused with 90 or 91 alone, and those that hold another also
/// as not calm. Whatever it answers, the tables stay as they were found.
// To judge it, read these 86 files: rtgs_promises Openings; rtgs_desk Holding, Seen, desk.rt; rtgs_book Soundness,
// Calm, cores.Cores, Books, Choice, Refusals, Ranges, Lookup, Queue, Settle, Balance, Judgement, book.rt, fault.rt,
// rule.rt, rows.rt, participant.rt, posting.rt, order.rt, mark.rt, day.rt, account.rt, order_state.rt, phase.rt,
// cores/cores.rt, limits.rt; rtgs_sql_loading Displaying, Accounts, Joining; rtgs_book_file stored_desk.Stored;
// rtgs_rows Keeping, Content, Querying, Fitting, Dues, TableRecords, Tables, RowLaws, Settling, Rows, numbers.rt,
// forward.rt, desk_row.rt, resolution_row.rt; rtgs_sql_queries Displaying, Records, TableQueries; rtgs_sql_columns
// Tables, Blank, Numbers, OneTable; rtgs_keeper Still, keeper.rt; rtgs_tables Loading, Between, sql_keeper.rt;
// rtgs_refusals Table, refusal_kind.rt, exit_status.rt; rtgs_money Date, Amounts, Forms, Digits, code.rt, name.rt,
// key_digest.rt, credit.rt, reference.rt, posting_amount.rt, date.rt, amount.rt, cents.rt, text.rt; rtgs_records Held,
// Records, accounts.Accounts, queues.Orders, records.rt, accounts/accounts.rt, queues/orders.rt; rtgs_lists IntSum;
// rtgs_ledger ledger.rt.
pub fn opens_a_sound_book_or_names_a_fault<S: Alter + Drop>(
    alloc: Global,
    conn: Connection<S>,
) -> Result<Desk<SqlKeeper<S>>, (Fault, SqlKeeper<S>)>
    requires { conn.in_transaction ≡ false }
    ensures sound { IfOk result (λ desk. HasCleanDisk (state S.Store desk.keeper.conn)
        → IsTrue (state S.Store conn).is_open
        → (book : Book) × HasInMemory desk book × IsSound book × IsDisplayed VERSION (state S.Store conn).now book) }
    ensures held { IfOk result (λ desk. HasCleanDisk (state S.Store desk.keeper.conn)
        → IsTrue (state S.Store conn).is_open
        → (book : Book) → AreTablesOf book (state S.Store conn).committed.trees
        → Holds ⟦<SqlKeeper<S> as Keeper>⟧ desk book × IsCalm book) }
    ensures number { IfErr result (λ (fault, _). HasOpeningNumber fault) }
    ensures cause { IfErr result (λ (fault, left). HasCleanDisk (state S.Store left.conn)
        → IsTrue (state S.Store conn).is_open → ExplainsDatabase VERSION (state S.Store conn).now fault
        ⊎ IsNotCalmAs (IsDisplayed VERSION (state S.Store conn).now) fault) }
    ensures accepted { IfErr result (λ (fault, left). HasCleanDisk (state S.Store left.conn)
        → IsTrue (state S.Store conn).is_open → (book : Book)
        → AreTablesOf book (state S.Store conn).committed.trees → IsCalm book → IsMemoryOrStore fault) }
    ensures restless { IfErr result (λ (fault, left). HasCleanDisk (state S.Store left.conn)
        → IsTrue (state S.Store conn).is_open → (book : Book)
        → AreTablesOf book (state S.Store conn).committed.trees → IsOfABook fault) }
    ensures stays { IfOk result (λ desk. HasCleanDisk (state S.Store desk.keeper.conn)
        → IsTrue (state S.Store conn).is_open → (trees : Trees) → (state S.Store desk.keeper.conn).may_leave trees
        → trees ≡ (state S.Store conn).committed.trees) }
    ensures stays_refused { IfErr result (λ (_, left). HasCleanDisk (state S.Store left.conn)
        → IsTrue (state S.Store conn).is_open → (trees : Trees) → (state S.Store left.conn).may_leave trees
        → trees ≡ (state S.Store conn).committed.trees) }
{
    match open(alloc, conn) {
        Ok(desk) => {
            desk.holds_a_sound_book();
            Ok(desk)
        }
        Err((fault, left)) => Err((fault, left)),
    }
}
