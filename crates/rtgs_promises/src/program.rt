//! The runs of the program: each is a session of the headline, and sessions one after another are the headline.
//!
//! What the `sqlite` crate calls a database, and what it may leave after a crash (`may_leave`), is that crate's.
ghost use Rattle.std.specs.Prelude.{◌≡◌, IsTrue, List, map};
ghost use Rattle.sqlite.specs.Tree.{Trees};
ghost use Rattle.rtgs_book.specs.declared.book.Book.{Book};
ghost use Rattle.rtgs_book.specs.Calm.{IsCalm};
ghost use Rattle.rtgs_book.specs.Session.{IsLife, Session};
ghost use Rattle.rtgs_book.specs.Soundness.{IsSound};
ghost use Rattle.rtgs_book_file.specs.FileOnDisk.{facts_from};
ghost use Rattle.rtgs_book_file.specs.OverFile.{over};
ghost use Rattle.rtgs_book_file.specs.declared.released.Released.{Released};
ghost use Rattle.rtgs_book_file.specs.declared.unopened.Unopened.{Unopened};
ghost use Rattle.rtgs_cli.specs.Runs.{Ends, Traces};
ghost use Rattle.rtgs_cli.specs.Writers.{Writers};
ghost use Rattle.rtgs_cli_lines.specs.declared.ended.Ended.{Ended};
ghost use Rattle.rtgs_promises.specs.Headline.{IsHeadline};
ghost use Rattle.rtgs_promises.specs.Program.{WasRun};

use crate::books::{each_resolution_settles_the_greatest_choice, nothing_settles_early};
use rtgs_book_file::FileKeeper;
use rtgs_keeper::Keeper;
use rtgs_laws::repeats::laws::life_is_a_run;
use rtgs_rows::laws::no_tables_hold_no_book;
use sqlite::{Alter, FileFrom, FileStore, Start};
use sqlite_disk::Disk;

// A store that is open leaves what it has committed, and nothing else.
fn what_is_committed_is_left<S: Alter>()
    ensures stays { (store : S) → IsTrue (S.Store.view store).is_open
        → S.Store.recovers store (S.Store.view store).committed }
    ensures settled { (store : S) (trees : Trees) → IsTrue (S.Store.view store).is_open
        → S.Store.recovers store trees → trees ≡ (S.Store.view store).committed }
{}

/// **Promise 1, of the program. Each of its runs is a session.** From the book that its files hold, its desk is given
/// the commands that were asked for, once and in order; what it prints or reports of them are their replies; and
/// whatever files a crash leaves hold a book that this session may find.
///
/// The premise is what `run_words` promises of its runs (`Ends`), whatever the subcommand. A run that is refused, or
/// only reads, is a session without commands. What a server replies to its connections is promise 2.
// To judge it, read these 236 files: the files of a command; rtgs_promises Program; rtgs_cli Writers, Runs,
// files.Touching, files.Printing, imports.Imports, imports.Causes, commands.Commands, readings.Readings,
// serving.Serving, files.Done, readings.Outcomes, files/touched.rt, files/used.rt, imports/order_file.rt,
// serving/no_port.rt, serving/service.rt; rtgs_book_file OverFile, FileOnDisk, Opened, Closed, Causes, LockName,
// stored_desk.Stored, stored_desk.Migrated, Refused, Starting, Files, unopened.rt, released.rt, store.rt,
// file_fault.rt, cause.rt, abandoned_book.rt, closed_files.rt, not_locked.rt, not_vacant.rt, not_readable.rt,
// not_started.rt, not_reached.rt, object_count.rt, limits.rt; rtgs_cli_arguments requests.Requests, requests.Words,
// invocation.rt, requests/request.rt, requests/command_words.rt, requests/reading_words.rt; rtgs_keeper Still,
// keeper.rt; rtgs_http_server Requests, exchange.Handling, exchange.Exchange, port.rt, request_reader.rt, deadline.rt;
// rtgs_desk Seen, batches.Batches, Holding, Replies, Readings, batches.Sent, Queues, Payments; rtgs_book Calm, Run,
// Session, cores.Cores, Soundness, Ranges, Standings, Refusals, Judgement, Laws, Procedure, fault.rt, reading.rt,
// rule.rt, cores/cores.rt, account.rt, standing.rt, account_reading.rt, waiting_reading.rt, queue_reading.rt,
// status.rt, tally.rt, receiver_reading.rt; rtgs_cli_lines Lines, Failures, Texts, SentTo, ended.rt, printed.rt,
// failure.rt, done.rt; rtgs_order_files Results, OrderFile, BatchFaults, batch_fault.rt, batch_result.rt, limits.rt,
// columns.rt; rtgs_refusal_texts Texts, kinds.rt, texts.rt; rtgs_rows Tables, Querying, Content, Keeping, Migrating,
// Fitting, Dues, TableRecords, Rows, numbers.rt, forward.rt, desk_row.rt, resolution_row.rt; rtgs_sql_loading
// Displaying, Accounts, Loading, Joining; rtgs_http_requests Exchange, Callers, Meaning, Steps, Bodies, heads.Targets,
// Access, feeds.Region, heads.Heads, heads.Parameters, heads.Fields, heads.Tables, Spelling, Contents, OrderBody,
// asked.rt, http_fault.rt, heads/route.rt, feeds/limits.rt, admitted.rt, heads/bank_route.rt, heads/operator_route.rt,
// heads/limits.rt; rtgs_ledger Keys, Kinds, Kept; rtgs_sql_queries Displaying, TableQueries, Records; rtgs_sql_columns
// Tables, Numbers, OneTable; rtgs_tables Migrating, sql_keeper.rt; rtgs_output Sent, writer_failed.rt, text_fault.rt;
// rtgs_refusals Table, refusal_kind.rt, exit_status.rt; rtgs_money Lexical, Forms, Amounts, Digits, Units, lexical.rt,
// key.rt, units.rt; rtgs_sql_writes Building; rtgs_laws repeats.Lasting, repeats.Repeats, repeats.Batch, repeats.Once;
// rtgs_http_bodies desks.Written, desks.Readings, Readings, desks.Accounts, desks.Waiting, desks.Queues, desks.Status,
// replies.Bodies; rtgs_statements Reads, Texts, Listings, Records, Lines, Sums, Tallies, Columns, book_text_fault.rt,
// line.rt, row.rt, total.rt, sums.rt, kind.rt, party.rt; rtgs_release Release, lib.rt.
pub fn a_run_is_a_session<S: Start, O, E>()
    ensures { (writers : Writers O E) (ends : Ended)
        (touched : Traces S (Unopened S S.Start) (Released S S.Start))
        → Ends (over ⟦<FileKeeper<S> as Keeper>⟧ (facts_from ⟦<FileKeeper<S> as Keeper>⟧ S.Start
        (λ keeper. keeper.conn))) writers ends touched
        → WasRun S.Start ⟦<FileFrom<S> as Disk>⟧ writers ends touched }
{
    what_is_committed_is_left::<FileStore<FileFrom<S>>>();
    no_tables_hold_no_book();
}

/// **Promise 1, of one run after another.** Sessions, each from the book found after the one before it, are the
/// headline.
// To judge it, read these 44 files: the files of a command; rtgs_promises Headline; rtgs_book Session, Soundness, Calm,
// Run, Laws, Procedure; rtgs_laws repeats.Lives.
pub fn sessions_are_the_headline()
    ensures { (start found : Book) (sessions : List Session) → IsSound start → IsCalm start
        → IsLife start sessions found
        → IsHeadline start (map (λ session. session.commands) sessions) (map (λ session. session.replies) sessions)
        found }
{
    life_is_a_run();
    each_resolution_settles_the_greatest_choice();
    nothing_settles_early();
}
