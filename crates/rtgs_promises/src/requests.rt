//! What a request over HTTP gives, who acts by it, and what its reply tells.
//!
//! "The files of a command" say what a command does to a book: rtgs_book Balance, Books, Choice, Commands, Lookup,
//! Outcome, Queue, Settle, Step, answer.rt, book.rt, command.rt, day.rt, limits.rt, mark.rt, new_day.rt, new_order.rt,
//! order.rt, order_state.rt, participant.rt, phase.rt, posting.rt, refusal.rt, rows.rt; rtgs_lists IntSum; rtgs_money
//! Date, amount.rt, cents.rt, code.rt, credit.rt, date.rt, key_digest.rt, name.rt, posting_amount.rt, reference.rt,
//! text.rt.
ghost use Rattle.std.specs.Prelude.{◌≡◌, List, IfOk, length, IfErr, ◌≢◌, ℕ, Ok, Err, ◌⊎◌};
ghost use Rattle.sqlite.specs.Held.{state};
ghost use Rattle.sqlite.specs.State.{HasCleanDisk};
ghost use Rattle.sqlite.specs.Tree.{Trees};
ghost use Rattle.sqlite_trees.specs.View.{IsClean};
ghost use Rattle.rtgs_book.specs.declared.book.Book.{Book};
ghost use Rattle.rtgs_book.specs.declared.reading.Reading.{Reading};
ghost use Rattle.rtgs_desk.specs.Holding.{Holds};
ghost use Rattle.rtgs_desk.specs.Seen.{Seen};
ghost use Rattle.rtgs_http_server.specs.exchange.Handling.{given};
ghost use Rattle.rtgs_http_server.specs.exchange.Exchange.{Handles, Exchanges, IsAskedByBearer};
ghost use Rattle.rtgs_http_server.specs.reply_laws.Alike.{EndAlike};
ghost use Rattle.rtgs_http_server.specs.reply_laws.Own.{AgreeFor, IsSentBy};
ghost use Rattle.rtgs_http_bodies.specs.replies.Messages.{Message};
ghost use Rattle.rtgs_http_requests.specs.Exchange.{AsksFor};
ghost use Rattle.rtgs_http_requests.specs.Same.{AreTheSame};
ghost use Rattle.rtgs_http_requests.specs.declared.asked.Asked.{Asked};
ghost use Rattle.rtgs_http_requests.specs.declared.http_fault.HttpFault.{HttpFault};
ghost use Rattle.rtgs_ledger.specs.Keys.{code_under};
ghost use Rattle.rtgs_promises.specs.Headline.{AreExactly, LeavesExactly};
ghost use Rattle.rtgs_promises.specs.Keys.{IsServed, AreAllowed};

use crate::desks::tables_are_exactly_the_book;
use crate::serving::serve;
use crate::sessions::{NoSession, Stop};
use crate::stopping::found_again;
use rtgs_desk::Desk;
use rtgs_http_requests::laws::answers_are_determined;
use rtgs_http_server::Served;
use rtgs_http_server::reply_laws::laws::{
    participants_are_shown_their_own_rows, replies_are_determined,
};
use rtgs_keeper::Keeper;
use rtgs_money::KeyDigest;
use rtgs_tables::SqlKeeper;
use sqlite::Alter;
use sqlite_trees::store::Reopen;
use std::alloc::Global;
use std::io::{Read, Write};

/// **Promise 2, the headline of a request.** What is written for a request is the reply that the definitions give to
/// the book and the request's bytes, whole or a beginning of it; the commands that were given are those that these
/// bytes ask for, and the bearer of the key may give them; and the stop that comes then leaves what promise 1 says.
/// Where the reader fails, nothing was done. So it is with whatever a crash leaves where no desk opens again.
// To judge it, read these 195 files: the files of a command; rtgs_promises Headline, Keys, sessions.rt; rtgs_desk
// Holding, Seen, batches.Batches, batches.Sent, Replies, Readings, Queues, Payments, desk.rt; rtgs_http_server
// exchange.Serving, exchange.Exchange, exchange.Handling, input.Input, exchange.ReplyMessages, exchange/served.rt,
// input/reader_failed.rt; rtgs_rows Content, Keeping, Querying, Fitting, Tables, RowLaws, Settling, TableRecords, Dues,
// Rows, forward.rt, numbers.rt, resolution_row.rt, desk_row.rt; rtgs_book Calm, Soundness, cores.Cores, Session, Run,
// Laws, Ranges, Procedure, Judgement, Refusals, Standings, fault.rt, rule.rt, cores/cores.rt, account.rt, reading.rt,
// account_reading.rt, waiting_reading.rt, queue_reading.rt, status.rt, standing.rt, tally.rt, receiver_reading.rt;
// rtgs_keeper Still, keeper.rt; rtgs_sql_columns Blank, Tables, Numbers, OneTable; rtgs_tables Loading, Between,
// sql_keeper.rt; rtgs_http_bodies replies.Messages, desks.Written, replies.Kinds, Refusals, Statuses, Answers,
// replies.Texts, replies.Bodies, Readings, desks.Accounts, desks.Waiting, desks.Queues, desks.Status,
// replies/content_type.rt; rtgs_output Sent, writer_failed.rt; rtgs_records Held, Records, accounts.Accounts,
// queues.Orders, records.rt, accounts/accounts.rt, queues/orders.rt; rtgs_sql_queries Records, Displaying,
// TableQueries; rtgs_sql_loading Accounts, Displaying, Joining; rtgs_http_requests Exchange, Access, Callers, Meaning,
// Steps, Bodies, heads.Targets, feeds.Region, heads.Heads, heads.Fields, heads.Parameters, Faults, heads.Tables,
// Spelling, Contents, OrderBody, asked.rt, http_fault.rt, heads/route.rt, feeds/limits.rt, admitted.rt,
// heads/bank_route.rt, heads/operator_route.rt, heads/limits.rt; rtgs_ledger Keys, Kept, ledger.rt; rtgs_laws
// repeats.Lives, repeats.Lasting, repeats.Batch, repeats.Repeats, repeats.Once; rtgs_money Forms, Amounts, Lexical,
// Digits, Units, lexical.rt, key.rt, units.rt; rtgs_order_files Results, BatchFaults, OrderFile, batch_fault.rt,
// batch_result.rt, columns.rt, limits.rt; rtgs_refusals Table, refusal_kind.rt, exit_status.rt; rtgs_statements Texts,
// Listings, Records, Lines, Sums, Tallies, Columns, line.rt, row.rt, total.rt, sums.rt, kind.rt, party.rt; rtgs_release
// Release, lib.rt.
pub fn serve_and_stop<R: Read, W: Write, S: Alter + Reopen + Drop>(
    alloc: Global,
    desk: Desk<SqlKeeper<S>>,
    reader: &mut R,
    writer: &mut W,
    operator: &KeyDigest,
    stop: Stop,
) -> (Served, Result<Desk<SqlKeeper<S>>, (NoSession, S)>)
    ensures found { IfOk result.1 (λ next. HasCleanDisk (state S.Store next.keeper.conn) → (start : Book)
        → Holds ⟦<SqlKeeper<S> as Keeper>⟧ desk start
        → (found : Book) × Holds ⟦<SqlKeeper<S> as Keeper>⟧ next found
        × LeavesExactly found (state S.Store next.keeper.conn)
        × IsServed ⟦<SqlKeeper<S> as Keeper>⟧ operator.now start (R.remaining reader.old) (W.contents writer.old)
        (W.contents writer.new) result.0 found) }
    ensures lost { IfErr result.1 (λ (_, left). IsClean (S.Store.view left) → (start : Book)
        → Holds ⟦<SqlKeeper<S> as Keeper>⟧ desk start → (trees : Trees) → S.Store.recovers left trees
        → (found : Book) × AreExactly found trees
        × IsServed ⟦<SqlKeeper<S> as Keeper>⟧ operator.now start (R.remaining reader.old) (W.contents writer.old)
        (W.contents writer.new) result.0 found) }
{
    let mut desk = desk;
    let served = serve(alloc, &mut desk, reader, writer, operator);
    match found_again(alloc, desk, stop) {
        Ok(next) => {
            tables_are_exactly_the_book(&next);
            (served, Ok(next))
        }
        Err((cause, left)) => (served, Err((cause, left))),
    }
}

/// **Promise 12. A request has one meaning.** What it asks for and its reply are a function of the book and the
/// request's bytes. Set aside is lack of memory, and for the reply a fault of the store: the status is then 503.
// To judge it, read these 150 files: the files of a command; rtgs_desk Seen, Holding, batches.Batches, batches.Sent,
// Replies, Readings, Queues, Payments; rtgs_http_bodies replies.Messages, desks.Written, replies.Kinds, Refusals,
// Statuses, Answers, replies.Texts, replies.Bodies, Readings, desks.Accounts, desks.Waiting, desks.Queues,
// desks.Status, replies/content_type.rt; rtgs_http_server exchange.Exchange, reply_laws.Alike, exchange.Handling,
// exchange.ReplyMessages; rtgs_http_requests Same, Exchange, Meaning, Callers, Steps, Bodies, heads.Targets, Access,
// feeds.Region, heads.Heads, heads.Parameters, heads.Fields, Faults, heads.Tables, Spelling, Contents, OrderBody,
// http_fault.rt, asked.rt, heads/route.rt, feeds/limits.rt, admitted.rt, heads/bank_route.rt, heads/operator_route.rt,
// heads/limits.rt; rtgs_ledger Keys, Kept; rtgs_keeper Still, keeper.rt; rtgs_book Calm, Session, cores.Cores, Run,
// Soundness, Ranges, Laws, Refusals, Procedure, Standings, cores/cores.rt, fault.rt, account.rt, reading.rt, rule.rt,
// account_reading.rt, waiting_reading.rt, queue_reading.rt, status.rt, standing.rt, tally.rt, receiver_reading.rt;
// rtgs_order_files Results, BatchFaults, OrderFile, batch_fault.rt, batch_result.rt, columns.rt, limits.rt; rtgs_money
// Forms, Lexical, Amounts, Digits, Units, lexical.rt, key.rt, units.rt; rtgs_laws repeats.Lasting, repeats.Batch,
// repeats.Repeats, repeats.Once; rtgs_refusals Table, refusal_kind.rt, exit_status.rt; rtgs_statements Texts, Listings,
// Records, Lines, Sums, Tallies, Columns, line.rt, row.rt, total.rt, sums.rt, kind.rt, party.rt; rtgs_release Release,
// lib.rt.
pub fn a_book_and_an_input_have_one_reply<K: Keeper>()
    ensures asked { (operator input : List ℕ) (old : Book) (one other : Seen K) (sent again : Message)
        (first : Handles K.Keeper operator old input one sent)
        (second : Handles K.Keeper operator old input other again)
        → first.answer ≢ Err HttpFault.OutOfMemory → second.answer ≢ Err HttpFault.OutOfMemory
        → AreTheSame first.answer second.answer }
    ensures replied { (operator input : List ℕ) (old : Book) (one other : Seen K) (sent again : Message)
        → Handles K.Keeper operator old input one sent → Handles K.Keeper operator old input other again
        → sent.status ≢ 503 → again.status ≢ 503 → EndAlike K.Keeper one other sent again }
{
    answers_are_determined();
    replies_are_determined::<K>();
}

/// **Promise 13. Nobody acts but with his own key.** The commands of a request are those of the operator's key, or
/// orders and withdrawals of the participant whose key the input carries. Whatever a desk holds, a request changes it
/// only where it asks for what the bearer of its key may ask.
// To judge it, read these 151 files: the files of a command; rtgs_promises Keys; rtgs_desk Seen, batches.Batches,
// Holding, batches.Sent, Replies, Readings, Queues, Payments; rtgs_http_bodies replies.Messages, desks.Written,
// Refusals, replies.Kinds, Statuses, Answers, replies.Texts, replies.Bodies, Readings, desks.Accounts, desks.Waiting,
// desks.Queues, desks.Status, replies/content_type.rt; rtgs_http_server exchange.Exchange, exchange.Handling,
// exchange.ReplyMessages; rtgs_http_requests Access, Exchange, feeds.Region, heads.Heads, heads.Fields, Callers,
// Meaning, Steps, Bodies, heads.Targets, heads.Parameters, Faults, Plans, heads.Tables, Spelling, Contents, OrderBody,
// asked.rt, http_fault.rt, heads/route.rt, feeds/limits.rt, admitted.rt, heads/limits.rt, heads/bank_route.rt,
// heads/operator_route.rt; rtgs_ledger Keys, Kept; rtgs_keeper Still, keeper.rt; rtgs_book Calm, cores.Following,
// Session, cores.Cores, Refusals, Run, Soundness, Ranges, Laws, Procedure, Standings, cores/cores.rt, fault.rt,
// account.rt, reading.rt, rule.rt, account_reading.rt, waiting_reading.rt, queue_reading.rt, status.rt, standing.rt,
// tally.rt, receiver_reading.rt; rtgs_money Forms, Lexical, Amounts, Digits, Units, lexical.rt, key.rt, units.rt;
// rtgs_order_files Results, BatchFaults, OrderFile, batch_fault.rt, batch_result.rt, columns.rt, limits.rt; rtgs_laws
// repeats.Lasting, repeats.Batch, repeats.Repeats, repeats.Once; rtgs_refusals Table, refusal_kind.rt, exit_status.rt;
// rtgs_statements Texts, Listings, Records, Lines, Sums, Tallies, Columns, line.rt, row.rt, total.rt, sums.rt, kind.rt,
// party.rt; rtgs_release Release, lib.rt.
pub fn nobody_acts_with_the_key_of_another<K: Keeper>()
    ensures commands { (operator input : List ℕ) (book : Book) (desk : Seen K) (sent : Message)
        (request : Handles K.Keeper operator book input desk sent)
        → AreAllowed operator book input (given request.answer (length request.works.0)) }
    ensures changes { (operator input : List ℕ) (old new : Seen K) (sent : Message)
        → Exchanges K.Keeper operator old input new sent
        → (new ≡ old) ⊎ IsAskedByBearer operator old input }
{}

/// **Promise 13. And nobody reads the rows of others.** Two books that agree in a participant's own rows give the same
/// reply to each reading that carries its key. Set aside are replies with the status 503.
// To judge it, read these 149 files: the files of a command; rtgs_desk Seen, Holding, batches.Batches, batches.Sent,
// Replies, Readings, Queues, Payments; rtgs_http_bodies replies.Messages, desks.Written, replies.Kinds, Refusals,
// Statuses, Answers, replies.Texts, replies.Bodies, Readings, desks.Accounts, desks.Waiting, desks.Queues,
// desks.Status, replies/content_type.rt; rtgs_http_server reply_laws.Own, exchange.Exchange, exchange.Handling,
// exchange.ReplyMessages; rtgs_http_requests Exchange, Access, Callers, Meaning, Steps, Bodies, heads.Targets,
// feeds.Region, heads.Heads, heads.Fields, heads.Parameters, heads.Tables, Spelling, Faults, Contents, OrderBody,
// asked.rt, http_fault.rt, heads/route.rt, feeds/limits.rt, admitted.rt, heads/bank_route.rt, heads/operator_route.rt,
// heads/limits.rt; rtgs_ledger Keys, Kept; rtgs_keeper Still, keeper.rt; rtgs_money Forms, Lexical, Amounts, Digits,
// Units, lexical.rt, key.rt, units.rt; rtgs_order_files Results, OrderFile, BatchFaults, batch_fault.rt,
// batch_result.rt, columns.rt, limits.rt; rtgs_book Calm, Session, Run, cores.Cores, Laws, Refusals, Soundness, Ranges,
// Procedure, Standings, reading.rt, cores/cores.rt, fault.rt, account.rt, rule.rt, account_reading.rt,
// waiting_reading.rt, queue_reading.rt, status.rt, standing.rt, tally.rt, receiver_reading.rt; rtgs_laws
// repeats.Lasting, repeats.Batch, repeats.Repeats, repeats.Once; rtgs_refusals Table, refusal_kind.rt, exit_status.rt;
// rtgs_statements Texts, Listings, Records, Lines, Sums, Tallies, Columns, line.rt, row.rt, total.rt, sums.rt, kind.rt,
// party.rt; rtgs_release Release, lib.rt.
pub fn nobody_reads_the_rows_of_others<K: Keeper>()
    ensures { (operator input code : List ℕ) (one other : Book) (first second : Seen K) (sent again : Message)
        (reading : Reading) → AgreeFor code one other
        → IsSentBy operator one code input → IsSentBy operator other code input
        → AsksFor operator (code_under one) input (Ok (Asked.Read reading))
        → Handles K.Keeper operator one input first sent → Handles K.Keeper operator other input second again
        → sent.status ≢ 503 → again.status ≢ 503 → again ≡ sent }
{
    participants_are_shown_their_own_rows::<K>();
}
