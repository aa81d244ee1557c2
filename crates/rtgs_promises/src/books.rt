//! What follows for a book from the definitions of the commands, whatever keeps it. All are laws, except the call of
//! the resolver: a law's function does nothing, and its contract is the law.
//!
//! "The files of a command" say what a command does to a book: rtgs_book Balance, Books, Choice, Commands, Lookup,
//! Outcome, Queue, Settle, Step, answer.rt, book.rt, command.rt, day.rt, limits.rt, mark.rt, new_day.rt, new_order.rt,
//! order.rt, order_state.rt, participant.rt, phase.rt, posting.rt, refusal.rt, rows.rt; rtgs_lists IntSum; rtgs_money
//! Date, amount.rt, cents.rt, code.rt, credit.rt, date.rt, key_digest.rt, name.rt, posting_amount.rt, reference.rt,
//! text.rt.
ghost use Rattle.std.specs.Prelude.{◌≡◌, List, ◌≤◌, ◌+◌, ◌*◌, length, slice_index, ◌+ℤ◌, ◌≤ℤ◌, true, ℕ, [], ◌++◌};
ghost use Rattle.std.specs.Prelude.{filter, take, sum_by, Ok};
ghost use Rattle.std.specs.List.{AllByRecursion};
ghost use Rattle.std.specs.Str.{bytes_eq};
ghost use Rattle.rtgs_book.specs.Balance.{balance, floor, total, issued};
ghost use Rattle.rtgs_book.specs.Books.{is_queued};
ghost use Rattle.rtgs_book.specs.Calm.{IsCalm};
ghost use Rattle.rtgs_book.specs.Choice.{IsFeasible, IsGreatest, Choice, is_chosen, chosen};
ghost use Rattle.rtgs_book.specs.Laws.{KeepsWhatIsFinal, NothingSettlesEarly};
ghost use Rattle.rtgs_book.specs.Lookup.{codes_of};
ghost use Rattle.rtgs_book.specs.Outcome.{Reply, alone};
ghost use Rattle.rtgs_book.specs.Queue.{queue};
ghost use Rattle.rtgs_book.specs.Run.{Run, is_accepted, once};
ghost use Rattle.rtgs_book.specs.Session.{Session, IsLife, MayFind, open_command};
ghost use Rattle.rtgs_book.specs.Soundness.{IsSound};
ghost use Rattle.rtgs_book.specs.Step.{Step, is_followed};
ghost use Rattle.rtgs_book.specs.declared.book.Book.{Book};
ghost use Rattle.rtgs_book.specs.declared.answer.Answer.TheVariants.{Closed};
ghost use Rattle.rtgs_book.specs.declared.command.Command.{Command};
ghost use Rattle.rtgs_book.specs.declared.command.Command.TheVariants.{CloseDay};
ghost use Rattle.rtgs_book.specs.declared.order.Order.{Order};
ghost use Rattle.rtgs_choices.specs.ByIndex.{positions_of, queues_of, by_code};
ghost use Rattle.rtgs_gridlock.specs.Choices.{AreResolvable, payment_count};
ghost use Rattle.rtgs_gridlock.specs.Workspaces.{HasRoomFor, lengths_of, steps_of};
ghost use Rattle.rtgs_promises.specs.Headline.{Resolves, EachResolves};
ghost use Rattle.rtgs_laws.specs.repeats.Batch.{IsOrderOf, MayComeAgain};
ghost use Rattle.rtgs_laws.specs.repeats.Kept.{AreKept};
ghost use Rattle.rtgs_laws.specs.repeats.Lasting.{IsKnown, posted_by};
ghost use Rattle.rtgs_laws.specs.repeats.Once.{once_replies};
ghost use Rattle.rtgs_laws.specs.repeats.Repeats.{acts_once};

use rtgs_book::laws::{
    chosen_are_beginnings, greatest_exists, greatest_is_unique, nothing_settles_before_it_is_due,
    total_is_issued,
};
use rtgs_choices::laws::greatest_means_greatest;
use rtgs_gridlock::{Positions, Queues, Workspace, greatest};
use rtgs_laws::laws::{
    followed_books_are_calm, run_keeps_calm, run_keeps_soundness, run_keeps_what_is_final,
    step_exists, step_is_determined, step_keeps_calm, step_keeps_soundness,
};
use rtgs_laws::repeats::laws::{
    acted_is_repeated, closing_had_no_gridlock, life_is_a_run, once_ends_alike, records_are_kept,
    runs_last, stopped_batch_ends_alike,
};

/// **Promise 3, and there is but one.** From a sound book each list of commands has exactly one list of replies and one
/// book after it, which is sound again.
// To judge it, read these 38 files: the files of a command; rtgs_book Soundness, Run.
pub fn commands_have_one_run()
    ensures some { (start : Book) (commands : List Command) → IsSound start
        → (replies : List Reply) × (last : Book) × Run start commands replies last × IsSound last }
    ensures one { (start last end : Book) (commands : List Command) (replies others : List Reply)
        → Run start commands replies last → Run start commands others end → (replies ≡ others) × (last ≡ end) }
{
    step_exists();
    step_is_determined();
    step_keeps_soundness();
}

/// **Promise 5. A resolution settles the most that can settle.** It settles together all orders of the greatest choice
/// of queue beginnings that leaves nobody below its floor, or there was nothing to settle: one that is asked for, and
/// one that follows a command on an automatic day. There is exactly one such choice. No command leaves anybody below
/// its floor.
// To judge it, read these 39 files: the files of a command; rtgs_promises Headline; rtgs_book Run, Soundness.
pub fn each_resolution_settles_the_greatest_choice()
    ensures one { (old new : Book) (command : Command) (reply : Reply) → Step old command reply new
        → Resolves old command reply new }
    ensures each { (start last : Book) (commands : List Command) (replies : List Reply)
        → Run start commands replies last → EachResolves start commands replies last }
    ensures exists { (book : Book) → IsSound book → (choice : Choice) × IsGreatest book choice }
    ensures unique { (book : Book) (one other : Choice) → IsGreatest book one → IsGreatest book other → one ≡ other }
    ensures beginnings { (book : Book) (choice : Choice) (code : List ℕ) → IsSound book
        → filter (λ (o : Order). bytes_eq o.sender code) (chosen book choice) ≡ take (choice code) (queue book code) }
    ensures cover { (old new : Book) (command : Command) (reply : Reply) → IsSound old → Step old command reply new
        → AllByRecursion (λ code. floor new code ≤ℤ balance new code) (codes_of new) }
{
    greatest_exists();
    greatest_is_unique();
    chosen_are_beginnings();
    step_keeps_soundness();
}

/// **Promise 5. And no choice settles more.** No choice of queue beginnings that leaves nobody below its floor has more
/// orders or more value than the greatest.
///
/// Each of its orders is among those of the greatest.
// To judge it, read these 25 files: rtgs_book Choice, Queue, Balance, Lookup, Books, book.rt, order.rt, rows.rt,
// participant.rt, posting.rt, mark.rt, day.rt, order_state.rt, phase.rt; rtgs_lists IntSum; rtgs_money code.rt,
// reference.rt, amount.rt, date.rt, name.rt, key_digest.rt, credit.rt, posting_amount.rt, cents.rt, text.rt.
pub fn no_choice_settles_more()
    ensures among { (book : Book) (greatest other : Choice) → IsGreatest book greatest → IsFeasible book other
        → (o : Order) → is_chosen book other o ≡ true → is_chosen book greatest o ≡ true }
    ensures orders { (book : Book) (greatest other : Choice) → IsGreatest book greatest → IsFeasible book other
        → length (chosen book other) ≤ length (chosen book greatest) }
    ensures value { (book : Book) (greatest other : Choice) → IsGreatest book greatest → IsFeasible book other
        → sum_by (λ (o : Order). o.amount) (chosen book other)
        ≤ sum_by (λ (o : Order). o.amount) (chosen book greatest) }
{}

/// **Promise 6. An automatic day leaves nothing that could settle.** After a command that a resolution follows, no
/// choice of queued orders could be settled, whatever was before. Once that is so it stays so, whatever is commanded,
/// and over any number of crashes, in each book that one of them left.
// To judge it, read these 40 files: the files of a command; rtgs_book Soundness, Calm, Run, Session.
pub fn an_automatic_day_leaves_nothing_to_settle()
    ensures followed { (old new : Book) (command : Command) (reply : Reply) → IsSound old
        → (s : Step old command reply new) → is_followed command s.0 ≡ true → IsCalm new }
    ensures step { (old new : Book) (command : Command) (reply : Reply) → IsSound old → IsCalm old
        → Step old command reply new → IsCalm new }
    ensures run { (start last : Book) (commands : List Command) (replies : List Reply) → IsSound start → IsCalm start
        → Run start commands replies last → IsCalm last }
    ensures life { (start found : Book) (sessions : List Session) → IsSound start → IsCalm start
        → IsLife start sessions found → AllByRecursion (λ (s : Session). IsCalm s.found) sessions × IsCalm found }
{
    followed_books_are_calm();
    step_keeps_calm();
    run_keeps_calm();
    life_is_a_run();
}

/// **Promise 7. Money is neither made nor lost.** All balances together are what was posted, and accepted postings
/// alone move their sum.
// To judge it, read these 40 files: the files of a command; rtgs_book Soundness, Run, Laws; rtgs_laws repeats.Lasting.
pub fn money_is_what_was_posted()
    ensures posted { (book : Book) → IsSound book → total book ≡ issued book }
    ensures moved { (start last : Book) (commands : List Command) (replies : List Reply) → IsSound start
        → Run start commands replies last → total last ≡ total start +ℤ posted_by commands replies }
{
    total_is_issued();
    runs_last();
}

/// **Promise 8. What is final stays.** A mark and a settled order stand unchanged in every later book. So do a
/// participant's name and key, a posting, and of each order its number and all that it said when sent: receiver, amount
/// and due date.
// To judge it, read these 41 files: the files of a command; rtgs_book Soundness, Run, Laws, Procedure; rtgs_laws
// repeats.Kept.
pub fn what_is_final_stays()
    ensures settled { (old new : Book) (commands : List Command) (replies : List Reply) → IsSound old
        → Run old commands replies new → KeepsWhatIsFinal old new }
    ensures recorded { (old new : Book) (commands : List Command) (replies : List Reply) → IsSound old
        → Run old commands replies new → AreKept old new }
{
    run_keeps_what_is_final();
    records_are_kept();
}

/// **Promise 9. Nothing settles before its due date.** No order is settled under a mark that is dated before the
/// order's due date, in no sound book, and so in none to which commands lead from one.
// To judge it, read these 40 files: the files of a command; rtgs_book Soundness, Laws, Run, Procedure.
pub fn nothing_settles_early()
    ensures sound { (book : Book) → IsSound book → NothingSettlesEarly book }
    ensures later { (start last : Book) (commands : List Command) (replies : List Reply) → IsSound start
        → Run start commands replies last → NothingSettlesEarly last }
{
    nothing_settles_before_it_is_due();
    run_keeps_soundness();
}

/// **Promise 10. What is sent twice acts once.** An addition, posting, order or withdrawal that was accepted is
/// answered as a repeat whenever it comes again, with the number that it was answered, and changes nothing. Of each
/// order and posting one is enough: the list without the others ends in the same book, with the same replies.
// To judge it, read these 41 files: the files of a command; rtgs_book Soundness, Run; rtgs_laws repeats.Repeats,
// repeats.Lasting, repeats.Once.
pub fn what_is_sent_twice_acts_once()
    ensures known { (old new : Book) (command : Command) (reply : Reply) → IsSound old → acts_once command ≡ true
        → is_accepted reply ≡ true → Step old command reply new → IsKnown new command reply }
    ensures once { (old new : Book) (commands : List Command) (replies : List Reply) → IsSound old
        → Run old commands replies new
        → Run old (once old commands replies) (once_replies old commands replies) new }
{
    acted_is_repeated();
    once_ends_alike();
}

/// **Promise 11. A batch can be sent again.** A batch of orders of one sender that stopped anywhere, also by a crash,
/// and is sent again from its first, ends as if it had been sent once. The order at which it stopped may have acted or
/// not. On an automatic day no order before the stop may have met a full queue: it could be taken the second time.
// To judge it, read these 40 files: the files of a command; rtgs_book Run, Soundness, Session; rtgs_laws repeats.Batch.
pub fn a_batch_sent_again_ends_as_if_sent_once()
    ensures { (start mid found last end : Book) (sender : List ℕ) (first rest : List Command)
        (said again once : List Reply) → IsSound start → AllByRecursion (IsOrderOf sender) (first ++ rest)
        → MayComeAgain start said → Run start first said mid
        → MayFind mid (open_command rest []) found → Run found (first ++ rest) again last
        → Run start (first ++ rest) once end → last ≡ end }
{
    stopped_batch_ends_alike();
}

/// **Promise 14. A resolution takes few steps.** With n participants and q queued orders the resolver finds the book's
/// greatest choice in at most n + 3q steps, a step being one cover test or one removal.
// To judge it, read these 38 files: rtgs_gridlock Choices, Workspaces, Fundings, positions.rt, queues.rt, workspace.rt,
// fundings.rt, worklist.rt; rtgs_book Soundness, Choice, Lookup, Books, Queue, Settle, Balance, book.rt, rows.rt,
// participant.rt, posting.rt, order.rt, mark.rt, day.rt, order_state.rt, phase.rt, limits.rt; rtgs_choices ByIndex;
// rtgs_money Date, code.rt, name.rt, key_digest.rt, credit.rt, reference.rt, posting_amount.rt, date.rt, amount.rt,
// cents.rt, text.rt; rtgs_lists IntSum.
pub fn the_greatest_choice_takes_few_steps(
    positions: &Positions,
    queues: &Queues,
    workspace: &mut Workspace,
)
    requires resolvable { AreResolvable positions.now queues.now }
    requires room { HasRoomFor workspace.old queues.now }
    ensures steps { steps_of workspace.new ≤ steps_of workspace.old + length queues.now + 3 * payment_count queues.now }
    ensures greatest { (book : Book) → IsSound book → positions.now ≡ positions_of book → queues.now ≡ queues_of book
        → IsGreatest book (by_code book (slice_index (lengths_of workspace.new))) }
{
    greatest_means_greatest();
    greatest(positions, queues, workspace);
}

/// **Promise 14. And a close rejects deadlocks alone.** When a day is closed, no order that was still queued could have
/// been settled by a resolution. The answer counts those that were queued.
// To judge it, read these 36 files: the files of a command.
pub fn a_close_rejects_deadlocks_alone()
    ensures choice { (old new : Book) (date count : ℕ) (choice : Choice)
        → Step old (CloseDay date) (alone (Ok (Closed count))) new → IsGreatest old choice → chosen old choice ≡ [] }
    ensures count { (old new : Book) (date count : ℕ) → Step old (CloseDay date) (alone (Ok (Closed count))) new
        → count ≡ length (filter is_queued old.orders) }
{
    closing_had_no_gridlock();
}
