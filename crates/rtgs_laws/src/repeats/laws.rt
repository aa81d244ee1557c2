//! Laws of what comes twice. Each function does nothing: its contract is the law.
ghost use Rattle.std.specs.Prelude.{◌≡◌, ℕ, Bool, true, Ok, Err, List, None, [], ◌++◌, filter, length, take, drop};
ghost use Rattle.std.specs.List.{AllByRecursion};
ghost use Rattle.rtgs_book.specs.declared.book.Book.{Book};
ghost use Rattle.rtgs_book.specs.declared.command.Command.{Command};
ghost use Rattle.rtgs_book.specs.declared.new_day.NewDay.{NewDay};
ghost use Rattle.rtgs_book.specs.declared.command.Command.TheVariants.{SetCredit, OpenDay, Resolve, CutOff, CloseDay};
ghost use Rattle.rtgs_book.specs.declared.answer.Answer.TheVariants.{CreditSet, Nothing, Closed};
ghost use Rattle.rtgs_book.specs.declared.refusal.Refusal.TheVariants.{Failed};
ghost use Rattle.rtgs_book.specs.Books.{is_queued};
ghost use Rattle.rtgs_book.specs.Choice.{Choice, chosen, IsGreatest};
ghost use Rattle.rtgs_book.specs.Commands.{repeated};
ghost use Rattle.rtgs_book.specs.Laws.{KeepsWhatIsFinal};
ghost use Rattle.rtgs_book.specs.Outcome.{Reply, alone};
ghost use Rattle.rtgs_book.specs.Calm.{IsCalm};
ghost use Rattle.rtgs_book.specs.Run.{Run, is_accepted, once};
ghost use Rattle.rtgs_book.specs.Session.{Session, IsSession, IsLife, MayFind, answered, answers, open_command};
ghost use Rattle.rtgs_book.specs.Soundness.{IsSound};
ghost use Rattle.rtgs_book.specs.Step.{Step};
ghost use Rattle.rtgs_laws.specs.Through.{GoesThrough};
ghost use Rattle.rtgs_laws.specs.repeats.Batch.{IsOrderOf, MayComeAgain};
ghost use Rattle.rtgs_laws.specs.repeats.Kept.{AreKept};
ghost use Rattle.rtgs_laws.specs.repeats.Lasting.{IsLasting, AreLasting};
ghost use Rattle.rtgs_laws.specs.repeats.Lives.{AreLived, joined};
ghost use Rattle.rtgs_laws.specs.repeats.Once.{once_replies};
ghost use Rattle.rtgs_laws.specs.repeats.Repeats.{acts_once, answered_number, IsRepeat};

use crate::laws::{
    followed_books_are_calm, own_step_keeps_soundness, run_keeps_calm, run_keeps_soundness,
    run_keeps_what_is_final, step_is_determined, step_keeps_calm, step_keeps_soundness,
    step_keeps_what_is_final, total_moves_by_postings, what_did_not_act_leaves_the_book,
};
use rtgs_book::laws::{
    balance_after_order, balance_after_settling, chosen_are_beginnings, greatest_exists,
    greatest_is_unique, rest_stays_queued, settled_balances,
};

/// Whatever comes, a code, a posting's reference and an order's name mean what they meant: the
/// participant with its name and key, the posting, and the order with its number and all that it said when it was
/// sent. Only a queued or held order changes its state, and only a held one its date.
pub fn records_are_kept()
    ensures { (old new : Book) (commands : List Command) (replies : List Reply) → IsSound old
        → Run old commands replies new → AreKept old new }
{
    own_step_keeps_soundness();
    step_keeps_soundness();
    kept_records_go_through();
}

/// What is kept up to a book in between, and from there on, is kept from the first book to the last.
pub fn kept_records_go_through()
    ensures { GoesThrough AreKept }
{}

/// A participant, posting, order or withdrawal that was accepted is answered as a repeat when it
/// comes again, whatever came between, and changes nothing: with its number, and an order with its
/// state now.
pub fn acted_is_repeated()
    ensures { (old mid new : Book) (command : Command) (reply : Reply) (commands : List Command) (replies : List Reply)
        → IsSound old → acts_once command ≡ true → is_accepted reply ≡ true → Step old command reply mid
        → Run mid commands replies new →
        (again : Reply) × IsRepeat new command (answered_number reply) again × Step new command again new }
{
    own_step_keeps_soundness();
    step_keeps_soundness();
    records_are_kept();
}

/// To open, cut off or close the day again at once is answered as a repeat, and changes nothing.
pub fn day_is_repeated()
    ensures opened { (old new : Book) (new_day : NewDay) (reply : Reply) → is_accepted reply ≡ true
        → Step old (OpenDay new_day) reply new → Step new (OpenDay new_day) (alone repeated) new }
    ensures cut_off { (old new : Book) (date : ℕ) (reply : Reply) → is_accepted reply ≡ true
        → Step old (CutOff date) reply new → Step new (CutOff date) (alone repeated) new }
    ensures closed { (old new : Book) (date : ℕ) (reply : Reply) → IsSound old → is_accepted reply ≡ true
        → Step old (CloseDay date) reply new → Step new (CloseDay date) (alone repeated) new }
{
    step_keeps_soundness();
    greatest_exists();
}

/// To set the same credit again at once is answered as the first time, and changes nothing.
pub fn credit_stays()
    ensures { (old new : Book) (code : List ℕ) (credit : ℕ) (reply : Reply) → IsSound old → is_accepted reply ≡ true
        → Step old (SetCredit code credit) reply new → Step new (SetCredit code credit) (alone (Ok CreditSet)) new }
{
    greatest_exists();
    step_keeps_soundness();
    followed_books_are_calm();
}

/// A resolution that comes right after an accepted one finds nothing to settle, and changes nothing.
pub fn resolved_leaves_nothing()
    ensures { (old new : Book) (reply : Reply) → IsSound old → is_accepted reply ≡ true → Step old Resolve reply new
        → Step new Resolve (alone (Ok Nothing)) new }
{
    chosen_are_beginnings();
    rest_stays_queued();
    settled_balances();
    greatest_exists();
    own_step_keeps_soundness();
}

/// A day that is closed had nothing that a resolution could settle: what it rejected was a deadlock.
/// Its answer counts the orders that were queued.
pub fn closing_had_no_gridlock()
    ensures choice { (old new : Book) (date count : ℕ) (choice : Choice)
        → Step old (CloseDay date) (alone (Ok (Closed count))) new → IsGreatest old choice → chosen old choice ≡ [] }
    ensures count { (old new : Book) (date count : ℕ) → Step old (CloseDay date) (alone (Ok (Closed count))) new
        → count ≡ length (filter is_queued old.orders) }
{
    greatest_is_unique();
}

/// Of each order and posting one is enough: without the others a list leads to the same book, with
/// the same replies to the rest.
pub fn once_ends_alike()
    ensures { (old new : Book) (commands : List Command) (replies : List Reply) → IsSound old
        → Run old commands replies new → Run old (once old commands replies) (once_replies old commands replies) new }
{
    own_step_keeps_soundness();
    what_did_not_act_leaves_the_book();
    step_keeps_soundness();
}

/// A batch of orders of one sender may stop anywhere: sent again from its first, right after, it ends in the
/// book to which one sending would have led. On an automatic day no order before the stop may have met a
/// full queue, since it could be taken the second time.
pub fn resumed_batch_ends_alike()
    ensures { (old mid last end : Book) (sender : List ℕ) (first rest : List Command) (one two three : List Reply)
        → IsSound old → AllByRecursion (IsOrderOf sender) (first ++ rest) → MayComeAgain old one →
        Run old first one mid → Run mid (first ++ rest) two last → Run old (first ++ rest) three end → last ≡ end }
{
    balance_after_order();
    balance_after_settling();
    own_step_keeps_soundness();
    what_did_not_act_leaves_the_book();
    step_keeps_soundness();
    step_is_determined();
}

/// So it ends where the store failed at its next order, of which nobody knows whether it acted: sent
/// again from the book that is found, with that order or without it.
pub fn stopped_batch_ends_alike()
    ensures { (old mid found last end : Book) (sender : List ℕ) (first rest : List Command)
        (one two three : List Reply) → IsSound old → AllByRecursion (IsOrderOf sender) (first ++ rest)
        → MayComeAgain old one →
        Run old first one mid → MayFind mid (open_command rest []) found → Run found (first ++ rest) two last
        → Run old (first ++ rest) three end → last ≡ end }
{
    resumed_batch_ends_alike();
    what_did_not_act_leaves_the_book();
}

/// A list of commands has beginnings: its run is that of the first commands with their replies, and
/// from the book that these lead to, the run of the rest.
pub fn runs_begin()
    ensures { (old new : Book) (commands : List Command) (replies : List Reply) (n : ℕ) → Run old commands replies new →
        (mid : Book) × Run old (take n commands) (take n replies) mid × Run mid (drop n commands) (drop n replies) new }
{}

/// Sessions with a desk, however many stops lie between them, lead to a book that one list of
/// commands leads to: it has every answered command in order, with its reply, and of each session
/// at most one command more. What was final in the first book stands in the last.
pub fn life_is_a_run()
    ensures run { (book found : Book) (sessions : List Session) → IsLife book sessions found
        → (commands : List Command) × (replies : List Reply) × AreLived sessions commands replies
        × Run book commands replies found }
    ensures stands { (book found : Book) (sessions : List Session) → IsSound book → IsLife book sessions found
        → IsSound found × KeepsWhatIsFinal book found }
    ensures calm { (book found : Book) (sessions : List Session) → IsSound book → IsCalm book
        → IsLife book sessions found → AllByRecursion (λ (s : Session). IsCalm s.found) sessions × IsCalm found }
{
    step_keeps_soundness();
    step_keeps_calm();
    run_keeps_soundness();
    run_keeps_what_is_final();
    run_keeps_calm();
}

/// In a session from a sound, calm book, the book after each beginning of its answered commands is
/// calm, and so is the one that is found.
pub fn sessions_are_calm()
    ensures between { (s : Session) (n : ℕ) → IsSound s.start → IsCalm s.start → IsSession s → (mid : Book)
        × Run s.start (take n (answered s.commands s.replies)) (take n (answers s.replies)) mid × IsCalm mid }
    ensures found { (s : Session) → IsSound s.start → IsCalm s.start → IsSession s → IsCalm s.found }
{
    step_keeps_calm();
    run_keeps_soundness();
    run_keeps_calm();
    runs_begin();
}

/// A session goes on: what is done next from the book that it left joins it, one command or a list, where no command of
/// it is open. Once the store has failed, commands that are all answered `Failed` join it.
pub fn sessions_join()
    ensures joined { (one next : Session) → IsSession one → open_command one.commands one.replies ≡ None
        → next.start ≡ one.found → IsSession next → IsSession (joined one next) }
    ensures failed { (one : Session) (commands : List Command) (replies : List Reply) → IsSession one
        → length one.replies ≡ length one.commands → length replies ≡ length commands
        → AllByRecursion (λ reply. reply ≡ Err Failed) replies
        → IsSession (record {
          start = one.start;
          commands = one.commands ++ commands;
          replies = one.replies ++ replies;
          found = one.found;
        }) }
{}

/// What was answered lasts: marks and settled orders stand, money is what was posted, what acts
/// once is known for good, the rest changes nothing at once again, and a close rejects deadlocks
/// alone.
pub fn steps_last()
    ensures { (old new : Book) (command : Command) (reply : Reply) → IsSound old → Step old command reply new
        → IsLasting old command reply new }
{
    step_keeps_what_is_final();
    total_moves_by_postings();
    acted_is_repeated();
    day_is_repeated();
    credit_stays();
    resolved_leaves_nothing();
    closing_had_no_gridlock();
    step_keeps_calm();
}

/// So it is with a list of commands: marks and settled orders stand, money is what its accepted
/// postings put in, and each order and posting of it acted but once.
pub fn runs_last()
    ensures { (old new : Book) (commands : List Command) (replies : List Reply) → IsSound old
        → Run old commands replies new → AreLasting old commands replies new }
{
    run_keeps_what_is_final();
    step_keeps_soundness();
    total_moves_by_postings();
    once_ends_alike();
    run_keeps_calm();
}
