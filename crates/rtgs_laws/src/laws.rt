//! Laws of commands: what each leaves of a book, and what a list of them does. Each function does nothing: its
//! contract is the law.
ghost use Rattle.std.specs.Prelude.{◌≡◌, ◌≤◌, ◌+ℤ◌, ℕ, Bool, true, false, List, length};
ghost use Rattle.std.specs.List.{AllByRecursion};
ghost use Rattle.rtgs_book.specs.declared.book.Book.{Book};
ghost use Rattle.rtgs_book.specs.declared.command.Command.{Command};
ghost use Rattle.rtgs_book.specs.declared.order.Order.{Order};
ghost use Rattle.rtgs_book.specs.Books.{is_queued};
ghost use Rattle.rtgs_book.specs.Commands.{with_credit};
ghost use Rattle.rtgs_book.specs.Lookup.{codes_of};
ghost use Rattle.rtgs_laws.specs.Quiet.{FreesNothing};
ghost use Rattle.rtgs_book.specs.Laws.{posted, KeepsWhatIsFinal, CommandFits};
ghost use Rattle.rtgs_book.specs.Outcome.{OwnReply, Reply, is_done};
ghost use Rattle.rtgs_book.specs.Balance.{total};
ghost use Rattle.rtgs_book.specs.Settle.{settle};
ghost use Rattle.rtgs_book.specs.Ranges.{Fits};
ghost use Rattle.rtgs_book.specs.Run.{Run};
ghost use Rattle.rtgs_book.specs.Calm.{IsCalm};
ghost use Rattle.rtgs_book.specs.Step.{OwnStep, Step, is_followed};
ghost use Rattle.rtgs_book.specs.Soundness.{IsSound};
ghost use Rattle.rtgs_laws.specs.Through.{GoesThrough};

use rtgs_book::laws::{
    balance_after_entering, balance_after_posting, balance_after_restating, balance_after_settling,
    balance_of_unknown_code, chosen_are_beginnings, greatest_exists, greatest_is_unique,
    rest_stays_queued, settled_balances, total_is_issued,
};

/// A command by itself has one reply at most, and leaves one book.
pub fn own_step_is_determined()
    ensures { (old new last : Book) (command : Command) (reply other : OwnReply) → OwnStep old command reply new
        → OwnStep old command other last → (reply ≡ other) × (new ≡ last) }
{
    greatest_is_unique();
}

/// By itself it leaves a sound book sound.
pub fn own_step_keeps_soundness()
    ensures { (old new : Book) (command : Command) (reply : OwnReply) → IsSound old → OwnStep old command reply new
        → IsSound new }
{
    balance_after_posting();
    balance_after_restating();
    balance_after_entering();
    balance_after_settling();
    balance_of_unknown_code();
    total_is_issued();
}

/// By itself it leaves amounts in their ranges.
pub fn own_step_keeps_ranges()
    ensures { (old new : Book) (command : Command) (reply : OwnReply) → CommandFits command → Fits old
        → OwnStep old command reply new → Fits new }
{}

/// What did not act by itself, being refused or a repeat, leaves the book as it was.
pub fn what_did_not_act_leaves_the_book()
    ensures { (old new : Book) (command : Command) (reply : OwnReply) → OwnStep old command reply new
        → is_done reply ≡ false → new ≡ old }
{}

/// A new credit limit leaves the same accounts.
pub fn new_credit_leaves_the_accounts()
    ensures { (book : Book) (code : List ℕ) (credit : ℕ) → codes_of (with_credit book code credit) ≡ codes_of book }
{}

/// A command has one reply at most, and leaves one book.
pub fn step_is_determined()
    ensures { (old new last : Book) (command : Command) (reply other : Reply) → Step old command reply new
        → Step old command other last → (reply ≡ other) × (new ≡ last) }
{
    greatest_is_unique();
}

/// In a sound book a command has a reply.
pub fn step_exists()
    ensures { (book : Book) (command : Command) → IsSound book
        → (reply : Reply) × (new : Book) × Step book command reply new }
{
    greatest_exists();
    own_step_keeps_soundness();
}

/// Where a resolution followed a command, nothing is left to settle, whatever was before.
pub fn followed_books_are_calm()
    ensures { (old new : Book) (command : Command) (reply : Reply) → IsSound old
        → (s : Step old command reply new) → is_followed command s.0 ≡ true → IsCalm new }
{
    chosen_are_beginnings();
    rest_stays_queued();
    settled_balances();
    own_step_keeps_soundness();
}

/// Where nobody with a queue gains what it could pay with, and no queue has more that is within reach, a calm book is
/// calm afterwards, without a resolution.
pub fn quiet_changes_leave_calm()
    ensures { (old new : Book) → IsSound old → IsSound new → FreesNothing old new → IsCalm old → IsCalm new }
{
    chosen_are_beginnings();
    greatest_exists();
}

/// Each command leaves a calm book calm.
pub fn step_keeps_calm()
    ensures { (old new : Book) (command : Command) (reply : Reply) → IsSound old → IsCalm old
        → Step old command reply new → IsCalm new }
{
    balance_after_posting();
    balance_after_restating();
    balance_after_entering();
    balance_after_settling();
    balance_of_unknown_code();
    total_is_issued();
    chosen_are_beginnings();
    rest_stays_queued();
    settled_balances();
    greatest_exists();
    own_step_keeps_soundness();
}

/// So does each list of commands.
pub fn run_keeps_calm()
    ensures { (old new : Book) (commands : List Command) (replies : List Reply) → IsSound old → IsCalm old
        → Run old commands replies new → IsCalm new }
{
    step_keeps_soundness();
    step_keeps_calm();
}

/// Each command leaves a sound book sound.
pub fn step_keeps_soundness()
    ensures { (old new : Book) (command : Command) (reply : Reply) → IsSound old → Step old command reply new
        → IsSound new }
{
    own_step_keeps_soundness();
}

/// So does each list of commands.
pub fn run_keeps_soundness()
    ensures { (old new : Book) (commands : List Command) (replies : List Reply) → IsSound old
        → Run old commands replies new → IsSound new }
{
    step_keeps_soundness();
}

/// To settle queued orders moves money, and makes none.
pub fn settling_keeps_the_total()
    ensures { (book : Book) (is_in : Order → Bool) → IsSound book
        → AllByRecursion (λ order. is_in order ≡ true → is_queued order ≡ true) book.orders
        → total (settle book is_in) ≡ total book }
{
    total_is_issued();
}

/// All balances together move by the cents of an accepted posting alone.
pub fn total_moves_by_postings()
    ensures { (old new : Book) (command : Command) (reply : Reply) → IsSound old → Step old command reply new
        → total new ≡ total old +ℤ posted command reply }
{
    own_step_keeps_soundness();
    total_is_issued();
}

/// A mark stands for good, and so does a settled order.
pub fn step_keeps_what_is_final()
    ensures { (old new : Book) (command : Command) (reply : Reply) → IsSound old → Step old command reply new
        → KeepsWhatIsFinal old new }
{
    own_step_keeps_soundness();
    what_is_final_goes_through();
}

/// What stands up to a book in between, and from there on, stands from the first book to the last.
pub fn what_is_final_goes_through()
    ensures { GoesThrough KeepsWhatIsFinal }
{}

/// So marks and settled orders stand over each list of commands.
pub fn run_keeps_what_is_final()
    ensures { (old new : Book) (commands : List Command) (replies : List Reply) → IsSound old
        → Run old commands replies new → KeepsWhatIsFinal old new }
{
    step_keeps_soundness();
    step_keeps_what_is_final();
    what_is_final_goes_through();
}

/// Amounts stay in their ranges.
pub fn step_keeps_ranges()
    ensures { (old new : Book) (command : Command) (reply : Reply) → CommandFits command → Fits old
        → Step old command reply new → Fits new }
{}

/// A sound book has no more marks than orders, so that numbers of marks never run out before those of orders.
pub fn marks_are_few()
    ensures { (book : Book) → IsSound book → length book.marks ≤ length book.orders }
{}
