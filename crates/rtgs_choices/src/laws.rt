//! Laws of choices by index, and of the rows that settle a choice. Each function does nothing: its
//! contract is the law.
ghost use Rattle.std.specs.Prelude.{◌≡◌, ℕ, ◌<◌, ◌≤◌, Bool, true, false, Ok, List, [], ◌∷◌, ◌++◌, map, filter, length};
ghost use Rattle.std.specs.Prelude.{sum_by};
ghost use Rattle.std.specs.List.{AllByRecursion, flat_map};
ghost use Rattle.rtgs_gridlock.specs.Choices.{AreFloored, AreInRange, IsWithin, payment_count, after};
ghost use Rattle.rtgs_gridlock.specs.Choices as resolver;
ghost use Rattle.rtgs_gridlock.specs.Laws.{order_count, value_of};
ghost use Rattle.rtgs_gridlock.specs.Slack as slack;
ghost use Rattle.rtgs_book.specs.declared.limits.TheConstants.{MOST_QUEUED};
ghost use Rattle.rtgs_book.specs.declared.book.Book.{Book};
ghost use Rattle.rtgs_book.specs.declared.mark.Mark.{Mark};
ghost use Rattle.rtgs_book.specs.declared.order.Order.{Order};
ghost use Rattle.rtgs_book.specs.declared.order_state.OrderState.{OrderState};
ghost use Rattle.rtgs_book.specs.declared.order_state.OrderState.TheVariants.{Settled};
ghost use Rattle.rtgs_book.specs.declared.change.RowChange.{RowChange};
ghost use Rattle.rtgs_book.specs.declared.change.RowChange.TheVariants.{AddMark};
ghost use Rattle.rtgs_book.specs.declared.command.Command.TheVariants.{Resolve, CloseDay};
ghost use Rattle.rtgs_book.specs.declared.answer.Answer.TheVariants.{Resolved};
ghost use Rattle.rtgs_book.specs.declared.answer.Answer.TheVariants as answer;
ghost use Rattle.rtgs_book.specs.Books.{is_cut_off, is_empty, is_queued};
ghost use Rattle.rtgs_book.specs.Calm.{IsCalm};
ghost use Rattle.rtgs_book.specs.Lookup.{codes_of};
ghost use Rattle.rtgs_book.specs.IntSum.{int_sum_by};
ghost use Rattle.rtgs_book.specs.Balance.{balance, gain};
ghost use Rattle.rtgs_book.specs.Queue.{queued_numbers};
ghost use Rattle.rtgs_book.specs.Choice.{Choice, is_chosen, chosen, balance_after, IsGreatest};
ghost use Rattle.rtgs_book.specs.Commands.{is_on, overdrawn, with_altered, with_state};
ghost use Rattle.rtgs_book.specs.Settle.{settle, mark_of, next_mark};
ghost use Rattle.rtgs_book.specs.Changes.{balance_set, changed, SetsBalances, Leads, StartsEmpty};
ghost use Rattle.rtgs_book.specs.Soundness.{IsSound};
ghost use Rattle.rtgs_book.specs.Step.{OwnStep};
ghost use Rattle.rtgs_choices.specs.ByIndex.{code_at, index_of, positions_of, queues_of, by_code};
ghost use Rattle.rtgs_choices.specs.Ceilings.{AreBelow, IsCeilingOf, Limits};
ghost use Rattle.rtgs_choices.specs.Closing.{closed_book, closing_rows};
ghost use Rattle.rtgs_choices.specs.OneByOne.{ChangesOrders, passes_one};
ghost use Rattle.rtgs_choices.specs.Settling.{orders_taken, numbers_taken, is_numbered, state_rows, IsOfBalance};
ghost use Rattle.rtgs_choices.specs.Settling.{settling_rows};
ghost use Rattle.rtgs_choices.specs.Joining.{joined_rows};

use rtgs_book::laws::{balance_after_restating, chosen_are_beginnings, settled_balances};

/// What the resolver is given of a sound book meets its conditions, with `MOST_QUEUED` payments at most.
pub fn conditions_hold()
    ensures positions { (book : Book) → length (positions_of book) ≡ length (codes_of book) }
    ensures queues { (book : Book) → length (queues_of book) ≡ length (codes_of book) }
    ensures floored { (book : Book) → IsSound book → AreFloored (positions_of book) }
    ensures receivers { (book : Book) → IsSound book → AreInRange (queues_of book) }
    ensures payments { (book : Book) → IsSound book → payment_count (queues_of book) ≤ MOST_QUEUED }
{}

/// A choice by index and the choice by code that it means take as much of each participant's
/// queue, leave it the same balance, and have the same count and value.
pub fn choices_agree()
    ensures indexes { (book : Book) (i : ℕ) → IsSound book → i < length (codes_of book)
        → index_of book (code_at book i) ≡ i }
    ensures lengths { (book : Book) (lengths : ℕ → ℕ) (i : ℕ) → IsSound book → i < length (codes_of book)
        → by_code book lengths (code_at book i) ≡ lengths i }
    ensures balances { (book : Book) (lengths : ℕ → ℕ) (i : ℕ) → IsSound book → i < length (codes_of book)
        → balance_after book (by_code book lengths) (code_at book i)
        ≡ after (positions_of book) (queues_of book) lengths i }
    ensures count { (book : Book) (lengths : ℕ → ℕ) → IsSound book → IsWithin (queues_of book) lengths
        → length (chosen book (by_code book lengths)) ≡ order_count (queues_of book) lengths }
    ensures value { (book : Book) (lengths : ℕ → ℕ) → IsSound book
        → sum_by (λ (o : Order). o.amount) (chosen book (by_code book lengths)) ≡ value_of (queues_of book) lengths }
{
    chosen_are_beginnings();
}

/// The resolver's greatest choice by index is the book's greatest choice by code.
pub fn greatest_means_greatest()
    ensures { (book : Book) (lengths : ℕ → ℕ) → IsSound book
        → resolver.IsGreatest (positions_of book) (queues_of book) lengths → IsGreatest book (by_code book lengths) }
{
    chosen_are_beginnings();
}

/// Where the resolver finds nothing to settle, the book is calm.
pub fn calm_means_calm()
    ensures { (book : Book) → IsSound book → slack.IsCalm (positions_of book) (queues_of book) → IsCalm book }
{
    chosen_are_beginnings();
}

/// While each account's headroom, its balance above its floor, is below its limit, the book is calm.
/// Such limits are what `greatest` of `rtgs_gridlock` leaves where it chose nothing: each headroom
/// with its slack on top.
pub fn calm_below_limits()
    ensures { (book : Book) (limits : Limits) → IsSound book → IsCeilingOf book limits → AreBelow book limits
        → IsCalm book }
{
    chosen_are_beginnings();
}

/// An order is chosen where its number is among the first numbers of the queues, account by
/// account, and there are as many of these as chosen orders.
pub fn chosen_numbers()
    ensures numbers { (book : Book) (choice : Choice) → IsSound book
        → AllByRecursion (λ order. is_chosen book choice order
        ≡ is_numbered (numbers_taken book choice) order) book.orders }
    ensures count { (book : Book) (choice : Choice) → IsSound book
        → length (chosen book choice) ≡ length (numbers_taken book choice) }
{
    chosen_are_beginnings();
}

/// The orders that are taken account by account are the chosen ones in another order: they have the
/// same value, and each account gains as much by them. Their numbers are those that are taken.
pub fn taken_are_chosen()
    ensures numbers { (book : Book) (choice : Choice) → IsSound book
        → numbers_taken book choice ≡ map (λ (o : Order). o.number) (orders_taken book choice) }
    ensures value { (book : Book) (choice : Choice) → IsSound book
        → sum_by (λ (o : Order). o.amount) (orders_taken book choice)
        ≡ sum_by (λ (o : Order). o.amount) (chosen book choice) }
    ensures gains { (book : Book) (choice : Choice) (code : List ℕ) → IsSound book
        → int_sum_by (gain code) (orders_taken book choice) ≡ int_sum_by (gain code) (chosen book choice) }
{
    chosen_are_beginnings();
}

/// An order is queued where its number is in one of the queues, account by account, and there are as
/// many of these as queued orders.
pub fn queued_are_numbered()
    ensures numbers { (book : Book) → IsSound book → AllByRecursion
        (λ order. is_queued order ≡ is_numbered (flat_map (queued_numbers book.orders)
        (codes_of book)) order) book.orders }
    ensures count { (book : Book) → IsSound book → length (filter is_queued book.orders)
        ≡ length (flat_map (queued_numbers book.orders) (codes_of book)) }
{}

/// Rows that change orders, one after another, change all orders that pass the test of one of the numbers. They set no
/// balance, and add no participant.
pub fn changes_one_by_one()
    ensures book { (row : ℕ → RowChange) (passes : ℕ → Order → Bool) (change : Order → Order) (book : Book)
        (numbers : List ℕ) → ChangesOrders row passes change
        → changed book (map row numbers) ≡ with_altered book (passes_one passes numbers) change }
    ensures balances { (row : ℕ → RowChange) (passes : ℕ → Order → Bool) (change : Order → Order) (code : List ℕ)
        (numbers : List ℕ) (rows : List RowChange) → ChangesOrders row passes change
        → balance_set code (map row numbers ++ rows) ≡ balance_set code rows }
    ensures added { (row : ℕ → RowChange) (passes : ℕ → Order → Bool) (change : Order → Order) (new : Book)
        (numbers : List ℕ) (all rows : List RowChange) → ChangesOrders row passes change
        → AllByRecursion (StartsEmpty new all) rows → AllByRecursion (StartsEmpty new all) (map row numbers ++ rows) }
{}

/// To set the state of one order after another is to set that of all of them. With the mark and
/// the balances after them, the choice is settled.
pub fn states_one_by_one()
    ensures states { (book : Book) (state : OrderState) (numbers : List ℕ)
        → changed book (state_rows state numbers) ≡ with_state book (is_numbered numbers) state }
    ensures settled { (book : Book) (choice : Choice) (numbers : List ℕ) (balances : List RowChange) →
        AllByRecursion (λ order. is_chosen book choice order ≡ is_numbered numbers order) book.orders
        → is_empty (chosen book choice) ≡ false → AllByRecursion IsOfBalance balances →
        changed book (state_rows (Settled (next_mark book)) numbers ++ AddMark (mark_of book (chosen book choice))
        ∷ balances) ≡ settle book (is_chosen book choice) }
{}

/// The rows that settle a choice set the balances that move, and no others.
pub fn balances_one_by_one()
    ensures { (book : Book) (choice : Choice) (numbers : List ℕ) (mark : Mark)
        → SetsBalances book (settling_rows book choice numbers mark) (settle book (is_chosen book choice)) }
{
    settled_balances();
}

/// Where the greatest choice has orders, they are what a gridlock's resolution settles, and the
/// rows that settle them lead to that book and add no participant.
pub fn rows_settle()
    ensures step { (book : Book) (choice : Choice) (mark : Mark) → IsSound book → IsGreatest book choice
        → is_empty (chosen book choice) ≡ false → mark ≡ mark_of book (chosen book choice) →
        OwnStep book Resolve (Ok (Resolved mark.number mark.count mark.value)) (settle book (is_chosen book choice)) }
    ensures leads { (book : Book) (choice : Choice) (mark : Mark) → IsSound book
        → is_empty (chosen book choice) ≡ false → mark ≡ mark_of book (chosen book choice) →
        Leads book (settling_rows book choice (numbers_taken book choice) mark)
        (settle book (is_chosen book choice)) }
    ensures added { (book new : Book) (choice : Choice) (mark : Mark) → AllByRecursion
        (StartsEmpty new (settling_rows book choice (numbers_taken book choice) mark))
        (settling_rows book choice (numbers_taken book choice) mark) }
{
    chosen_numbers();
    states_one_by_one();
    balances_one_by_one();
}

/// Where the greatest choice has no order and nobody is below zero, the day that was cut off can be
/// closed, and the rows that reject what is queued and close the day lead to that book and add no participant. No
/// balance moves.
pub fn rows_close()
    ensures step { (book : Book) (choice : Choice) (date : ℕ) → is_cut_off book.day.phase ≡ true
        → is_on book date ≡ true → IsGreatest book choice → is_empty (chosen book choice) ≡ true → overdrawn book ≡ [] →
        OwnStep book (CloseDay date) (Ok (answer.Closed (length (filter is_queued book.orders)))) (closed_book book) }
    ensures leads { (book : Book) → IsSound book → Leads book (closing_rows book) (closed_book book) }
    ensures balances { (book : Book) (code : List ℕ) → balance (closed_book book) code ≡ balance book code }
    ensures added { (book new : Book) → AllByRecursion (StartsEmpty new (closing_rows book)) (closing_rows book) }
{
    balance_after_restating();
    queued_are_numbered();
    states_one_by_one();
}

/// Two changes, one after the other, are one: the rows of both without their balances, and then the balances that are
/// others at the end. It leads to the same book, and sets the balances that move, each once, and no others.
pub fn changes_join()
    ensures { (old mid new : Book) (one next : List RowChange) → codes_of new ≡ codes_of old → Leads old one mid
        → Leads mid next new → Leads old (joined_rows old one next new) new }
{}
