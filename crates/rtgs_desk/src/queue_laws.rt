//! Laws of what a desk says of all queues. Each function does nothing: its contract is the law.
ghost use Rattle.std.specs.Prelude.{◌≡◌, ◌≤◌, true};
ghost use Rattle.std.specs.List.{AllByRecursion};
ghost use Rattle.rtgs_book.specs.declared.book.Book.{Book};
ghost use Rattle.rtgs_book.specs.Books.{is_empty};
ghost use Rattle.rtgs_book.specs.Choice.{Choice, IsGreatest, chosen};
ghost use Rattle.rtgs_book.specs.Soundness.{IsSound, OrdersAreNumbered};
ghost use Rattle.rtgs_desk.specs.Queues.{AgreesWithAccount, IsCoveredAsSaid, SharesTheQueue, queue_readings};

use rtgs_book::laws::chosen_are_beginnings;

/// How many orders a queue has, and what they pay, is said as of its participant's account.
pub fn queues_agree_with_accounts()
    ensures { (book : Book) (choice : Choice) → AllByRecursion (AgreesWithAccount book) (queue_readings book choice) }
{}

/// What is said of a queue's receivers is, together, what is said of the queue.
pub fn receivers_share_the_queue()
    ensures { (book : Book) (choice : Choice) → IsSound book
        → AllByRecursion SharesTheQueue (queue_readings book choice) }
{}

/// Where the greatest choice has no order, no order of a queue would settle: so it is on an automatic day of a calm
/// book, and wherever a resolution settles nothing.
pub fn nothing_settles_if_nothing_is_chosen()
    ensures { (book : Book) (choice : Choice) → OrdersAreNumbered book → is_empty (chosen book choice) ≡ true
        → AllByRecursion (λ reading. reading.settling ≡ 0) (queue_readings book choice) }
{
    chosen_are_beginnings();
}

/// And where no order of any queue would settle, the greatest choice has none: a resolution settles nothing.
pub fn nothing_is_chosen_if_nothing_settles()
    ensures { (book : Book) (choice : Choice) → IsSound book
        → AllByRecursion (λ reading. reading.settling ≡ 0) (queue_readings book choice)
        → is_empty (chosen book choice) ≡ true }
{
    chosen_are_beginnings();
}

/// A queue is short of nothing exactly where the headroom covers its first order.
pub fn nothing_is_short_if_covered()
    ensures { (book : Book) (choice : Choice) → AllByRecursion IsCoveredAsSaid (queue_readings book choice) }
{}

/// An order that is the first of its queue and has cover would settle.
pub fn covered_first_order_settles()
    ensures { (book : Book) (choice : Choice) → IsSound book → IsGreatest book choice
        → AllByRecursion (λ reading. reading.short ≡ 0 → 1 ≤ reading.settling) (queue_readings book choice) }
{
    chosen_are_beginnings();
}
