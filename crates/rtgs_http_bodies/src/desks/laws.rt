//! What is shown of accounts, queues and orders that wait, as laws over the definitions.
ghost use Rattle.std.specs.Prelude.{◌≡◌, ℕ, List, Ok, FitsSigned};
ghost use Rattle.std.specs.Int.{w64};
ghost use Rattle.rtgs_book.specs.declared.book.Book.{Book};
ghost use Rattle.rtgs_book.specs.Choice.{Choice};
ghost use Rattle.rtgs_book.specs.Ranges.{Fits};
ghost use Rattle.rtgs_book.specs.Soundness.{IsSound};
ghost use Rattle.rtgs_desk.specs.Queues.{queue_readings};
ghost use Rattle.rtgs_desk.specs.Readings.{account_answer, readings_of, status_of, waiting_answer};
ghost use Rattle.rtgs_book.specs.declared.account_reading.AccountReading.{AccountReading};
ghost use Rattle.rtgs_book.specs.declared.waiting_reading.WaitingReading.{WaitingReading};
ghost use Rattle.rtgs_http_bodies.specs.desks.Accounts.{QueuedValuesFit};
ghost use Rattle.rtgs_http_bodies.specs.desks.Queues.{QueuesFit};
ghost use Rattle.rtgs_http_bodies.specs.desks.Status.{StatusFits};
ghost use Rattle.rtgs_http_bodies.specs.desks.Waiting.{WaitingFits};

use rtgs_book::laws::{balances_are_small, few_orders_wait, total_is_small};

/// What the orders of a queue pay together is far below 2^63 cents, in each account of a sound book whose amounts are
/// in their ranges.
pub fn queued_values_fit()
    ensures { (book : Book) (code : List ℕ) (reading : AccountReading) → IsSound book → Fits book
        → account_answer book code ≡ Ok reading → FitsSigned w64 reading.queued_value }
{}

/// So it is in all accounts of the book together.
pub fn all_queued_values_fit()
    ensures { (book : Book) → IsSound book → Fits book → QueuedValuesFit (readings_of book) }
{}

/// So is each sum that is shown of a queue: what it pays, what it pays one receiver, and what a resolution would settle
/// of it.
pub fn all_queue_sums_fit()
    ensures { (book : Book) (choice : Choice) → IsSound book → Fits book → QueuesFit (queue_readings book choice) }
{}

/// So are the headroom, what the first order lacks, and what is queued and held of a participant.
pub fn waiting_values_fit()
    ensures { (book : Book) (code : List ℕ) (reading : WaitingReading) → IsSound book → Fits book
        → waiting_answer book code ≡ Ok reading → WaitingFits reading }
{
    balances_are_small();
}

/// So are all balances together, and what is queued and held of all participants.
pub fn status_values_fit()
    ensures { (book : Book) → IsSound book → Fits book → StatusFits (status_of book) }
{
    total_is_small();
    few_orders_wait();
}
