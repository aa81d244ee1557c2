//! Whether few orders of each sender wait, and queues are of the day, and empty while the desk is closed.
ghost use Rattle.std.specs.Prelude.{◌≡◌, ◌↔◌, ◌≤◌, ◌+◌, ◌*◌, ◌==◌, ℕ, List, ℤ, pos, ◌+ℤ◌, ◌≤ℤ◌, ◌&&◌, ◌||◌, map};
ghost use Rattle.std.specs.Prelude.{filter, if◌then◌else◌, IfOk, IsTrue, Some, true, false, not, length};
ghost use Rattle.std.specs.BTreeMap.{get};
ghost use Rattle.std.specs.Cmp.Lexicographic.{slice_cmp};
ghost use Rattle.std.specs.List.{AllByRecursion, list_all};
ghost use Rattle.std.specs.Ordering.{nat_cmp};
ghost use Rattle.std.specs.Str.{bytes_eq};
ghost use Rattle.rtgs_book.specs.declared.limits.TheConstants.{LONGEST_QUEUE, LARGEST_NUMBER};
ghost use Rattle.rtgs_book.specs.declared.order.Order.{Order};
ghost use Rattle.rtgs_book.specs.declared.participant.Participant.{Participant};
ghost use Rattle.rtgs_book.specs.Books.{is_closed, is_queued, is_waiting};
ghost use Rattle.rtgs_book.specs.IntSum.{int_sum_by};
ghost use Rattle.rtgs_book.specs.Lookup.{codes_of};
ghost use Rattle.rtgs_book.specs.Queue.{waiting};
ghost use Rattle.rtgs_book.specs.Settle.{today};
ghost use Rattle.rtgs_book.specs.Soundness.{QueuesFit};
ghost use Rattle.rtgs_book.specs.Totals.{Totals, AreWithin};

use crate::rules::parties::codes_of;
use crate::rules::totals::{add, zeros};
use rtgs_book::{Book, LONGEST_QUEUE, Order, OrderState, Participant, Phase};
use rtgs_money::Code;
use std::alloc::{AllocError, Global};
use std::collections::BTreeMap;

/// Whether nothing is queued while the desk is closed, at most `LONGEST_QUEUE` orders of each sender are queued or
/// held, and queued orders are of the day.
pub fn queues_fit(alloc: Global, book: &Book) -> Result<bool, AllocError>
    requires { length book.now.orders ≤ LARGEST_NUMBER }
    ensures { IfOk result (λ yes. IsTrue yes ↔ QueuesFit book.now) }
{
    let lengths = waiting_lengths(alloc, book)?;
    if !are_short(&lengths, book.participants.as_slice()) {
        return Ok(false);
    }
    Ok(are_queued_today(book))
}

// Whether nothing is queued while the desk is closed, and queued orders are of the day.
fn are_queued_today(book: &Book) -> bool
    ensures { result ≡ list_all (λ (o : Order). not (is_queued o)
        || (not (is_closed book.now.day.phase) && (o.date == today book.now))) book.now.orders }
{
    let today = match book.day.date {
        Some(date) => date.number(),
        None => 0,
    };
    are_queued_on(
        book.orders.as_slice(),
        book.day.phase != Phase::Closed,
        today,
    )
}

// Whether there is a day where an order is queued, and each is of this date.
fn are_queued_on(orders: &[Order], has_day: bool, today: u32) -> bool
    ensures { result ≡ list_all (λ (o : Order). not (is_queued o) || (has_day && (o.date == today))) orders.now }
{
    orders.iter().all(|order| order.state != OrderState::Queued
        || (has_day && order.date.number() == today))
}

// Whether few orders of each participant wait.
fn are_short(lengths: &BTreeMap<Code, i128>, participants: &[Participant]) -> bool
    ensures { (length_of : List ℕ → ℤ) → Totals (slice_cmp nat_cmp)
        (map (λ (p : Participant). p.code) participants.now) length_of lengths.now →
        (IsTrue result ↔ AllByRecursion (λ (p : Participant). length_of p.code ≤ℤ pos LONGEST_QUEUE) participants.now) }
{
    for participant in participants {
        if !is_short(lengths, participant) {
            return false;
        }
    }
    true
}

// Whether few orders of the participant wait.
fn is_short(lengths: &BTreeMap<Code, i128>, participant: &Participant) -> bool
    ensures { (length : ℤ) → get (slice_cmp nat_cmp) lengths.now participant.now.code ≡ Some length
        → (IsTrue result ↔ (length ≤ℤ pos LONGEST_QUEUE)) }
{
    match lengths.get(&participant.code) {
        Some(length) => *length <= LONGEST_QUEUE as i128,
        None => false,
    }
}

// How many orders of each participant are queued or held.
fn waiting_lengths(alloc: Global, book: &Book) -> Result<BTreeMap<Code, i128>, AllocError>
    requires { length book.now.orders ≤ LARGEST_NUMBER }
    ensures { IfOk result (Totals (slice_cmp nat_cmp) (codes_of book.now)
        (λ code. pos (length (waiting book.now code)))) }
{
    let mut lengths = zeros(alloc, codes_of(alloc, book.participants.as_slice())?)?;
    count_waiting(&mut lengths, book.orders.as_slice());
    Ok(lengths)
}

// Counts the orders that are queued or held under the codes of their senders.
fn count_waiting(lengths: &mut BTreeMap<Code, i128>, orders: &[Order])
    requires few { length orders.now ≤ LARGEST_NUMBER }
    requires small { AreWithin (slice_cmp nat_cmp) 0 lengths.old }
    ensures { (codes : List (List ℕ)) (length_of : List ℕ → ℤ) → Totals (slice_cmp nat_cmp) codes length_of lengths.old
        →
        Totals (slice_cmp nat_cmp) codes (λ code. length_of code +ℤ int_sum_by (λ (o : Order). pos 1)
        (filter (λ (o : Order). is_waiting o && bytes_eq o.sender code) orders.now)) lengths.new }
{
    for order in orders {
        count_order(lengths, order);
    }
}

// Counts the order, if it is queued or held, under the code of its sender.
fn count_order(lengths: &mut BTreeMap<Code, i128>, order: &Order)
    requires { AreWithin (slice_cmp nat_cmp) LARGEST_NUMBER lengths.old }
    ensures sums { (codes : List (List ℕ)) (length_of : List ℕ → ℤ) →
        Totals (slice_cmp nat_cmp) codes length_of lengths.old →
        Totals (slice_cmp nat_cmp) codes (λ code. length_of code +ℤ
        (if is_waiting order.now && bytes_eq order.now.sender code then pos 1 else pos 0)) lengths.new }
    ensures within { (bound : ℕ) → AreWithin (slice_cmp nat_cmp) bound lengths.old
        → AreWithin (slice_cmp nat_cmp) (bound + 1) lengths.new }
{
    if is_waiting(order) {
        add(lengths, &order.sender, 1);
    }
}

/// Whether the order is queued or held.
pub fn is_waiting(order: &Order) -> bool
    ensures { result ≡ is_waiting order.now }
{
    match order.state {
        OrderState::Queued => true,
        OrderState::Held => true,
        OrderState::Settled(_) => false,
        OrderState::Withdrawn => false,
        OrderState::Rejected => false,
    }
}
