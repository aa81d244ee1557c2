//! Whether balances are at least their floors, and together within their limit.
ghost use Rattle.std.specs.Prelude.{◌≡◌, ◌↔◌, ◌≤◌, ◌+◌, ◌*◌, ◌^◌, if◌then◌else◌, ℕ, List, ℤ, pos, ◌+ℤ◌, ◌≤ℤ◌, map};
ghost use Rattle.std.specs.Prelude.{filter, IfOk, OnOk, IsTrue, Some, length};
ghost use Rattle.std.specs.BTreeMap.{get};
ghost use Rattle.std.specs.Cmp.Lexicographic.{slice_cmp};
ghost use Rattle.std.specs.List.{AllByRecursion};
ghost use Rattle.std.specs.Ordering.{nat_cmp};
ghost use Rattle.std.specs.Str.{bytes_eq};
ghost use Rattle.rtgs_money.specs.declared.amount.TheConstants.Amount as Amount;
ghost use Rattle.rtgs_money.specs.Amounts.{IsAmount, IsPostingAmount, IsCredit};
ghost use Rattle.rtgs_book.specs.declared.limits.TheConstants.{LARGEST_NUMBER, LARGEST_TOTAL};
ghost use Rattle.rtgs_book.specs.declared.order.Order.{Order};
ghost use Rattle.rtgs_book.specs.declared.participant.Participant.{Participant};
ghost use Rattle.rtgs_book.specs.declared.posting.Posting.{Posting};
ghost use Rattle.rtgs_book.specs.Books.{is_settled};
ghost use Rattle.rtgs_book.specs.Balance.{gain, balance, floor_at};
ghost use Rattle.rtgs_book.specs.IntSum.{int_sum_by};
ghost use Rattle.rtgs_book.specs.Lookup.{codes_of};
ghost use Rattle.rtgs_book.specs.Ranges.{Fits};
ghost use Rattle.rtgs_book.specs.Soundness.{CodesRise, FloorsHold};
ghost use Rattle.rtgs_book.specs.Totals.{Totals, AreWithin};

use crate::rules::parties::codes_of;
use crate::rules::totals::{add, zeros};
use rtgs_book::{Book, LARGEST_TOTAL, Order, OrderState, Participant, Phase, Posting};
use rtgs_money::Code;
use std::alloc::{AllocError, Global};
use std::collections::BTreeMap;

/// Whether every balance is at least its floor.
pub fn floors_hold(alloc: Global, book: &Book) -> Result<bool, AllocError>
    requires codes { CodesRise book.now }
    requires few_postings { length book.now.postings ≤ LARGEST_NUMBER }
    requires few_orders { length book.now.orders ≤ LARGEST_NUMBER }
    ensures floors { IfOk result (λ yes. IsTrue yes ↔ FloorsHold book.now) }
    ensures fits { IfOk result (λ yes. IsTrue yes → Fits book.now) }
{
    let balances = balances(alloc, book)?;
    let participants = book.participants.as_slice();
    Ok(are_covered(&balances, participants, book.day.phase))
}

/// Whether all that was posted is at most `LARGEST_TOTAL`.
pub fn is_issue_small(postings: &[Posting]) -> bool
    requires { length postings.now ≤ LARGEST_NUMBER }
    ensures { IsTrue result ↔ (int_sum_by (λ (p : Posting). p.cents) postings.now ≤ℤ pos LARGEST_TOTAL) }
{
    let mut issued = 0i128;
    for posting in postings {
        issued += i128::from(posting.cents.cents());
    }
    issued <= i128::from(LARGEST_TOTAL)
}

// Whether the balance of each participant is at least its floor.
fn are_covered(balances: &BTreeMap<Code, i128>, participants: &[Participant], phase: Phase) -> bool
    ensures covered { (balance_of : List ℕ → ℤ) → Totals (slice_cmp nat_cmp)
        (map (λ (p : Participant). p.code) participants.now) balance_of balances.now →
        (IsTrue result
        ↔ AllByRecursion (λ (p : Participant). floor_at phase p.credit ≤ℤ balance_of p.code) participants.now) }
    ensures credits { IsTrue result → AllByRecursion (λ (p : Participant). IsCredit p.credit) participants.now }
{
    for participant in participants {
        if !is_covered(balances, participant, phase) {
            return false;
        }
    }
    true
}

// Whether the participant's balance is at least its floor.
fn is_covered(balances: &BTreeMap<Code, i128>, participant: &Participant, phase: Phase) -> bool
    ensures covered { (balance : ℤ) → get (slice_cmp nat_cmp) balances.now participant.now.code ≡ Some balance →
        (IsTrue result ↔ (floor_at phase participant.now.credit ≤ℤ balance)) }
    ensures credit { IsCredit participant.now.credit }
{
    let credit = i128::from(participant.credit.cents());
    let floor = if phase == Phase::Closed { 0 } else { -credit };
    match balances.get(&participant.code) {
        Some(balance) => *balance >= floor,
        None => false,
    }
}

/// The balance of each participant in cents, by one pass over the postings and one over the orders.
pub fn balances(alloc: Global, book: &Book) -> Result<BTreeMap<Code, i128>, AllocError>
    requires few_postings { length book.now.postings ≤ LARGEST_NUMBER }
    requires few_orders { length book.now.orders ≤ LARGEST_NUMBER }
    ensures sums { IfOk result (Totals (slice_cmp nat_cmp) (codes_of book.now) (balance book.now)) }
    ensures postings { OnOk result (AllByRecursion (λ (p : Posting). IsPostingAmount p.cents) book.now.postings) }
    ensures orders { OnOk result (AllByRecursion (λ (o : Order). IsAmount o.amount) book.now.orders) }
{
    let mut totals = zeros(alloc, codes_of(alloc, book.participants.as_slice())?)?;
    add_postings(&mut totals, book.postings.as_slice());
    add_orders(&mut totals, book.orders.as_slice());
    Ok(totals)
}

// Adds the postings to the sums under the codes that they are made to.
fn add_postings(totals: &mut BTreeMap<Code, i128>, postings: &[Posting])
    requires few { length postings.now ≤ LARGEST_NUMBER }
    requires small { AreWithin (slice_cmp nat_cmp) 0 totals.old }
    ensures sums { (codes : List (List ℕ)) (sum_of : List ℕ → ℤ) → Totals (slice_cmp nat_cmp) codes sum_of totals.old →
        Totals (slice_cmp nat_cmp) codes (λ code. sum_of code +ℤ int_sum_by (λ (p : Posting). p.cents)
        (filter (λ (p : Posting). bytes_eq p.code code) postings.now)) totals.new }
    ensures within { AreWithin (slice_cmp nat_cmp) (10 ^ 27) totals.new }
    ensures cents { AllByRecursion (λ (p : Posting). IsPostingAmount p.cents) postings.now }
{
    for posting in postings {
        add(totals, &posting.code, i128::from(posting.cents.cents()));
    }
}

// Adds the settled orders to the sums under the codes of their parties.
fn add_orders(totals: &mut BTreeMap<Code, i128>, orders: &[Order])
    requires few { length orders.now ≤ LARGEST_NUMBER }
    requires small { AreWithin (slice_cmp nat_cmp) (10 ^ 27) totals.old }
    ensures sums { (codes : List (List ℕ)) (sum_of : List ℕ → ℤ) → Totals (slice_cmp nat_cmp) codes sum_of totals.old →
        Totals (slice_cmp nat_cmp) codes (λ code. sum_of code +ℤ int_sum_by (gain code)
        (filter is_settled orders.now)) totals.new }
    ensures amounts { AllByRecursion (λ (o : Order). IsAmount o.amount) orders.now }
{
    for order in orders {
        add_order(totals, order);
    }
}

// Adds the order, if it is settled, to the sums under the codes of its parties.
fn add_order(totals: &mut BTreeMap<Code, i128>, order: &Order)
    requires { AreWithin (slice_cmp nat_cmp) (10 ^ 28) totals.old }
    ensures sums { (codes : List (List ℕ)) (sum_of : List ℕ → ℤ) → Totals (slice_cmp nat_cmp) codes sum_of totals.old →
        Totals (slice_cmp nat_cmp) codes (λ code. sum_of code +ℤ
        (if is_settled order.now then gain code order.now else pos 0)) totals.new }
    ensures within { (bound : ℕ) → AreWithin (slice_cmp nat_cmp) bound totals.old
        → AreWithin (slice_cmp nat_cmp) (bound + 2 * Amount.MAX) totals.new }
    ensures amount { IsAmount order.now.amount }
{
    let amount = i128::from(order.amount.cents());
    if let OrderState::Settled(_) = order.state {
        add(totals, &order.receiver, amount);
        add(totals, &order.sender, -amount);
    }
}
