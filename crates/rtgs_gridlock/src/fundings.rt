//! What each participant may spend and owes by the present choice, and the steps that were counted.
ghost use Rattle.std.specs.Prelude.{◌≡◌, ℕ, ◌+◌, ◌-◌, ◌*◌, ◌^◌, ◌<◌, ◌≤◌, ◌↔◌, ◌==◌, ◌+ℤ◌, pos, All, IfOk, IsTrue};
ghost use Rattle.std.specs.Prelude.{length};
ghost use Rattle.std.specs.Prelude.{sum_by, if◌then◌else◌};
ghost use Rattle.rtgs_gridlock.specs.declared.queues.TheConstants.{LARGEST_AMOUNT};
ghost use Rattle.rtgs_gridlock.specs.Choices.{amount_to, position_of, queue_of, payment_count, received, AreFloored};
ghost use Rattle.rtgs_gridlock.specs.Choices.{AreInRange};
ghost use Rattle.rtgs_gridlock.specs.Fundings.{funds_of, owed_of, everything, HasEnough, AreFundings, IsCounted};

use crate::positions::Positions;
use crate::queues::{Payment, Queues};
use std::alloc::{AllocError, Global};
use std::marker::Model;

/// What a participant may spend by the present choice, its balance above its floor with what it
/// receives, and what it sends, both in cents. The difference is how far its position, the balance
/// after settling the choice, is above its floor.
#[derive(Clone, Copy)]
pub struct Funding {
    funds: u128,
    owed: u128,
}

/// Each participant's funding by the present choice, by its index, and how many steps were taken.
/// A step is one cover test (`covers`) or one removal (`take_back`), and each counts itself. Only
/// `reserve` begins at 0, and a count of 2^64 - 1 stays.
#[derive(Drop)]
pub struct Fundings {
    list: Vec<Funding>,
    steps: u64,
}

impl Model for Fundings {
    ghost use Rattle.rtgs_gridlock.specs.Fundings.{CountedFundings};

    ghost Value = { CountedFundings };

    ghost view = { λ fundings. record { list = fundings.list.items; steps = fundings.steps } };
}

impl Fundings {
    /// Room for this many participants. No step has been taken.
    pub fn reserve(alloc: Global, participants: usize) -> Result<Fundings, AllocError>
        ensures room { IfOk result (λ fundings. length fundings.list ≡ participants) }
        ensures fresh { IfOk result (λ fundings. fundings.steps ≡ 0) }
    {
        let list = vec![in alloc; Funding { funds: 0, owed: 0 }; participants]?;
        Ok(Fundings { list, steps: 0 })
    }

    /// How many cover tests and removals were taken since room was reserved.
    pub fn steps(&self) -> u64
        ensures { result ≡ self.now.steps }
    {
        self.steps
    }

    /// Makes the fundings those of the choice of all payments. The count of steps goes on.
    pub fn fill(&mut self, positions: &Positions, queues: &Queues)
        requires positions { length positions.now ≡ length queues.now }
        requires floored { AreFloored positions.now }
        requires receivers { AreInRange queues.now }
        requires few { payment_count queues.now < 2 ^ 64 }
        requires room { length queues.now ≤ length self.old.list }
        ensures fundings { AreFundings positions.now queues.now (everything queues.now) self.new.list }
        ensures room { length self.new.list ≡ length self.old.list }
        ensures steps { self.new.steps ≡ self.old.steps }
    {
        open(&mut self.list, positions, queues);
        credit_all(&mut self.list, queues);
    }

    /// Whether a participant has enough for what it sends: its position is at least its floor. It
    /// counts as a step.
    pub fn covers(&mut self, index: usize) -> bool
        requires index { index < length self.old.list }
        ensures answer { IsTrue result ↔ HasEnough self.new.list index }
        ensures same { self.new.list ≡ self.old.list }
        ensures steps { IsCounted self.old.steps self.new.steps }
    {
        self.steps = self.steps.saturating_add(1);
        let Funding { funds, owed } = self.list[index];
        owed <= funds
    }

    /// Takes a payment back of a sender that is short: it owes less, and the receiver has fewer
    /// funds. It says by how many cents the sender was short, and counts as a step.
    pub(crate) fn take_back(&mut self, sender: usize, payment: Payment) -> u128
        requires parties { (sender < length self.old.list) × (payment.receiver < length self.old.list) }
        requires short { funds_of self.old.list sender < owed_of self.old.list sender }
        requires owed { payment.amount ≤ owed_of self.old.list sender }
        requires funds { payment.amount ≤ funds_of self.old.list payment.receiver }
        ensures short { result ≡ owed_of self.old.list sender - funds_of self.old.list sender }
        ensures funds { (p : ℕ) → funds_of self.new.list p + amount_to p payment ≡ funds_of self.old.list p }
        ensures owed { (p : ℕ) →
            owed_of self.new.list p + (if p == sender then payment.amount else 0) ≡ owed_of self.old.list p }
        ensures room { length self.new.list ≡ length self.old.list }
        ensures steps { IsCounted self.old.steps self.new.steps }
    {
        self.steps = self.steps.saturating_add(1);
        let amount = u128::from(payment.amount);
        let from = &mut self.list[sender];
        let short = from.owed - from.funds;
        from.owed -= amount;
        let to = &mut self.list[payment.receiver];
        to.funds -= amount;
        short
    }
}

/// Each participant's funding with all payments sent and none received.
fn open(fundings: &mut [Funding], positions: &Positions, queues: &Queues)
    requires positions { length positions.now ≡ length queues.now }
    requires floored { AreFloored positions.now }
    requires fundings { length queues.now ≤ length fundings.old }
    ensures funds { (p : ℕ) → p < length queues.now →
        (position_of positions.now p).floor +ℤ pos (funds_of fundings.new p) ≡ (position_of positions.now p).balance }
    ensures small { (p : ℕ) → p < length queues.now → funds_of fundings.new p < 2 ^ 64 }
    ensures owed { (p : ℕ) → p < length queues.now →
        owed_of fundings.new p ≡ sum_by (λ payment. payment.amount) (queue_of queues.now p) }
{
    for index in 0..queues.len() {
        let funds = positions.headroom(index);
        let owed = total_of(queues.queue(index));
        fundings[index] = Funding { funds, owed };
    }
}

/// The amounts of the payments together.
fn total_of(payments: &[Payment]) -> u128
    ensures { result ≡ sum_by (λ payment. payment.amount) payments.now }
{
    // A slice has fewer than 2^64 elements: the sum below fits for that reason, and only this call states it.
    let _count = payments.len();
    let mut total = 0u128;
    for payment in payments {
        total += u128::from(payment.amount);
    }
    total
}

/// Adds to each participant's funds what all queued payments bring to it.
fn credit_all(fundings: &mut [Funding], queues: &Queues)
    requires fundings { length queues.now ≤ length fundings.old }
    requires receivers { AreInRange queues.now }
    requires few { payment_count queues.now < 2 ^ 64 }
    requires small { (p : ℕ) → p < length queues.now → funds_of fundings.old p < 2 ^ 64 }
    ensures funds { (p : ℕ) → p < length queues.now →
        funds_of fundings.new p ≡ funds_of fundings.old p + received queues.now (everything queues.now) p }
    ensures owed { (p : ℕ) → owed_of fundings.new p ≡ owed_of fundings.old p }
{
    for index in 0..queues.len() {
        credit(fundings, queues.queue(index));
    }
}

/// Adds to each receiver's funds what the payments bring to it.
fn credit(fundings: &mut [Funding], payments: &[Payment])
    requires receivers { All (λ payment. payment.receiver < length fundings.old) payments.now }
    requires room { All
        (λ payment. funds_of fundings.old payment.receiver + length payments.now * LARGEST_AMOUNT < 2 ^ 128)
        payments.now }
    ensures funds { (p : ℕ) → p < length fundings.old →
        funds_of fundings.new p ≡ funds_of fundings.old p + sum_by (amount_to p) payments.now }
    ensures small { (p : ℕ) → p < length fundings.old →
        sum_by (amount_to p) payments.now ≤ length payments.now * LARGEST_AMOUNT }
    ensures owed { (p : ℕ) → owed_of fundings.new p ≡ owed_of fundings.old p }
{
    for payment in payments {
        let funding = &mut fundings[payment.receiver];
        funding.funds += u128::from(payment.amount);
    }
}
