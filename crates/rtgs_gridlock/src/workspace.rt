//! The room that a resolution takes.
ghost use Rattle.std.specs.Prelude.{◌≡◌, [], ℕ, ◌+◌, ◌^◌, ◌<◌, ◌≤◌, ◌↔◌, IsTrue, IfOk, MatchOption, false, length};
ghost use Rattle.std.specs.Prelude.{min, ◌-◌, slice_set, slice_index, vec_len};
ghost use Rattle.rtgs_gridlock.specs.Choices.{payment_count, AreResolvable};
ghost use Rattle.rtgs_gridlock.specs.Fundings.{everything, HasEnough};

use crate::fundings::Fundings;
use crate::out_of_memory::OutOfMemory;
use crate::positions::Positions;
use crate::queues::{Payment, Queues};
use crate::worklist::Worklist;
use std::alloc::Global;

/// The room that a resolution needs: the present choice, each participant's funding by it, by how
/// much it was short at least when a payment of it was taken back (its slack), and the participants
/// that are still to be tested. After filling, a cover test (`covered`) and a removal
/// (`take_back`) are the only ways to the fundings, and the fundings count each as a step.
#[derive(Drop)]
pub struct Workspace {
    participants: usize,
    payments: usize,
    lengths: Vec<usize>,
    fundings: Fundings,
    slacks: Vec<u64>,
    untested: Worklist,
    ghost lengths_sized: { participants ≤ vec_len lengths },
    ghost fundings_sized: { length fundings.list ≡ vec_len lengths },
    ghost slacks_sized: { vec_len slacks ≡ vec_len lengths },
    ghost untested_sized: { length untested ≡ vec_len lengths },
}

impl Workspace {
    ghost use Rattle.rtgs_gridlock.specs.Workspaces.{reserved_participants, reserved_payments, participants_of};
    ghost use Rattle.rtgs_gridlock.specs.Workspaces.{lengths_of, choice_of, slacks_of, steps_of, untested_count};
    ghost use Rattle.rtgs_gridlock.specs.Workspaces.{newest};
    ghost use Rattle.rtgs_gridlock.specs.Workspaces.{IsUntested, IsFilled, IsTested, CanTakeBack, IsTakenBack};
    ghost use Rattle.rtgs_gridlock.specs.Workspaces.{SameButUntested, ListsParties};

    /// Room for this many participants. A resolution may then have this many queued payments, which need no room of their
    /// own.
    pub fn reserve(
        alloc: Global,
        participants: usize,
        payments: usize,
    ) -> Result<Workspace, OutOfMemory>
        ensures participants { IfOk result (λ workspace. reserved_participants workspace ≡ participants) }
        ensures payments { IfOk result (λ workspace. reserved_payments workspace ≡ payments) }
        ensures empty { IfOk result (λ workspace. lengths_of workspace ≡ []) }
        ensures fresh { IfOk result (λ workspace. steps_of workspace ≡ 0) }
    {
        let lengths = vec![in alloc; 0; participants]?;
        let fundings = Fundings::reserve(alloc, participants)?;
        let slacks = vec![in alloc; 0; participants]?;
        let untested = Worklist::reserve(alloc, participants)?;
        Ok(Workspace {
            participants: 0,
            payments,
            lengths,
            fundings,
            slacks,
            untested,
        })
    }

    /// The lengths of the choice that the last resolution left, one for each participant.
    pub fn lengths(&self) -> &[usize]
        ensures { result.now ≡ lengths_of self.now }
    {
        &self.lengths[..self.participants]
    }

    /// By how many cents each participant was short at least, whenever the last resolution took a
    /// payment of it back; the greatest `u64` where it took none. While no participant gets as
    /// much further above its floor as this, the choice that the resolution left is still at least
    /// as long as each that could settle, as `greatest` says.
    pub fn slacks(&self) -> &[u64]
        ensures { result.now ≡ slacks_of self.now }
    {
        &self.slacks[..self.participants]
    }

    /// How many cover tests and removals were taken since this workspace was made, in all
    /// resolutions together. The difference of two counts says what the resolutions between them
    /// took: for each at most n + 3q, as `greatest` says. The count stays at 2^64 - 1.
    pub fn steps(&self) -> u64
        ensures { result ≡ steps_of self.now }
    {
        self.fundings.steps()
    }

    /// Chooses all payments, and fills in each participant's funding by them. The count of steps
    /// goes on.
    pub(crate) fn fill(&mut self, positions: &Positions, queues: &Queues)
        requires resolvable { AreResolvable positions.now queues.now }
        requires participants { length queues.now ≤ reserved_participants self.old }
        requires payments { payment_count queues.now ≤ reserved_payments self.old }
        ensures filled { IsFilled positions.now queues.now self.old self.new }
        ensures few { payment_count queues.now < 2 ^ 64 }
    {
        // The type of the field states that there are fewer than 2^64 payments, which the clause `few` needs.
        let _payments = self.payments;
        self.participants = queues.len();
        choose_all(&mut self.lengths, queues);
        clear_slacks(&mut self.slacks, self.participants);
        self.fundings.fill(positions, queues);
    }

    /// Whether a participant's position is at least its floor. It counts as a step.
    pub(crate) fn covered(&mut self, index: usize) -> bool
        requires index { index < reserved_participants self.old }
        ensures answer { IsTrue result ↔ HasEnough self.new.fundings.list index }
        ensures tested { IsTested self.old self.new }
    {
        self.fundings.covers(index)
    }

    /// Takes back the newest chosen payment of a participant that is short, and says which it was:
    /// its sender's position rises, and its receiver's falls. It counts as a step.
    pub(crate) fn take_back(&mut self, index: usize, queues: &Queues) -> Payment
        requires index { index < length queues.now }
        requires room { length queues.now ≤ reserved_participants self.old }
        requires payment { CanTakeBack queues.now index self.old }
        ensures payment { result ≡ newest queues.now (choice_of self.old) index }
        ensures taken_back { IsTakenBack queues.now index self.old self.new }
    {
        let place = self.lengths[index] - 1;
        let payment = queues.payment(index, place);
        self.lengths[index] = place;
        let short = self.fundings.take_back(index, payment);
        lower(&mut self.slacks, index, short);
        payment
    }

    /// Takes a participant out of the list of those still to be tested.
    pub(crate) fn next_untested(&mut self) -> Option<usize>
        ensures same { SameButUntested self.old self.new }
        ensures taken { MatchOption result
            ((self.new.untested ≡ self.old.untested) × (untested_count self.old ≡ 0))
            (λ index. (index < reserved_participants self.old) × IsUntested self.old index
            × (self.new.untested ≡ slice_set self.old.untested index false)) }
    {
        self.untested.take()
    }

    /// Puts every participant on the list of those still to be tested.
    pub(crate) fn list_all(&mut self)
        ensures same { SameButUntested self.old self.new }
        ensures all { (p : ℕ) → p < participants_of self.old → IsUntested self.new p }
        ensures inside { (p : ℕ) → IsUntested self.new p → p < participants_of self.old }
        ensures few { untested_count self.new ≤ participants_of self.old }
    {
        self.untested.fill(self.participants);
    }

    /// Puts both parties of a payment on the list of those still to be tested. Two more tests are
    /// all that this may add.
    pub(crate) fn list_parties(&mut self, sender: usize, receiver: usize)
        requires sender { sender < participants_of self.old }
        requires receiver { receiver < participants_of self.old }
        requires inside { (p : ℕ) → IsUntested self.old p → p < participants_of self.old }
        ensures same { SameButUntested self.old self.new }
        ensures listed { ListsParties sender receiver self.old self.new }
        ensures inside { (p : ℕ) → IsUntested self.new p → p < participants_of self.old }
        ensures steps { steps_of self.new + untested_count self.new ≤ steps_of self.old + untested_count self.old + 2 }
    {
        self.untested.put(sender);
        self.untested.put(receiver);
    }
}

/// Chooses all payments of each queue.
fn choose_all(lengths: &mut [usize], queues: &Queues)
    requires { length queues.now ≤ length lengths.old }
    ensures { (p : ℕ) → p < length queues.now → slice_index lengths.new p ≡ everything queues.now p }
{
    for index in 0..queues.len() {
        lengths[index] = queues.queue(index).len();
    }
}

/// Makes the participant's slack the smaller one of what it is and this.
fn lower(slacks: &mut [u64], index: usize, short: u128)
    requires { index < length slacks.old }
    ensures lower { slacks.new ≡ slice_set slacks.old index (min (slice_index slacks.old index) short) }
{
    if short < u128::from(slacks[index]) {
        slacks[index] = short as u64;
    }
}

/// Nobody was short yet.
fn clear_slacks(slacks: &mut [u64], count: usize)
    requires { count ≤ length slacks.old }
    ensures { (p : ℕ) → p < count → 0 < slice_index slacks.new p }
{
    for index in 0..count {
        slacks[index] = u64::MAX;
    }
}
