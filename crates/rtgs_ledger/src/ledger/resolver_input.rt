//! The greatest choice of queued orders, as the resolver finds it.
ghost use Rattle.std.specs.Prelude.{◌≡◌, ◌≤◌, ◌↔◌, List, IfOk, IsTrue, length, slice_index};
ghost use Rattle.rtgs_book.specs.Choice.{IsGreatest};
ghost use Rattle.rtgs_book.specs.Lookup.{codes_of};
ghost use Rattle.rtgs_choices.specs.ByIndex.{by_code};
ghost use Rattle.rtgs_ledger.specs.Choosing.{payment_in, payments_in, positions_in, queues_in, taken_from};
ghost use Rattle.rtgs_book.specs.declared.book.Book.{Book};
ghost use Rattle.rtgs_book.specs.cores.Cores.{IsCoreOf};
ghost use Rattle.rtgs_ledger.specs.Resolving.{AreGreatest, CanResolve};

use super::Ledger;
use rtgs_book::{MOST_QUEUED, Order};
use rtgs_choices::laws;
use rtgs_gridlock::{OutOfMemory, Payment, Position, Positions, Queues, Workspace, greatest};
use rtgs_money::Code;
use rtgs_records::queues::laws::queues_are_of_the_waiting;
use std::alloc::AllocError;

impl Ledger {
    /// The orders of the greatest choice, account by account.
    pub(super) fn chosen_orders(&self) -> Result<Vec<Order>, OutOfMemory>
        ensures { (book : Book) → IsCoreOf book self.now.core → IfOk result (λ orders. AreGreatest book orders.items) }
    {
        laws::choices_agree();
        queues_are_of_the_waiting();
        let lengths = self.greatest_lengths()?;
        let orders = self.beginnings(lengths.as_slice())?;
        Ok(orders)
    }

    /// The lengths of the greatest choice, in code order. Where the positions and queues are none that a sound book can
    /// have, there are none.
    pub(super) fn greatest_lengths(&self) -> Result<Vec<usize>, OutOfMemory>
        ensures length { (book : Book) → IsCoreOf book self.now.core
            → IfOk result (λ lengths. length lengths.items ≡ length (codes_of book)) }
        ensures greatest { (book : Book) → IsCoreOf book self.now.core → IfOk result (λ lengths.
            IsGreatest book (by_code book (slice_index lengths.items))) }
    {
        laws::conditions_hold();
        laws::greatest_means_greatest();
        queues_are_of_the_waiting();
        let positions = self.positions()?;
        let queues = self.payments()?;
        if !can_resolve(&positions, &queues) {
            return Ok(Vec::new(self.alloc));
        }
        let mut workspace = Workspace::reserve(self.alloc, queues.len(), MOST_QUEUED)?;
        greatest(&positions, &queues, &mut workspace);
        Ok(Vec::from_slice(self.alloc, workspace.lengths())?)
    }

    /// The balance and floor of each account.
    pub(super) fn positions(&self) -> Result<Positions, OutOfMemory>
        ensures { IfOk result (λ positions. positions ≡ positions_in self.now.core) }
    {
        let mut positions = Positions::new(self.alloc);
        for account in self.records.accounts.as_slice() {
            positions.push(Position {
                balance: account.balance.cents(),
                floor: self.records.floor(account),
            })?;
        }
        Ok(positions)
    }

    /// The queue of each account.
    pub(super) fn payments(&self) -> Result<Queues, OutOfMemory>
        ensures { IfOk result (λ queues. queues ≡ queues_in self.now.core) }
    {
        let mut queues = Queues::new(self.alloc);
        for account in self.records.accounts.as_slice() {
            let queue = self.payments_of(&account.participant.code)?;
            queues.push(queue)?;
        }
        Ok(queues)
    }

    // The queue of the sender, as payments to indexes of accounts.
    fn payments_of(&self, sender: &Code) -> Result<Vec<Payment>, AllocError>
        ensures { IfOk result (λ payments. payments.items ≡ payments_in self.now.core sender.now) }
    {
        let queue = self.queue(sender)?;
        queue
            .iter()
            .map(|order| self.payment_of(order))
            .collect(self.alloc)
    }

    // The order as a payment to the index of its receiver's account.
    fn payment_of(&self, order: &Order) -> Payment
        ensures { result ≡ payment_in self.now.core order.now }
    {
        Payment {
            receiver: self.records.accounts.index_of(&order.receiver),
            amount: order.amount.cents(),
        }
    }

    // Account by account as many orders of its queue as the length at its index says, the oldest first. Where there is
    // no length, there are none.
    fn beginnings(&self, lengths: &[usize]) -> Result<Vec<Order>, AllocError>
        ensures { IfOk result (λ orders. orders.items
            ≡ taken_from (slice_index lengths.now) self.now.core.waiting 0 self.now.core.accounts) }
    {
        let mut orders = Vec::new(self.alloc);
        for (index, account) in self.records.accounts.as_slice().iter().enumerate() {
            let length = lengths.get(index).copied().unwrap_or(0);
            let beginning = self.beginning(&account.participant.code, length)?;
            orders.extend_from_slice(&beginning)?;
        }
        Ok(orders)
    }
}

/// Whether the resolver can be given this: balances at their floors or above, payments to accounts, and not too many.
pub(super) fn can_resolve(positions: &Positions, queues: &Queues) -> bool
    ensures { IsTrue result ↔ CanResolve positions.now queues.now }
{
    positions.are_floored()
        && queues.len() == positions.len()
        && queues.are_in_range()
        && matches!(queues.payment_count(), Some(payments) if payments <= MOST_QUEUED)
}
