//! Resolving a gridlock.
ghost use Rattle.std.specs.Prelude.{◌≡◌, ◌≤◌, ◌<◌, ◌^◌, ◌↔◌, List, map, filter, length, None, IfOk, IfErr, IfSome};
ghost use Rattle.std.specs.Prelude.{IsTrue, false, []};
ghost use Rattle.rtgs_book.specs.declared.limits.TheConstants.{MOST_QUEUED};
ghost use Rattle.rtgs_book.specs.declared.account.Account.{Account as AccountSpec};
ghost use Rattle.rtgs_book.specs.declared.order.Order.{Order};
ghost use Rattle.rtgs_records.specs.accounts.Accounts.{code_of};
ghost use Rattle.rtgs_book.specs.declared.book.Book.{Book};
ghost use Rattle.rtgs_book.specs.Calm.{IsCalm};
ghost use Rattle.rtgs_book.specs.cores.Cores.{IsCoreOf};
ghost use Rattle.rtgs_ledger.specs.Kept.{IsPreparedByItself, IsRefusedByItself};
ghost use Rattle.rtgs_ledger.specs.Kinds.{CanAnswerByItself, is_of_the_store};
ghost use Rattle.rtgs_ledger.specs.Resolving.{AreSmall, IsSettlement, after_orders, has_moved, settling};
ghost use Rattle.rtgs_ledger.specs.Rooms.{CanBeMade};

use super::Ledger;
use super::follow_up::is_automatic;
use rtgs_book::{
    Account, Answer, Change, Command, Mark, Order, OrderState, Refusal, Resolution, RowChange,
    Rows, laws,
};
use rtgs_choices::laws::{chosen_numbers, rows_settle, taken_are_chosen};
use rtgs_gridlock::OutOfMemory;
use rtgs_records::Accounts;
use std::alloc::{AllocError, Global};

/// What a resolution settles: these orders together, under the mark. The accounts are as they leave them.
#[derive(Debug, Drop)]
pub(super) struct Settlement {
    orders: Vec<Order>,
    mark: Mark,
    accounts: Accounts,
}

impl Ledger {
    /// The orders of the greatest choice are settled together, under one mark: a gridlock is resolved, as in Bech and
    /// Soramäki 2001. Where nothing is chosen, nothing changes.
    pub(super) fn decide_resolve(&self) -> Result<(Answer, Change), Refusal>
        ensures made { IfOk result (λ (answer, change). CanBeMade self.now.core change) }
        ensures answered { IfOk result (λ (answer, change). CanAnswerByItself Command.Resolve answer change) }
        ensures of_the_command { IfErr result (λ refusal. is_of_the_store refusal ≡ false) }
        ensures prepared { (book : Book) → IsCoreOf book self.now.core
            → IfOk result (λ (answer, change). IsPreparedByItself book self.now.core Command.Resolve answer change) }
        ensures refused { (book : Book) → IsCoreOf book self.now.core
            → IfErr result (IsRefusedByItself book Command.Resolve) }
    {
        let Some(settlement) = self.settlement()? else {
            return Ok((Answer::Nothing, Rows::new(self.alloc)));
        };
        let rows = settlement.rows(self.alloc, &self.records.accounts)?;
        let Resolution { mark, count, value } = settlement.resolution();
        Ok((
            Answer::Resolved { mark, count, value },
            Rows::from_vec(rows),
        ))
    }

    /// What a resolution settles now, if anything.
    pub(super) fn settlement(&self) -> Result<Option<Settlement>, Refusal>
        ensures some { (book : Book) → IsCoreOf book self.now.core → IfOk result (λ found. IfSome found
            (λ s. IsSettlement book self.now.core s.orders.items s.mark s.accounts.accounts)) }
        ensures none { (book : Book) → IsCoreOf book self.now.core → IfOk result (λ found. found ≡ None
            → IsPreparedByItself book self.now.core Command.Resolve Answer.Nothing []) }
        ensures marks { IfOk result (λ found. IfSome found (λ s. self.now.core.next_mark < 2 ^ 63)) }
        ensures of_the_command { IfErr result (λ refusal. is_of_the_store refusal ≡ false) }
        ensures refused { (book : Book) → IsCoreOf book self.now.core
            → IfErr result (IsRefusedByItself book Command.Resolve) }
    {
        laws::balances_are_small();
        laws::greatest_exists();
        laws::settled_balances();
        chosen_numbers();
        rows_settle();
        taken_are_chosen();
        let Some(date) = self.records.business_date() else {
            return Err(Refusal::WrongPhase);
        };
        let Ok(orders) = self.chosen_orders() else {
            return Err(Refusal::OutOfMemory);
        };
        if orders.is_empty() {
            return Ok(None);
        }
        if !self.records.counts_marks() {
            return Err(Refusal::NumbersUsedUp);
        }
        let accounts = self.accounts_after(&orders)?;
        let mark = self.records.mark_of(&orders, date);
        Ok(Some(Settlement {
            orders,
            mark,
            accounts,
        }))
    }

    /// Whether the day is not automatic, or nothing that is queued could be settled.
    pub(super) fn is_calm(&self) -> Result<bool, OutOfMemory>
        ensures { (book : Book) → IsCoreOf book self.now.core → IfOk result (λ calm. IsTrue calm ↔ IsCalm book) }
    {
        laws::greatest_is_unique();
        chosen_numbers();
        taken_are_chosen();
        if !is_automatic(self.records.day) {
            return Ok(true);
        }
        let orders = self.chosen_orders()?;
        Ok(orders.is_empty())
    }

    // The accounts as the orders leave them.
    fn accounts_after(&self, orders: &[Order]) -> Result<Accounts, AllocError>
        ensures { AreSmall self.now.core.accounts → length orders.now ≤ MOST_QUEUED
            → IfOk result (λ settled. settled.accounts ≡ map (after_orders orders.now) self.now.core.accounts) }
    {
        let mut settled = self.records.accounts.copy()?;
        for order in orders {
            settled.settle(order);
        }
        Ok(settled)
    }
}

impl Settlement {
    /// The rows that settle it: the states of the orders, the mark, and the balances that are not what they were before
    /// all that is to be changed, in code order.
    pub(super) fn rows(
        &self,
        alloc: Global,
        before: &Accounts,
    ) -> Result<Vec<RowChange>, AllocError>
        ensures { IfOk result (λ rows. rows.items
            ≡ settling self.now.orders.items self.now.mark before.now.accounts self.now.accounts.accounts) }
    {
        let mut rows = state_rows(alloc, &self.orders, &self.mark)?;
        rows.push(RowChange::AddMark(self.mark))?;
        let moved = moved_accounts(alloc, before, &self.accounts)?;
        let balances = balance_rows(alloc, &moved)?;
        rows.extend_from_slice(&balances)?;
        Ok(rows)
    }

    /// What it gives.
    pub(super) fn resolution(&self) -> Resolution
        ensures { result ≡ record {
          mark = self.now.mark.number;
          count = self.now.mark.count;
          value = self.now.mark.value;
        } }
    {
        Resolution {
            mark: self.mark.number,
            count: self.mark.count,
            value: self.mark.value,
        }
    }
}

// The rows that settle these orders under the mark.
fn state_rows(alloc: Global, orders: &[Order], mark: &Mark) -> Result<Vec<RowChange>, AllocError>
    ensures { IfOk result (λ rows. rows.items ≡ map (λ (o : Order). RowChange.SetState o.number
        (OrderState.Settled mark.now.number)) orders.now) }
{
    let number = mark.number;
    orders
        .iter()
        .map(|order| RowChange::SetState {
            number: order.number,
            state: OrderState::Settled(number),
        })
        .collect(alloc)
}

// The rows that set these balances.
fn balance_rows(alloc: Global, accounts: &[Account]) -> Result<Vec<RowChange>, AllocError>
    ensures { IfOk result (λ rows. rows.items ≡ map (λ (a : AccountSpec). RowChange.SetBalance (code_of a) a.balance)
        accounts.now) }
{
    accounts
        .iter()
        .map(|account| RowChange::SetBalance {
            code: account.participant.code,
            balance: account.balance,
        })
        .collect(alloc)
}

// The accounts that have other balances than they had.
fn moved_accounts(alloc: Global, old: &Accounts, new: &Accounts) -> Result<Vec<Account>, AllocError>
    ensures { IfOk result (λ moved. moved.items ≡ filter (has_moved old.now.accounts) new.now.accounts) }
{
    new.as_slice()
        .iter()
        .copied()
        .filter(|account| has_moved(old, account))
        .collect(alloc)
}

// Whether an account that was there has another balance.
fn has_moved(old: &Accounts, account: &Account) -> bool
    ensures { result ≡ has_moved old.now.accounts account.now }
{
    match old.get(&account.participant.code) {
        Some(before) => before.balance != account.balance,
        None => false,
    }
}
