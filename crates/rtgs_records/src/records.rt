//! The rows of a book in memory.
ghost use Rattle.std.specs.Prelude.{◌≡◌, ◌+◌, ◌≤◌, ◌↔◌, length, sum_by, if◌then◌else◌, ◌&&◌, not, pos, neg_ℤ, IsTrue};
ghost use Rattle.std.specs.Prelude.{◌+ℤ◌, ◌-ℤ◌, int_lt, int_le, None, true};
ghost use Rattle.rtgs_book.specs.declared.limits.TheConstants.{LARGEST_NUMBER, LARGEST_TOTAL, MOST_QUEUED};
ghost use Rattle.rtgs_money.specs.Amounts.{IsAmount, IsCredit};
ghost use Rattle.rtgs_book.specs.declared.order.Order.{Order};
ghost use Rattle.rtgs_book.specs.IntSum.{int_sum_by};
ghost use Rattle.rtgs_records.specs.accounts.Accounts.{balance_of, code_of};
ghost use Rattle.rtgs_book.specs.Balance.{floor_at};
ghost use Rattle.rtgs_book.specs.Books.{is_closed, is_open, is_cut_off, is_empty};
ghost use Rattle.rtgs_book.specs.Commands.{is_automatic_as, is_date, is_later, order_numbered};
ghost use Rattle.rtgs_book.specs.Queue.{queued_numbers};
ghost use Rattle.rtgs_records.specs.Records.{held_of};
ghost use Rattle.rtgs_records.specs.Held.{FindsRoom, after_row};

use crate::accounts::Accounts;
use crate::queues::Orders;
use rtgs_book::{
    Account, Day, LARGEST_NUMBER, LARGEST_TOTAL, Mark, NewDay, NewOrder, Order, Phase, RowChange,
};
use rtgs_money::{Amount, BusinessDate, Cents, Code, Credit, PostingAmount};

/// What a ledger has of a book: accounts with their balances, the orders that are queued or held, the day, and the
/// numbers of the next records.
#[derive(Debug, Drop)]
pub struct Records {
    pub accounts: Accounts,
    pub orders: Orders,
    pub day: Day,
    pub next_posting: u64,
    pub next_mark: u64,
}

impl Records {
    /// Makes one row of a change, in the room that was made for it. It sweeps no order out.
    pub fn apply(&mut self, row: &RowChange)
        requires { FindsRoom (held_of self.old) row.now }
        ensures held { held_of self.new ≡ after_row (held_of self.old) row.now }
        ensures tidy { self.new.orders.tidy ≡ true → self.old.orders.tidy ≡ true }
    {
        match row {
            RowChange::AddParticipant(participant) => self.accounts.insert(Account {
                participant: *participant,
                balance: Cents::new(0),
            }),
            RowChange::AddPosting(_) => self.next_posting += 1,
            RowChange::AddOrder(order) => self.orders.add(*order),
            RowChange::AddMark(_) => self.next_mark += 1,
            RowChange::SetCredit { code, credit } => self.accounts.set_credit(code, *credit),
            RowChange::SetBalance { code, balance } => self.accounts.set_balance(code, *balance),
            RowChange::SetState { number, state } => self.orders.set_state(*number, *state),
            RowChange::EnterQueue { number, date } => self.orders.enter(*number, *date),
            RowChange::SetDay(day) => self.day = *day,
        }
    }

    /// The day's date, if the desk takes orders.
    pub fn open_date(&self) -> Option<BusinessDate>
        ensures { result ≡ (if is_open self.now.day.phase then self.now.day.date else None) }
    {
        match self.day.phase {
            Phase::Open => self.day.date,
            Phase::Closed | Phase::CutOff => None,
        }
    }

    /// The day's date, if the desk is not closed.
    pub fn business_date(&self) -> Option<BusinessDate>
        ensures { result ≡ (if is_closed self.now.day.phase then None else self.now.day.date) }
    {
        match self.day.phase {
            Phase::Open | Phase::CutOff => self.day.date,
            Phase::Closed => None,
        }
    }

    /// Whether no day is open.
    pub fn is_closed(&self) -> bool
        ensures { result ≡ is_closed self.now.day.phase }
    {
        matches!(self.day.phase, Phase::Closed)
    }

    /// Whether the desk takes orders on the date of this day, and is automatic as this day is.
    pub fn is_open_on(&self, new_day: &NewDay) -> bool
        ensures { result ≡ (is_open self.now.day.phase && is_date self.now.day.date new_day.now.date
            && is_automatic_as new_day.now.automatic self.now.day) }
    {
        match self.open_date() {
            Some(date) => date == new_day.date && self.is_automatic_as(new_day.automatic),
            None => false,
        }
    }

    // Whether the day is automatic, or is not, as this says.
    fn is_automatic_as(&self, automatic: bool) -> bool
        ensures { result ≡ is_automatic_as automatic self.now.day }
    {
        if automatic {
            self.day.automatic
        } else {
            !self.day.automatic
        }
    }

    /// The day's date, if it was cut off.
    pub fn cut_off_date(&self) -> Option<BusinessDate>
        ensures { result ≡ (if is_cut_off self.now.day.phase then self.now.day.date else None) }
    {
        match self.day.phase {
            Phase::CutOff => self.day.date,
            Phase::Closed | Phase::Open => None,
        }
    }

    /// Whether the desk is closed, with this as its last date.
    pub fn is_closed_on(&self, date: BusinessDate) -> bool
        ensures { result ≡ (is_closed self.now.day.phase && is_date self.now.day.date date) }
    {
        match self.day.phase {
            Phase::Closed => self.day.date == Some(date),
            Phase::Open | Phase::CutOff => false,
        }
    }

    /// Whether the desk was cut off on this date.
    pub fn is_cut_off_on(&self, date: BusinessDate) -> bool
        ensures { result ≡ (is_cut_off self.now.day.phase && is_date self.now.day.date date) }
    {
        match self.day.phase {
            Phase::CutOff => self.day.date == Some(date),
            Phase::Closed | Phase::Open => false,
        }
    }

    /// Whether the day's date, or the last one while no day is open, comes before this one.
    pub fn is_before(&self, date: BusinessDate) -> bool
        ensures { result ≡ is_later date self.now.day.date }
    {
        match self.day.date {
            Some(last) => last < date,
            None => true,
        }
    }

    /// The least balance, in cents, that this account may have: minus its credit limit, and 0 while the desk is closed.
    pub fn floor(&self, account: &Account) -> i64
        ensures { result ≡ (if is_closed self.now.day.phase then pos 0 else neg_ℤ
            (pos account.now.participant.credit)) }
    {
        match self.day.phase {
            Phase::Closed => 0,
            Phase::Open | Phase::CutOff => -(account.participant.credit.cents() as i64),
        }
    }

    /// Whether a posting would take all balances together past 10^15 cents.
    pub fn is_too_much(&self, cents: PostingAmount) -> bool
        ensures { result ≡ (int_lt (pos 0) cents && int_lt (pos LARGEST_TOTAL)
            (int_sum_by balance_of self.now.accounts.accounts +ℤ cents)) }
    {
        let amount = i128::from(cents.cents());
        amount > 0 && self.accounts.total() > i128::from(LARGEST_TOTAL) - amount
    }

    /// Whether a posting takes so much from the account that this balance is below the floor.
    pub fn is_uncovered(&self, account: &Account, cents: PostingAmount, balance: Cents) -> bool
        ensures { result ≡ (int_lt cents (pos 0) && int_lt balance
            (if is_closed self.now.day.phase then pos 0 else neg_ℤ (pos account.now.participant.credit))) }
    {
        cents.cents() < 0 && balance.cents() < self.floor(account)
    }

    /// Whether the account is below minus this credit limit, while the desk is not closed.
    pub fn is_past_limit(&self, account: &Account, credit: Credit) -> bool
        ensures value { result ≡ (not (is_closed self.now.day.phase)
            && int_lt account.now.balance (neg_ℤ (pos credit))) }
        ensures fits { IsCredit credit }
    {
        let limit = credit.cents() as i64;
        !self.is_closed() && account.balance.cents() < -limit
    }

    /// Whether an order is settled at once: nothing of its sender is queued, and the balance stays at the floor or
    /// above.
    pub fn settles_at_once(&self, sender: &Account, amount: Amount) -> bool
        ensures value { result ≡ (is_empty (queued_numbers self.now.orders.orders (code_of sender.now))
            && int_le (floor_at self.now.day.phase sender.now.participant.credit) (sender.now.balance -ℤ pos amount)) }
        ensures fits { IsAmount amount }
    {
        let balance = i128::from(sender.balance.cents()) - i128::from(amount.cents());
        self.orders.queue(&sender.participant.code).is_empty()
            && balance >= i128::from(self.floor(sender))
    }

    /// The next order, queued as yet, or held where it has a due date.
    pub fn next_order(&self, sender: Code, order: &NewOrder, date: BusinessDate) -> Order
        ensures { result ≡ order_numbered self.now.orders.next sender order.now date }
    {
        order.numbered(self.orders.next(), sender, date)
    }

    /// Whether marks can be counted further, as in each sound book they can.
    pub fn counts_marks(&self) -> bool
        ensures { IsTrue result ↔ (self.now.next_mark ≤ LARGEST_NUMBER + 1) }
    {
        self.next_mark <= LARGEST_NUMBER as u64 + 1
    }

    /// The next mark, for one order of this amount.
    pub fn next_mark(&self, amount: Amount, date: BusinessDate) -> Mark
        ensures { result ≡ record { number = self.now.next_mark; date = date; count = 1; value = pos amount } }
    {
        Mark {
            number: self.next_mark,
            date,
            count: 1,
            value: Cents::new(amount.cents() as i64),
        }
    }

    /// The next mark, for these orders together.
    pub fn mark_of(&self, orders: &[Order], date: BusinessDate) -> Mark
        ensures { length orders.now ≤ MOST_QUEUED → result
            ≡ record {
              number = self.now.next_mark;
              date = date;
              count = length orders.now;
              value = pos
                  (sum_by (λ (o : Order). o.amount) orders.now);
            } }
    {
        let mut value = 0i64;
        for order in orders {
            value = value.saturating_add(order.amount.cents() as i64);
        }
        Mark {
            number: self.next_mark,
            date,
            count: orders.len() as u64,
            value: Cents::new(value),
        }
    }
}
