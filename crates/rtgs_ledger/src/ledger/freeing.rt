//! Whether orders may settle after a command that could not before.
ghost use Rattle.std.specs.Prelude.{◌≡◌, ◌⊎◌, ◌≤◌, ◌^◌, ◌+ℤ◌, ◌≤ℤ◌, [], ◌∷◌, pos, false, true, None, IfSome, take};
ghost use Rattle.std.specs.List.{AllByRecursion};
ghost use Rattle.rtgs_money.specs.declared.amount.TheConstants.Amount as Amount;
ghost use Rattle.rtgs_book.specs.declared.book.Book.{Book};
ghost use Rattle.rtgs_book.specs.Balance.{balance};
ghost use Rattle.rtgs_book.specs.Books.{is_empty};
ghost use Rattle.rtgs_book.specs.Changes.{Leads};
ghost use Rattle.rtgs_book.specs.Lookup.{credit_of};
ghost use Rattle.rtgs_book.specs.Queue.{queue};
ghost use Rattle.rtgs_book.specs.Soundness.{IsSound};
ghost use Rattle.rtgs_book.specs.cores.Cores.{IsCoreOf};
ghost use Rattle.rtgs_laws.specs.Quiet.{FreesNothing, brings, queued_to, value_of};
ghost use Rattle.rtgs_ledger.specs.Freeing.{GivesNothing, IsLast, IsShort};

use super::Ledger;
use rtgs_book::{Change, Order, RowChange};
use rtgs_laws::laws::new_credit_leaves_the_accounts;
use rtgs_money::{Cents, Code, Credit};
use rtgs_records::queues::laws::{numbers_lead_to_orders, queues_are_of_the_waiting, queues_rise};

impl Ledger {
    /// Whether the rows may let orders settle that could not before. Each row is judged by itself, whatever command it
    /// is of.
    pub(super) fn can_free(&self, change: &Change) -> bool
        ensures { (old new : Book) → IsCoreOf old self.now.core → Leads old change.now new → IsSound new
            → result ≡ false → FreesNothing old new }
    {
        new_credit_leaves_the_accounts();
        let rows = change.as_slice();
        if rows.len() == 1 {
            return self.row_can_free(&rows[0]);
        }
        self.rows_may_give(rows)
    }

    // Whether the row may let orders settle, where no other stands beside it.
    fn row_can_free(&self, row: &RowChange) -> bool
        ensures { (old new : Book) → IsCoreOf old self.now.core → Leads old (row.now ∷ []) new → IsSound new
            → result ≡ false → FreesNothing old new }
    {
        new_credit_leaves_the_accounts();
        numbers_lead_to_orders();
        queues_are_of_the_waiting();
        queues_rise();
        match *row {
            RowChange::AddOrder(order) if order.state.is_queued() => self.can_be_paid(&order),
            RowChange::SetState { number, state } if !state.is_waiting() => !self.is_last(number),
            _ => self.row_may_give(row),
        }
    }

    // Whether one of the rows may give something to an account with a queue.
    fn rows_may_give(&self, rows: &[RowChange]) -> bool
        ensures { (book : Book) → IsCoreOf book self.now.core → result ≡ false
            → AllByRecursion (GivesNothing book) rows.now }
    {
        for row in rows {
            if self.row_may_give(row) {
                return true;
            }
        }
        false
    }

    // Whether the row may give something to an account with a queue, or is one of a kind that changes queues.
    fn row_may_give(&self, row: &RowChange) -> bool
        ensures { (book : Book) → IsCoreOf book self.now.core → result ≡ false → GivesNothing book row.now }
    {
        match row {
            RowChange::AddPosting(_) | RowChange::AddMark(_) => false,
            RowChange::AddOrder(order) => order.state.is_queued(),
            RowChange::SetCredit { code, credit } => self.credit_may_give(code, *credit),
            RowChange::SetBalance { code, balance } => self.balance_may_give(code, *balance),
            RowChange::AddParticipant(_)
            | RowChange::SetState { .. }
            | RowChange::EnterQueue { .. }
            | RowChange::SetDay(_) => true,
        }
    }

    // Whether this is a higher limit of an account with a queue.
    fn credit_may_give(&self, code: &Code, credit: Credit) -> bool
        ensures { (book : Book) → IsCoreOf book self.now.core → result ≡ false
            → is_empty (queue book code.now) ≡ false → credit ≤ credit_of book code.now }
    {
        queues_are_of_the_waiting();
        let Some(account) = self.records.accounts.get(code) else {
            return true;
        };
        if self.records.orders.queue(code).is_empty() {
            return false;
        }
        credit.cents() > account.participant.credit.cents()
    }

    // Whether this is a higher balance of an account with a queue, of which it could then pay the first order, if all
    // that is queued to it came in.
    fn balance_may_give(&self, code: &Code, money: Cents) -> bool
        ensures { (book : Book) → IsCoreOf book self.now.core → result ≡ false
            → is_empty (queue book code.now) ≡ false
            → (money ≤ℤ balance book code.now) ⊎ IsShort book code.now money (value_of (take 1 (queue book code.now))) }
    {
        let Some(account) = self.records.accounts.get(code) else {
            return true;
        };
        let Some(first) = self.first_queued(code) else {
            return false;
        };
        if money.cents() <= account.balance.cents() {
            return false;
        }
        !self.is_short(code, money, i128::from(first.amount.cents()))
    }

    // Whether its sender could pay its queue and then this order too, if all that is queued to it came in.
    fn can_be_paid(&self, order: &Order) -> bool
        ensures { (book : Book) → IsCoreOf book self.now.core → result ≡ false
            → IsShort book order.now.sender (balance book order.now.sender)
            (value_of (queue book order.now.sender) +ℤ pos order.now.amount) }
    {
        let Some(account) = self.records.accounts.get(&order.sender) else {
            return true;
        };
        let Ok(queue) = self.queue(&order.sender) else {
            return true;
        };
        let paid = value_of(queue.as_slice()) + i128::from(order.amount.cents());
        !self.is_short(&order.sender, account.balance, paid)
    }

    // Whether the account with this balance would be below its floor once it had paid this many cents, even if all that
    // is queued to it came in.
    fn is_short(&self, code: &Code, money: Cents, cents: i128) -> bool
        requires low { pos 0 ≤ℤ cents }
        requires high { cents ≤ℤ pos (2 ^ 105) }
        ensures { (book : Book) → IsCoreOf book self.now.core → result ≡ true → IsShort book code.now money cents }
    {
        let Some(account) = self.records.accounts.get(code) else {
            return false;
        };
        let most = i128::from(money.cents()) + self.queued_to(code);
        let least = i128::from(self.records.floor(&account));
        if most - cents >= least {
            return false;
        }
        true
    }

    // Whether the order with this number is the last of its queue.
    fn is_last(&self, number: u64) -> bool
        ensures { result ≡ true → IsLast self.now.core.waiting number }
    {
        let Some(order) = self.records.orders.numbered(number) else {
            return false;
        };
        let queue = self.records.orders.queue(&order.sender);
        if queue.is_empty() {
            return false;
        }
        queue[queue.len() - 1] == number
    }

    // The first order of the queue, if there is one.
    fn first_queued(&self, sender: &Code) -> Option<Order>
        ensures first { (book : Book) → IsCoreOf book self.now.core
            → IfSome result (λ order. take 1 (queue book sender.now) ≡ order ∷ []) }
        ensures none { (book : Book) → IsCoreOf book self.now.core → result ≡ None
            → is_empty (queue book sender.now) ≡ true }
    {
        queues_are_of_the_waiting();
        let queue = self.records.orders.queue(sender);
        if queue.is_empty() {
            return None;
        }
        self.records.orders.numbered(queue[0])
    }

    // What the account would get by all queued orders together.
    fn queued_to(&self, code: &Code) -> i128
        ensures value { (book : Book) → IsCoreOf book self.now.core → result ≡ queued_to book.orders code.now }
        ensures low { pos 0 ≤ℤ result }
        ensures high { result ≤ℤ pos (2 ^ 104) }
    {
        let mut sum = 0i128;
        for order in self.records.orders.as_slice() {
            sum += brought(order, code);
        }
        sum
    }
}

// What the account would get by the order, where that is queued.
fn brought(order: &Order, code: &Code) -> i128
    ensures value { result ≡ brings code.now order.now }
    ensures low { pos 0 ≤ℤ result }
    ensures high { result ≤ℤ pos Amount.MAX }
{
    if order.state.is_queued() && order.receiver == *code {
        i128::from(order.amount.cents())
    } else {
        0
    }
}

// The amounts of the orders together.
fn value_of(orders: &[Order]) -> i128
    ensures value { result ≡ value_of orders.now }
    ensures low { pos 0 ≤ℤ result }
    ensures high { result ≤ℤ pos (2 ^ 104) }
{
    let mut sum = 0i128;
    for order in orders {
        sum += i128::from(order.amount.cents());
    }
    sum
}
