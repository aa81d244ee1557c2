//! Payment orders.
ghost use Rattle.std.specs.Prelude.{◌≡◌, ◌≤◌, ◌∷◌, [], true, false, Some, IfOk, IfErr};
ghost use Rattle.std.specs.List.{find};
ghost use Rattle.std.specs.Prelude.{◌&&◌, ◌-ℤ◌, int_le, pos, is_none, None, unwrap_or};
ghost use Rattle.rtgs_money.specs.Amounts.{IsAmount};
ghost use Rattle.rtgs_book.specs.Balance.{floor_at};
ghost use Rattle.rtgs_book.specs.Books.{is_empty};
ghost use Rattle.rtgs_book.specs.Queue.{queued_numbers};
ghost use Rattle.rtgs_records.specs.accounts.Accounts.{code_of};
ghost use Rattle.rtgs_book.specs.Commands.{as_sent, settles_at_once, settles_now, is_due_on_a_weekend};
ghost use Rattle.rtgs_book.specs.declared.limits.TheConstants.{LARGEST_NUMBER};
ghost use Rattle.rtgs_records.specs.accounts.Accounts.{is_of};
ghost use Rattle.rtgs_book.specs.declared.book.Book.{Book};
ghost use Rattle.rtgs_book.specs.Lookup.{order_named};
ghost use Rattle.rtgs_book.specs.cores.Cores.{IsCoreOf};
ghost use Rattle.rtgs_ledger.specs.Following.{FreesOrders};
ghost use Rattle.rtgs_ledger.specs.Kept.{IsPreparedByItself, IsRefusedByItself};
ghost use Rattle.rtgs_ledger.specs.Kinds.{CanAnswerByItself, is_of_the_store};
ghost use Rattle.rtgs_ledger.specs.Rooms.{CanBeMade};
ghost use Rattle.rtgs_ledger.specs.Ordering.{IsTaken, IsDueRefused, is_too_early, waiting_answer};

use super::Ledger;
use rtgs_book::{
    Account, Answer, Change, Command, Known, LARGEST_NUMBER, LONGEST_QUEUE, Mark, NewOrder, Order,
    OrderState, Refusal, RowChange, Rows, laws,
};
use rtgs_money::{BusinessDate, Cents, Code};
use rtgs_records::Records;
use rtgs_records::accounts::sums::{with_less, with_more};
use rtgs_records::queues::laws::queues_are_of_the_waiting;
use std::alloc::{AllocError, Global};

impl Ledger {
    /// An order is settled at once, joins its sender's queue, or is held until its due date.
    pub(super) fn decide_order(
        &self,
        sender: Code,
        order: &NewOrder,
        found: Option<Order>,
    ) -> Result<(Answer, Change), Refusal>
        ensures made { IfOk result (λ (answer, change). CanBeMade self.now.core change) }
        ensures frees { IfOk result (λ (answer, change). FreesOrders change) }
        ensures answered { IfOk result (λ (answer, change). CanAnswerByItself (Command.Order sender order.now) answer
            change) }
        ensures of_the_command { IfErr result (λ refusal. is_of_the_store refusal ≡ false) }
        ensures prepared { (book : Book) → IsCoreOf book self.now.core
            → found ≡ order_named book sender order.now.reference
            → IfOk result (λ (answer, change). IsPreparedByItself book self.now.core
            (Command.Order sender order.now) answer change) }
        ensures refused { (book : Book) → IsCoreOf book self.now.core
            → found ≡ order_named book sender order.now.reference
            → IfErr result (IsRefusedByItself book (Command.Order sender order.now)) }
    {
        queues_are_of_the_waiting();
        let Some(sending) = self.records.accounts.get(&sender) else {
            return Err(Refusal::UnknownParticipant);
        };
        if let Some(found) = found {
            if found.was_sent_as(order) {
                return Ok(self.repeated(Known::Order {
                    number: found.number,
                    state: found.state,
                }));
            }
            return Err(Refusal::ReferenceUsed);
        }
        let Some(date) = self.records.open_date() else {
            return Err(Refusal::NotOpen);
        };
        let Some(receiving) = self.records.accounts.get(&order.receiver) else {
            return Err(Refusal::UnknownReceiver);
        };
        if sender == order.receiver {
            return Err(Refusal::SameParty);
        }
        check_due(&self.records, &order.due)?;
        if self.records.orders.next() > LARGEST_NUMBER as u64 {
            return Err(Refusal::NumbersUsedUp);
        }
        let order_date = date_of(&order.due, date);
        let taken = self.records.next_order(sender, order, order_date);
        if settles_now(&self.records, &sending, order) {
            return self.decide_settled(&taken, &sending, &receiving);
        }
        if self.records.orders.count(&sender) >= LONGEST_QUEUE {
            return Err(Refusal::QueueFull);
        }
        self.decide_waiting(taken)
    }

    // The order is settled, under a mark of its own.
    fn decide_settled(
        &self,
        order: &Order,
        sending: &Account,
        receiving: &Account,
    ) -> Result<(Answer, Change), Refusal>
        requires number { order.now.number ≡ self.now.core.next_order }
        requires few { self.now.core.next_order ≤ LARGEST_NUMBER }
        ensures made { IfOk result (λ (answer, change). CanBeMade self.now.core change) }
        ensures frees { IfOk result (λ (answer, change). FreesOrders change) }
        ensures answered { IfOk result (λ (answer, change). CanAnswerByItself
            (Command.Order order.now.sender (as_sent order.now))
            answer change) }
        ensures of_the_command { IfErr result (λ refusal. is_of_the_store refusal ≡ false) }
        ensures prepared { (book : Book) → IsCoreOf book self.now.core → IsTaken book order.now
            → order.now.due ≡ None → settles_at_once book order.now.sender order.now.amount ≡ true
            → find (is_of order.now.sender) self.now.core.accounts ≡ Some sending.now
            → find (is_of order.now.receiver) self.now.core.accounts ≡ Some receiving.now
            → IfOk result (λ (answer, change). IsPreparedByItself book self.now.core
            (Command.Order order.now.sender (as_sent order.now))
            answer change) }
        ensures refused { (book : Book) → IsCoreOf book self.now.core → IsTaken book order.now
            → IfErr result (IsRefusedByItself book (Command.Order order.now.sender (as_sent order.now))) }
    {
        laws::balances_are_small();
        if !self.records.counts_marks() {
            return Err(Refusal::NumbersUsedUp);
        }
        let mark = self.records.next_mark(order.amount, order.date);
        let answer = Answer::Settled {
            number: order.number,
            mark: mark.number,
        };
        let debited = with_less(sending.balance, order.amount);
        let credited = with_more(receiving.balance, order.amount);
        let rows = settled_rows(self.alloc, order, mark, debited, credited)?;
        Ok((answer, Rows::from_vec(rows)))
    }

    // The order joins its sender's queue, or is held.
    fn decide_waiting(&self, order: Order) -> Result<(Answer, Change), Refusal>
        requires number { order.number ≡ self.now.core.next_order }
        requires few { self.now.core.next_order ≤ LARGEST_NUMBER }
        ensures made { IfOk result (λ (answer, change). CanBeMade self.now.core change) }
        ensures frees { IfOk result (λ (answer, change). FreesOrders change) }
        ensures answered { IfOk result (λ (answer, change). CanAnswerByItself
            (Command.Order order.sender (as_sent order)) answer change) }
        ensures of_the_command { IfErr result (λ refusal. is_of_the_store refusal ≡ false) }
        ensures prepared { (book : Book) → IsCoreOf book self.now.core → IsTaken book order
            → settles_now book order.sender (as_sent order) ≡ false
            → IfOk result (λ (answer, change). IsPreparedByItself book self.now.core
            (Command.Order order.sender (as_sent order)) answer change) }
        ensures refused { (book : Book) → IsTaken book order → IfErr result (IsRefusedByItself book
            (Command.Order order.sender (as_sent order))) }
    {
        queues_are_of_the_waiting();
        let place = self.records.orders.queue(&order.sender).len() as u64 + 1;
        let rows = vec![in self.alloc; RowChange::AddOrder(order)]?;
        Ok((waiting_answer(&order, place), Rows::from_vec(rows)))
    }
}

// The answer to an order that waits: at this place of its queue, or until its due date.
fn waiting_answer(order: &Order, place: u64) -> Answer
    ensures { result ≡ waiting_answer order.now.number place order.now.due }
{
    match order.due {
        None => Answer::Queued {
            number: order.number,
            place,
        },
        Some(due) => Answer::Held {
            number: order.number,
            due,
        },
    }
}

// The rows of an order that is settled: itself, its mark, and the balances of its parties.
fn settled_rows(
    alloc: Global,
    order: &Order,
    mark: Mark,
    debited: Cents,
    credited: Cents,
) -> Result<Vec<RowChange>, AllocError>
    ensures { IfOk result (λ rows. rows.items ≡ RowChange.AddOrder
        (record order.now { state = OrderState.Settled mark.number }) ∷ RowChange.AddMark mark
        ∷ RowChange.SetBalance order.now.sender debited ∷ RowChange.SetBalance order.now.receiver credited ∷ []) }
{
    let settled = Order {
        state: OrderState::Settled(mark.number),
        ..*order
    };
    let rows = vec![in alloc;
        RowChange::AddOrder(settled),
        RowChange::AddMark(mark),
        RowChange::SetBalance {
            code: order.sender,
            balance: debited
        },
        RowChange::SetBalance {
            code: order.receiver,
            balance: credited
        },
    ]?;
    Ok(rows)
}

// Refuses a due date that is not later than the last date of the desk, and then one that is a Saturday or a Sunday.
fn check_due(records: &Records, due: &Option<BusinessDate>) -> Result<(), Refusal>
    ensures passed { IfOk result (λ _. (is_too_early records.now.day.date due.now ≡ false)
        × (is_due_on_a_weekend due.now ≡ false)) }
    ensures refused { IfErr result (IsDueRefused records.now.day.date due.now) }
{
    if is_too_early(records, due) {
        return Err(Refusal::DueNotLater);
    }
    if is_on_a_weekend(due) {
        return Err(Refusal::Weekend);
    }
    Ok(())
}

// Whether there is a due date, and it is not later than the last date of the desk.
fn is_too_early(records: &Records, due: &Option<BusinessDate>) -> bool
    ensures { result ≡ is_too_early records.now.day.date due.now }
{
    match due {
        None => false,
        Some(due) => !records.is_before(*due),
    }
}

// Whether there is a due date, and it is a Saturday or a Sunday.
fn is_on_a_weekend(due: &Option<BusinessDate>) -> bool
    ensures { result ≡ is_due_on_a_weekend due.now }
{
    match due {
        None => false,
        Some(due) => due.is_weekend(),
    }
}

// The due date, and without one this date.
fn date_of(due: &Option<BusinessDate>, date: BusinessDate) -> BusinessDate
    ensures { result ≡ unwrap_or due.now date }
{
    match due {
        None => date,
        Some(due) => *due,
    }
}

// Whether the order has no due date and is settled at once.
fn settles_now(records: &Records, sending: &Account, order: &NewOrder) -> bool
    ensures value { result ≡ (is_none order.now.due
        && (is_empty (queued_numbers records.now.orders.orders (code_of sending.now))
        && int_le (floor_at records.now.day.phase sending.now.participant.credit)
        (sending.now.balance -ℤ pos order.now.amount))) }
    ensures fits { IsAmount order.now.amount }
{
    let settles = records.settles_at_once(sending, order.amount);
    match &order.due {
        None => settles,
        Some(_) => false,
    }
}
