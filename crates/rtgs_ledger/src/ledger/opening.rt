//! Opening a business day.
ghost use Rattle.std.specs.Prelude.{◌≡◌, ◌++◌, ◌∷◌, [], map, filter, IfOk, IfErr, false};
ghost use Rattle.rtgs_book.specs.declared.order.Order.{Order};
ghost use Rattle.rtgs_book.specs.Commands.{is_due};
ghost use Rattle.rtgs_book.specs.declared.book.Book.{Book};
ghost use Rattle.rtgs_book.specs.cores.Cores.{IsCoreOf};
ghost use Rattle.rtgs_ledger.specs.Following.{FreesOrders};
ghost use Rattle.rtgs_ledger.specs.Kept.{IsPreparedByItself, IsRefusedByItself};
ghost use Rattle.rtgs_ledger.specs.Kinds.{CanAnswerByItself, is_of_the_store};
ghost use Rattle.rtgs_ledger.specs.Rooms.{CanBeMade};

use super::Ledger;
use rtgs_book::{
    Answer, Change, Command, Day, Known, NewDay, Order, Phase, Refusal, RowChange, Rows, laws,
};
use rtgs_money::BusinessDate;
use rtgs_records::queues::laws::numbers_lead_to_orders;
use std::alloc::{AllocError, Global};

impl Ledger {
    /// The day is opened, where the desk is closed and the date is later than the last one. The held orders that are
    /// due enter their queues.
    pub(super) fn decide_open_day(&self, new_day: &NewDay) -> Result<(Answer, Change), Refusal>
        ensures made { IfOk result (λ (answer, change). CanBeMade self.now.core change) }
        ensures frees { IfOk result (λ (answer, change). FreesOrders change) }
        ensures answered { IfOk result (λ (answer, change). CanAnswerByItself (Command.OpenDay new_day.now) answer
            change) }
        ensures of_the_command { IfErr result (λ refusal. is_of_the_store refusal ≡ false) }
        ensures prepared { (book : Book) → IsCoreOf book self.now.core
            → IfOk result (λ (answer, change). IsPreparedByItself book self.now.core
            (Command.OpenDay new_day.now) answer change) }
        ensures refused { (book : Book) → IsCoreOf book self.now.core
            → IfErr result (IsRefusedByItself book (Command.OpenDay new_day.now)) }
    {
        if self.records.is_open_on(new_day) {
            return Ok(self.repeated(Known::Nothing));
        }
        let date = new_day.date;
        if !self.records.is_closed() {
            return Err(Refusal::WrongPhase);
        }
        if !self.records.is_before(date) {
            return Err(Refusal::WrongDate);
        }
        if date.is_weekend() {
            return Err(Refusal::Weekend);
        }
        let day = Day {
            date: Some(date),
            phase: Phase::Open,
            automatic: new_day.automatic,
        };
        numbers_lead_to_orders();
        laws::balance_after_entering();
        let numbers = due_numbers(self.alloc, self.records.orders.as_slice(), date)?;
        let rows = opening_rows(self.alloc, numbers.as_slice(), date, day)?;
        Ok((Answer::Opened, Rows::from_vec(rows)))
    }
}

// The numbers of the held orders that are due by this date.
fn due_numbers(alloc: Global, orders: &[Order], date: BusinessDate) -> Result<Vec<u64>, AllocError>
    ensures { IfOk result (λ numbers. numbers.items
        ≡ map (λ (o : Order). o.number) (filter (is_due date) orders.now)) }
{
    let due = orders.iter().filter(|order| is_due(order, date));
    due.map(|order| order.number).collect(alloc)
}

// The rows by which the orders with these numbers enter their queues on this date, and the one that sets the day.
fn opening_rows(
    alloc: Global,
    numbers: &[u64],
    date: BusinessDate,
    day: Day,
) -> Result<Vec<RowChange>, AllocError>
    ensures { IfOk result (λ rows. rows.items ≡ map (λ number. RowChange.EnterQueue number date) numbers.now
        ++ RowChange.SetDay day ∷ []) }
{
    let entering = numbers.iter().map(|number| RowChange::EnterQueue {
        number: *number,
        date,
    });
    entering.chain(Some(RowChange::SetDay(day))).collect(alloc)
}

// Whether the order is held, and due by this date.
fn is_due(order: &Order, date: BusinessDate) -> bool
    ensures { result ≡ is_due date order.now }
{
    match order.due {
        None => false,
        Some(due) => order.state.is_held() && due <= date,
    }
}
