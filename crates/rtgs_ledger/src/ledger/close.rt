//! Closing a business day.
ghost use Rattle.std.specs.Prelude.{◌≡◌, ◌++◌, ◌∷◌, [], true, IfOk, IfErr, false};
ghost use Rattle.std.specs.List.{flat_map};
ghost use Rattle.rtgs_book.specs.Queue.{queued_numbers};
ghost use Rattle.rtgs_choices.specs.Settling.{state_rows};
ghost use Rattle.rtgs_book.specs.declared.book.Book.{Book};
ghost use Rattle.rtgs_book.specs.cores.Cores.{IsCoreOf};
ghost use Rattle.rtgs_records.specs.accounts.Accounts.{code_of};
ghost use Rattle.rtgs_ledger.specs.Closing.{IsClosable};
ghost use Rattle.rtgs_ledger.specs.Kept.{IsPreparedByItself, IsRefusedByItself};
ghost use Rattle.rtgs_ledger.specs.Kinds.{CanAnswerByItself, is_of_the_store};
ghost use Rattle.rtgs_ledger.specs.Rooms.{CanBeMade};

use super::Ledger;
use rtgs_book::{
    Answer, Change, Command, Day, Known, OrderState, Phase, Refusal, RowChange, Rows, laws,
};
use rtgs_choices::laws::{chosen_numbers, queued_are_numbered, rows_close, taken_are_chosen};
use rtgs_money::BusinessDate;
use rtgs_records::queues::laws::queues_are_of_the_waiting;
use std::alloc::{AllocError, Global};

impl Ledger {
    /// The day that was cut off is closed, where no queued orders can be settled together and nobody is below zero.
    /// What is queued is rejected.
    pub(super) fn decide_close_day(&self, date: BusinessDate) -> Result<(Answer, Change), Refusal>
        ensures made { IfOk result (λ (answer, change). CanBeMade self.now.core change) }
        ensures answered { IfOk result (λ (answer, change). CanAnswerByItself (Command.CloseDay date) answer change) }
        ensures of_the_command { IfErr result (λ refusal. is_of_the_store refusal ≡ false) }
        ensures prepared { (book : Book) → IsCoreOf book self.now.core
            → IfOk result (λ (answer, change). IsPreparedByItself book self.now.core (Command.CloseDay date) answer
            change) }
        ensures refused { (book : Book) → IsCoreOf book self.now.core
            → IfErr result (IsRefusedByItself book (Command.CloseDay date)) }
    {
        laws::greatest_exists();
        chosen_numbers();
        taken_are_chosen();
        if self.records.is_closed_on(date) {
            return Ok(self.repeated(Known::Nothing));
        }
        let Some(today) = self.records.cut_off_date() else {
            return Err(Refusal::WrongPhase);
        };
        if today != date {
            return Err(Refusal::WrongDate);
        }
        let Ok(orders) = self.chosen_orders() else {
            return Err(Refusal::OutOfMemory);
        };
        if !orders.is_empty() {
            return Err(Refusal::Resolvable);
        }
        self.decide_closing(date)
    }

    // The day is closed, where nobody is below zero, and what is queued is rejected. The greatest choice has no order.
    fn decide_closing(&self, date: BusinessDate) -> Result<(Answer, Change), Refusal>
        ensures made { IfOk result (λ (answer, change). CanBeMade self.now.core change) }
        ensures answered { IfOk result (λ (answer, change). CanAnswerByItself (Command.CloseDay date) answer change) }
        ensures of_the_command { IfErr result (λ refusal. is_of_the_store refusal ≡ false) }
        ensures prepared { (book : Book) → IsCoreOf book self.now.core → IsClosable book date
            → IfOk result (λ (answer, change). IsPreparedByItself book self.now.core (Command.CloseDay date) answer
            change) }
        ensures refused { (book : Book) → IsCoreOf book self.now.core → IsClosable book date
            → IfErr result (IsRefusedByItself book (Command.CloseDay date)) }
    {
        if let Some(account) = self.records.accounts.first_overdrawn() {
            return Err(Refusal::Overdrawn {
                first: account.participant.code,
                count: self.records.accounts.overdrawn() as u64,
            });
        }
        queued_are_numbered();
        queues_are_of_the_waiting();
        rows_close();
        let numbers = self.queued_numbers()?;
        let day = Day {
            phase: Phase::Closed,
            automatic: false,
            ..self.records.day
        };
        let rows = closing_rows(self.alloc, numbers.as_slice(), day)?;
        let rejected = numbers.len() as u64;
        Ok((Answer::Closed { rejected }, Rows::from_vec(rows)))
    }

    // The numbers of all queued orders, account by account.
    fn queued_numbers(&self) -> Result<Vec<u64>, AllocError>
        ensures { IfOk result (λ numbers. numbers.items
            ≡ flat_map (λ account. queued_numbers self.now.core.waiting (code_of account)) self.now.core.accounts) }
    {
        let mut numbers = Vec::new(self.alloc);
        for account in self.records.accounts.as_slice() {
            numbers.extend_from_slice(self.records.orders.queue(&account.participant.code))?;
        }
        Ok(numbers)
    }
}

// The rows that reject the orders with these numbers, and set the day.
fn closing_rows(alloc: Global, numbers: &[u64], day: Day) -> Result<Vec<RowChange>, AllocError>
    ensures { IfOk result (λ rows. rows.items ≡ state_rows OrderState.Rejected numbers.now ++ RowChange.SetDay day
        ∷ []) }
{
    let rejected = numbers.iter().map(|number| RowChange::SetState {
        number: *number,
        state: OrderState::Rejected,
    });
    rejected.chain(Some(RowChange::SetDay(day))).collect(alloc)
}
