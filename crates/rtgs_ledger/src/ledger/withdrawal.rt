//! Withdrawing an order.
ghost use Rattle.std.specs.Prelude.{◌≡◌, IfOk, IfErr, false};
ghost use Rattle.rtgs_book.specs.declared.book.Book.{Book};
ghost use Rattle.rtgs_book.specs.Lookup.{order_named};
ghost use Rattle.rtgs_book.specs.cores.Cores.{IsCoreOf};
ghost use Rattle.rtgs_ledger.specs.Following.{FreesOrders};
ghost use Rattle.rtgs_ledger.specs.Kept.{IsPreparedByItself, IsRefusedByItself};
ghost use Rattle.rtgs_ledger.specs.Kinds.{CanAnswerByItself, is_of_the_store};
ghost use Rattle.rtgs_ledger.specs.Rooms.{CanBeMade};

use super::Ledger;
use rtgs_book::{
    Answer, Change, Command, Known, Order, OrderState, Refusal, RowChange, Rows, laws,
};
use rtgs_money::{Code, Reference};
use rtgs_records::queues::laws::numbers_lead_to_orders;

impl Ledger {
    /// An order that is queued or held is taken back by its sender.
    pub(super) fn decide_withdraw(
        &self,
        sender: Code,
        reference: Reference,
        found: Option<Order>,
    ) -> Result<(Answer, Change), Refusal>
        ensures made { IfOk result (λ (answer, change). CanBeMade self.now.core change) }
        ensures frees { IfOk result (λ (answer, change). FreesOrders change) }
        ensures answered { IfOk result (λ (answer, change). CanAnswerByItself
            (Command.Withdraw sender reference) answer change) }
        ensures of_the_command { IfErr result (λ refusal. is_of_the_store refusal ≡ false) }
        ensures prepared { (book : Book) → IsCoreOf book self.now.core → found ≡ order_named book sender reference
            → IfOk result (λ (answer, change). IsPreparedByItself book self.now.core
            (Command.Withdraw sender reference) answer change) }
        ensures refused { (book : Book) → IsCoreOf book self.now.core → found ≡ order_named book sender reference
            → IfErr result (IsRefusedByItself book (Command.Withdraw sender reference)) }
    {
        let Some(_) = self.records.accounts.get(&sender) else {
            return Err(Refusal::UnknownParticipant);
        };
        let Some(found) = found else {
            return Err(Refusal::UnknownOrder);
        };
        let number = found.number;
        match found.state {
            OrderState::Withdrawn => {
                return Ok(self.repeated(Known::Order {
                    number,
                    state: found.state,
                }));
            }
            OrderState::Settled(_) | OrderState::Rejected => return Err(Refusal::NotQueued),
            OrderState::Queued | OrderState::Held => {}
        }
        laws::balance_after_restating();
        numbers_lead_to_orders();
        let state = OrderState::Withdrawn;
        let rows = vec![in self.alloc; RowChange::SetState { number, state }]?;
        Ok((Answer::Withdrawn { number }, Rows::from_vec(rows)))
    }
}
