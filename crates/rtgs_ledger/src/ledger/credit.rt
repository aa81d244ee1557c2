//! Setting a credit limit.
ghost use Rattle.std.specs.Prelude.{◌≡◌, IfOk, IfErr, false};
ghost use Rattle.rtgs_book.specs.declared.book.Book.{Book};
ghost use Rattle.rtgs_book.specs.cores.Cores.{IsCoreOf};
ghost use Rattle.rtgs_ledger.specs.Following.{FreesOrders};
ghost use Rattle.rtgs_ledger.specs.Kept.{IsPreparedByItself, IsRefusedByItself};
ghost use Rattle.rtgs_ledger.specs.Kinds.{CanAnswerByItself, is_of_the_store};
ghost use Rattle.rtgs_ledger.specs.Rooms.{CanBeMade};

use super::Ledger;
use rtgs_book::{Answer, Change, Command, Refusal, RowChange, Rows};
use rtgs_money::{Code, Credit};

impl Ledger {
    /// The credit limit is set, where the participant has not used more than that.
    pub(super) fn decide_set_credit(
        &self,
        code: Code,
        credit: Credit,
    ) -> Result<(Answer, Change), Refusal>
        ensures made { IfOk result (λ (answer, change). CanBeMade self.now.core change) }
        ensures frees { IfOk result (λ (answer, change). FreesOrders change) }
        ensures answered { IfOk result (λ (answer, change). CanAnswerByItself (Command.SetCredit code credit) answer
            change) }
        ensures of_the_command { IfErr result (λ refusal. is_of_the_store refusal ≡ false) }
        ensures prepared { (book : Book) → IsCoreOf book self.now.core
            → IfOk result (λ (answer, change). IsPreparedByItself book self.now.core
            (Command.SetCredit code credit) answer change) }
        ensures refused { (book : Book) → IsCoreOf book self.now.core
            → IfErr result (IsRefusedByItself book (Command.SetCredit code credit)) }
    {
        let Some(account) = self.records.accounts.get(&code) else {
            return Err(Refusal::UnknownParticipant);
        };
        if self.records.is_past_limit(&account, credit) {
            return Err(Refusal::NoCover);
        }
        let rows = vec![in self.alloc; RowChange::SetCredit { code, credit }]?;
        Ok((Answer::CreditSet, Rows::from_vec(rows)))
    }
}
