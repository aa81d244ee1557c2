//! Cutting off a business day.
ghost use Rattle.std.specs.Prelude.{◌≡◌, IfOk, IfErr, false};
ghost use Rattle.rtgs_book.specs.declared.book.Book.{Book};
ghost use Rattle.rtgs_book.specs.cores.Cores.{IsCoreOf};
ghost use Rattle.rtgs_ledger.specs.Kept.{IsPreparedByItself, IsRefusedByItself};
ghost use Rattle.rtgs_ledger.specs.Kinds.{CanAnswerByItself, is_of_the_store};
ghost use Rattle.rtgs_ledger.specs.Rooms.{CanBeMade};

use super::Ledger;
use rtgs_book::{Answer, Change, Command, Day, Known, Phase, Refusal, RowChange, Rows};
use rtgs_money::BusinessDate;

impl Ledger {
    /// The day that is open takes no more orders.
    pub(super) fn decide_cut_off(&self, date: BusinessDate) -> Result<(Answer, Change), Refusal>
        ensures made { IfOk result (λ (answer, change). CanBeMade self.now.core change) }
        ensures answered { IfOk result (λ (answer, change). CanAnswerByItself (Command.CutOff date) answer change) }
        ensures of_the_command { IfErr result (λ refusal. is_of_the_store refusal ≡ false) }
        ensures prepared { (book : Book) → IsCoreOf book self.now.core
            → IfOk result (λ (answer, change). IsPreparedByItself book self.now.core
            (Command.CutOff date) answer change) }
        ensures refused { (book : Book) → IsCoreOf book self.now.core
            → IfErr result (IsRefusedByItself book (Command.CutOff date)) }
    {
        if self.records.is_cut_off_on(date) {
            return Ok(self.repeated(Known::Nothing));
        }
        let Some(today) = self.records.open_date() else {
            return Err(Refusal::WrongPhase);
        };
        if today != date {
            return Err(Refusal::WrongDate);
        }
        let day = Day {
            phase: Phase::CutOff,
            ..self.records.day
        };
        let rows = vec![in self.alloc; RowChange::SetDay(day)]?;
        Ok((Answer::CutOffDone, Rows::from_vec(rows)))
    }
}
