//! Adding a participant.
ghost use Rattle.std.specs.Prelude.{◌≡◌, IfOk, IfErr, false};
ghost use Rattle.rtgs_book.specs.declared.book.Book.{Book};
ghost use Rattle.rtgs_book.specs.cores.Cores.{IsCoreOf};
ghost use Rattle.rtgs_ledger.specs.Kept.{IsPreparedByItself, IsRefusedByItself};
ghost use Rattle.rtgs_ledger.specs.Kinds.{CanAnswerByItself, is_of_the_store};
ghost use Rattle.rtgs_ledger.specs.Rooms.{CanBeMade};

use super::Ledger;
use rtgs_book::{
    Answer, Change, Command, Known, MOST_PARTICIPANTS, Participant, Refusal, RowChange, Rows,
};
use rtgs_money::{Code, Credit, KeyDigest, Name};

impl Ledger {
    /// A participant is added, in code order.
    pub(super) fn decide_add(
        &self,
        code: Code,
        name: Name,
        key: KeyDigest,
    ) -> Result<(Answer, Change), Refusal>
        ensures made { IfOk result (λ (answer, change). CanBeMade self.now.core change) }
        ensures answered { IfOk result (λ (answer, change). CanAnswerByItself (Command.Add code name key) answer
            change) }
        ensures of_the_command { IfErr result (λ refusal. is_of_the_store refusal ≡ false) }
        ensures prepared { (book : Book) → IsCoreOf book self.now.core
            → IfOk result (λ (answer, change). IsPreparedByItself book self.now.core
            (Command.Add code name key) answer change) }
        ensures refused { (book : Book) → IsCoreOf book self.now.core
            → IfErr result (IsRefusedByItself book (Command.Add code name key)) }
    {
        if let Some(found) = self.records.accounts.get(&code) {
            if found.participant.name == name && found.participant.key == key {
                return Ok(self.repeated(Known::Nothing));
            }
            return Err(Refusal::CodeTaken);
        }
        if self.records.accounts.has_key(&key) {
            return Err(Refusal::KeyTaken);
        }
        if self.records.accounts.len() >= MOST_PARTICIPANTS {
            return Err(Refusal::TooManyParticipants);
        }
        let participant = Participant {
            code,
            name,
            key,
            credit: Credit::NONE,
        };
        let rows = vec![in self.alloc; RowChange::AddParticipant(participant)]?;
        Ok((Answer::Added, Rows::from_vec(rows)))
    }
}
