//! Posting to an account.
ghost use Rattle.std.specs.Prelude.{◌≡◌, IfOk, IfErr, false};
ghost use Rattle.rtgs_book.specs.declared.book.Book.{Book};
ghost use Rattle.rtgs_book.specs.Lookup.{posting_named};
ghost use Rattle.rtgs_book.specs.cores.Cores.{IsCoreOf};
ghost use Rattle.rtgs_ledger.specs.Following.{FreesOrders};
ghost use Rattle.rtgs_ledger.specs.Kept.{IsPreparedByItself, IsRefusedByItself};
ghost use Rattle.rtgs_ledger.specs.Kinds.{CanAnswerByItself, is_of_the_store};
ghost use Rattle.rtgs_ledger.specs.Rooms.{CanBeMade};

use super::Ledger;
use rtgs_book::{
    Answer, Change, Command, Known, LARGEST_NUMBER, Posting, Refusal, RowChange, Rows, laws,
};
use rtgs_money::{Code, PostingAmount, Reference};
use rtgs_records::accounts::sums::moved;

impl Ledger {
    /// A posting is added, with the next number.
    pub(super) fn decide_post(
        &self,
        code: Code,
        reference: Reference,
        cents: PostingAmount,
        found: Option<Posting>,
    ) -> Result<(Answer, Change), Refusal>
        ensures made { IfOk result (λ (answer, change). CanBeMade self.now.core change) }
        ensures frees { IfOk result (λ (answer, change). FreesOrders change) }
        ensures answered { IfOk result (λ (answer, change). CanAnswerByItself
            (Command.Post code reference cents) answer change) }
        ensures of_the_command { IfErr result (λ refusal. is_of_the_store refusal ≡ false) }
        ensures prepared { (book : Book) → IsCoreOf book self.now.core → found ≡ posting_named book reference
            → IfOk result (λ (answer, change). IsPreparedByItself book self.now.core
            (Command.Post code reference cents) answer change) }
        ensures refused { (book : Book) → IsCoreOf book self.now.core → found ≡ posting_named book reference
            → IfErr result (IsRefusedByItself book (Command.Post code reference cents)) }
    {
        let Some(account) = self.records.accounts.get(&code) else {
            return Err(Refusal::UnknownParticipant);
        };
        if let Some(found) = found {
            if found.code == code && found.cents == cents {
                return Ok(self.repeated(Known::Posting {
                    number: found.number,
                }));
            }
            return Err(Refusal::ReferenceUsed);
        }
        let number = self.records.next_posting;
        if number > LARGEST_NUMBER as u64 {
            return Err(Refusal::NumbersUsedUp);
        }
        if self.records.is_too_much(cents) {
            return Err(Refusal::TotalTooLarge);
        }
        laws::balances_are_small();
        let balance = moved(account.balance, cents.cents());
        if self.records.is_uncovered(&account, cents, balance) {
            return Err(Refusal::NoCover);
        }
        let posting = Posting {
            number,
            code,
            reference,
            cents,
            date: self.records.day.date,
        };
        let rows = vec![in self.alloc;
            RowChange::AddPosting(posting),
            RowChange::SetBalance { code, balance },
        ]?;
        Ok((Answer::Posted { number }, Rows::from_vec(rows)))
    }
}
