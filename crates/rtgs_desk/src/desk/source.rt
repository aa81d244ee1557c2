//! What texts are read from: the desk gives the participants' codes, and the records of a date one after another.
use super::Desk;
use super::look_ups::refused;
use rtgs_book::{Mark, Order, Posting, Refusal};
use rtgs_keeper::Keeper;
use rtgs_money::{BusinessDate, Code};
use rtgs_statements::Source;

impl<K: Keeper> Source for Desk<K> {
    ghost use Rattle.rtgs_desk.specs.Holding.{Holds, IsLeft};
    ghost use Rattle.rtgs_desk.specs.Leaving as leaving;

    ghost holds = { λ desk. Holds K.Keeper desk };

    // A crash leaves the book and no other, whole.
    ghost leaves = { λ desk. IsLeft K.Keeper desk };

    ghost is_honest = { λ desk. K.is_honest desk.keeper };

    ghost has_failed = { λ desk. K.has_failed desk.keeper };

    ghost left = { λ desk. leaving.left (record {
      content = K.Keeper.content;
      leaves = K.Keeper.leaves;
      has_failed = K.Keeper.has_failed;
      is_honest = K.Keeper.is_honest;
      has_tables = K.Keeper.has_tables;
      is_empty = K.Keeper.is_empty;
      is_whole = K.Keeper.is_whole;
      shows = K.Keeper.shows;
      leaves_no_more = K.Keeper.leaves_no_more;
      explains = K.Keeper.explains;
    }) K.still desk };

    fn next_posting(
        &mut self,
        date: BusinessDate,
        number: u64,
    ) -> Result<Option<Posting>, Refusal> {
        if self.failed {
            return Err(Refusal::Failed);
        }
        match self.keeper.next_posting(date, number) {
            Ok(next) => Ok(next),
            Err(fault) => Err(refused(fault, &mut self.failed)),
        }
    }

    fn next_order(&mut self, date: BusinessDate, number: u64) -> Result<Option<Order>, Refusal> {
        if self.failed {
            return Err(Refusal::Failed);
        }
        match self.keeper.next_order(date, number) {
            Ok(next) => Ok(next),
            Err(fault) => Err(refused(fault, &mut self.failed)),
        }
    }

    fn next_mark(&mut self, date: BusinessDate, number: u64) -> Result<Option<Mark>, Refusal> {
        if self.failed {
            return Err(Refusal::Failed);
        }
        match self.keeper.next_mark(date, number) {
            Ok(next) => Ok(next),
            Err(fault) => Err(refused(fault, &mut self.failed)),
        }
    }

    fn code_at(&self, index: usize) -> Option<Code> {
        self.ledger.code_at(index)
    }

    fn reads_a_sound_book(&self) {
        self.holds_a_sound_book();
    }
}
