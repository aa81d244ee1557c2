//! What texts are read from.
ghost use Rattle.std.specs.Prelude.{◌≡◌, Bool, true, Err, IfOk, slice_get};
ghost use Rattle.rtgs_book.specs.declared.book.Book.{Book};
ghost use Rattle.rtgs_book.specs.Lookup.{codes_of};
ghost use Rattle.rtgs_book.specs.Soundness.{IsSound};
ghost use Rattle.rtgs_book.specs.cores.Nexts.{posting_after, order_after, mark_after};
ghost use Rattle.rtgs_statements.specs.Reads.{LeavesRead, refused_by};

use rtgs_book::{Mark, Order, Posting, Refusal};
use rtgs_money::{BusinessDate, Code};

/// What texts are read from: the participants' codes, and the records of a date, one after another by their numbers.
pub trait Source {
    // It reads from this book.
    ghost holds: { Self → Book → Type 0 };

    // After reads from this book, whether they ended well or not.
    ghost leaves: { Self → Book → Type 0 };

    // The store returned what was written to it, and nobody else wrote.
    ghost is_honest: { Self → Type 0 };

    // A read has met a fault of the store.
    ghost has_failed: { Self → Bool };

    /// The posting of this date with the least number above the given one.
    fn next_posting(&mut self, date: BusinessDate, number: u64) -> Result<Option<Posting>, Refusal>
        ensures read { LeavesRead holds leaves is_honest has_failed self.old self.new (refused_by result) }
        ensures found { is_honest self.new → (book : Book) → holds self.old book
            → IfOk result (λ next. next ≡ posting_after book date number) }
        ensures failed { has_failed self.old ≡ true → (result ≡ Err Refusal.Failed) × (self.new ≡ self.old) };

    /// The order of this date with the least number above the given one.
    fn next_order(&mut self, date: BusinessDate, number: u64) -> Result<Option<Order>, Refusal>
        ensures read { LeavesRead holds leaves is_honest has_failed self.old self.new (refused_by result) }
        ensures found { is_honest self.new → (book : Book) → holds self.old book
            → IfOk result (λ next. next ≡ order_after book date number) }
        ensures failed { has_failed self.old ≡ true → (result ≡ Err Refusal.Failed) × (self.new ≡ self.old) };

    /// The mark of this date with the least number above the given one.
    fn next_mark(&mut self, date: BusinessDate, number: u64) -> Result<Option<Mark>, Refusal>
        ensures read { LeavesRead holds leaves is_honest has_failed self.old self.new (refused_by result) }
        ensures found { is_honest self.new → (book : Book) → holds self.old book
            → IfOk result (λ next. next ≡ mark_after book date number) }
        ensures failed { has_failed self.old ≡ true → (result ≡ Err Refusal.Failed) × (self.new ≡ self.old) };

    /// The code of the participant at this place, from 0 on, in the order of the codes; past the last there is none.
    fn code_at(&self, index: usize) -> Option<Code>
        ensures { (book : Book) → holds self.now book → result ≡ slice_get (codes_of book) index };

    /// The book is a sound one. Does nothing.
    fn reads_a_sound_book(&self)
        ensures { (book : Book) → holds self.now book → IsSound book };

    // What holds a book leaves it.
    ghost left: { (s : Self) (book : Book) → holds s book → leaves s book };
}
