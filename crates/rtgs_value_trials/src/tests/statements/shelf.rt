//! A book in memory, of whose reads one can meet trouble.
ghost use Rattle.std.specs.Prelude.{◌≡◌, Err, OnOk, IfErr, ◌⊎◌, true, false, map, slice_get};
ghost use Rattle.rtgs_book.specs.declared.participant.Participant.{Participant as ParticipantSpec};
ghost use Rattle.std.specs.List.{find};
ghost use Rattle.rtgs_book.specs.cores.Nexts.{is_posting_after, is_order_after, is_mark_after};

use rtgs_book::{Book, Mark, Order, Participant, Posting, Refusal};
use rtgs_money::{BusinessDate, Code};
use rtgs_statements::Source;

/// What a read meets.
#[derive(Clone, Copy, Debug, PartialEq, Eq)]
pub enum Trouble {
    /// The store fails, and every read after it is refused too.
    StoreFault,
    OutOfMemory,
}

/// Gives the records of a book one after another, by its lists. After a number of reads each one meets trouble.
#[derive(Debug, Drop)]
pub struct Shelf {
    book: Book,
    reads: usize,
    trouble: Trouble,
    failed: bool,
}

impl Shelf {
    /// Whose reads go well.
    pub fn new(book: Book) -> Shelf
        ensures book { result.book ≡ book }
        ensures failed { result.failed ≡ false }
    {
        Shelf::failing(book, usize::MAX, Trouble::StoreFault)
    }

    /// This many reads go well, and the next one meets trouble.
    pub fn failing(book: Book, reads: usize, trouble: Trouble) -> Shelf
        ensures book { result.book ≡ book }
        ensures failed { result.failed ≡ false }
    {
        Shelf {
            book,
            reads,
            trouble,
            failed: false,
        }
    }

    /// Whether the store failed.
    pub fn has_failed(&self) -> bool {
        self.failed
    }

    // Counts a read, and refuses it where trouble is met.
    fn read(&mut self) -> Result<(), Refusal>
        ensures book { self.new.book ≡ self.old.book }
        ensures well { OnOk result (self.new.failed ≡ self.old.failed) }
        ensures ill { IfErr result (λ refusal.
            ((refusal ≡ Refusal.StoreFault) × (self.old.failed ≡ false) × (self.new.failed ≡ true))
            ⊎ (((refusal ≡ Refusal.OutOfMemory) × (self.old.failed ≡ false) × (self.new.failed ≡ false))
            ⊎ ((refusal ≡ Refusal.Failed) × (self.old.failed ≡ true)))) }
        ensures failed { self.old.failed ≡ true → (result ≡ Err Refusal.Failed) × (self.new ≡ self.old) }
    {
        if self.failed {
            return Err(Refusal::Failed);
        }
        if self.reads > 0 {
            self.reads -= 1;
            return Ok(());
        }
        if self.trouble == Trouble::OutOfMemory {
            return Err(Refusal::OutOfMemory);
        }
        self.failed = true;
        Err(Refusal::StoreFault)
    }
}

impl Source for Shelf {
    ghost use Rattle.std.specs.Prelude.{◌≡◌, false};
    ghost use Rattle.rtgs_book.specs.Soundness.{IsSound};

    ghost holds = { λ shelf book. (shelf.book ≡ book) × IsSound book × (shelf.failed ≡ false) };

    ghost leaves = { λ shelf book. shelf.book ≡ book };

    ghost is_honest = { λ _. Unit {0} };

    ghost has_failed = { λ shelf. shelf.failed };

    ghost left = { λ shelf book held. held.0 };

    fn next_posting(
        &mut self,
        date: BusinessDate,
        number: u64,
    ) -> Result<Option<Posting>, Refusal> {
        self.read()?;
        Ok(posting_after(self.book.postings.as_slice(), date, number))
    }

    fn next_order(&mut self, date: BusinessDate, number: u64) -> Result<Option<Order>, Refusal> {
        self.read()?;
        Ok(order_after(self.book.orders.as_slice(), date, number))
    }

    fn next_mark(&mut self, date: BusinessDate, number: u64) -> Result<Option<Mark>, Refusal> {
        self.read()?;
        Ok(mark_after(self.book.marks.as_slice(), date, number))
    }

    fn code_at(&self, index: usize) -> Option<Code> {
        code_at(self.book.participants.as_slice(), index)
    }

    fn reads_a_sound_book(&self) {}
}

// The code of the participant at this place.
fn code_at(participants: &[Participant], index: usize) -> Option<Code>
    ensures { result ≡ slice_get (map (λ (p : ParticipantSpec). p.code) participants.now) index }
{
    if index < participants.len() {
        Some(participants[index].code)
    } else {
        None
    }
}

// The first posting of the date with a number above this one.
fn posting_after(postings: &[Posting], date: BusinessDate, number: u64) -> Option<Posting>
    ensures { result ≡ find (is_posting_after date number) postings.now }
{
    postings.iter().copied().find(|posting| posting.date == Some(date) && number < posting.number)
}

// The first order of the date with a number above this one.
fn order_after(orders: &[Order], date: BusinessDate, number: u64) -> Option<Order>
    ensures { result ≡ find (is_order_after date number) orders.now }
{
    orders
        .iter()
        .copied()
        .find(|order| order.date == date && number < order.number)
}

// The first mark of the date with a number above this one.
fn mark_after(marks: &[Mark], date: BusinessDate, number: u64) -> Option<Mark>
    ensures { result ≡ find (is_mark_after date number) marks.now }
{
    marks
        .iter()
        .copied()
        .find(|mark| mark.date == date && number < mark.number)
}
