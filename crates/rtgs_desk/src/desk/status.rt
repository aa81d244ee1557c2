//! How the desk stands.
ghost use Rattle.std.specs.Prelude.{◌≡◌, true, false, Ok, Err, OnErr};
ghost use Rattle.rtgs_book.specs.declared.book.Book.{Book};
ghost use Rattle.rtgs_desk.specs.Holding.{HasInMemory, Holds};
ghost use Rattle.rtgs_desk.specs.Readings.{status_answer};

use super::Desk;
use crate::tallies::tallies_of;
use rtgs_book::{Refusal, Status};
use rtgs_keeper::Keeper;

impl<K: Keeper> Desk<K> {
    /// The day, how many participants there are and all their cents together, how many orders are queued and held and
    /// what they pay, and which numbers come next. It is `Failed` where the store has failed, and no other refusal
    /// comes.
    pub fn status(&self) -> Result<Status, Refusal>
        ensures answered { (book : Book) → Holds K.Keeper self.now book → result ≡ status_answer book }
        // So it is of the book in memory, where none is known to be held.
        ensures remembered { (book : Book) → HasInMemory self.now book → K.has_failed self.now.keeper ≡ false
            → result ≡ status_answer book }
        ensures failed { K.has_failed self.now.keeper ≡ true → result ≡ Err Refusal.Failed }
        ensures only_failed { OnErr result (K.has_failed self.now.keeper ≡ true) }
    {
        if self.failed {
            return Err(Refusal::Failed);
        }
        let tallies = tallies_of(self.ledger.waiting());
        Ok(Status {
            day: self.ledger.day(),
            participants: self.ledger.participants(),
            queued: tallies.queued,
            held: tallies.held,
            sum: self.ledger.total(),
            next_posting: self.ledger.next_posting(),
            next_order: self.ledger.next_order(),
            next_mark: self.ledger.next_mark(),
        })
    }
}
