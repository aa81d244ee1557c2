//! What the desk answers of all queues.
ghost use Rattle.std.specs.Prelude.{◌≡◌, ◌≢◌, true, false, Err, IfErr};
ghost use Rattle.rtgs_book.specs.declared.book.Book.{Book};
ghost use Rattle.rtgs_book.specs.Choice.{Choice, IsGreatest};
ghost use Rattle.rtgs_desk.specs.Holding.{HasInMemory, Holds};
ghost use Rattle.rtgs_desk.specs.Queues.{queues_answer};
ghost use Rattle.rtgs_desk.specs.Readings.{Tells};

use super::Desk;
use crate::queues::queue_readings;
use rtgs_book::{QueueReading, Refusal};
use rtgs_keeper::Keeper;

impl<K: Keeper> Desk<K> {
    /// Each queue that has orders, in the order of the participants' codes: its first order, whom it pays, and how much
    /// of it a resolution would settle now. It is `Failed` where the store has failed, and the only other refusal is
    /// lack of memory.
    pub fn queues(&self) -> Result<Vec<QueueReading>, Refusal>
        // A book that a desk holds has one greatest choice, by laws of `rtgs_book`.
        ensures answered { (book : Book) (choice : Choice) → Holds K.Keeper self.now book → IsGreatest book choice
            → Tells (λ readings. readings.items) (queues_answer book choice) result }
        // So it is of the book in memory, where none is known to be held.
        ensures remembered { (book : Book) (choice : Choice) → HasInMemory self.now book
            → K.has_failed self.now.keeper ≡ false → IsGreatest book choice
            → Tells (λ readings. readings.items) (queues_answer book choice) result }
        // Whatever is in memory, a desk whose store has not failed gives no other refusal than this.
        ensures kinds { K.has_failed self.now.keeper ≡ false
            → IfErr result (λ refusal. refusal ≡ Refusal.OutOfMemory) }
        ensures failed { K.has_failed self.now.keeper ≡ true → result ≡ Err Refusal.Failed }
        ensures only_failed { result ≡ Err Refusal.Failed → K.has_failed self.now.keeper ≡ true }
        ensures no_fault { result ≢ Err Refusal.StoreFault }
    {
        if self.failed {
            return Err(Refusal::Failed);
        }
        queue_readings(self.alloc, &self.ledger)
    }
}
