//! What the desk answers of orders that wait.
ghost use Rattle.std.specs.Prelude.{◌≡◌, ◌≢◌, ◌⊎◌, ◌^◌, ◌≤ℤ◌, pos, neg_ℤ, true, false, Err, IfErr};
ghost use Rattle.rtgs_book.specs.declared.book.Book.{Book};
ghost use Rattle.rtgs_desk.specs.Holding.{HasInMemory, Holds};
ghost use Rattle.rtgs_desk.specs.Readings.{Tells, held_answer, short_by, waiting_answer};

use super::Desk;
use crate::held::held_among;
use crate::tallies::tally_of;
use rtgs_book::{Order, Refusal, WaitingReading};
use rtgs_keeper::Keeper;
use rtgs_money::{BusinessDate, Code, Units};

impl<K: Keeper> Desk<K> {
    /// The held orders of the participant with this code, by due date and then number. It is `Failed` where the store
    /// has failed, and else `UnknownParticipant` where nobody has the code.
    pub fn held_of(&self, code: &Code) -> Result<Vec<Order>, Refusal>
        ensures answered { (book : Book) → Holds K.Keeper self.now book
            → Tells (λ orders. orders.items) (held_answer book code.now) result }
        // So it is of the book in memory, where none is known to be held.
        ensures remembered { (book : Book) → HasInMemory self.now book → K.has_failed self.now.keeper ≡ false
            → Tells (λ orders. orders.items) (held_answer book code.now) result }
        // Whatever is in memory, a desk whose store has not failed gives no other refusal than these.
        ensures kinds { K.has_failed self.now.keeper ≡ false → IfErr result (λ refusal.
            (refusal ≡ Refusal.UnknownParticipant) ⊎ (refusal ≡ Refusal.OutOfMemory)) }
        ensures failed { K.has_failed self.now.keeper ≡ true → result ≡ Err Refusal.Failed }
        ensures only_failed { result ≡ Err Refusal.Failed → K.has_failed self.now.keeper ≡ true }
        ensures no_fault { result ≢ Err Refusal.StoreFault }
    {
        self.known(code)?;
        Ok(held_among(self.alloc, self.ledger.waiting(), code)?)
    }

    /// Why the orders of the participant with this code wait: the first of its queue, how far its balance is above its
    /// floor, by how much the order exceeds that, and what is queued and held. It is `Failed` where the store has
    /// failed, and else `UnknownParticipant` where nobody has the code.
    pub fn waiting_of(&self, code: &Code) -> Result<WaitingReading, Refusal>
        ensures answered { (book : Book) → Holds K.Keeper self.now book
            → Tells (λ reading. reading) (waiting_answer book code.now) result }
        // So it is of the book in memory, where none is known to be held.
        ensures remembered { (book : Book) → HasInMemory self.now book → K.has_failed self.now.keeper ≡ false
            → Tells (λ reading. reading) (waiting_answer book code.now) result }
        // Whatever is in memory, a desk whose store has not failed gives no other refusal than these.
        ensures kinds { K.has_failed self.now.keeper ≡ false → IfErr result (λ refusal.
            (refusal ≡ Refusal.UnknownParticipant) ⊎ (refusal ≡ Refusal.OutOfMemory)) }
        ensures failed { K.has_failed self.now.keeper ≡ true → result ≡ Err Refusal.Failed }
        ensures only_failed { result ≡ Err Refusal.Failed → K.has_failed self.now.keeper ≡ true }
        ensures no_fault { result ≢ Err Refusal.StoreFault }
    {
        let account = self.known(code)?;
        let queue = self.ledger.queue(code)?;
        let held = held_among(self.alloc, self.ledger.waiting(), code)?;
        let first = queue.as_slice().first().copied();
        let headroom = account.balance.cents() as i128 - self.ledger.floor(&account) as i128;
        Ok(WaitingReading {
            first,
            headroom: Units::new(headroom),
            short: short_by(headroom, &first),
            queued: tally_of(queue.as_slice()),
            held: tally_of(held.as_slice()),
        })
    }
}

// By how much the order, if there is one, exceeds this headroom.
fn short_by(headroom: i128, first: &Option<Order>) -> Units
    requires { neg_ℤ (pos (2 ^ 64)) ≤ℤ headroom }
    ensures { result ≡ short_by headroom first.now }
{
    // Names the type of due dates for the borrow checker, which finds it nowhere else in this function.
    let _no_date: Option<BusinessDate> = None;
    let amount = match first {
        Some(order) => i128::from(order.amount.cents()),
        None => return Units::new(0),
    };
    if headroom < amount {
        Units::new(amount - headroom)
    } else {
        Units::new(0)
    }
}
