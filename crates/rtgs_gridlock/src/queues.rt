//! Queued payments, by the index of their sender.
ghost use Rattle.std.specs.Prelude.{◌≡◌, ◌↔◌, IsTrue, MatchOption, OnOk, OnErr, ◌^◌, ◌<◌, ◌≤◌, [], ◌∷◌, ◌++◌, length};
ghost use Rattle.std.specs.Prelude.{slice_get};
ghost use Rattle.rtgs_gridlock.specs.Choices.{queue_of, payment_count, AreInRange};

use crate::out_of_memory::OutOfMemory;
use std::alloc::Global;
use std::marker::Model;

/// The greatest amount of a payment, in cents.
pub(crate) const LARGEST_AMOUNT: u64 = u64::MAX;

/// A queued payment: the index of the participant that receives it, and its amount in cents.
#[derive(Clone, Copy, Debug, PartialEq, Eq)]
pub struct Payment {
    pub receiver: usize,
    pub amount: u64,
}

/// The queued payments of each participant, by its index, the oldest first. A clause sees the list
/// of the queues, each a list of payments.
#[derive(Debug, Drop)]
pub struct Queues {
    lists: Vec<Vec<Payment>>,
}

impl Model for Queues {
    ghost use Rattle.std.specs.Prelude.{List, map};
    ghost use Rattle.rtgs_gridlock.specs.declared.queues.Payment.{Payment};

    ghost Value = { List (List Payment) };

    ghost view = { λ queues. map (λ queue. queue.items) queues.lists.items };
}

impl Queues {
    /// The queues of no participants.
    pub fn new(alloc: Global) -> Queues
        ensures { result ≡ [] }
    {
        Queues {
            lists: Vec::new(alloc),
        }
    }

    /// Adds the queue of the next participant.
    pub fn push(&mut self, queue: Vec<Payment>) -> Result<(), OutOfMemory>
        ensures ok { OnOk result (self.new ≡ self.old ++ queue.items ∷ []) }
        ensures err { OnErr result (self.new ≡ self.old) }
    {
        self.lists.push(queue)?;
        Ok(())
    }

    /// How many participants there are.
    pub fn len(&self) -> usize
        ensures { result ≡ length self.now }
    {
        self.lists.len()
    }

    /// Whether there are no participants.
    pub fn is_empty(&self) -> bool
        ensures { IsTrue result ↔ (self.now ≡ []) }
    {
        self.lists.is_empty()
    }

    /// Whether each payment's receiver is a participant.
    pub fn are_in_range(&self) -> bool
        ensures { IsTrue result ↔ AreInRange self.now }
    {
        let count = self.len();
        for index in 0..count {
            if !self
                .queue(index)
                .iter()
                .all(|payment| payment.receiver < count)
            {
                return false;
            }
        }
        true
    }

    /// How many payments are queued, where that is a `usize`, and else `None`.
    #[tactic(auto, using(crate::proofs::ChoiceLemmas::counts))]
    pub fn payment_count(&self) -> Option<usize>
        ensures { MatchOption result (2 ^ 64 ≤ payment_count self.now) (λ count. count ≡ payment_count self.now) }
    {
        let mut count = 0usize;
        for index in 0..self.len() {
            let Some(more) = count.checked_add(self.queue(index).len()) else {
                return None;
            };
            count = more;
        }
        Some(count)
    }

    /// The queue of the participant with this index, with its first payment first.
    pub(crate) fn queue(&self, index: usize) -> &[Payment]
        requires { index < length self.now }
        ensures { result.now ≡ queue_of self.now index }
    {
        &self.lists[index]
    }

    /// The payment at this place, from 0 on, of the queue of the participant with this index.
    pub(crate) fn payment(&self, index: usize, place: usize) -> Payment
        requires index { index < length self.now }
        requires place { place < length (queue_of self.now index) }
        ensures { slice_get (queue_of self.now index) place ≡ Some result }
    {
        self.lists[index][place]
    }
}
