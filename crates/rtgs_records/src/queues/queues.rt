//! The queue of each sender.
ghost use Rattle.std.specs.Prelude.{◌≡◌, ◌≤◌, ◌+◌, ◌++◌, ◌∷◌, [], ℕ, List, not, ◌==◌, if◌then◌else◌, filter, OnOk};
ghost use Rattle.std.specs.Str.{bytes_eq};
ghost use Rattle.std.specs.Vec.{vec_capacity};
ghost use Rattle.std.specs.Prelude.{nat_lt, vec_len, ◌<◌};
ghost use Rattle.rtgs_records.specs.queues.QueueNumbers.{AreInOrder, numbers_of, room_of};

use rtgs_money::Code;
use std::alloc::{AllocError, Global};
use std::collections::BTreeMap;

/// Numbers of orders in queues, one queue for each sender. A sender without an entry has an empty queue.
#[derive(Debug, Drop)]
pub struct QueueNumbers {
    numbers: BTreeMap<Code, Vec<u64>>,
}

impl QueueNumbers {
    /// Queues in which no sender has an order yet.
    pub fn new(alloc: Global) -> Self
        ensures { (sender : List ℕ) → numbers_of result sender ≡ [] }
    {
        QueueNumbers {
            numbers: BTreeMap::new(alloc),
        }
    }

    /// The numbers in the sender's queue.
    pub fn get(&self, sender: &Code) -> &[u64]
        ensures { result.now ≡ numbers_of self.now sender.now }
    {
        match self.numbers.get(sender) {
            Some(queue) => queue.as_slice(),
            None => &[],
        }
    }

    /// Makes room for this many numbers more in the sender's queue. No queue loses room.
    pub fn reserve(&mut self, sender: Code, count: usize) -> Result<(), AllocError>
        ensures same { (other : List ℕ) → numbers_of self.new other ≡ numbers_of self.old other }
        ensures room { OnOk result (count ≤ room_of self.new sender) }
        ensures more { (other : List ℕ) → room_of self.old other ≤ room_of self.new other }
    {
        let queue = self.numbers.entry(sender)?.or_default();
        queue.reserve(count)
    }

    /// Puts a number at the end of the sender's queue, in the room that was made for it, and takes no other room.
    pub fn push(&mut self, sender: &Code, number: u64)
        requires { 1 ≤ room_of self.old sender.now }
        ensures queues { (other : List ℕ) → numbers_of self.new other
            ≡ (if bytes_eq sender.now other then numbers_of self.old other ++ number ∷ [] else numbers_of
            self.old other) }
        ensures room { (other : List ℕ) → room_of self.old other
            ≡ room_of self.new other + (if bytes_eq sender.now other then 1 else 0) }
    {
        if let Some(queue) = self.numbers.get_mut(sender) {
            queue.push_reserved(number);
        }
    }

    /// Puts a number at its place in the sender's queue, whose numbers rise, in the room that was made for it. Another
    /// queue stays as it is.
    pub fn insert(&mut self, sender: &Code, number: u64)
        requires { 1 ≤ room_of self.old sender.now }
        ensures queues { (other : List ℕ) → AreInOrder (numbers_of self.old sender.now) → numbers_of self.new other
            ≡ (if bytes_eq sender.now other then filter (λ n. nat_lt n number) (numbers_of self.old other) ++ number
            ∷ filter (λ n. not (nat_lt n number)) (numbers_of self.old other) else numbers_of self.old other) }
        ensures room { (other : List ℕ) → room_of self.old other
            ≤ room_of self.new other + (if bytes_eq sender.now other then 1 else 0) }
    {
        if let Some(queue) = self.numbers.get_mut(sender) {
            insert_in_order(queue, number);
        }
    }

    /// Takes a number out of the sender's queue. No queue loses room.
    pub fn remove(&mut self, sender: &Code, number: u64)
        ensures queues { (other : List ℕ) → numbers_of self.new other
            ≡ (if bytes_eq sender.now other then filter (λ n. not (n == number))
            (numbers_of self.old other) else numbers_of self.old other) }
        ensures room { (other : List ℕ) → room_of self.old other ≤ room_of self.new other }
    {
        if let Some(queue) = self.numbers.get_mut(sender) {
            queue.retain(|n| *n != number);
        }
    }
}

// Puts the number at its place among numbers that rise. There is room for it.
fn insert_in_order(numbers: &mut Vec<u64>, number: u64)
    requires { vec_len numbers.old < vec_capacity numbers.old }
    ensures items { AreInOrder numbers.old.items → numbers.new.items
        ≡ filter (λ n. nat_lt n number) numbers.old.items ++ number
        ∷ filter (λ n. not (nat_lt n number)) numbers.old.items }
    ensures len { vec_len numbers.new ≡ vec_len numbers.old + 1 }
    ensures capacity { vec_capacity numbers.old ≤ vec_capacity numbers.new }
{
    let place = numbers.as_slice().partition_point(|other| *other < number);
    numbers.insert(place, number).unwrap();
}
