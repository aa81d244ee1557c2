//! Orders that are queued or held, by their numbers and under their senders.
ghost use Rattle.std.specs.Prelude.{◌≡◌, ◌≤◌, ◌<◌, ◌+◌, ◌-◌, ◌++◌, ◌∷◌, [], ℕ, List, length, filter, not, true};
ghost use Rattle.std.specs.Prelude.{false};
ghost use Rattle.std.specs.Prelude.{map, slice_index_or, Some, None, OnOk, IfOk, IfErr, if◌then◌else◌};
ghost use Rattle.std.specs.List.{find, AllByRecursion};
ghost use Rattle.rtgs_book.specs.declared.order.Order.{Order};
ghost use Rattle.rtgs_book.specs.declared.limits.TheConstants.{LARGEST_NUMBER};
ghost use Rattle.rtgs_book.specs.Books.{is_waiting, is_queued_state, is_held_state, is_waiting_state};
ghost use Rattle.rtgs_book.specs.Commands.{entered, has_number, is_held_with};
ghost use Rattle.rtgs_book.specs.Settle.{altered};
ghost use Rattle.rtgs_book.specs.Queue.{queued_among, queued_numbers};
ghost use Rattle.rtgs_records.specs.queues.Orders.{AreRising, AreWaiting, AwaitsOrder, HasNumberAt, numbers_among};
ghost use Rattle.rtgs_records.specs.queues.QueueNumbers.{numbers_of, room_of};

use crate::queues::queues::QueueNumbers;
use rtgs_book::{Order, OrderState, Rows};
use rtgs_money::{BusinessDate, Code};
use std::alloc::{AllocError, Global};
use std::marker::Model;

/// The orders that are queued or held in rising number, the queue of each sender, and its held orders. Contracts see
/// the orders that wait so, whether no other is in memory, the number of the next order, how many more there is room
/// for, the sender of whom there is room for one more, and whether that one may be held.
#[derive(Debug, Drop)]
pub struct Orders {
    // Those that wait no more are among them until they are swept out.
    orders: Vec<Order>,
    queues: QueueNumbers,
    // Each queue has room for its sender's held orders.
    held: QueueNumbers,
    next: u64,
    awaited: Option<Code>,
    // Whether the awaited order has room among the held ones.
    holds: bool,
    // Whether all of them still wait.
    tidy: bool,
}

impl Model for Orders {
    ghost use Rattle.rtgs_records.specs.queues.Orders.{OrderList, IsKept};
    ghost use Rattle.std.specs.Prelude.{◌-◌, vec_len, filter};
    ghost use Rattle.std.specs.Vec.{vec_capacity};
    ghost use Rattle.rtgs_book.specs.Books.{is_waiting};

    ghost Value = { OrderList };

    ghost view = { λ o. record {
      orders = filter is_waiting o.orders.items;
      tidy = o.tidy;
      next = o.next;
      room = vec_capacity o.orders - vec_len o.orders;
      awaited = o.awaited;
      holds = o.holds;
    } };

    ghost invariant = { λ o. IsKept o.orders.items o.queues o.held o.next o.awaited o.holds o.tidy };
}

impl Orders {
    /// These orders, which all wait. The next order gets this number.
    pub fn load(alloc: Global, orders: Rows<Order>, next: u64) -> Result<Orders, AllocError>
        requires rising { AreRising orders }
        requires before { AllByRecursion (λ (o : Order). o.number < next) orders }
        requires waiting { AreWaiting orders }
        ensures orders { IfOk result (λ loaded. loaded.orders ≡ orders) }
        ensures tidy { IfOk result (λ loaded. loaded.tidy ≡ true) }
        ensures next { IfOk result (λ loaded. loaded.next ≡ next) }
    {
        let orders = orders.into_vec();
        let (queues, held) = places_of(alloc, orders.as_slice())?;
        Ok(Orders {
            orders,
            queues,
            held,
            next,
            awaited: None,
            holds: false,
            tidy: true,
        })
    }

    /// The same orders once more, with no room for others.
    pub fn copy(&self, alloc: Global) -> Result<Orders, AllocError>
        requires { self.now.tidy ≡ true }
        ensures orders { IfOk result (λ copy. copy.orders ≡ self.now.orders) }
        ensures tidy { IfOk result (λ copy. copy.tidy ≡ true) }
        ensures next { IfOk result (λ copy. copy.next ≡ self.now.next) }
    {
        let orders = Vec::from_slice(alloc, self.orders.as_slice())?;
        let (queued, held) = places_of(alloc, orders.as_slice())?;
        Ok(Orders {
            orders,
            queues: queued,
            held,
            next: self.next,
            awaited: None,
            holds: false,
            tidy: true,
        })
    }

    /// The number of the next order.
    pub fn next(&self) -> u64
        ensures { result ≡ self.now.next }
    {
        self.next
    }

    /// Each order in memory, while they are tidy.
    pub fn as_slice(&self) -> &[Order]
        requires { self.now.tidy ≡ true }
        ensures { result.now ≡ self.now.orders }
    {
        self.orders.as_slice()
    }

    /// The order with this number, if it waits.
    pub fn numbered(&self, number: u64) -> Option<Order>
        ensures { result ≡ find (has_number number) self.now.orders }
    {
        let Ok(at) = search(self.orders.as_slice(), number) else {
            return None;
        };
        let order = self.orders[at];
        if order.state.is_waiting() {
            Some(order)
        } else {
            None
        }
    }

    /// Whatever was done with them, their numbers rise.
    pub fn have_rising_numbers(&self)
        ensures { AreRising self.now.orders }
    {
        // Read for what is known of the orders alone.
        let _orders = self.orders.as_slice();
    }

    /// The numbers of the sender's queued orders, rising.
    pub fn queue(&self, sender: &Code) -> &[u64]
        ensures numbers { result.now ≡ queued_numbers self.now.orders sender.now }
        ensures found { (k : ℕ) (d : Order) → k < length result.now
            → find (has_number (slice_index_or result.now k 0)) self.now.orders
            ≡ Some (slice_index_or (queued_among self.now.orders sender.now) k d) }
    {
        self.queues.get(sender)
    }

    /// How many of the sender's orders wait.
    pub fn count(&self, sender: &Code) -> usize
        ensures { result ≡ length (numbers_among is_queued_state self.now.orders sender.now)
            + length (numbers_among is_held_state self.now.orders sender.now) }
    {
        let (queued, held) = (self.queues.get(sender), self.held.get(sender));
        queued.len() + held.len()
    }

    /// Makes room for one order more of this sender, in this state: in its queue, beside its held orders, and among
    /// those only if the order is held.
    pub fn reserve(&mut self, sender: Code, state: OrderState) -> Result<(), AllocError>
        ensures orders { self.new.orders ≡ self.old.orders }
        ensures tidy { self.new.tidy ≡ self.old.tidy }
        ensures next { self.new.next ≡ self.old.next }
        ensures room { OnOk result (1 ≤ self.new.room) }
        ensures awaited { OnOk result (self.new.awaited ≡ Some sender) }
        ensures holds { OnOk result (self.new.holds ≡ is_held_state state) }
    {
        self.awaited = None;
        self.orders.reserve(1)?;
        let held = self.held.get(&sender).len();
        if state.is_held() {
            self.held.reserve(sender, 1)?;
        }
        self.queues.reserve(sender, held + 1)?;
        self.awaited = Some(sender);
        self.holds = state.is_held();
        Ok(())
    }

    /// Counts the next order, and keeps it in the room that was made for it, if it waits.
    #[tactic(auto, using(crate::proofs::queues::OrderLemmas::which_states_wait))]
    pub fn add(&mut self, order: Order)
        requires number { order.number ≡ self.old.next }
        requires few { self.old.next ≤ LARGEST_NUMBER }
        requires awaited { AwaitsOrder self.old order }
        ensures orders { self.new.orders
            ≡ (if is_waiting order then self.old.orders ++ order ∷ [] else self.old.orders) }
        ensures tidy { self.new.tidy ≡ self.old.tidy }
        ensures next { self.new.next ≡ self.old.next + 1 }
        ensures room { self.new.room ≡ (if is_waiting order then self.old.room - 1 else self.old.room) }
        ensures awaited { self.new.awaited ≡ (if is_waiting order then None else self.old.awaited) }
        ensures holds { self.new.holds ≡ self.old.holds }
    {
        self.next += 1;
        if order.state.is_held() {
            self.awaited = None;
            self.held.push(&order.sender, order.number);
            self.orders.push_reserved(order);
        } else if order.state.is_queued() {
            self.awaited = None;
            self.queues.push(&order.sender, order.number);
            self.orders.push_reserved(order);
        }
    }

    /// The order with this number waits no more: it leaves its sender's queue, or its held ones. It takes no memory.
    /// Orders that are tidy afterwards were so before, and none left.
    pub fn set_state(&mut self, number: u64, state: OrderState)
        requires { is_waiting_state state ≡ false }
        ensures orders { self.new.orders ≡ filter (λ o. not (has_number number o)) self.old.orders }
        ensures tidy { self.new.tidy ≡ true → self.old.tidy ≡ true }
        ensures none { self.new.tidy ≡ true → self.new.orders ≡ self.old.orders }
        ensures next { self.new.next ≡ self.old.next }
        ensures room { self.new.room ≡ self.old.room }
        ensures awaited { self.new.awaited ≡ self.old.awaited }
        ensures holds { self.new.holds ≡ self.old.holds }
    {
        let Ok(at) = search(self.orders.as_slice(), number) else {
            return;
        };
        let order = self.orders[at];
        self.orders[at] = Order { state, ..order };
        self.queues.remove(&order.sender, number);
        self.held.remove(&order.sender, number);
        self.tidy = false;
    }

    /// The order with this number enters its sender's queue on this date, at its place by number, if it is held. It
    /// takes no memory.
    pub fn enter(&mut self, number: u64, date: BusinessDate)
        ensures orders { self.new.orders ≡ map (altered (is_held_with number) (entered date)) self.old.orders }
        ensures tidy { self.new.tidy ≡ self.old.tidy }
        ensures next { self.new.next ≡ self.old.next }
        ensures room { self.new.room ≡ self.old.room }
        ensures awaited { self.new.awaited ≡ self.old.awaited }
        ensures holds { self.new.holds ≡ self.old.holds }
    {
        let Ok(at) = search(self.orders.as_slice(), number) else {
            return;
        };
        let order = self.orders[at];
        if order.state.is_held() {
            self.orders[at] = Order {
                state: OrderState::Queued,
                date,
                ..order
            };
            self.held.remove(&order.sender, number);
            self.queues.insert(&order.sender, number);
        }
    }

    /// Sweeps out the orders that wait no more. Each order in memory waits then.
    pub fn sweep(&mut self)
        ensures orders { self.new.orders ≡ self.old.orders }
        ensures tidy { self.new.tidy ≡ true }
        ensures next { self.new.next ≡ self.old.next }
    {
        if !self.tidy {
            keep_waiting(&mut self.orders);
            self.tidy = true;
        }
    }
}

// Where the order with this number is, or where it would go.
fn search(orders: &[Order], number: u64) -> Result<usize, usize>
    requires { AreRising orders.now }
    ensures found { IfOk result (HasNumberAt number orders.now) }
    ensures absent { IfErr result (λ _. AllByRecursion (λ (o : Order). has_number number o ≡ false) orders.now) }
{
    orders.binary_search_by_key(&number, |order| order.number)
}

// Takes out the orders that wait no more.
fn keep_waiting(orders: &mut Vec<Order>)
    ensures { orders.new.items ≡ filter is_waiting orders.old.items }
{
    orders.retain(|order| order.state.is_waiting());
}

// The queue of each sender, with room for its held orders, and these.
fn places_of(alloc: Global, orders: &[Order]) -> Result<(QueueNumbers, QueueNumbers), AllocError>
    ensures queued { IfOk result (λ (queues, held). (sender : List ℕ) → numbers_of queues sender
        ≡ numbers_among is_queued_state orders.now sender) }
    ensures held { IfOk result (λ (queues, held). (sender : List ℕ) → numbers_of held sender
        ≡ numbers_among is_held_state orders.now sender) }
    ensures roomy { IfOk result (λ (queues, held). (sender : List ℕ) → length (numbers_of held sender)
        ≤ room_of queues sender) }
{
    let mut queues = QueueNumbers::new(alloc);
    let mut held = QueueNumbers::new(alloc);
    for order in orders {
        let more = held.get(&order.sender).len() + 1;
        queues.reserve(order.sender, more)?;
        match order.state {
            OrderState::Queued => queues.push(&order.sender, order.number),
            OrderState::Held => {
                held.reserve(order.sender, 1)?;
                held.push(&order.sender, order.number);
            }
            _ => {}
        }
    }
    Ok((queues, held))
}
