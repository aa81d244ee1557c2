//! What the desk reads.
ghost use Rattle.std.specs.Prelude.{◌≡◌, length, map, take, IfOk, IfSome, slice_get};
ghost use Rattle.std.specs.Option.{option_map};
ghost use Rattle.rtgs_book.specs.declared.book.Book.{Book};
ghost use Rattle.rtgs_book.specs.Balance.{balance, floor_at, total};
ghost use Rattle.rtgs_book.specs.Lookup.{codes_of};
ghost use Rattle.rtgs_book.specs.Lookup as lookup;
ghost use Rattle.rtgs_book.specs.Queue.{queue, queued_among};
ghost use Rattle.rtgs_book.specs.Soundness.{IsSound};
ghost use Rattle.rtgs_book.specs.cores.Cores.{IsCoreOf};
ghost use Rattle.rtgs_records.specs.accounts.Accounts.{participant_in};
ghost use Rattle.rtgs_ledger.specs.Alone.{book_of_participants};
ghost use Rattle.rtgs_ledger.specs.Keys.{code_under};

use super::Ledger;
use rtgs_book::{Account, Day, Order};
use rtgs_money::{BusinessDate, Code, KeyDigest, Units};
use rtgs_records::queues::laws::queues_are_of_the_waiting;
use std::alloc::AllocError;

impl Ledger {
    /// The participant with this code and its balance, if there is one.
    pub fn account(&self, code: &Code) -> Option<Account>
        ensures participant { (book : Book) → IsCoreOf book self.now.core
            → option_map participant_in result ≡ lookup.participant_of book code.now }
        ensures balance { (book : Book) → IsCoreOf book self.now.core
            → IfSome result (λ account. account.balance ≡ balance book code.now) }
    {
        self.records.accounts.get(code)
    }

    /// The code of the participant whose key has this digest, if there is one.
    pub fn code_of(&self, digest: &KeyDigest) -> Option<Code>
        ensures { (book : Book) → map participant_in self.now.core.accounts ≡ book.participants
            → result ≡ code_under book digest.now }
    {
        match self.records.accounts.bearer(digest) {
            Some(account) => Some(account.participant.code),
            None => None,
        }
    }

    /// All orders in memory: those that are queued or held, in rising number.
    pub fn waiting(&self) -> &[Order]
        ensures { result.now ≡ self.now.core.waiting }
    {
        self.records.orders.as_slice()
    }

    /// The queued orders of the sender, in their order. It answers lack of memory.
    pub fn queue(&self, sender: &Code) -> Result<Vec<Order>, AllocError>
        ensures orders { IfOk result (λ orders. orders.items ≡ queued_among self.now.core.waiting sender.now) }
        ensures answered { (book : Book) → IsCoreOf book self.now.core
            → IfOk result (λ orders. orders.items ≡ queue book sender.now) }
    {
        queues_are_of_the_waiting();
        self.beginning(sender, self.records.orders.queue(sender).len())
    }

    /// This many of the queued orders of the sender, the first of them; all, where there are no more.
    pub(super) fn beginning(&self, sender: &Code, most: usize) -> Result<Vec<Order>, AllocError>
        ensures { IfOk result (λ orders. orders.items ≡ take most (queued_among self.now.core.waiting sender.now)) }
    {
        // Names the type of due dates for the borrow checker, which finds it nowhere else in this function.
        let _no_date: Option<BusinessDate> = None;
        let numbers = self.records.orders.queue(sender);
        let count = most.min(numbers.len());
        let mut orders = Vec::with_capacity(self.alloc, count)?;
        for number in &numbers[..count] {
            orders.push_reserved(self.records.orders.numbered(*number).unwrap());
        }
        Ok(orders)
    }

    /// The code of the participant at this place, in the order of the codes; past the last there is none.
    pub fn code_at(&self, index: usize) -> Option<Code>
        ensures { (book : Book) → IsCoreOf book self.now.core → result ≡ slice_get (codes_of book) index }
    {
        self.records.accounts.code_at(index)
    }

    /// How many participants there are.
    pub fn participants(&self) -> usize
        ensures { (book : Book) → IsCoreOf book self.now.core → result ≡ length book.participants }
    {
        self.records.accounts.len()
    }

    /// All balances together.
    pub fn total(&self) -> Units
        ensures { (book : Book) → IsCoreOf book self.now.core → result ≡ total book }
    {
        Units::new(self.records.accounts.total())
    }

    /// The least balance, in cents, that this account may have: minus its credit limit, and 0 while the desk is closed.
    pub fn floor(&self, account: &Account) -> i64
        ensures { result ≡ floor_at self.now.core.day.phase account.now.participant.credit }
    {
        self.records.floor(account)
    }

    /// The number that the next posting gets.
    pub fn next_posting(&self) -> u64
        ensures { result ≡ self.now.core.next_posting }
    {
        self.records.next_posting
    }

    /// The number that the next order gets.
    pub fn next_order(&self) -> u64
        ensures { result ≡ self.now.core.next_order }
    {
        self.records.orders.next()
    }

    /// The number that the next mark gets.
    pub fn next_mark(&self) -> u64
        ensures { result ≡ self.now.core.next_mark }
    {
        self.records.next_mark
    }

    /// Whatever was looked up and adopted, the participants are those of a sound book.
    pub fn holds_participants_of_a_sound_book(&self)
        ensures { IsSound (book_of_participants (map participant_in self.now.core.accounts)) }
    {
        // Called for its contract alone: the accounts are those of participants that a sound book may have.
        let _accounts = self.records.accounts.as_slice();
    }

    /// The business day: its phase, and its date once one was opened.
    pub fn day(&self) -> Day
        ensures { result ≡ self.now.core.day }
    {
        self.records.day
    }
}
