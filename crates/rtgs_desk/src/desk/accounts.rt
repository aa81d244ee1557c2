//! What the desk answers of accounts.
ghost use Rattle.std.specs.Prelude.{◌≡◌, ◌≢◌, true, false, Err, IfOk, IfErr, slice_get};
ghost use Rattle.std.specs.Option.{option_map};
ghost use Rattle.rtgs_book.specs.declared.book.Book.{Book};
ghost use Rattle.rtgs_book.specs.Balance.{balance};
ghost use Rattle.rtgs_book.specs.cores.Cores.{account_of};
ghost use Rattle.rtgs_desk.specs.Holding.{HasInMemory, Holds};
ghost use Rattle.rtgs_desk.specs.Readings.{Tells, accounts_answer, reading_of};

use super::Desk;
use crate::value::value_of;
use rtgs_book::{Account, AccountReading, MOST_PARTICIPANTS, Refusal};
use rtgs_keeper::Keeper;
use std::alloc::AllocError;

impl<K: Keeper> Desk<K> {
    /// Each participant, its balance and its queue in short, in the order of the codes. It is `Failed` where the store
    /// has failed, and the only other refusal is lack of memory.
    pub fn accounts(&self) -> Result<Vec<AccountReading>, Refusal>
        ensures answered { (book : Book) → Holds K.Keeper self.now book
            → Tells (λ readings. readings.items) (accounts_answer book) result }
        // So it is of the book in memory, where none is known to be held.
        ensures remembered { (book : Book) → HasInMemory self.now book → K.has_failed self.now.keeper ≡ false
            → Tells (λ readings. readings.items) (accounts_answer book) result }
        // Whatever is in memory, a desk whose store has not failed gives no other refusal than this.
        ensures kinds { K.has_failed self.now.keeper ≡ false
            → IfErr result (λ refusal. refusal ≡ Refusal.OutOfMemory) }
        ensures failed { K.has_failed self.now.keeper ≡ true → result ≡ Err Refusal.Failed }
        ensures only_failed { result ≡ Err Refusal.Failed → K.has_failed self.now.keeper ≡ true }
        ensures no_fault { result ≢ Err Refusal.StoreFault }
    {
        if self.failed {
            return Err(Refusal::Failed);
        }
        let mut readings = Vec::new(self.alloc);
        for index in 0..MOST_PARTICIPANTS {
            let Some(account) = self.account_at(index) else {
                return Ok(readings);
            };
            readings.push(self.reading_of(&account)?)?;
        }
        Ok(readings)
    }

    // The account at this place, from 0 on, in the order of the codes; past the last there is none.
    fn account_at(&self, index: usize) -> Option<Account>
        ensures { (book : Book) → HasInMemory self.now book
            → result ≡ option_map (account_of book) (slice_get book.participants index) }
    {
        let code = self.ledger.code_at(index)?;
        self.ledger.account(&code)
    }

    /// What is answered of an account: it and its queue in short. The only error is lack of memory.
    pub(super) fn reading_of(&self, account: &Account) -> Result<AccountReading, AllocError>
        ensures { (book : Book) → HasInMemory self.now book
            → account.now.balance ≡ balance book account.now.participant.code → IfOk result (λ reading.
            reading ≡ reading_of book account.now.participant.code account.now.participant) }
    {
        let queue = self.ledger.queue(&account.participant.code)?;
        Ok(AccountReading {
            participant: account.participant,
            balance: account.balance,
            day: self.ledger.day(),
            queued: queue.len(),
            queued_value: value_of(queue.as_slice()),
        })
    }
}
